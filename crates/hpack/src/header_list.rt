//! The headers that a block has had so far.
ghost use Rattle.std.specs.Prelude.{◌≡◌, ◌≤◌, [], IfOk, OnOk};
ghost use Rattle.esi_base.specs.Answers.{AnswersAs};
ghost use Rattle.hpack.specs.RepresentationReading.{list_with, is_empty};
ghost use Rattle.hpack.specs.Tables.{size_of, list_size};

use crate::header::{Header, Headers};
use crate::limits::MAX_HEADER_LIST_SIZE;
use crate::stop::{BlockRule, HpackStop};
use esi_base::{List, NoMemory, Stop};
use std::alloc::Global;
use std::marker::Model;

/// For how many headers memory is had at once: few lists have more, and a list that grows is copied.
const FIRST_HEADERS: usize = 8;

/// Headers of a size of at most `MAX_HEADER_LIST_SIZE`.
#[derive(Debug, Drop)]
pub(crate) struct HeaderList {
    headers: Headers,
    room: usize,
}

impl Model for HeaderList {
    ghost use Rattle.std.specs.Prelude.{List, ◌≡◌, ◌+◌};
    ghost use Rattle.hpack.specs.declared.header.Header.{Header as Field};
    ghost use Rattle.hpack.specs.Tables.{list_size};
    ghost use Rattle.hpack.specs.declared.limits.TheConstants.{MAX_HEADER_LIST_SIZE};

    ghost Value = { List Field };

    ghost view = { λ l. l.headers };

    ghost invariant = { λ l. list_size l.headers + l.room ≡ MAX_HEADER_LIST_SIZE };
}

impl HeaderList {
    /// No headers. It takes memory for `FIRST_HEADERS` of them at once.
    pub(crate) fn new(alloc: Global) -> Result<HeaderList, NoMemory>
        ensures { IfOk result (λ list. list ≡ []) }
    {
        Ok(HeaderList {
            headers: List::from_vec(Vec::with_capacity(alloc, FIRST_HEADERS)?),
            room: MAX_HEADER_LIST_SIZE,
        })
    }

    /// Whether no header was added.
    pub(crate) fn is_empty(&self) -> bool
        ensures { result ≡ is_empty self.now }
    {
        self.headers.is_empty()
    }

    /// Adds a header at the end, where the size of the list stays small enough.
    pub(crate) fn push(&mut self, header: Header) -> Result<(), HpackStop>
        ensures answer { AnswersAs (λ _. self.new) (list_with self.old header) result }
        ensures small { OnOk result (size_of header ≤ MAX_HEADER_LIST_SIZE) }
    {
        if !header.fits(self.room) {
            return Err(Stop::Refused(BlockRule::ListTooLarge));
        }
        let size = header.size();
        self.headers.add(header)?;
        self.room -= size;
        Ok(())
    }

    /// The headers, in order.
    pub(crate) fn into_headers(self) -> Headers
        ensures headers { result ≡ self }
        ensures small { list_size result ≤ MAX_HEADER_LIST_SIZE }
    {
        self.headers
    }
}
