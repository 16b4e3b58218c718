//! What stands first in the octets of a connection.
ghost use Rattle.std.specs.Prelude.{◌≡◌, ◌+◌, ◌≤◌, length};
ghost use Rattle.h2_frames.specs.declared.preface.TheConstants.{PREFACE_OCTETS};
ghost use Rattle.h2_frames.specs.Front.{front_of, front_after_preface as front_there, EndsWithin};

use crate::preface::{agrees, preface_due};
use h2_layouts::header::HEADER_OCTETS;
use h2_layouts::{FrameContext, FrameHeader, FrameRule};

/// What stands first in octets.
#[derive(Clone, Copy, Debug, PartialEq, Eq)]
pub(crate) enum Front {
    /// A whole frame, whose header breaks no rule.
    Whole {
        /// Its header.
        header: FrameHeader,
        /// How many octets stand before its payload.
        from: usize,
    },
    /// A rule is broken.
    Broken(FrameRule),
    /// Less than a frame.
    Unfinished,
}

/// What stands first in octets: the preface, where it is due, as far as it stands, then a header
/// as soon as its nine octets stand.
pub(crate) fn front_of(context: FrameContext, octets: &[u8]) -> Front
    ensures exact { result ≡ front_of context octets.now }
    ensures within { EndsWithin result (length octets.now) }
{
    let due = preface_due(context);
    if !agrees(due, octets) {
        return Front::Broken(FrameRule::Preface);
    }
    if octets.len() < due.len() {
        return Front::Unfinished;
    }
    front_after_preface(context, due.len(), &octets[due.len()..])
}

/// The same after the preface, before which so many octets stand.
fn front_after_preface(context: FrameContext, before: usize, octets: &[u8]) -> Front
    requires { before ≤ PREFACE_OCTETS }
    ensures exact { result ≡ front_there context before octets.now }
    ensures within { EndsWithin result (before + length octets.now) }
{
    let [a, b, c, number, flags, s, t, u, v, following @ ..] = octets else {
        return Front::Unfinished;
    };
    let header = FrameHeader::of([*a, *b, *c, *number, *flags, *s, *t, *u, *v]);
    if let Some(rule) = context.broken_rule(header) {
        return Front::Broken(rule);
    }
    if following.len() < header.length as usize {
        return Front::Unfinished;
    }
    Front::Whole {
        header,
        from: before + HEADER_OCTETS,
    }
}
