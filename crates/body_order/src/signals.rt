//! Channels of a body that are taken with another signalling than they have.
ghost use Rattle.std.specs.Prelude.{◌≡◌, ◌∷◌, [], false, Some, filter, flat_map, map, option_to_list, slice_get};
ghost use Rattle.check_rules.specs.References.{binding_source, operation_sources};
ghost use Rattle.check_rules.specs.Signalling.{is_drive};
ghost use Rattle.body_order.specs.Makers.{referred};
ghost use Rattle.body_order.specs.Signals.{first_of, or_else, fifo_at, fifo_of, has_fifo, takes_fifo_in, wrong_source, wrong_sources, numbered, wrong_signals};

use crate::elements::Elements;
use check_rules::keys::reference_mark;
use check_rules::operation_sources;
use design_tree::{Binding, Operation, Reference, Statement};

impl<'a> Elements<'a> {
    /// The place of the first reference that takes a channel of FIFO signalling where valid-ready is taken,
    /// or the other way round: over the elements in this order, then over the drives among the statements
    /// of the body. It takes no memory.
    #[tactic(auto, using(crate::proofs::SignalLaws::first_wrong))]
    pub fn first_wrong_signal(&self, order: &[usize], statements: &[&'a Statement]) -> Option<usize>
        ensures { result ≡ first_of (wrong_signals self.now order.now (referred statements.now)) }
    {
        let first = self.wrong_in_order(order);
        self.wrong_in_drives(first, statements)
    }

    #[tactic(auto, using(crate::proofs::SignalLaws::first_more, crate::proofs::SignalLaws::first_alone))]
    fn wrong_in_order(&self, order: &[usize]) -> Option<usize>
        ensures { result ≡ first_of (flat_map (wrong_sources self.now) (numbered self.now order.now)) }
    {
        let mut first = None;
        for number in order {
            first = self.wrong_at(first, *number);
        }
        first
    }

    #[tactic(auto, using(crate::proofs::SignalLaws::first_more, crate::proofs::SignalLaws::first_alone))]
    fn wrong_at(&self, first: Option<usize>, number: usize) -> Option<usize>
        ensures { result ≡ or_else first (first_of (flat_map (wrong_sources self.now) (option_to_list (slice_get self.now number)))) }
    {
        match self.statements().get(number) {
            None => first,
            Some(statement) => self.wrong_in_statement(first, statement),
        }
    }

    #[tactic(auto, using(crate::proofs::SignalLaws::first_more, crate::proofs::SignalLaws::first_alone))]
    fn wrong_in_drives(&self, first: Option<usize>, statements: &[&'a Statement]) -> Option<usize>
        ensures { result ≡ or_else first (first_of (flat_map (wrong_sources self.now) (filter is_drive (referred statements.now)))) }
    {
        let mut place = first;
        for statement in statements {
            place = self.wrong_if_drive(place, statement);
        }
        place
    }

    #[tactic(auto, using(crate::proofs::SignalLaws::first_more, crate::proofs::SignalLaws::first_alone))]
    fn wrong_if_drive(&self, first: Option<usize>, statement: &'a Statement) -> Option<usize>
        ensures { result ≡ or_else first (first_of (flat_map (wrong_sources self.now) (filter is_drive (statement.now ∷ [])))) }
    {
        match statement {
            Statement::Request { .. } => first,
            Statement::Instance { .. } => first,
            Statement::Channels { .. } => first,
            Statement::Drive { .. } => self.wrong_in_statement(first, statement),
        }
    }

    fn wrong_in_statement(&self, first: Option<usize>, statement: &'a Statement) -> Option<usize>
        ensures { result ≡ or_else first (first_of (wrong_sources self.now statement.now)) }
    {
        match statement {
            Statement::Request { .. } => first,
            Statement::Instance { bindings, .. } => self.wrong_bound(first, bindings.as_slice()),
            Statement::Channels { operation, .. } => self.wrong_taken(first, operation),
            Statement::Drive { source, .. } => self.wrong_reference(first, false, source),
        }
    }

    #[tactic(auto, using(crate::proofs::SignalLaws::first_more, crate::proofs::SignalLaws::first_alone))]
    fn wrong_bound(&self, first: Option<usize>, bindings: &'a [Binding]) -> Option<usize>
        ensures { result ≡ or_else first (first_of (flat_map (wrong_source self.now false) (map binding_source bindings.now))) }
    {
        let mut place = first;
        for binding in bindings {
            place = self.wrong_reference(place, false, &binding.source);
        }
        place
    }

    #[tactic(auto, using(crate::proofs::SignalLaws::first_more, crate::proofs::SignalLaws::first_alone))]
    fn wrong_taken(&self, first: Option<usize>, operation: &'a Operation) -> Option<usize>
        ensures { result ≡ or_else first (first_of (flat_map (wrong_source self.now (takes_fifo_in operation.now)) (operation_sources operation.now))) }
    {
        let takes = is_as_vr(operation);
        let (left, right) = operation_sources(operation);
        let place = self.wrong_reference(first, takes, left);
        match right {
            None => place,
            Some(source) => self.wrong_reference(place, takes, source),
        }
    }

    fn wrong_reference(
        &self,
        first: Option<usize>,
        takes: bool,
        source: &'a Reference,
    ) -> Option<usize>
        ensures { result ≡ or_else first (first_of (wrong_source self.now takes source.now)) }
    {
        if first.is_some() || self.has_fifo(source) == takes {
            first
        } else {
            Some(reference_mark(source).at)
        }
    }

    /// Whether a reference is to a channel of FIFO signalling.
    #[tactic(auto, using(crate::proofs::SignalLaws::fifo_found))]
    pub fn has_fifo(&self, reference: &'a Reference) -> bool
        ensures { result ≡ has_fifo self.now reference.now }
    {
        match reference {
            Reference::Channel(_) => self.makes_fifo(self.maker(reference)),
            Reference::Member { .. } => false,
        }
    }

    fn makes_fifo(&self, maker: Option<usize>) -> bool
        ensures { result ≡ fifo_at self.now maker }
    {
        match maker {
            None => false,
            Some(number) => match self.statements().get(number) {
                None => false,
                Some(statement) => is_fifo_made(statement),
            },
        }
    }
}

/// Whether a statement makes channels of FIFO signalling.
fn is_fifo_made(statement: &Statement) -> bool
    ensures { result ≡ fifo_of (Some statement.now) }
{
    match statement {
        Statement::Request { .. } => false,
        Statement::Instance { .. } => false,
        Statement::Channels { operation, .. } => {
            matches!(operation, Operation::Fifo { .. } | Operation::AsFifo(_))
        }
        Statement::Drive { .. } => false,
    }
}

/// Whether an operation takes a channel of FIFO signalling.
fn is_as_vr(operation: &Operation) -> bool
    ensures { result ≡ takes_fifo_in operation.now }
{
    matches!(operation, Operation::AsVr(_))
}
