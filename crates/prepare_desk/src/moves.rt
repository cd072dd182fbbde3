//! The turns on a shared desk.

ghost use Rattle.prepare_desk.specs.Turns.{IsReadyThere, Keeps, TakesOut, ready_later};

use crate::desk::{Desk, Ready};
use crate::key::Key;
use branch_bound::Assembled;
use exam_edge::Memory;
use turn_lock::Move as TurnMove;

/// Takes out what is ready for an answer.
#[derive(Drop)]
pub(crate) struct TakeOut {
    pub(crate) key: Key,
}

impl<'a> TurnMove<Desk<'a>> for TakeOut {
    type Answer = Option<Assembled<'a>>;

    ghost needs = { λ _ _. Unit {0} };

    ghost makes = { λ _ before after _ made. TakesOut before after made };

    fn make(&mut self, value: &mut Desk<'a>) -> Option<Assembled<'a>> {
        value.take(self.key)
    }

    ghost lasts = { λ _ _ _ h. h };
}

/// Looks whether something is there for an answer.
#[derive(Drop)]
pub(crate) struct LookUp {
    pub(crate) key: Key,
}

impl<'a> TurnMove<Desk<'a>> for LookUp {
    type Answer = bool;

    ghost needs = { λ _ _. Unit {0} };

    ghost makes = { λ _ before after _ _. Keeps before after };

    fn make(&mut self, value: &mut Desk<'a>) -> bool {
        value.has(self.key)
    }

    ghost lasts = { λ _ _ _ h. h };
}

/// Puts what is ready for an answer. It is gone after one turn.
#[derive(Drop)]
pub(crate) struct PutUp<'a> {
    pub(crate) key: Key,
    pub(crate) ready: Option<Ready<'a>>,
}

impl<'a> TurnMove<Desk<'a>> for PutUp<'a> {
    type Answer = Result<(), Memory>;

    ghost needs = { λ m seen. IsReadyThere seen m.ready };

    ghost makes = { λ _ before after _ _. Keeps before after };

    fn make(&mut self, value: &mut Desk<'a>) -> Result<(), Memory> {
        match self.ready.take() {
            Some(ready) => value.put(self.key, ready),
            None => Ok(()),
        }
    }

    ghost lasts = { λ m seen rest h. ready_later m.ready seen rest h };
}
