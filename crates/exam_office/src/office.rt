//! The office.

use crate::handed_in::HandedIn;
use crate::mark::Mark;
use crate::vectors::Vectors;
use answer_journal::Journal;
use bank_tables::{Bank, ItemSet};
use constraint_model::Spec;
use exam_edge::Disk;
use exam_session::Book;
use history_log::Counted;
use history_model::Entry;
use std::marker::Model;

/// A book over a journal: each entry of an examination is on the disk before it is acknowledged.
pub struct Office<'a, D: Disk> {
    pub(crate) bank: &'a Bank,
    pub(crate) spec: &'a Spec,
    /// A form of the plan alone.
    pub(crate) base: ItemSet,
    pub(crate) book: Book<'a>,
    pub(crate) journal: Journal<D>,
    /// The marks, for contracts alone.
    pub(crate) marks: Counted<Mark>,
    /// The entry in doubt.
    pub(crate) doubt: Option<Entry>,
    /// The vectors that the searches for the sessions' next forms begin with.
    pub(crate) vectors: Vectors,
    /// The disk as it was handed in, for contracts alone.
    pub(crate) opened: HandedIn<D>,
}

impl<'a, D: Disk> Model for Office<'a, D> {
    ghost use Rattle.exam_office.specs.Running.{Running, handed};
    ghost use Rattle.exam_office.specs.Keeping.{IsKept};
    ghost use Rattle.exam_office.specs.KeptVectors.{AreKeptVectors};
    ghost use Rattle.exam_office.specs.Allowing.{AllowsHistories};
    ghost use Rattle.exam_office.specs.Marks.{history};

    ghost Value = { Running D };

    ghost view = { λ o. record {
      bank = o.bank.now;
      plan = o.spec.now;
      base = o.base;
      marks = o.marks;
      doubt = o.doubt;
      journal = o.journal;
      opened = handed D.content D.accounts D.faults o.opened.value;
    } };

    ghost invariant = { λ o. IsKept o.bank.now o.spec.now o.base o.book o.journal o.marks o.doubt
        (handed D.content D.accounts D.faults o.opened.value)
        × AreKeptVectors o.bank.now o.spec.now (history o.marks) o.journal o.doubt
        o.vectors.each.items o.vectors.doubt
        × AllowsHistories o.bank.now o.spec.now D.may_become };
}
