//! A mark with what its office was opened with.

use crate::handed_in::HandedIn;
use crate::mark::Mark;
use bank_tables::{Bank, ItemSet};
use constraint_model::Spec;
use exam_edge::Disk;
use std::marker::Model;

/// A mark, and what its office was opened with. An office's history is a list of these, in
/// contracts alone: no value of this type is ever made.
#[derive(Drop)]
pub struct Noted<'a, D: Disk> {
    mark: Mark,
    bank: &'a Bank,
    spec: &'a Spec,
    base: ItemSet,
    opened: HandedIn<D>,
}

impl<'a, D: Disk> Model for Noted<'a, D> {
    ghost use Rattle.exam_office.specs.Noting.{NotedMark};
    ghost use Rattle.exam_office.specs.Running.{handed};

    ghost Value = { NotedMark };

    ghost view = { λ n. record {
      mark = n.mark;
      office = record {
        bank = n.bank.now;
        plan = n.spec.now;
        base = n.base;
        tells = D.tells n.opened.value;
        identity = D.identity n.opened.value;
        disk = handed D.content D.accounts D.faults n.opened.value;
      };
    } };
}
