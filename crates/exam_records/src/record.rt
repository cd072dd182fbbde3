//! A record.

use history_model::Entry;
use proof_tree::Tree;
use std::marker::Model;

/// An entry and its proof tree. There is a tree exactly where the entry is SetAside or Served, and
/// the entry's `nodes` is the number of the tree's nodes.
#[derive(Debug, Drop)]
pub struct Record {
    pub entry: Entry,
    pub tree: Option<Tree>,
}

impl Model for Record {
    ghost use Rattle.history_model.specs.Judging;

    ghost Value = { Judging.Record };

    ghost view = { λ r. record { entry = r.entry; tree = r.tree } };
}
