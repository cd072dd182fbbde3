//! What a book has counted of its entries.

ghost use Rattle.std.specs.Prelude.{◌≡◌, ◌≤◌};
ghost use Rattle.history_model.specs.Summaries.{nodes_of};
ghost use Rattle.exam_session.specs.Totals.{HaveRoom, totals_with};

use history_model::Entry;

/// The items served, by their marks; the sessions for which eligibility was set aside; and the
/// nodes of the trees of both.
#[derive(Clone, Copy)]
pub(crate) struct Totals {
    pub(crate) proved: u64,
    pub(crate) unproved: u64,
    pub(crate) aside: u64,
    pub(crate) nodes: u64,
}

/// The totals with an entry more.
pub(crate) fn totals_with(totals: Totals, entry: &Entry) -> Totals
    requires { HaveRoom totals }
    ensures totals { result ≡ totals_with totals entry.now }
    ensures small { nodes_of entry.now ≤ 65535 }
{
    let mut after = totals;
    match *entry {
        Entry::SetAside { nodes, .. } => {
            after.aside += 1;
            after.nodes += u64::from(nodes);
        }
        Entry::Served { proved, nodes, .. } => {
            if proved {
                after.proved += 1;
            } else {
                after.unproved += 1;
            }
            after.nodes += u64::from(nodes);
        }
        Entry::Started { .. } | Entry::Answered { .. } | Entry::Closed { .. } => {}
    }
    after
}
