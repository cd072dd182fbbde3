//! The items as they are drawn.

ghost use Rattle.std.specs.Prelude.{◌≡◌, ◌+◌, ◌-◌, ◌*◌, ◌%◌, length, IfOk, OnOk};
ghost use Rattle.bank_maker.specs.Draws.{state_after, next_state, upper_bits};
ghost use Rattle.bank_maker.specs.Items.{items, item_count, information, wrong_loss, right_loss, draws_of_items, stimulus_of};

use crate::draws::Draws;
use exam_edge::Memory;
use std::alloc::Global;

/// What is drawn of an item.
#[derive(Clone, Copy, Debug, PartialEq, Eq)]
pub struct DrawnItem {
    /// The grid point of its greatest information, 0 to 10.
    pub peak: u8,
    /// Its information at that point, 200 to 1,000.
    pub height: u16,
    /// Its quantity, 30 to 120.
    pub quantity: u8,
}

impl DrawnItem {
    /// The information at a grid point: it falls by 60 with each point away from the peak.
    pub fn information(&self, point: u8) -> u64
        ensures { result ≡ information self.now point }
    {
        u64::from(self.height).saturating_sub(60 * u64::from(point.abs_diff(self.peak)))
    }

    /// How far the log-likelihood of a wrong response is below 0 at a grid point.
    pub fn wrong_loss(&self, point: u8) -> u64
        ensures { result ≡ wrong_loss self.now point }
    {
        50 + 40 * u64::from(point.saturating_sub(self.peak))
    }

    /// How far the log-likelihood of a right response is below 0 at a grid point.
    pub fn right_loss(&self, point: u8) -> u64
        ensures { result ≡ right_loss self.now point }
    {
        50 + 40 * u64::from(self.peak.saturating_sub(point))
    }
}

/// The stimulus of an item, 0 for none.
pub fn stimulus_of(item: u64) -> u64
    ensures { result ≡ stimulus_of item }
{
    if item < 30 { 1 + item / 5 } else { 0 }
}

/// Draws an item.
fn draw_item(draws: &mut Draws) -> DrawnItem
    ensures state { draws.new.state ≡ next_state (next_state (next_state draws.old.state)) }
    ensures peak { result.peak ≡ upper_bits (next_state draws.old.state) % 11 }
    ensures height { result.height
        ≡ 200 + upper_bits (next_state (next_state draws.old.state)) % 801 }
    ensures quantity { result.quantity
        ≡ 30 + upper_bits (next_state (next_state (next_state draws.old.state))) % 91 }
{
    let peak = (draws.draw() % 11) as u8;
    let height = 200 + (draws.draw() % 801) as u16;
    let quantity = 30 + (draws.draw() % 91) as u8;
    DrawnItem {
        peak,
        height,
        quantity,
    }
}

/// Draws the items, in order.
pub fn draw_items(alloc: Global, draws: &mut Draws) -> Result<Vec<DrawnItem>, Memory>
    ensures items { IfOk result (λ v. v.items ≡ items draws.old.state) }
    ensures count { IfOk result (λ v. length v.items ≡ item_count) }
    ensures state { OnOk result (draws.new.state ≡ state_after draws.old.state draws_of_items) }
{
    let mut items = Vec::new(alloc);
    for _ in 0..120_u32 {
        items.push(draw_item(draws))?;
    }
    Ok(items)
}
