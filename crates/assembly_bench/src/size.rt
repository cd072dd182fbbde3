//! The sizes of a made problem.

ghost use Rattle.std.specs.Prelude.{◌≤◌, ◌<◌, ◌+◌, ◌*◌};

/// The sizes of a made problem. The length of a test follows from the number of items.
#[derive(Clone, Copy)]
pub struct Size {
    /// Items of the bank, 60 to 512.
    pub items: u16,
    /// Rows of the plan, at most 128.
    pub rows: u8,
    /// The greatest stimulus of the bank, at most 64.
    pub stimuli: u8,
    ghost enough: { 60 ≤ items },
    ghost few_items: { items ≤ 512 },
    ghost few_rows: { rows ≤ 128 },
    ghost few_stimuli: { stimuli ≤ 64 },
}

impl Size {
    /// The sizes; none where one is out of its range.
    pub fn of(items: u16, rows: u16, stimuli: u16) -> Option<Size> {
        if items < 60 || items > 512 || rows > 128 || stimuli > 64 {
            return None;
        }
        Some(Size {
            items,
            rows: rows as u8,
            stimuli: stimuli as u8,
        })
    }

    /// Items of a test.
    pub fn length(&self) -> u16
        ensures some { 16 ≤ result }
        ensures few { result ≤ 36 }
        ensures items { 3 * result ≤ self.now.items }
    {
        16 + self.items / 25
    }

    /// How far apart the items of the best form are.
    pub fn stride(&self) -> u16
        ensures far { 3 ≤ result }
        ensures near { result ≤ 32 }
    {
        self.items / self.length()
    }

    /// Whether an item is one of the best form.
    pub fn is_best(&self, item: u16) -> bool {
        item % self.stride() == 0 && item / self.stride() < self.length()
    }

    /// The stimulus of an item, 0 for none: an item in three has none, and the others have one
    /// after the other in turn.
    pub fn stimulus(&self, item: u16) -> u8
        ensures { result ≤ self.now.stimuli }
    {
        if self.stimuli == 0 || item % 3 == 2 {
            return 0;
        }
        (1 + (2 * (item / 3) + item % 3) % self.stimuli as u16) as u8
    }
}
