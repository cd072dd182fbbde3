//! The level that subgradient steps aim at, and how long they are.

/// The state of the level method.
#[derive(Clone, Copy)]
pub(crate) struct Level {
    /// The value that the best bound is to reach.
    pub target: i64,
    /// The best bound.
    pub best: i64,
    /// How far below the best bound the steps aim.
    delta: i64,
    /// How far below the target they aim at most.
    reach: i64,
    /// How near the level comes at least, where the target is no known value.
    nearest: i64,
    /// Steps that gained nothing since one gained much.
    fails: u32,
}

/// Steps that gain nothing before the level is brought nearer.
const PATIENCE: u32 = 4;

impl Level {
    /// The level after the first bound: the greater the part of the gap, the nearer, and at most so
    /// far below the target.
    pub(crate) fn of(target: i64, first: i64, part: i64, reach: i64) -> Level {
        let gap = first.wrapping_sub(target);
        Level {
            target,
            best: first,
            delta: gap.checked_div(part).unwrap_or(gap).max(reach.max(256)),
            reach,
            nearest: 0,
            fails: 0,
        }
    }

    /// The level after the first bound where nothing is known of the value that it can reach.
    pub(crate) fn blind(first: i64) -> Level {
        let size = first.wrapping_abs();
        Level {
            target: i64::MIN / 4,
            best: first,
            delta: (size / 16).max(256),
            reach: 64,
            nearest: (size / 2048).max(64),
            fails: 0,
        }
    }

    /// Takes the bound of a step, and returns whether it is the best.
    pub(crate) fn takes(&mut self, bound: i64) -> bool {
        let fall = self.best.wrapping_sub(bound);
        if fall > self.delta / 8 {
            self.fails = 0;
        } else if fall <= 0 {
            self.fails = self.fails.wrapping_add(1);
            if self.fails >= PATIENCE {
                self.delta = self.delta / 2;
                self.fails = 0;
            }
        }
        if fall > 0 {
            self.best = bound;
        }
        fall > 0
    }

    /// Whether the best bound is low enough.
    pub(crate) fn is_reached(&self) -> bool {
        self.best <= self.target
    }

    /// Whether the steps are too short to be worth going on.
    pub(crate) fn is_stale(&self) -> bool {
        let gap = self.best.wrapping_sub(self.target);
        let least = if self.nearest > 0 {
            self.nearest
        } else {
            (gap / 16).max(16)
        };
        self.delta < least
    }

    /// How long a step is from a bound, against a direction of this sum of squares, times 2 to the
    /// 32nd.
    pub(crate) fn length(&self, bound: i64, squares: i64) -> i64 {
        let aimed = self
            .best
            .wrapping_sub(self.delta)
            .max(self.target.wrapping_sub(self.reach));
        let over = bound.wrapping_sub(aimed).clamp(0, 1 << 40);
        let scaled = (over as i128).wrapping_mul(1 << 32);
        match scaled.checked_div(squares as i128) {
            Some(length) => length.clamp(0, 1 << 38) as i64,
            None => 0,
        }
    }
}
