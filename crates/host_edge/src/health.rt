//! What standard error has been told of the journal's disk.

ghost use Rattle.std.specs.Prelude.{◌≡◌, ◌≢◌, ◌↔◌, ◌⊎◌, false, IsTrue};
ghost use Rattle.host_edge.specs.declared.health.Health.TheVariants as health;

/// How the disk is, as far as it is told.
#[derive(Clone, Copy, Debug, PartialEq, Eq)]
pub enum Health {
    /// The last call that could tell was done.
    Works,
    /// A call failed, and nothing was written since.
    Fails,
    /// A call failed, and bytes were written since, which are not synced.
    Returns,
    /// The journal is lost. It stays so.
    Lost,
}

impl Health {
    /// After a call that failed: whether that is news. The file may be lost by it.
    pub fn failed(&mut self, is_lost: bool) -> bool
        ensures news { IsTrue result
            ↔ ((self.old ≡ health.Works) ⊎ (IsTrue is_lost × (self.old ≢ health.Lost))) }
        ensures lost { IsTrue is_lost → self.new ≡ health.Lost }
        ensures stays { self.old ≡ health.Lost → self.new ≡ health.Lost }
        ensures fails { self.old ≢ health.Lost → is_lost ≡ false → self.new ≡ health.Fails }
    {
        let before = *self;
        if before == Health::Lost {
            return false;
        }
        *self = if is_lost { Health::Lost } else { Health::Fails };
        is_lost || before == Health::Works
    }

    /// After bytes were written.
    pub fn wrote(&mut self)
        ensures fails { self.old ≡ health.Fails → self.new ≡ health.Returns }
        ensures stays { self.old ≢ health.Fails → self.new ≡ self.old }
    {
        if *self == Health::Fails {
            *self = Health::Returns;
        }
    }

    /// After a sync that was done: whether the disk works again.
    pub fn synced(&mut self) -> bool
        ensures news { IsTrue result ↔ (self.old ≡ health.Returns) }
        ensures works { self.old ≡ health.Returns → self.new ≡ health.Works }
        ensures stays { self.old ≢ health.Returns → self.new ≡ self.old }
    {
        let returns = *self == Health::Returns;
        if returns {
            *self = Health::Works;
        }
        returns
    }
}
