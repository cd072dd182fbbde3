//! The draws.

ghost use Rattle.std.specs.Prelude.{◌≡◌};
ghost use Rattle.bank_maker.specs.Draws.{next_state, upper_bits};

/// A linear congruential generator of 64 bits, with Knuth's constants for MMIX (The Art of Computer
/// Programming, volume 2, section 3.3.4).
#[derive(Debug, Drop)]
pub struct Draws {
    pub state: u64,
}

impl Draws {
    /// The generator whose first state is this number.
    pub fn new(number: u32) -> Draws
        ensures { result.state ≡ number }
    {
        Draws {
            state: u64::from(number),
        }
    }

    /// Goes to the next state, and gives its upper 31 bits.
    #[tactic(auto, using(crate::proofs::DrawLaws::next_from))]
    pub fn draw(&mut self) -> u32
        ensures state { self.new.state ≡ next_state self.old.state }
        ensures value { result ≡ upper_bits (next_state self.old.state) }
    {
        let product = self.state.wrapping_mul(6_364_136_223_846_793_005);
        self.state = product.wrapping_add(1_442_695_040_888_963_407);
        (self.state >> 33) as u32
    }
}
