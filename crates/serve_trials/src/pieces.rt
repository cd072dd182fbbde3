//! A link in small pieces.
ghost use Rattle.std.specs.Prelude.{◌<◌};

use exam_edge::{Failed, Link};
use rand_core::utils::NextWord;
use rand_pcg::Pcg32;

/// A link whose pieces have from 1 to `1 + spread` bytes; their lengths are drawn.
#[derive(Drop)]
pub(crate) struct Pieces<K> {
    pub(crate) link: K,
    pub(crate) spread: u16,
    pub(crate) draws: Pcg32,
}

// The most bytes that the next piece has.
fn next_length(draws: &mut Pcg32, spread: u16) -> usize
    ensures { 0 < result }
{
    (draws.next_word() % (u32::from(spread) + 1)) as usize + 1
}

impl<K: Link> Link for Pieces<K> {
    ghost tells = { λ s. K.tells s.link };

    ghost left = { λ s. K.left s.link };

    ghost written = { λ s. K.written s.link };

    ghost allows = { λ s. K.allows s.link };

    ghost faults = { λ s. K.faults s.link };

    ghost identity = { λ s. K.identity s.link };

    fn read(&mut self, buffer: &mut [u8]) -> Result<usize, Failed> {
        let most = next_length(&mut self.draws, self.spread);
        let count = buffer.len().min(most);
        self.link.read(&mut buffer[..count])
    }

    fn write(&mut self, piece: &[u8]) -> Result<usize, Failed> {
        let most = next_length(&mut self.draws, self.spread);
        let count = piece.len().min(most);
        self.link.write(&piece[..count])
    }
}
