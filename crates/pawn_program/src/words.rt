//! Random words of 128 bits.
ghost use Rattle.pawn_program.specs.Word.{generator, word_of, after_word};
ghost use Rattle.rand_chacha.specs.ChaCha.{of_seed};
ghost use Rattle.std.specs.Prelude.{◌≡◌, ◌++◌, length};

use rand_chacha::ChaCha20Rng;
use rand_core::SeedableRng;
use rand_core::utils::NextWord;

/// A stream of random words of 128 bits. Each is made of four 32-bit words of a generator.
#[derive(Drop)]
pub struct Words {
    rng: ChaCha20Rng,
}

/// Returns the bytes of four words, joined in order.
fn join_words(a: [u8; 4], b: [u8; 4], c: [u8; 4], d: [u8; 4]) -> [u8; 16]
    requires a { length a ≡ 4 }
    requires b { length b ≡ 4 }
    requires c { length c ≡ 4 }
    requires d { length d ≡ 4 }
    ensures bytes { result ≡ a ++ b ++ c ++ d }
{
    [
        a[0], a[1], a[2], a[3], b[0], b[1], b[2], b[3], c[0], c[1], c[2], c[3], d[0], d[1], d[2],
        d[3],
    ]
}

impl Words {
    /// Makes words from a generator, beginning at its present position.
    pub fn new(rng: ChaCha20Rng) -> Self
        ensures generator { generator result ≡ rng }
    {
        Words { rng }
    }

    /// Makes the words of a seed, beginning at the start of its stream.
    pub fn of_seed(seed: [u8; 32]) -> Self
        ensures generator { generator result ≡ of_seed seed }
    {
        Words {
            rng: ChaCha20Rng::from_seed(seed),
        }
    }

    /// Returns the next word. Its 16 big-endian bytes are the little-endian bytes of the generator's next four words,
    /// in order.
    pub fn next(&mut self) -> u128
        ensures word { result ≡ word_of (generator self.old) }
        ensures rest { generator self.new ≡ after_word (generator self.old) }
    {
        let a = self.rng.next_word();
        let b = self.rng.next_word();
        let c = self.rng.next_word();
        let d = self.rng.next_word();
        u128::from_be_bytes(join_words(
            a.to_le_bytes(),
            b.to_le_bytes(),
            c.to_le_bytes(),
            d.to_le_bytes(),
        ))
    }
}
