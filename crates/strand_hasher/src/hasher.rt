// A hasher of strands by their task and their number.

ghost use Rattle.std.specs.Prelude.{◌≡◌};
ghost use Rattle.strand_hasher.specs.Hashing.{word_of};

use std::hash::Hasher;

/// A hasher of pairs of 32-bit numbers: pairs whose numbers differ in the last two bits alone come into one group of a
/// table, since a log mostly goes on with the next strand or the next task. Anything else is hashed by its lengths.
#[derive(Clone, Copy)]
pub struct StrandHasher {
    /// Which group it is.
    block: u64,
    /// The place among the pairs of a group.
    place: u64,
}

impl Default for StrandHasher {
    ghost use Rattle.std.specs.Prelude.{◌≡◌};
    ghost use Rattle.strand_hasher.specs.Hashing.{initial};

    ghost is_default = { λ s. s ≡ initial };

    fn default() -> StrandHasher {
        StrandHasher {
            block: 0x243f_6a88_85a3_08d3,
            place: 0,
        }
    }
}

// Four bytes as a number, the lowest first; of other bytes their number.
fn word_of(bytes: &[u8]) -> u64
    ensures { result ≡ word_of bytes.now }
{
    if bytes.len() == 4 {
        u32::from_le_bytes([bytes[0], bytes[1], bytes[2], bytes[3]]) as u64
    } else {
        bytes.len() as u64
    }
}

impl Hasher for StrandHasher {
    ghost use Rattle.strand_hasher.specs.Hashing.{write, finish};

    ghost write = { write };

    ghost finish = { finish };

    #[inline(always)]
    fn finish(&self) -> u64 {
        let mixed = self.block ^ (self.block >> 29);
        let tag = ((mixed >> 40) ^ self.place) & 0xff;
        (mixed & 0xff_ffff) + tag * 0x100_0000
    }

    #[inline(always)]
    fn write(&mut self, bytes: &[u8]) {
        let word = word_of(bytes);
        self.block = (self.block ^ (word >> 2)).wrapping_mul(0x9e37_79b9_7f4a_7c15);
        self.place = (self.place & 63) * 4 + (word & 3);
    }
}
