// How many words a chunk has, and how many units hold n words.
#![tactic(auto)]

ghost use Rattle.std.specs.Prelude.{◌≡◌};
ghost use Rattle.chunk_sizes.specs.Sizes.{units};

/// The words of a unit, by which chunks are counted. A chunk has one unit, except that of a large object.
pub const CHUNK_WORDS: u64 = 1024;

/// How many units hold `words` words.
pub fn units(words: u64) -> u64
    ensures { result ≡ units words }
{
    words.div_ceil(CHUNK_WORDS)
}
