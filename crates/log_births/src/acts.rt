// What acts do to blocks.

ghost use Rattle.std.specs.Prelude.{◌≡◌};
ghost use Rattle.log_births.specs.Blocks.{born, released, yielded, used};

use log_strands::Act;

/// The block that is born.
pub fn born(act: Act) -> Option<u64>
    ensures { result ≡ born act }
{
    match act {
        Act::Birth { block, .. } => Some(block),
        _ => None,
    }
}

/// The block that is released.
pub fn released(act: Act) -> Option<u64>
    ensures { result ≡ released act }
{
    match act {
        Act::Release(block) => Some(block),
        _ => None,
    }
}

/// The block to which a read yields a reference.
pub(crate) fn yielded(act: Act) -> Option<u64>
    ensures { result ≡ yielded act }
{
    match act {
        Act::Yield(reference) if reference.target != 0 => Some(reference.target),
        _ => None,
    }
}

/// The block that is accessed.
pub fn used(act: Act) -> Option<u64>
    ensures { result ≡ used act }
{
    match act {
        Act::Access(access) => Some(access.place.block),
        Act::Yield(reference) | Act::Store(reference) => Some(reference.block),
        _ => None,
    }
}
