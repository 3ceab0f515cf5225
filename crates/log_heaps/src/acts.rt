// What acts do to references.

ghost use Rattle.std.specs.Prelude.{◌≡◌};
ghost use Rattle.log_heaps.specs.Acts.{referred, stored, stored_into};

use log_strands::Act;

/// The block to which a reference is read or stored.
pub(crate) fn referred(act: Act) -> Option<u64>
    ensures { result ≡ referred act }
{
    match act {
        Act::Yield(reference) | Act::Store(reference) if reference.target != 0 => {
            Some(reference.target)
        }
        _ => None,
    }
}

/// The block to which a reference is stored.
pub(crate) fn stored(act: Act) -> Option<u64>
    ensures { result ≡ stored act }
{
    match act {
        Act::Store(reference) if reference.target != 0 => Some(reference.target),
        _ => None,
    }
}

/// The block into which a reference is stored.
pub(crate) fn stored_into(act: Act) -> Option<u64>
    ensures { result ≡ stored_into act }
{
    match act {
        Act::Store(reference) => Some(reference.block),
        _ => None,
    }
}
