// Comparison of references.

ghost use Rattle.std.specs.Prelude.{◌≡◌};
ghost use Rattle.object_layout.specs.References.{same_reference};

use crate::word::Addr;

/// Whether both references are nil, or the same address.
pub fn is_same_reference(left: Option<Addr>, right: Option<Addr>) -> bool
    ensures { result ≡ same_reference left right }
{
    match (left, right) {
        (None, None) => true,
        (Some(a), Some(b)) => a.chunk == b.chunk && a.offset == b.offset,
        _ => false,
    }
}
