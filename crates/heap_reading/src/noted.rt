// Remembered fields, for images.

ghost use Rattle.std.specs.Prelude.{◌≡◌, IfOk, map};
ghost use Rattle.heap_reading.specs.Image.{field_of};

use crate::seen::number_of;
use core_invariant::RefField;
use std::alloc::{AllocError, Global};

/// A reference field of the object at an address, which is given as a number. Fields are ordered by the object, then by
/// the field.
#[derive(Clone, Copy, PartialEq, Eq, PartialOrd, Ord)]
pub struct FieldAt {
    pub object: u64,
    pub field: u32,
}

/// The fields in the order in which they were noted.
pub fn fields_of(alloc: Global, sources: &[RefField]) -> Result<Vec<FieldAt>, AllocError>
    ensures { IfOk result (λ fields. fields.items ≡ map field_of sources.now) }
{
    let mut fields = Vec::new(alloc);
    for source in sources {
        fields.push(FieldAt {
            object: number_of(source.object),
            field: source.field,
        })?;
    }
    Ok(fields)
}
