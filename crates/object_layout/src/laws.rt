// Laws of objects by their addresses.

ghost use Rattle.object_layout.specs.ObjectLaws.{AppendedIsLast, LedAreRead, ObjectsLieThere, PutChangesOne, SiftedAreFiltered};

/// The objects that are read are exactly those at the chunks' addresses.
pub fn objects_lie_there()
    ensures { ObjectsLieThere }
{}

/// An object appended comes after the others of its chunk.
pub fn appended_is_last()
    ensures { AppendedIsLast }
{}

/// If a cell is replaced by one of the same mark and size, only the fields of the object there change.
pub fn put_changes_one()
    ensures { PutChangesOne }
{}

/// A sweep leaves exactly the objects whose addresses are kept.
pub fn sifted_are_filtered()
    ensures { SiftedAreFiltered }
{}

/// Updated references are read as updated.
pub fn led_are_read()
    ensures { LedAreRead }
{}
