// Laws of images.

ghost use Rattle.image_check.specs.Sound.{FaultlessIsSound, ObjectsAreCounted, TasksAreRelated};

/// In a text without a fault every reference is nil, an object's address, or in a running task's chunk; each reference
/// stays inside its heap, goes up, or is remembered; and births differ.
pub fn faultless_is_sound()
    ensures { FaultlessIsSound }
{}

/// On lines without a fault ancestors and descendants are recognised: no reference up is refused as one across, and
/// only references down are refused as such.
pub fn tasks_are_related()
    ensures { TasksAreRelated }
{}

/// In a text without a fault the number of objects is the number of object lines.
pub fn objects_are_counted()
    ensures { ObjectsAreCounted }
{}
