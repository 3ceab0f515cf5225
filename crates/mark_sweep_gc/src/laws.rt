// Laws of the snapshot, of a marking between two calls, and of a sweep.

ghost use Rattle.mark_sweep_gc.specs.Laws.{SweptChunksHold, MarkingGoesOn, MarkingStaysOf, SnapshotIsOfRoots, SweptAreRead, SweptIsSnapshot};

/// A marking's starts lead to exactly what the roots at the fork lead to, if each start is among that.
pub fn snapshot_is_of_roots()
    ensures { SnapshotIsOfRoots }
{}

/// A marking stays one of the snapshot while more is kept.
pub fn marking_goes_on()
    ensures { MarkingGoesOn }
{}

/// A marking stays one of its heap while only fields are written and more is kept.
pub fn marking_stays_of()
    ensures { MarkingStaysOf }
{}

/// After a heap is swept, what was marked is read unchanged, and nothing else is there.
pub fn swept_are_read()
    ensures { SweptAreRead }
{}

/// If the whole snapshot is marked, a sweep leaves exactly that, whatever fields were written since.
pub fn swept_is_snapshot()
    ensures { SweptIsSnapshot }
{}

/// Each chunk that a sweep leaves contains an object, except the reserved one.
pub fn swept_chunks_hold()
    ensures { SweptChunksHold }
{}
