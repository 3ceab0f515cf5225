// Laws of collected heaps, each the contract of a function that does nothing.

ghost use Rattle.collected_heap_laws.specs.Laws.{NoChunkIsLost, MovedAreRead, MovesAreTold};

/// What is read at a new address is the object that was moved there.
pub fn moved_are_read()
    ensures { MovedAreRead }
{}

/// A relocation list holds addresses of objects and maps as the moves do, and an address elsewhere is unchanged.
pub fn moves_are_told()
    ensures { MovesAreTold }
{}

/// No chunk is lost, and none comes from nowhere.
pub fn no_chunk_is_lost()
    ensures { NoChunkIsLost }
{}
