// Copies the survivors out of the old chunks.

ghost use Rattle.std.specs.Prelude.{◌≡◌, All};
ghost use Rattle.std.specs.List.Sorted.{IsPermutation, IsSorted};
ghost use Rattle.object_layout.specs.Graph.{HeapIsClosed, IsSoundReference};
ghost use Rattle.copying_gc.specs.Survivors.{outside, survivor_order};
ghost use Rattle.copying_gc.specs.Evacuated.{CollectorBegins, IsEvacuated};

use crate::collector::Collector;
use crate::sorting::sort;
use object_layout::Addr;
use task_frames::Frames;

impl Collector {
    /// Finds what survives, copies what is small of it into new chunks in order of birth, and updates all references.
    /// The old chunks are left with the new addresses in them.
    pub(crate) fn evacuate(&mut self, frames: &mut Frames, roots: &[Addr])
        requires closed { HeapIsClosed self.old.heap.chunks }
        requires outside { All (IsSoundReference self.old.heap.chunks) (outside frames.old roots.now) }
        requires begins { CollectorBegins self.old }
        ensures { IsEvacuated self.old frames.old roots.now self.new frames.new }
    {
        self.discover(frames, roots);
        self.sort_found();
        self.copy_all();
        self.lead_chunks();
        self.lead_frames(frames);
        self.lead_larges();
    }

    // Sorts what was found in order of birth.
    fn sort_found(&mut self)
        ensures rest { self.new ≡ record self.old { found = self.new.found } }
        ensures permutation { IsPermutation self.old.found self.new.found }
        ensures order { IsSorted survivor_order self.new.found }
    {
        sort(&mut self.found);
    }
}
