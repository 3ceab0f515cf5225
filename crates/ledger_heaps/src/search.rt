// A search through the names of a heap, along references.

ghost use Rattle.std.specs.Prelude.{◌≡◌, ◌+◌, [], ◌∷◌, OnOk, length};
ghost use Rattle.std.specs.List.{flat_map};
ghost use Rattle.std.specs.HashSet.{contains, hash_set_len};
ghost use Rattle.hh_model.specs.Names.{names_of_references, refs_at, registers};
ghost use Rattle.run_ledger.specs.Reachable.{is_name};
ghost use Rattle.run_ledger.specs.Heaps.{held_in};
ghost use Rattle.ledger_heaps.specs.Search.{Meets};

use hh_model::{Frame, MachineState, Name};
use plain_vec::Listed;
use run_ledger::Heap;
use std::alloc::AllocError;
use std::collections::HashSet;

/// The state of a search.
#[derive(Drop)]
pub(crate) struct Search {
    /// The names of the heap that weren't met yet.
    pub(crate) unmet: HashSet<Name>,
    /// The names that were met, and whose references are to be followed.
    pub(crate) waiting: Listed<Name>,
}

#[tactic(auto, using(crate::proofs::Meets::meets_none, crate::proofs::Meets::meets_both, crate::proofs::Meets::named_append, crate::proofs::Meets::registers_append))]
impl Search {
    /// Meets a name.
    fn meet(&mut self, name: Name) -> Result<(), AllocError>
        ensures met { OnOk result (Meets (name ∷ []) (contains is_name self.old.unmet) (contains is_name self.new.unmet) self.old.waiting self.new.waiting) }
        ensures left { OnOk result (hash_set_len self.new.unmet + length self.new.waiting ≡ hash_set_len self.old.unmet + length self.old.waiting) }
    {
        if self.unmet.remove(&name) {
            self.waiting.push(name)?;
        }
        Ok(())
    }

    // Meets the name in a reference, unless it is nil.
    fn meet_reference(&mut self, reference: Option<Name>) -> Result<(), AllocError>
        ensures met { OnOk result (Meets (names_of_references (reference ∷ [])) (contains is_name self.old.unmet) (contains is_name self.new.unmet) self.old.waiting self.new.waiting) }
        ensures left { OnOk result (hash_set_len self.new.unmet + length self.new.waiting ≡ hash_set_len self.old.unmet + length self.old.waiting) }
    {
        match reference {
            Some(name) => self.meet(name),
            None => Ok(()),
        }
    }

    /// Meets the names in some references.
    pub(crate) fn meet_references(&mut self, refs: &[Option<Name>]) -> Result<(), AllocError>
        ensures met { OnOk result (Meets (names_of_references refs.now) (contains is_name self.old.unmet) (contains is_name self.new.unmet) self.old.waiting self.new.waiting) }
        ensures left { OnOk result (hash_set_len self.new.unmet + length self.new.waiting ≡ hash_set_len self.old.unmet + length self.old.waiting) }
    {
        for reference in refs {
            self.meet_reference(*reference)?;
        }
        Ok(())
    }

    /// Meets what the object of a name refers to.
    pub(crate) fn follow(&mut self, machine: &MachineState, name: Name) -> Result<(), AllocError>
        ensures met { OnOk result (Meets (refs_at machine.now.store name) (contains is_name self.old.unmet) (contains is_name self.new.unmet) self.old.waiting self.new.waiting) }
        ensures left { OnOk result (hash_set_len self.new.unmet + length self.new.waiting ≡ hash_set_len self.old.unmet + length self.old.waiting) }
    {
        match machine.object(name) {
            Some(object) => self.meet_references(object.refs.as_slice()),
            None => Ok(()),
        }
    }

    // Meets what the objects of some names refer to.
    fn follow_all(&mut self, machine: &MachineState, names: &[Name]) -> Result<(), AllocError>
        ensures met { OnOk result (Meets (flat_map (refs_at machine.now.store) names.now) (contains is_name self.old.unmet) (contains is_name self.new.unmet) self.old.waiting self.new.waiting) }
        ensures left { OnOk result (hash_set_len self.new.unmet + length self.new.waiting ≡ hash_set_len self.old.unmet + length self.old.waiting) }
    {
        for name in names {
            self.follow(machine, *name)?;
        }
        Ok(())
    }

    /// Meets what the objects of a heap refer to.
    pub(crate) fn follow_heap(
        &mut self,
        machine: &MachineState,
        heap: &Heap,
    ) -> Result<(), AllocError>
        ensures met { OnOk result (Meets (flat_map (refs_at machine.now.store) (held_in heap.now)) (contains is_name self.old.unmet) (contains is_name self.new.unmet) self.old.waiting self.new.waiting) }
        ensures left { OnOk result (hash_set_len self.new.unmet + length self.new.waiting ≡ hash_set_len self.old.unmet + length self.old.waiting) }
    {
        for names in heap.chunks.as_slice() {
            self.follow_all(machine, names.as_slice())?;
        }
        self.follow_all(machine, heap.large.as_slice())
    }

    /// Meets what the registers of some frames hold.
    pub(crate) fn meet_frames(&mut self, frames: &[Frame]) -> Result<(), AllocError>
        ensures met { OnOk result (Meets (registers frames.now) (contains is_name self.old.unmet) (contains is_name self.new.unmet) self.old.waiting self.new.waiting) }
        ensures left { OnOk result (hash_set_len self.new.unmet + length self.new.waiting ≡ hash_set_len self.old.unmet + length self.old.waiting) }
    {
        for frame in frames {
            self.meet_references(&frame.refs)?;
        }
        Ok(())
    }
}
