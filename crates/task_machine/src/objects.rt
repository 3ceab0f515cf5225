// The plan of an instruction on an object: the task's own object is reached by one look-up of its chunk.

ghost use Rattle.std.specs.Prelude.{◌≡◌, IfSome, Some};
ghost use Rattle.object_layout.specs.Chunks.{cell_of};
ghost use Rattle.object_layout.specs.Place.{cell_at};
ghost use Rattle.task_machine.specs.Plan.{own_in, planned};
ghost use Rattle.task_frames.specs.FramesValue.{ref_of};
ghost use Rattle.task_machine.specs.Ready.{PlanIsReady, IsSafe, IsThere};

use crate::arithmetic::field_index;
use crate::decide::SHARED;
use crate::part::Private;
use crate::plan::{Plan, Spot};
use hh_lang::{Instr, IntReg, RefReg};
use object_layout::{Chunk, header_at, int_at, is_same_reference, ref_at};

impl Private {
    /// The object that a register names, if it is the task's own; None for nil and for another task's.
    #[inline(always)]
    fn own(&self, register: RefReg) -> Option<Spot>
        requires safe { IsSafe self.now }
        ensures spot { result ≡ own_in self.now.heap.chunks (ref_of self.now.frames.top register) }
        ensures there { IfSome result (λ s. IsThere self.now.heap.chunks s) }
    {
        let object = self.reference(register)?;
        let place = self.heap.place_of(object.chunk)?;
        Some(Spot { object, place })
    }

    /// The chunk of an own object.
    #[inline(always)]
    fn chunk_of(&self, own: Spot) -> &Chunk
        requires there { IsThere self.now.heap.chunks own }
        ensures cell { cell_at result.now.cells own.object.offset ≡ cell_of self.now.heap.chunks own.object }
    {
        self.heap.chunk_in(own.place)
    }

    #[inline(always)]
    pub(crate) fn decide_getr(&self, target: RefReg, object: RefReg, index: IntReg) -> Plan
        requires { IsSafe self.now }
        ensures { result ≡ planned self.now (Instr.Getr target object index) }
    {
        let Some(own) = self.own(object) else {
            return self.show_getr(target, object, index);
        };
        let chunk = self.chunk_of(own);
        let offset = own.object.offset;
        match field_index(header_at(chunk, offset).nrefs, self.int(index)) {
            Some(at) => Plan::SetReference(target, ref_at(chunk, offset, at)),
            None => SHARED,
        }
    }

    #[inline(always)]
    pub(crate) fn decide_geti(&self, target: IntReg, object: RefReg, index: IntReg) -> Plan
        requires { IsSafe self.now }
        ensures { result ≡ planned self.now (Instr.Geti target object index) }
    {
        let Some(own) = self.own(object) else {
            return self.show_geti(target, object, index);
        };
        let chunk = self.chunk_of(own);
        let offset = own.object.offset;
        match field_index(header_at(chunk, offset).nints, self.int(index)) {
            Some(at) => Plan::SetInt(target, int_at(chunk, offset, at)),
            None => SHARED,
        }
    }

    #[inline(always)]
    pub(crate) fn decide_putr(&self, object: RefReg, index: IntReg, value: RefReg) -> Plan
        requires { IsSafe self.now }
        ensures plan { result ≡ planned self.now (Instr.Putr object index value) }
        ensures ready { PlanIsReady self.now result }
    {
        let Some(own) = self.own(object) else {
            return SHARED;
        };
        let header = header_at(self.chunk_of(own), own.object.offset);
        let Some(at) = field_index(header.nrefs, self.int(index)) else {
            return SHARED;
        };
        if header.mutable {
            Plan::WriteReference(own, at, self.reference(value))
        } else {
            SHARED
        }
    }

    #[inline(always)]
    pub(crate) fn decide_puti(&self, object: RefReg, index: IntReg, value: IntReg) -> Plan
        requires { IsSafe self.now }
        ensures plan { result ≡ planned self.now (Instr.Puti object index value) }
        ensures ready { PlanIsReady self.now result }
    {
        let Some(own) = self.own(object) else {
            return SHARED;
        };
        let header = header_at(self.chunk_of(own), own.object.offset);
        let Some(at) = field_index(header.nints, self.int(index)) else {
            return SHARED;
        };
        if header.mutable {
            Plan::WriteInt(own, at, self.int(value))
        } else {
            SHARED
        }
    }

    pub(crate) fn decide_cntr(&self, target: IntReg, object: RefReg) -> Plan
        requires { IsSafe self.now }
        ensures { result ≡ planned self.now (Instr.Cntr target object) }
    {
        let Some(own) = self.own(object) else {
            return self.show_cntr(target, object);
        };
        let header = header_at(self.chunk_of(own), own.object.offset);
        Plan::SetInt(target, header.nrefs as i64)
    }

    pub(crate) fn decide_cnti(&self, target: IntReg, object: RefReg) -> Plan
        requires { IsSafe self.now }
        ensures { result ≡ planned self.now (Instr.Cnti target object) }
    {
        let Some(own) = self.own(object) else {
            return self.show_cnti(target, object);
        };
        let header = header_at(self.chunk_of(own), own.object.offset);
        Plan::SetInt(target, header.nints as i64)
    }

    pub(crate) fn decide_freeze(&self, object: RefReg) -> Plan
        requires { IsSafe self.now }
        ensures plan { result ≡ planned self.now (Instr.Freeze object) }
        ensures ready { PlanIsReady self.now result }
    {
        match self.own(object) {
            Some(own) => Plan::Freeze(own),
            None => SHARED,
        }
    }

    pub(crate) fn decide_cas(
        &self,
        target: IntReg,
        object: RefReg,
        index: IntReg,
        expected: RefReg,
        value: RefReg,
    ) -> Plan
        requires { IsSafe self.now }
        ensures plan { result ≡ planned self.now (Instr.Cas target object index expected value) }
        ensures ready { PlanIsReady self.now result }
    {
        let Some(own) = self.own(object) else {
            return SHARED;
        };
        let chunk = self.chunk_of(own);
        let offset = own.object.offset;
        let header = header_at(chunk, offset);
        let Some(at) = field_index(header.nrefs, self.int(index)) else {
            return SHARED;
        };
        if !header.mutable {
            return SHARED;
        }
        if is_same_reference(ref_at(chunk, offset, at), self.reference(expected)) {
            Plan::Swap(target, own, at, self.reference(value))
        } else {
            Plan::SetInt(target, 0)
        }
    }
}
