// The plan of a read of an object that isn't the task's own: the part's view may show it.

ghost use Rattle.std.specs.Prelude.{◌≡◌, IfSome, Some, option_map};
ghost use Rattle.object_layout.specs.Cell.{header_of};
ghost use Rattle.task_machine.specs.Plan.{counts_ints, counts_refs, or_shared, reads_int, reads_ref, shown_of};
ghost use Rattle.task_frames.specs.FramesValue.{ref_of};

use crate::arithmetic::field_index;
use crate::decide::SHARED;
use crate::part::Private;
use crate::plan::Plan;
use hh_lang::{IntReg, RefReg};
use object_layout::{Addr, Header};

/// An object that a view shows: its address and its kind.
#[derive(Clone, Copy)]
pub(crate) struct Shown {
    object: Addr,
    header: Header,
}

impl Private {
    /// The immutable object that a register names, if the view shows it.
    fn shown(&self, register: RefReg) -> Option<Shown>
        ensures kind { option_map (λ s. s.header) result ≡ option_map header_of (shown_of self.now.view (ref_of self.now.frames.top register)) }
        ensures named { IfSome result (λ s. ref_of self.now.frames.top register ≡ Some s.object) }
    {
        let object = self.reference(register)?;
        let header = self.view.find(object)?;
        Some(Shown { object, header })
    }

    pub(crate) fn show_getr(&self, target: RefReg, object: RefReg, index: IntReg) -> Plan
        ensures { result ≡ or_shared (shown_of self.now.view (ref_of self.now.frames.top object)) (reads_ref self.now.frames.top target index) }
    {
        let Some(shown) = self.shown(object) else {
            return SHARED;
        };
        match field_index(shown.header.nrefs, self.int(index)) {
            Some(at) => Plan::SetReference(target, self.view.ref_at(shown.object, at)),
            None => SHARED,
        }
    }

    pub(crate) fn show_geti(&self, target: IntReg, object: RefReg, index: IntReg) -> Plan
        ensures { result ≡ or_shared (shown_of self.now.view (ref_of self.now.frames.top object)) (reads_int self.now.frames.top target index) }
    {
        let Some(shown) = self.shown(object) else {
            return SHARED;
        };
        match field_index(shown.header.nints, self.int(index)) {
            Some(at) => Plan::SetInt(target, self.view.int_at(shown.object, at)),
            None => SHARED,
        }
    }

    pub(crate) fn show_cntr(&self, target: IntReg, object: RefReg) -> Plan
        ensures { result ≡ or_shared (shown_of self.now.view (ref_of self.now.frames.top object)) (counts_refs target) }
    {
        match self.shown(object) {
            Some(shown) => Plan::SetInt(target, shown.header.nrefs as i64),
            None => SHARED,
        }
    }

    pub(crate) fn show_cnti(&self, target: IntReg, object: RefReg) -> Plan
        ensures { result ≡ or_shared (shown_of self.now.view (ref_of self.now.frames.top object)) (counts_ints target) }
    {
        match self.shown(object) {
            Some(shown) => Plan::SetInt(target, shown.header.nints as i64),
            None => SHARED,
        }
    }
}
