// A stack of frames, never empty and never deeper than `FRAME_LIMIT`.

ghost use Rattle.std.specs.Prelude.{◌≡◌, ◌<◌, ◌≤◌, ◌↔◌, [], length, IfOk, OnOk, OnErr, Err, Some, slice_get};
ghost use Rattle.hh_lang.specs.Limits.{frame_limit};
ghost use Rattle.std.specs.Borrow.{sem};
ghost use Rattle.task_frames.specs.FramesLends.{lends_top};
ghost use Rattle.task_frames.specs.FramesValue.{FramesValue, branched, frame_depth, frames_of, int_of, int_written, ref_of, ref_written, pushed, IsPopped, references_of, references_written, with_next, frames_with_int, with_reference};

use hh_lang::{FRAME_LIMIT, IntReg, RefReg};
use object_layout::Addr;
use std::alloc::{AllocError, Global};
use std::marker::Model;

/// A call that has not returned: its function, its next instruction, and its registers.
#[derive(Clone, Copy)]
pub struct CallFrame {
    pub function: u32,
    pub next: u32,
    pub ints: [i64; 16],
    pub refs: [Option<Addr>; 16],
}

/// Why no frame was pushed.
#[derive(Clone, Copy, PartialEq, Eq)]
pub enum NotPushed {
    /// There are `FRAME_LIMIT` frames.
    Deep,
    /// The frame couldn't be allocated.
    NoMemory,
}

// The top frame, and those below it.
#[derive(Drop)]
struct Stack {
    below: Vec<CallFrame>,
    top: CallFrame,
}

/// The frames of a task, of which the top one runs. The others wait for a return.
///
/// They are boxed together, so that moving them moves one pointer.
pub struct Frames {
    stack: Box<Stack>,
}

impl Drop for Frames {
    fn drop(self) {
        let Frames { stack: _ } = self;
    }
}

impl Model for Frames {
    ghost use Rattle.std.specs.Prelude.{length, ◌<◌};
    ghost use Rattle.hh_lang.specs.Limits.{frame_limit};
    ghost use Rattle.task_frames.specs.FramesValue.{FramesValue};

    ghost Value = { FramesValue };

    ghost view = { λ f. record { below = f.stack.value.below.items; top = f.stack.value.top } };

    ghost invariant = { λ f. length f.stack.value.below.items < frame_limit };
}

// One of sixteen number registers.
fn int_at(ints: &[i64; 16], i: u32) -> i64
    requires { i < 16 }
    ensures { slice_get ints.now i ≡ Some result }
{
    ints[i as usize]
}

// One of sixteen reference registers.
fn ref_at(refs: &[Option<Addr>; 16], i: u32) -> Option<Addr>
    requires { i < 16 }
    ensures { slice_get refs.now i ≡ Some result }
{
    refs[i as usize]
}

// There are sixteen registers of each kind.
fn sixteen(ints: &[i64; 16], refs: &[Option<Addr>; 16])
    ensures ints { length ints.now ≡ 16 }
    ensures refs { length refs.now ≡ 16 }
{}

impl CallFrame {
    /// What a number register holds.
    pub fn int(&self, register: IntReg) -> i64
        ensures { result ≡ int_of self.now register }
    {
        self.ints[register.index()]
    }

    /// Writes a number register.
    pub fn set_int(&mut self, register: IntReg, value: i64)
        ensures { self.new ≡ int_written self.old register value }
    {
        self.ints[register.index()] = value;
    }

    /// What a reference register holds; None is nil.
    pub fn reference(&self, register: RefReg) -> Option<Addr>
        ensures { result ≡ ref_of self.now register }
    {
        self.refs[register.index()]
    }

    /// Writes a reference register.
    pub fn set_reference(&mut self, register: RefReg, value: Option<Addr>)
        ensures { self.new ≡ ref_written self.old register value }
    {
        self.refs[register.index()] = value;
    }
}

impl Frames {
    // The only frame of a task.
    fn only(alloc: Global, frame: CallFrame) -> Result<Frames, AllocError>
        ensures { IfOk result (λ f. f ≡ record { below = []; top = frame }) }
    {
        let stack = Stack {
            below: Vec::new(alloc),
            top: frame,
        };
        Ok(Frames {
            stack: Box::new(alloc, stack)?,
        })
    }

    /// One frame, before the first instruction of a function, with these registers.
    pub fn start(
        alloc: Global,
        fun: u32,
        ints: &[i64; 16],
        refs: &[Option<Addr>; 16],
    ) -> Result<Frames, AllocError>
        ensures { IfOk result (λ f. f ≡ record { below = []; top = record { function = fun; next = 0; ints = ints.now; refs = refs.now } }) }
    {
        Frames::only(
            alloc,
            CallFrame {
                function: fun,
                next: 0,
                ints: *ints,
                refs: *refs,
            },
        )
    }

    /// One frame, before the first instruction of a function, with the registers of this top frame: what
    /// a fork gives each child.
    pub fn branch(&self, alloc: Global, fun: u32) -> Result<Frames, AllocError>
        ensures { IfOk result (λ f. f ≡ branched self.now fun) }
    {
        let mut top = self.stack.top;
        top.function = fun;
        top.next = 0;
        Frames::only(alloc, top)
    }

    /// Pushes a frame for a call of a function, with a copy of all registers of the top frame.
    ///
    /// The frame limit is checked before memory is allocated.
    pub fn push(&mut self, fun: u32) -> Result<(), NotPushed>
        ensures deep { (result ≡ Err NotPushed.Deep) ↔ (frame_depth self.old ≡ frame_limit) }
        ensures ok { OnOk result (self.new ≡ pushed self.old fun) }
        ensures err { OnErr result (self.new ≡ self.old) }
    {
        if self.stack.below.len() >= FRAME_LIMIT - 1 {
            return Err(NotPushed::Deep);
        }
        // Most tasks call no deeper than twice; a `Vec` would begin with four frames.
        if self.stack.below.is_empty() && self.stack.below.reserve_exact(2).is_err() {
            return Err(NotPushed::NoMemory);
        }
        let top = self.stack.top;
        if self.stack.below.push(top).is_err() {
            return Err(NotPushed::NoMemory);
        }
        self.stack.top.function = fun;
        self.stack.top.next = 0;
        Ok(())
    }

    /// Drops the top frame, so that the one below it is on top.
    pub fn pop(&mut self)
        requires { 1 < frame_depth self.old }
        ensures { IsPopped self.old self.new }
    {
        let stack = &mut *self.stack;
        if let Some(frame) = stack.below.last() {
            stack.top = *frame;
        }
        stack.below.truncate(stack.below.len() - 1);
    }

    /// How many frames there are: from 1 to `FRAME_LIMIT`.
    pub fn depth(&self) -> u32
        ensures count { result ≡ frame_depth self.now }
        ensures most { result ≤ frame_limit }
    {
        self.stack.below.len() as u32 + 1
    }

    /// The top frame: its function, its next instruction, and its registers.
    pub fn top(&self) -> &CallFrame
        ensures { result.now ≡ self.now.top }
    {
        &self.stack.top
    }

    /// The top frame, mutably.
    pub fn top_mut(&mut self) -> &mut CallFrame
        ensures* writes_back { sem 𝓛 (lends_top self.entry result) }
        ensures value { result.now ≡ self.old.top }
    {
        &mut self.stack.top
    }

    /// The function that the top frame runs.
    pub fn fun(&self) -> u32
        ensures { result ≡ self.now.top.function }
    {
        self.stack.top.function
    }

    /// The place in that function of the top frame's next instruction.
    pub fn next(&self) -> u32
        ensures { result ≡ self.now.top.next }
    {
        self.stack.top.next
    }

    /// Goes on at another instruction of the same function.
    pub fn set_next(&mut self, next: u32)
        ensures { self.new ≡ with_next self.old next }
    {
        self.stack.top.next = next;
    }

    /// The top frame has sixteen registers of each kind.
    pub fn sixteen(&self)
        ensures ints { length self.now.top.ints ≡ 16 }
        ensures refs { length self.now.top.refs ≡ 16 }
    {
        sixteen(&self.stack.top.ints, &self.stack.top.refs);
    }

    /// A number register of the top frame.
    pub fn int(&self, i: u32) -> i64
        requires { i < 16 }
        ensures { slice_get self.now.top.ints i ≡ Some result }
    {
        int_at(&self.stack.top.ints, i)
    }

    /// Writes a number register of the top frame.
    pub fn set_int(&mut self, i: u32, value: i64)
        requires { i < 16 }
        ensures { self.new ≡ frames_with_int self.old i value }
    {
        self.stack.top.ints[i as usize] = value;
    }

    /// A reference register of the top frame.
    pub fn reference(&self, i: u32) -> Option<Addr>
        requires { i < 16 }
        ensures { slice_get self.now.top.refs i ≡ Some result }
    {
        ref_at(&self.stack.top.refs, i)
    }

    /// Writes a reference register of the top frame.
    pub fn set_reference(&mut self, i: u32, value: Option<Addr>)
        requires { i < 16 }
        ensures { self.new ≡ with_reference self.old i value }
    {
        self.stack.top.refs[i as usize] = value;
    }

    /// All reference registers of a frame. Frames are counted from 0, the oldest.
    pub fn references_in(&self, frame: u32) -> [Option<Addr>; 16]
        requires { frame < frame_depth self.now }
        ensures { result ≡ references_of (frames_of self.now) frame }
    {
        let stack = &*self.stack;
        if (frame as usize) < stack.below.len() {
            stack.below[frame as usize].refs
        } else {
            stack.top.refs
        }
    }

    /// Writes all reference registers of a frame. Frames are counted from 0, the oldest.
    pub fn set_references_in(&mut self, frame: u32, refs: &[Option<Addr>; 16])
        requires { frame < frame_depth self.old }
        ensures { frames_of self.new ≡ references_written (frames_of self.old) frame refs.now }
    {
        if (frame as usize) < self.stack.below.len() {
            self.stack.below[frame as usize].refs = *refs;
        } else {
            self.stack.top.refs = *refs;
        }
    }
}
