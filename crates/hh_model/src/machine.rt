// The machine as a value that takes steps.

ghost use Rattle.std.specs.Prelude.{◌≡◌, ◌<◌, ◌^◌, ◌↔◌, IfOk, OnOk, OnErr, Err, false};
ghost use Rattle.hh_model.specs.Step.{can_step, start};

use crate::data::{End, Frame, MachineState, Task, TaskStatus};
use hh_lang::{Line, Listed, Program};
use std::alloc::{AllocError, Global};
use std::marker::Model;

/// Why a step wasn't taken; the machine is unchanged.
#[derive(Clone, Copy)]
pub enum StepError {
    /// The task isn't running, or the machine has ended.
    Idle,
    /// Out of memory.
    NoMemory,
}

/// A machine that runs a program and never frees an object.
#[derive(Drop)]
pub struct Machine<'p> {
    program: &'p Program,
    state: MachineState,
    steps: u32,
    alloc: Global,
}

impl<'p> Model for Machine<'p> {
    ghost use Rattle.hh_model.specs.Machine.{MachineValue, IsOfRun};

    ghost Value = { MachineValue };

    ghost view = { λ m. record { program = m.program.now; state = m.state; steps = m.steps } };

    ghost invariant = { λ m. IsOfRun (record { program = m.program.now; state = m.state; steps = m.steps }) };
}

impl<'p> Machine<'p> {
    ghost use Rattle.std.specs.Prelude.{◌≡◌, ◌≤◌, ◌<◌, ◌+◌, ◌^◌, ◌↔◌, ℕ, slice_get, IfOk, IfSome, OnOk, OnErr, Err, true, false};
    ghost use Rattle.hh_model.specs.Calculations.{advanced_by, calculates};
    ghost use Rattle.hh_model.specs.Step.{can_step, fetched};
    ghost use Rattle.hh_model.specs.Machine.{begun, advanced, IsOfRun};

    /// A machine before its first step, with this limit of fields.
    pub fn start(
        alloc: Global,
        program: &'p Program,
        field_limit: u32,
    ) -> Result<Machine<'p>, AllocError>
        ensures { IfOk result (λ m. m ≡ begun program.entry.now field_limit) }
    {
        Ok(Machine {
            program,
            state: first_state(alloc, program, field_limit)?,
            steps: 0,
            alloc,
        })
    }

    // One step of a task that can take one, by the instruction at its place.
    #[tactic(auto, using(crate::proofs::Taken::can_runs, crate::proofs::Taken::can_made, crate::proofs::Taken::next_fits, crate::proofs::Taken::step_taken, crate::proofs::Taken::step_nothing))]
    #[inline(always)]
    fn step_line(&mut self, t: u32, line: Option<Line>) -> Result<(), AllocError>
        requires few { self.old.steps < 2 ^ 30 }
        requires can { can_step self.old.state t ≡ true }
        requires next { IfSome (slice_get self.old.state.tasks t) (λ x. fetched self.old.program x.top ≡ line) }
        ensures ok { OnOk result (self.new ≡ advanced self.old t) }
        ensures err { OnErr result (self.new ≡ self.old) }
    {
        let Some(line) = line else {
            self.steps += 1;
            return Ok(());
        };
        self.program.form();
        self.state.act(self.alloc, t, line.number, line.instr)?;
        self.steps += 1;
        Ok(())
    }

    /// Takes steps of a task as long as they only calculate, at most `most`, and returns how many.
    pub fn calculate(&mut self, t: u32, most: u32) -> u32
        requires { self.old.steps + most < 2 ^ 32 }
        ensures most { result ≤ most }
        ensures only { (k : ℕ) → k < result → calculates self.old.program (advanced_by self.old t k).state t ≡ true }
        ensures all { result < most → calculates self.old.program self.new.state t ≡ false }
        ensures after { self.new ≡ advanced_by self.old t result }
    {
        if !self.state.can_step(t) {
            return 0;
        }
        let task = self.state.tasks.at_mut(t as usize);
        let count = task.top.calculate_on(self.program, most);
        self.steps += count;
        count
    }

    /// One step of a task.
    #[inline(always)]
    pub fn step(&mut self, t: u32) -> Result<(), StepError>
        requires { self.old.steps < 2 ^ 30 }
        ensures ok { OnOk result (self.new ≡ advanced self.old t) }
        ensures idle { (result ≡ Err StepError.Idle) ↔ (can_step self.old.state t ≡ false) }
        ensures err { OnErr result (self.new ≡ self.old) }
    {
        if !self.state.can_step(t) {
            return Err(StepError::Idle);
        }
        let top = &self.state.tasks.at(t as usize).top;
        let line = self.program.line(top.function, top.next);
        match self.step_line(t, line) {
            Ok(()) => Ok(()),
            Err(_) => Err(StepError::NoMemory),
        }
    }

    /// The number of steps taken.
    pub fn steps(&self) -> u32
        ensures { result ≡ self.now.steps }
    {
        self.steps
    }

    /// What the steps have printed, the oldest first.
    pub fn outputs(&self) -> &[i64]
        ensures { result.now ≡ self.now.state.outputs }
    {
        self.state.outputs.as_slice()
    }

    /// How the run ended, if it has.
    pub fn end(&self) -> Option<End>
        ensures { result ≡ self.now.state.end }
    {
        self.state.end
    }

    /// The whole state.
    pub fn state(&self) -> &MachineState
        ensures { result.now ≡ self.now.state }
    {
        &self.state
    }

    /// The state is that of a run of as many steps, so each law of runs applies to it.
    pub fn reached(&self)
        ensures { IsOfRun self.now }
    {
        let _ = &self.state;
    }
}

/// The state before the first step.
fn first_state(
    alloc: Global,
    program: &Program,
    field_limit: u32,
) -> Result<MachineState, AllocError>
    ensures { IfOk result (λ m. m ≡ start program.now field_limit) }
{
    let root = Task {
        parent: None,
        depth: 0,
        status: TaskStatus::Running,
        top: Frame {
            function: program.main(),
            next: 0,
            ints: [0; 16],
            refs: [None; 16],
        },
        below: Listed::new(alloc),
        joins: 0,
    };
    let mut tasks = Listed::new(alloc);
    tasks.push(root)?;
    let mut store = Listed::new(alloc);
    store.push(Listed::new(alloc))?;
    Ok(MachineState {
        field_limit,
        tasks,
        store,
        edges: Listed::new(alloc),
        outputs: Listed::new(alloc),
        end: None,
    })
}
