// An entry is made, or refused.

ghost use Rattle.std.specs.Prelude.{◌≡◌, ℕ, ◌<◌, ◌≤◌, Some, None, false, OnOk, IfErr, is_some, slice_set};
ghost use Rattle.run_trace.specs.declared.entry.Kind.TheVariants.{Took, Ran, Chunk, Begin, End, PutOff, Mark, More, Sweep, Fuel};
ghost use Rattle.run_trace.specs.Entry.{IsKind};
ghost use Rattle.run_trace.specs.Settings.{worker_limit};
ghost use Rattle.run_trace.specs.below.or_no_memory.{Reports};
ghost use Rattle.run_ledger.specs.Heaps.{heap_of};
ghost use Rattle.run_ledger.specs.Steps.{most_steps};
ghost use Rattle.run_ledger.specs.Entries.{refusal, after, kind_refusal, after_kind};
ghost use Rattle.run_accounts.specs.Accounts.{Steady, CachesAgree, StaysSteady, general_refusal, went_on, taken_after};

use crate::accounts::Accounts;
use crate::causes::{count_cause, end_cause};
use run_ledger::Refused;
use run_trace::{Entry, Kind, OrNoMemory};

impl<'p> Accounts<'p> {
    fn enter_took(&mut self, worker: u32, task: u32) -> Result<(), OrNoMemory<Refused>>
        requires worker { worker < worker_limit }
        requires agrees { CachesAgree self.old }
        ensures none { OnOk result (kind_refusal self.old.program self.old.settings self.old.ledger worker (Took task) ≡ None) }
        ensures ok { OnOk result (self.new ≡ record (went_on self.old (after_kind self.old.program self.old.settings self.old.ledger worker (Took task))) { taken = slice_set self.old.taken worker (Some task) }) }
        ensures err { IfErr result (Reports (kind_refusal self.old.program self.old.settings self.old.ledger worker (Took task))) }
    {
        if let Some(cause) = self.took_cause(worker, task) {
            return Err(OrNoMemory::Refused(cause));
        }
        self.took(worker, task);
        Ok(())
    }

    fn enter_ran(&mut self, worker: u32, task: u32, steps: u32) -> Result<(), OrNoMemory<Refused>>
        requires few { steps ≤ most_steps }
        requires stays { is_some (heap_of self.old.ledger task).begun ≡ false → StaysSteady self.old.settings self.old.program self.old.ledger task steps }
        requires agrees { CachesAgree self.old }
        ensures none { OnOk result (kind_refusal self.old.program self.old.settings self.old.ledger worker (Ran task steps) ≡ None) }
        ensures ok { OnOk result (self.new ≡ went_on self.old (after_kind self.old.program self.old.settings self.old.ledger worker (Ran task steps))) }
        ensures err { IfErr result (Reports (kind_refusal self.old.program self.old.settings self.old.ledger worker (Ran task steps))) }
    {
        if let Some(cause) = self.running_cause(worker, task) {
            return Err(OrNoMemory::Refused(cause));
        }
        let count = self.ran(task, steps)?;
        if count == steps {
            Ok(())
        } else {
            Err(OrNoMemory::Refused(Refused::Long(count)))
        }
    }

    fn enter_chunk(&mut self, worker: u32, task: u32) -> Result<(), OrNoMemory<Refused>>
        requires steady { Steady self.old.ledger }
        requires agrees { CachesAgree self.old }
        ensures none { OnOk result (kind_refusal self.old.program self.old.settings self.old.ledger worker (Chunk task) ≡ None) }
        ensures ok { OnOk result (self.new ≡ went_on self.old (after_kind self.old.program self.old.settings self.old.ledger worker (Chunk task))) }
        ensures err { IfErr result (Reports (kind_refusal self.old.program self.old.settings self.old.ledger worker (Chunk task))) }
    {
        if let Some(cause) = self.chunk_cause(worker, task) {
            return Err(OrNoMemory::Refused(cause));
        }
        let places = self.places(task);
        self.chunk(task)?;
        self.count_places(task, places);
        Ok(())
    }

    fn enter_begin(&mut self, worker: u32, task: u32) -> Result<(), OrNoMemory<Refused>>
        requires steady { Steady self.old.ledger }
        requires agrees { CachesAgree self.old }
        ensures none { OnOk result (kind_refusal self.old.program self.old.settings self.old.ledger worker (Begin task) ≡ None) }
        ensures ok { OnOk result (self.new ≡ went_on self.old (after_kind self.old.program self.old.settings self.old.ledger worker (Begin task))) }
        ensures err { IfErr result (Reports (kind_refusal self.old.program self.old.settings self.old.ledger worker (Begin task))) }
    {
        if let Some(cause) = self.begin_cause(worker, task) {
            return Err(OrNoMemory::Refused(cause));
        }
        let places = self.places(task);
        self.begin(task)?;
        self.count_places(task, places);
        Ok(())
    }

    fn enter_end(
        &mut self,
        worker: u32,
        task: u32,
        said: (u32, u32, u32),
    ) -> Result<(), OrNoMemory<Refused>>
        requires steady { Steady self.old.ledger }
        requires agrees { CachesAgree self.old }
        ensures none { OnOk result (kind_refusal self.old.program self.old.settings self.old.ledger worker (End task said.0 said.1 said.2) ≡ None) }
        ensures ok { OnOk result (self.new ≡ went_on self.old (after_kind self.old.program self.old.settings self.old.ledger worker (End task said.0 said.1 said.2))) }
        ensures err { IfErr result (Reports (kind_refusal self.old.program self.old.settings self.old.ledger worker (End task said.0 said.1 said.2))) }
    {
        if let Some(cause) = self.collecting_cause(worker, task) {
            return Err(OrNoMemory::Refused(cause));
        }
        let parts = self.collected(task)?;
        if let Some(cause) = end_cause(said, (parts.taken, parts.given, parts.left)) {
            return Err(OrNoMemory::Refused(cause));
        }
        self.count_collected(task, &parts);
        self.put_collected(task, parts);
        Ok(())
    }

    fn enter_put_off(&mut self, worker: u32, task: u32) -> Result<(), OrNoMemory<Refused>>
        requires steady { Steady self.old.ledger }
        requires agrees { CachesAgree self.old }
        ensures none { OnOk result (kind_refusal self.old.program self.old.settings self.old.ledger worker (PutOff task) ≡ None) }
        ensures ok { OnOk result (self.new ≡ went_on self.old (after_kind self.old.program self.old.settings self.old.ledger worker (PutOff task))) }
        ensures err { IfErr result (Reports (kind_refusal self.old.program self.old.settings self.old.ledger worker (PutOff task))) }
    {
        if let Some(cause) = self.put_off_cause(worker, task) {
            return Err(OrNoMemory::Refused(cause));
        }
        self.put_off(task);
        Ok(())
    }

    fn enter_mark(&mut self, task: u32) -> Result<(), OrNoMemory<Refused>>
        requires steady { Steady self.old.ledger }
        requires agrees { CachesAgree self.old }
        ensures none { (worker : ℕ) → OnOk result (kind_refusal self.old.program self.old.settings self.old.ledger worker (Mark task) ≡ None) }
        ensures ok { (worker : ℕ) → OnOk result (self.new ≡ went_on self.old (after_kind self.old.program self.old.settings self.old.ledger worker (Mark task))) }
        ensures err { (worker : ℕ) → IfErr result (Reports (kind_refusal self.old.program self.old.settings self.old.ledger worker (Mark task))) }
    {
        if let Some(cause) = self.mark_cause(task) {
            return Err(OrNoMemory::Refused(cause));
        }
        self.mark(task);
        Ok(())
    }

    fn enter_more(&mut self, task: u32, count: u32) -> Result<(), OrNoMemory<Refused>>
        requires steady { Steady self.old.ledger }
        requires agrees { CachesAgree self.old }
        ensures none { (worker : ℕ) → OnOk result (kind_refusal self.old.program self.old.settings self.old.ledger worker (More task count) ≡ None) }
        ensures ok { (worker : ℕ) → OnOk result (self.new ≡ went_on self.old (after_kind self.old.program self.old.settings self.old.ledger worker (More task count))) }
        ensures err { (worker : ℕ) → IfErr result (Reports (kind_refusal self.old.program self.old.settings self.old.ledger worker (More task count))) }
    {
        if let Some(cause) = self.more_cause(task) {
            return Err(OrNoMemory::Refused(cause));
        }
        self.more(task, count);
        Ok(())
    }

    fn enter_sweep(&mut self, task: u32, given: u32) -> Result<(), OrNoMemory<Refused>>
        requires steady { Steady self.old.ledger }
        requires agrees { CachesAgree self.old }
        ensures none { (worker : ℕ) → OnOk result (kind_refusal self.old.program self.old.settings self.old.ledger worker (Sweep task given) ≡ None) }
        ensures ok { (worker : ℕ) → OnOk result (self.new ≡ went_on self.old (after_kind self.old.program self.old.settings self.old.ledger worker (Sweep task given))) }
        ensures err { (worker : ℕ) → IfErr result (Reports (kind_refusal self.old.program self.old.settings self.old.ledger worker (Sweep task given))) }
    {
        if let Some(cause) = self.marked_cause(task) {
            return Err(OrNoMemory::Refused(cause));
        }
        let parts = self.swept(task)?;
        if let Some(cause) = count_cause(given, parts.given) {
            return Err(OrNoMemory::Refused(cause));
        }
        self.count_swept(&parts);
        self.put_swept(task, parts);
        Ok(())
    }

    fn enter_fuel(&mut self) -> Result<(), OrNoMemory<Refused>>
        requires { CachesAgree self.old }
        ensures none { (worker : ℕ) → OnOk result (kind_refusal self.old.program self.old.settings self.old.ledger worker Fuel ≡ None) }
        ensures ok { (worker : ℕ) → OnOk result (self.new ≡ went_on self.old (after_kind self.old.program self.old.settings self.old.ledger worker Fuel)) }
        ensures err { (worker : ℕ) → IfErr result (Reports (kind_refusal self.old.program self.old.settings self.old.ledger worker Fuel)) }
    {
        if let Some(cause) = self.fuel_cause() {
            return Err(OrNoMemory::Refused(cause));
        }
        self.fuel();
        Ok(())
    }

    fn enter_kind(&mut self, worker: u32, kind: Kind) -> Result<(), OrNoMemory<Refused>>
        requires range { IsKind kind }
        requires worker { worker < worker_limit }
        requires steady { Steady self.old.ledger }
        requires agrees { CachesAgree self.old }
        requires stays { (t k : ℕ) → kind ≡ Ran t k → is_some (heap_of self.old.ledger t).begun ≡ false → StaysSteady self.old.settings self.old.program self.old.ledger t k }
        ensures none { OnOk result (kind_refusal self.old.program self.old.settings self.old.ledger worker kind ≡ None) }
        ensures ok { OnOk result (self.new ≡ record (went_on self.old (after_kind self.old.program self.old.settings self.old.ledger worker kind)) { taken = taken_after self.old.taken worker kind }) }
        ensures err { IfErr result (Reports (kind_refusal self.old.program self.old.settings self.old.ledger worker kind)) }
    {
        match kind {
            Kind::Took(task) => self.enter_took(worker, task),
            Kind::Ran(task, steps) => self.enter_ran(worker, task, steps),
            Kind::Chunk(task) => self.enter_chunk(worker, task),
            Kind::Begin(task) => self.enter_begin(worker, task),
            Kind::End(task, taken, given, left) => self.enter_end(
                worker,
                task,
                (taken, given, left),
            ),
            Kind::PutOff(task) => self.enter_put_off(worker, task),
            Kind::Mark(task) => self.enter_mark(task),
            Kind::More(task, count) => self.enter_more(task, count),
            Kind::Sweep(task, given) => self.enter_sweep(task, given),
            Kind::Fuel => self.enter_fuel(),
        }
    }

    // Why an entry is refused whatever its task: the run has ended, or its fuel is used up, or there is no such worker.
    fn general_cause(&self, worker: u32, kind: Kind) -> Option<Refused>
        ensures { result ≡ general_refusal self.now.settings self.now.ledger worker kind }
    {
        if self.end.is_some() {
            return Some(Refused::Over);
        }
        let ends = match kind {
            Kind::Fuel => true,
            _ => false,
        };
        if self.settings.fuel() <= self.steps && !ends {
            return Some(Refused::Spent(self.steps));
        }
        if worker >= self.settings.workers() {
            return Some(Refused::NoWorker);
        }
        None
    }

    /// The entry is made, or refused for the first cause in order. A refused one may leave steps that no entry holds,
    /// and so may a failed allocation: such accounts must not be used any more.
    pub fn enter(&mut self, entry: Entry) -> Result<(), OrNoMemory<Refused>>
        requires steady { Steady self.old.ledger }
        requires agrees { CachesAgree self.old }
        requires stays { (t k : ℕ) → entry.kind ≡ Ran t k → is_some (heap_of self.old.ledger t).begun ≡ false → StaysSteady self.old.settings self.old.program self.old.ledger t k }
        ensures none { OnOk result (refusal self.old.program self.old.settings self.old.ledger entry ≡ None) }
        ensures ok { OnOk result (self.new ≡ record (went_on self.old (after self.old.program self.old.settings self.old.ledger entry)) { taken = taken_after self.old.taken entry.worker entry.kind }) }
        ensures err { IfErr result (Reports (refusal self.old.program self.old.settings self.old.ledger entry)) }
    {
        if let Some(cause) = self.general_cause(entry.worker(), entry.kind()) {
            return Err(OrNoMemory::Refused(cause));
        }
        self.bounds();
        self.enter_kind(entry.worker(), entry.kind())
    }
}
