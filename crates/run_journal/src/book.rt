// The accounts of a journal, updated entry by entry.

ghost use Rattle.std.specs.Prelude.{◌≡◌, None, true, false, IfOk, OnOk, OnErr, IfErr};
ghost use Rattle.run_trace.specs.below.or_no_memory.{Reports};
ghost use Rattle.run_ledger.specs.Heaps.{in_use};
ghost use Rattle.run_ledger.specs.Entries.{refusal, after};
ghost use Rattle.run_ledger.specs.Journals.{opening};
ghost use Rattle.run_journal.specs.BookValue.{BookValue, IsOpened, IsLegalLedger, cause_in};

use hh_lang::Program;
use hh_model::MachineState;
use plain_vec::Listed;
use run_accounts::Accounts;
use run_ledger::{Heap, Refused, RunEnd};
use run_trace::{Entry, OrNoMemory, Settings};
use std::alloc::{AllocError, Global};
use std::marker::Model;

/// The accounts of a journal, updated entry by entry. A refused entry stops it, and so does a failed allocation: from
/// then on each further entry is refused as stopped.
#[derive(Drop)]
pub struct Book<'p> {
    pub(crate) accounts: Accounts<'p>,
    stopped: bool,
}

impl<'p> Model for Book<'p> {
    ghost use Rattle.run_journal.specs.BookValue.{BookValue, IsOpened};

    ghost Value = { BookValue };

    ghost view = { λ b. record { program = b.accounts.program; settings = b.accounts.settings; ledger = b.accounts.ledger; stopped = b.stopped } };

    ghost invariant = { λ b. IsOpened b.accounts b.stopped };
}

impl<'p> Book<'p> {
    /// The accounts of a run before its first entry.
    pub fn open(
        alloc: Global,
        program: &'p Program,
        settings: Settings,
    ) -> Result<Book<'p>, AllocError>
        ensures { IfOk result (λ b. b ≡ record { program = program.entry.now; settings = settings; ledger = opening program.entry.now settings; stopped = false }) }
    {
        Ok(Book {
            accounts: Accounts::open(alloc, program, settings)?,
            stopped: false,
        })
    }

    /// Applies an entry, unless it is refused.
    pub fn apply(&mut self, entry: Entry) -> Result<(), OrNoMemory<Refused>>
        ensures open { OnOk result (self.old.stopped ≡ false) }
        ensures legal { OnOk result (refusal self.old.program self.old.settings self.old.ledger entry ≡ None) }
        ensures entered { OnOk result (self.new ≡ record self.old { ledger = after self.old.program self.old.settings self.old.ledger entry }) }
        ensures fails { IfErr result (Reports (cause_in self.old entry)) }
        ensures stops { OnErr result (self.new.stopped ≡ true) }
    {
        if self.stopped {
            return Err(OrNoMemory::Refused(Refused::Stopped));
        }
        let _kind = entry.kind();
        self.accounts.bounds();
        match self.accounts.enter(entry) {
            Ok(()) => Ok(()),
            Err(error) => {
                self.stopped = true;
                Err(error)
            }
        }
    }

    /// How the run ended, if it has.
    pub fn end(&self) -> Option<RunEnd>
        ensures { result ≡ self.now.ledger.end }
    {
        self.accounts.end()
    }

    /// The steps taken.
    pub fn steps(&self) -> u64
        ensures { result ≡ self.now.ledger.steps }
    {
        self.accounts.steps()
    }

    /// What the steps have printed, the oldest first.
    pub fn outputs(&self) -> &[i64]
        ensures { result.now ≡ self.now.ledger.machine.outputs }
    {
        self.accounts.outputs()
    }

    /// The heaps by task.
    pub fn heaps(&self) -> &Listed<Heap>
        ensures { result.now ≡ self.now.ledger.heaps }
    {
        self.accounts.heaps()
    }

    /// The machine that never collects, after the steps so far.
    pub fn state(&self) -> &MachineState
        ensures { result.now ≡ self.now.ledger.machine }
    {
        self.accounts.state()
    }

    /// Whether an entry was refused, or ran out of memory.
    pub fn is_stopped(&self) -> bool
        ensures { result ≡ self.now.stopped }
    {
        self.stopped
    }

    /// The chunks in use, in units.
    pub fn in_use(&self) -> u64
        requires { self.now.stopped ≡ false }
        ensures { result ≡ in_use self.now.ledger }
    {
        self.accounts.in_use()
    }

    /// Unless it is stopped, its accounts are those of a legal journal, so each law of legal journals applies to them.
    pub fn legal(&self)
        requires { self.now.stopped ≡ false }
        ensures { IsLegalLedger self.now.program self.now.settings self.now.ledger }
    {
        let _ = &self.accounts;
    }
}
