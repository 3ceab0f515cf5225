// The laws of journals, each the contract of a function that does nothing.

ghost use Rattle.run_ledger.specs.Laws.{MachineIsRun, NothingReachableIsFreed, CollectionsKeepJust, EntriesLeaveOthers, HeldIsUndropped};
ghost use Rattle.journal_laws.specs.Accepted.{AcceptedIsAllowed};
ghost use Rattle.journal_laws.specs.Frozen.{SurvivorsAreWithin, SnapshotsAreWithin};
ghost use Rattle.journal_laws.specs.PaceLaw.{PacedKeepsThePace};
ghost use Rattle.run_ledger.specs.Space.{StepsAreBounded, UseIsBounded, LeafCollectionsAreBounded, SweepsAreBounded, WordsAreAccounted};

/// A ledger's machine is the machine that never collects, after the journal's steps.
pub fn machine_is_run()
    ensures { MachineIsRun }
{}

/// After every legal journal all that is reachable is held, and so is each reference of what is held.
pub fn nothing_reachable_is_freed()
    ensures { NothingReachableIsFreed }
{}

/// An entry of one worker leaves unchanged a task that another worker holds, and the account of its heap.
pub fn entries_leave_others()
    ensures { EntriesLeaveOthers }
{}

/// A leaf collection keeps exactly the survivors among the held names, the small ones in order of birth, and a sweep
/// exactly the snapshot.
pub fn collections_keep_just()
    ensures { CollectionsKeepJust }
{}

/// What is held after a legal journal is what was allocated and not dropped by the end of a leaf collection or a sweep.
pub fn held_is_undropped()
    ensures { HeldIsUndropped }
{}

/// A legal journal is paced if and only if each entry that isn't `fuel`, and whose worker's previous entry is one of
/// steps, keeps the three rules of the pace.
pub fn paced_keeps_the_pace()
    ensures { PacedKeepsThePace }
{}

/// A legal journal has at most fuel + 256 steps, 256 being the most private steps of one entry.
pub fn steps_are_bounded()
    ensures { StepsAreBounded }
{}

/// In a legal journal, the end of a leaf collection leaves at most as many chunks as it took for the small survivors,
/// each with at least one.
pub fn leaf_collections_are_bounded()
    ensures { LeafCollectionsAreBounded }
{}

/// In a legal journal a sweep leaves no chunk without a held object.
pub fn sweeps_are_bounded()
    ensures { SweepsAreBounded }
{}

/// In a legal journal the chunks in use never exceed the limit.
pub fn use_is_bounded()
    ensures { UseIsBounded }
{}

/// After a legal journal each word that was allocated is held, or counted as freed in the report.
pub fn words_are_accounted()
    ensures { WordsAreAccounted }
{}

/// The survivors of a leaf collection that goes on are what was reachable within its heap as it began.
pub fn survivors_are_within()
    ensures { SurvivorsAreWithin }
{}

/// The snapshot of a task that waits is what was reachable within its heap as it forked.
pub fn snapshots_are_within()
    ensures { SnapshotsAreWithin }
{}

/// An entry is accepted if and only if the accounts satisfy the conditions of its kind.
pub fn accepted_is_allowed()
    ensures { AcceptedIsAllowed }
{}
