// The laws, each the contract of a function that does nothing.

ghost use Rattle.birth_walk_laws.specs.Laws.{SnapshotIsNamed, SurvivorsAreNamed};

/// The survivors of a copying collection are the objects whose names walks over names lead to.
pub fn survivors_are_named()
    ensures { SurvivorsAreNamed }
{}

/// So is the snapshot of a marking.
pub fn snapshot_is_named()
    ensures { SnapshotIsNamed }
{}
