// The graph of a log: what its tasks leave unjoined in a cut log is joined at their ends.

ghost use Rattle.std.specs.Prelude.{◌≡◌, ◌++◌, ◌∷◌, ◌||◌, ℕ, [], IfOk, OnOk, map, length, nat_eq};
ghost use Rattle.std.specs.HashSet.{contains};
ghost use Rattle.fork_graph.specs.Cut.{completed, joins};
ghost use Rattle.log_tasks.specs.Joining.{left_by, joins_of, joins_for};
ghost use Rattle.log_tasks.specs.Rows.{graph_of};

use fork_graph::{Extent, GraphTurn};
use plain_vec::Listed;
use std::alloc::{AllocError, Global};
use std::collections::HashSet;

// A turn joins its child, if it is a join.
fn note_join(joined: &mut HashSet<u32>, turn: GraphTurn) -> Result<(), AllocError>
    ensures { OnOk result ((c : ℕ) → contains nat_eq joined.new c ≡ (contains nat_eq joined.old c || joins (turn ∷ []) c)) }
{
    match turn {
        GraphTurn::Spawn(_) => Ok(()),
        GraphTurn::Join(child) => {
            joined.insert(child)?;
            Ok(())
        }
    }
}

// The children that turns join.
fn joined_by(alloc: Global, turns: &[GraphTurn]) -> Result<HashSet<u32>, AllocError>
    ensures { IfOk result (λ joined. (c : ℕ) → contains nat_eq joined c ≡ joins turns.now c) }
{
    let mut joined = HashSet::new(alloc);
    for turn in turns {
        note_join(&mut joined, *turn)?;
    }
    Ok(joined)
}

// The child that a turn spawns, unless it is joined.
fn left_by(joined: &HashSet<u32>, turn: GraphTurn) -> Option<u32>
    ensures { result ≡ left_by (contains nat_eq joined.now) turn }
{
    match turn {
        GraphTurn::Spawn(child) if !joined.contains(&child) => Some(child),
        _ => None,
    }
}

// A join of a child, if there is one, comes after turns.
fn add_join(turns: &mut Listed<GraphTurn>, child: Option<u32>) -> Result<(), AllocError>
    ensures { OnOk result (turns.new ≡ turns.old ++ joins_of child) }
{
    match child {
        Some(child) => turns.push(GraphTurn::Join(child)),
        None => Ok(()),
    }
}

// Turns, and then joins of all children that aren't joined, last spawned first.
fn with_joins(
    joined: &HashSet<u32>,
    row: Listed<GraphTurn>,
) -> Result<Listed<GraphTurn>, AllocError>
    ensures { IfOk result (λ turns. turns ≡ row ++ joins_for (contains nat_eq joined.now) row) }
{
    let count = row.len();
    let mut turns = row;
    for place in 0..count {
        let turn = *turns.at(count - 1 - place);
        add_join(&mut turns, left_by(joined, turn))?;
    }
    Ok(turns)
}

// Turns, and then joins of all that they leave unjoined.
fn completed(alloc: Global, row: Listed<GraphTurn>) -> Result<Listed<GraphTurn>, AllocError>
    ensures { IfOk result (λ turns. turns ≡ completed row) }
{
    let joined = joined_by(alloc, row.as_slice())?;
    with_joins(&joined, row)
}

// All rows completed.
fn all_completed(
    alloc: Global,
    rows: Listed<Listed<GraphTurn>>,
) -> Result<Listed<Listed<GraphTurn>>, AllocError>
    ensures { IfOk result (λ turns. turns ≡ map completed rows) }
{
    let mut turns = Listed::new(alloc);
    for row in rows.into_vec() {
        turns.push(completed(alloc, row)?)?;
    }
    Ok(turns)
}

/// The turns of the graph.
pub(crate) fn graph_of(
    alloc: Global,
    rows: Listed<Listed<GraphTurn>>,
    extent: Extent,
) -> Result<Listed<Listed<GraphTurn>>, AllocError>
    ensures { IfOk result (λ turns. turns ≡ graph_of extent rows) }
{
    match extent {
        Extent::Whole => Ok(rows),
        Extent::Cut => all_completed(alloc, rows),
    }
}

/// How many turns each row has.
pub(crate) fn lengths(
    alloc: Global,
    rows: &Listed<Listed<GraphTurn>>,
) -> Result<Listed<usize>, AllocError>
    ensures { IfOk result (λ known. known ≡ map length rows.now) }
{
    let mut known = Listed::new(alloc);
    for row in rows.as_slice() {
        known.push(row.len())?;
    }
    Ok(known)
}
