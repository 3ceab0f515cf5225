// What a task sees of the heaps of its ancestors.

ghost use Rattle.std.specs.Prelude.{◌≡◌, ◌<◌, ◌++◌, ◌∷◌, [], IfOk, OnOk, Some, length, option_map, replicate, slice_get};
ghost use Rattle.std.specs.Arc.{arc_value};
ghost use Rattle.std.specs.Option.{option_copied};
ghost use Rattle.object_layout.specs.Cell.{header_of, BeginsInFirstUnit};
ghost use Rattle.object_layout.specs.Piece.{or_no_cell};
ghost use Rattle.chunk_list.specs.View.{level_in, levels_above, levels_in, nearest, piece_in, seen_at};

use super::shelf::Shelf;
use object_layout::{Addr, Header, Piece};
use std::alloc::{AllocError, Global};
use std::marker::Model;
use std::sync::Arc;

// A level; None for one without chunks.
type SharedLevel = Option<Arc<Shelf, Global>>;

// Levels that views share.
#[derive(Drop)]
struct Levels {
    list: Vec<SharedLevel>,
}

impl Model for Levels {
    ghost use Rattle.std.specs.Prelude.{List};
    ghost use Rattle.std.specs.Arc.{arc_value};
    ghost use Rattle.chunk_list.specs.View.{levels_in, Level};

    ghost Value = { List Level };

    ghost view = { λ l. levels_in arc_value l.list.items };
}

/// The immutable objects of the tasks above, as each task had them when it forked: a level for each, the parent's
/// first. Views share the levels that they have in common.
///
/// Levels without chunks, in front of all others, are only counted: the view of a task takes no memory if no task above
/// it has chunks, and little if its parent has none.
pub struct View {
    // How many levels without chunks are in front.
    bare: usize,
    // The levels behind those.
    levels: Option<Arc<Levels, Global>>,
}

impl Drop for View {
    fn drop(self) {
        let View { bare: _, levels: _ } = self;
    }
}

impl Model for View {
    ghost use Rattle.std.specs.Prelude.{◌++◌, [], List, option_map, replicate};
    ghost use Rattle.std.specs.Arc.{arc_value};
    ghost use Rattle.chunk_list.specs.View.{levels_above, Level};

    ghost Value = { List Level };

    ghost view = { λ v. replicate v.bare [] ++ levels_above (option_map arc_value v.levels) };
}

// The immutable objects of a chunk, if the level has it.
fn piece_on(level: &SharedLevel, number: u32) -> Option<&Piece>
    ensures { option_copied result ≡ piece_in (level_in (option_map arc_value level.now)) number }
{
    match level {
        Some(shelf) => shelf.piece(number),
        None => None,
    }
}

// The immutable objects of a chunk, in the nearest level that has it.
fn piece_of(levels: &[SharedLevel], number: u32) -> Option<&Piece>
    ensures { option_copied result ≡ nearest (levels_in arc_value levels.now) number }
{
    for level in levels {
        if let Some(piece) = piece_on(level, number) {
            return Some(piece);
        }
    }
    None
}

// The same level, shared.
fn shared(level: &SharedLevel) -> Result<SharedLevel, AllocError>
    ensures { IfOk result (λ same. level_in (option_map arc_value same) ≡ level_in (option_map arc_value level.now)) }
{
    match level {
        Some(shelf) => Ok(Some(Arc::try_clone(shelf)?)),
        None => Ok(None),
    }
}

// The same levels, shared.
fn same_levels(
    levels: &Option<Arc<Levels, Global>>,
) -> Result<Option<Arc<Levels, Global>>, AllocError>
    ensures { IfOk result (λ same. levels_above (option_map arc_value same) ≡ levels_above (option_map arc_value levels.now)) }
{
    match levels {
        Some(levels) => Ok(Some(Arc::try_clone(levels)?)),
        None => Ok(None),
    }
}

// Appends these levels, shared.
fn push_levels(levels: &mut Vec<SharedLevel>, more: &[SharedLevel]) -> Result<(), AllocError>
    ensures { OnOk result (levels_in arc_value levels.new.items ≡ levels_in arc_value levels.old.items ++ levels_in arc_value more.now) }
{
    for level in more {
        levels.push(shared(level)?)?;
    }
    Ok(())
}

// Appends that many levels without chunks.
fn push_bare(levels: &mut Vec<SharedLevel>, count: usize) -> Result<(), AllocError>
    ensures { OnOk result (levels_in arc_value levels.new.items ≡ levels_in arc_value levels.old.items ++ replicate count []) }
{
    for _ in 0..count {
        levels.push(None)?;
    }
    Ok(())
}

impl View {
    /// The root's view: nothing.
    pub fn none() -> View
        ensures { result ≡ [] }
    {
        View {
            bare: 0,
            levels: None,
        }
    }

    // Appends its levels, shared.
    fn push_onto(&self, levels: &mut Vec<SharedLevel>) -> Result<(), AllocError>
        ensures { OnOk result (levels_in arc_value levels.new.items ≡ levels_in arc_value levels.old.items ++ self.now) }
    {
        push_bare(levels, self.bare)?;
        match &self.levels {
            Some(more) => push_levels(levels, &more.list),
            None => Ok(()),
        }
    }

    /// This level, in front of those that a task sees itself.
    pub fn below(alloc: Global, shelf: Shelf, above: Option<&View>) -> Result<View, AllocError>
        ensures { IfOk result (λ view. view ≡ shelf ∷ levels_above (option_copied above.entry)) }
    {
        let mut levels = Vec::new(alloc);
        levels.push(Some(Arc::new(alloc, shelf)?))?;
        if let Some(view) = above {
            view.push_onto(&mut levels)?;
        }
        Ok(View {
            bare: 0,
            levels: Some(Arc::new(alloc, Levels { list: levels })?),
        })
    }

    /// A level without chunks, in front of those that a task sees itself.
    pub fn below_bare(above: Option<&View>) -> Result<View, AllocError>
        ensures { IfOk result (λ view. view ≡ [] ∷ levels_above (option_copied above.entry)) }
    {
        let Some(view) = above else {
            return Ok(View {
                bare: 1,
                levels: None,
            });
        };
        match view.bare.checked_add(1) {
            Some(bare) => Ok(View {
                bare,
                levels: same_levels(&view.levels)?,
            }),
            None => Err(AllocError),
        }
    }

    /// The same levels, shared.
    pub fn copy(&self) -> Result<View, AllocError>
        ensures { IfOk result (λ view. view ≡ self.now) }
    {
        Ok(View {
            bare: self.bare,
            levels: same_levels(&self.levels)?,
        })
    }

    // The immutable objects of a chunk.
    fn piece(&self, number: u32) -> Option<&Piece>
        ensures { option_copied result ≡ nearest self.now number }
    {
        match &self.levels {
            None => None,
            Some(levels) => piece_of(&levels.list, number),
        }
    }

    /// The kind of the immutable object at an address, in the nearest level that has the address's chunk: None if no
    /// level has it, or no immutable object begins there.
    pub fn find(&self, a: Addr) -> Option<Header>
        ensures { result ≡ option_map header_of (seen_at self.now a) }
    {
        match self.piece(a.chunk) {
            None => None,
            Some(piece) => piece.header(a.offset),
        }
    }

    /// A reference of the immutable object at an address; None for nil.
    pub fn ref_at(&self, a: Addr, field: u32) -> Option<Addr>
        requires { field < length (or_no_cell (seen_at self.now a)).refs }
        ensures value { slice_get (or_no_cell (seen_at self.now a)).refs field ≡ Some result }
        ensures place { BeginsInFirstUnit result }
    {
        match self.piece(a.chunk) {
            None => None,
            Some(piece) => piece.reference(a.offset, field),
        }
    }

    /// A number of the immutable object at an address.
    pub fn int_at(&self, a: Addr, field: u32) -> i64
        requires { field < length (or_no_cell (seen_at self.now a)).ints }
        ensures { slice_get (or_no_cell (seen_at self.now a)).ints field ≡ Some result }
    {
        match self.piece(a.chunk) {
            None => 0,
            Some(piece) => piece.int(a.offset, field),
        }
    }
}
