// The pieces that are cached of a list of chunks.

ghost use Rattle.std.specs.Prelude.{◌≡◌, ℕ, ◌+◌, ◌-◌, ◌≤◌, ◌++◌, ◌∷◌, [], false, true, IfOk, None, OnErr, OnOk, if◌then◌else◌, length, map, vec_capacity, vec_len};
ghost use Rattle.std.specs.Arc.{arc_value};
ghost use Rattle.std.specs.Option.{option_or};
ghost use Rattle.frozen_views.specs.Level.{nearest, piece_in};
ghost use Rattle.frozen_views.specs.PiecesValue.{is_among, is_settled, numbers_of, written_chunk, NotesChanges};

use super::layer::Layer;
use boxed::BoxedSlot;
use object_layout::Chunk;
use std::alloc::{AllocError, Global};
use std::marker::Model;
use std::sync::Arc;

/// Layers of pieces, the last made first, and the numbers of the chunks that changed since.
///
/// A layer has at most half as many pieces as the one below it, so there are few layers, and each piece moves seldom.
struct Layers {
    layers: Vec<Arc<Layer, Global>>,
    stale: Vec<u32>,
}

impl Drop for Layers {
    fn drop(self) {
        let Layers {
            layers: _,
            stale: _,
        } = self;
    }
}

impl Layers {
    // Counts the chunk of a number as changed; returns whether there was capacity for the number, or it was counted
    // before.
    fn note(&mut self, number: u32) -> bool
        ensures layers { self.new.layers.items ≡ self.old.layers.items }
        ensures noted { result ≡ true → (n : ℕ) → is_among self.new.stale.items n ≡ is_among (self.old.stale.items ++ number ∷ []) n }
        ensures places { vec_capacity self.old.stale - length self.old.stale.items ≤ vec_capacity self.new.stale - length self.new.stale.items + 1 }
        ensures full { result ≡ false → vec_capacity self.old.stale - length self.old.stale.items ≡ 0 }
        ensures new { result ≡ false → is_among self.old.stale.items number ≡ false }
    {
        if ends_in(&self.stale, number) {
            return true;
        }
        if self.stale.len() == self.stale.capacity() {
            return has(&self.stale, number);
        }
        self.stale.push_reserved(number);
        true
    }
}

/// What is cached of the chunks of a list, by their numbers: layers of pieces, and which chunks have changed since the
/// last layer was made.
///
/// Whoever changes the chunks notes it here. Noting a change doesn't allocate: if the list of changed chunks is full
/// and the number isn't in it, everything is dropped. While nothing is cached it takes up a pointer.
pub struct Pieces {
    kept: Option<BoxedSlot<Layers>>,
}

impl Drop for Pieces {
    fn drop(self) {
        let Pieces { kept: _ } = self;
    }
}

impl Model for Pieces {
    ghost use Rattle.std.specs.Prelude.{◌-◌, false, length, map, option_map, vec_capacity};
    ghost use Rattle.std.specs.Arc.{arc_value};
    ghost use Rattle.frozen_views.specs.PiecesValue.{pieces_of, PiecesValue};

    ghost Value = { PiecesValue };

    ghost view = { λ p. pieces_of (option_map (λ l. record { layers = map arc_value l.layers.items; stale = l.stale.items; places = vec_capacity l.stale - length l.stale.items; lost = false }) p.kept) };
}

impl Pieces {
    /// An empty cache.
    pub fn new() -> Pieces
        ensures { result.lost ≡ true }
    {
        Pieces { kept: None }
    }

    /// Reserves capacity for the numbers of `chunks` more chunks that change, if anything is cached.
    pub fn make_places(&mut self, chunks: usize) -> Result<(), AllocError>
        ensures kept { self.new ≡ record self.old { places = self.new.places } }
        ensures places { OnOk result (self.old.lost ≡ false → chunks ≤ self.new.places) }
        ensures more { self.old.places ≤ self.new.places }
    {
        match &mut self.kept {
            None => Ok(()),
            Some(kept) => kept.get_mut().stale.reserve(chunks),
        }
    }

    /// Whether everything was dropped.
    pub fn lost(&self) -> bool
        ensures { result ≡ self.now.lost }
    {
        self.kept.is_none()
    }

    /// Whether the layers show what all chunks hold.
    pub fn is_settled(&self) -> bool
        ensures { result ≡ is_settled self.now }
    {
        match &self.kept {
            None => false,
            Some(kept) => kept.get().stale.is_empty(),
        }
    }

    /// The numbers of the chunks that changed since the last layer was made.
    pub fn stale(&self) -> &[u32]
        ensures { result.now ≡ self.now.stale }
    {
        match &self.kept {
            None => &[],
            Some(kept) => &kept.get().stale,
        }
    }

    /// The chunk of a number is about to change. If there is no capacity for its number, and it isn't counted yet,
    /// everything is dropped.
    pub fn note_change(&mut self, number: u32)
        ensures noted { NotesChanges self.old self.new (number ∷ []) }
        ensures again { is_among self.old.stale number ≡ true → self.old.lost ≡ false → self.new.lost ≡ false }
    {
        let noted = match &mut self.kept {
            None => true,
            Some(kept) => kept.get_mut().note(number),
        };
        if !noted {
            self.kept = None;
        }
    }

    /// Like `note_change`, for a chunk in which an object is about to be written or placed: the piece stays if the
    /// object is mutable.
    #[inline(always)]
    pub fn note_write(&mut self, number: u32, mutable: bool)
        ensures { NotesChanges self.old self.new (written_chunk mutable number) }
    {
        if !mutable {
            self.note_change(number);
        }
    }

    /// Like `note_change`, for each of these chunks.
    pub fn note_changes(&mut self, chunks: &[Chunk])
        ensures { NotesChanges self.old self.new (numbers_of chunks.now) }
    {
        for chunk in chunks {
            self.note_change(chunk.number());
        }
    }

    /// Drops all pieces.
    pub fn let_go(&mut self)
        ensures { self.new.lost ≡ true }
    {
        self.kept = None;
    }

    /// The layers, of which this is the first. If everything was dropped there is no other.
    pub fn layers_below(
        &self,
        alloc: Global,
        first: Layer,
    ) -> Result<Vec<Arc<Layer, Global>>, AllocError>
        ensures { IfOk result (λ layers. (n : ℕ) → nearest (map arc_value layers.items) n ≡ option_or (piece_in first n) (if self.now.lost then None else nearest self.now.layers n)) }
    {
        let mut layers = Vec::new(alloc);
        layers.push(Arc::new(alloc, first)?)?;
        if let Some(kept) = &self.kept {
            share_all(&mut layers, &kept.get().layers)?;
        }
        Ok(layers)
    }

    /// The layers as they are.
    pub fn layers(&self, alloc: Global) -> Result<Vec<Arc<Layer, Global>>, AllocError>
        ensures { IfOk result (λ layers. map arc_value layers.items ≡ self.now.layers) }
    {
        let mut layers = Vec::new(alloc);
        if let Some(kept) = &self.kept {
            share_all(&mut layers, &kept.get().layers)?;
        }
        Ok(layers)
    }

    /// Puts a layer in front of the others, counts no chunk as changed, and reserves capacity for the numbers of chunks
    /// that change. If an allocation fails, nothing changes.
    pub fn put(&mut self, alloc: Global, first: Layer, places: usize) -> Result<(), AllocError>
        ensures layers { OnOk result ((n : ℕ) → nearest self.new.layers n ≡ option_or (piece_in first n) (if self.old.lost then None else nearest self.old.layers n)) }
        ensures stale { OnOk result (self.new.stale ≡ []) }
        ensures kept { OnOk result (self.new.lost ≡ false) }
        ensures places { OnOk result (places ≤ self.new.places) }
        ensures err { OnErr result (self.new ≡ self.old) }
    {
        let mut layers = self.layers_below(alloc, first)?;
        shorten(alloc, &mut layers)?;
        let stale = Vec::with_capacity(alloc, places)?;
        self.kept = Some(BoxedSlot::new(alloc, Layers { layers, stale })?);
        Ok(())
    }
}

// Whether this number is the last of them.
fn ends_in(numbers: &[u32], number: u32) -> bool
    ensures { result ≡ true → is_among numbers.now number ≡ true }
{
    match numbers.last() {
        None => false,
        Some(last) => *last == number,
    }
}

// Whether this number is one of them.
fn has(numbers: &[u32], number: u32) -> bool
    ensures { result ≡ is_among numbers.now number }
{
    numbers.contains(&number)
}

// Appends these layers, shared.
fn share_all(
    layers: &mut Vec<Arc<Layer, Global>>,
    more: &[Arc<Layer, Global>],
) -> Result<(), AllocError>
    ensures { OnOk result (map arc_value layers.new.items ≡ map arc_value layers.old.items ++ map arc_value more.now) }
{
    for layer in more {
        layers.push(Arc::try_clone(layer)?)?;
    }
    Ok(())
}

// Whether the first layer has more than half as many pieces as the second.
fn is_high(layers: &[Arc<Layer, Global>]) -> bool
    ensures { result ≡ true → 2 ≤ length layers.now }
{
    layers.len() >= 2 && layers[0].len() > layers[1].len() / 2
}

// Merges the first two layers.
fn join_first(alloc: Global, layers: &mut Vec<Arc<Layer, Global>>) -> Result<(), AllocError>
    requires { 2 ≤ vec_len layers.old }
    ensures nearest { OnOk result ((n : ℕ) → nearest (map arc_value layers.new.items) n ≡ nearest (map arc_value layers.old.items) n) }
    ensures len { OnOk result (vec_len layers.new + 1 ≡ vec_len layers.old) }
{
    let second = layers.remove(1);
    let first = layers.remove(0);
    let both = Layer::of_both(alloc, &first, &second)?;
    layers.insert(0, Arc::new(alloc, both)?)?;
    Ok(())
}

// Merges layers until each has at most half as many pieces as the next.
fn shorten(alloc: Global, layers: &mut Vec<Arc<Layer, Global>>) -> Result<(), AllocError>
    ensures { OnOk result ((n : ℕ) → nearest (map arc_value layers.new.items) n ≡ nearest (map arc_value layers.old.items) n) }
{
    while is_high(layers) {
        join_first(alloc, layers)?;
    }
    Ok(())
}
