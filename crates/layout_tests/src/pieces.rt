// Pieces that are kept of chunks.

use frozen_views::{Layer, Pieces, piece_of};
use object_layout::Chunk;
use std::alloc::Global;
use std::sync::Arc;

// Whether all was released, whether all is shown, the number of layers, and how many share the first.
fn state(alloc: Global, pieces: &Pieces) -> Option<(bool, bool, usize, usize)> {
    let layers = pieces.layers(alloc).ok()?;
    let owners = match layers.first() {
        None => 0,
        Some(layer) => Arc::strong_count(layer),
    };
    Some((pieces.lost(), pieces.is_settled(), layers.len(), owners))
}

// Adds a layer with the piece of an empty chunk with this number.
fn put_one(alloc: Global, pieces: &mut Pieces, number: u32) -> Option<()> {
    let chunk = Chunk::new(alloc, number, 1).ok()?;
    let mut layer = Layer::new(alloc);
    layer.add(alloc, &chunk).ok()?;
    pieces.put(alloc, layer, 1).ok()
}

// The states before a piece is kept, then, once its chunk changed, and once all is released.
fn states(alloc: Global) -> Option<[Option<(bool, bool, usize, usize)>; 4]> {
    let mut pieces = Pieces::new();
    let none = state(alloc, &pieces);
    put_one(alloc, &mut pieces, 4)?;
    let kept = state(alloc, &pieces);
    pieces.note_change(4);
    let changed = state(alloc, &pieces);
    pieces.let_go();
    Some([none, kept, changed, state(alloc, &pieces)])
}

#[test]
fn frozen_views_are_shared(rt: HostRuntime) {
    assert!(rt;
        states(rt.alloc())
            == Some([
                Some((true, false, 0, 0)),
                Some((false, true, 1, 2)),
                Some((false, false, 1, 2)),
                Some((true, false, 0, 0)),
            ])
    );
}

// The layers after n pieces were added one by one.
fn layers_of(alloc: Global, count: u32) -> Option<Vec<Arc<Layer, Global>>> {
    let mut pieces = Pieces::new();
    for number in 0..count {
        put_one(alloc, &mut pieces, number)?;
    }
    pieces.layers(alloc).ok()
}

// The number of n pieces that are found in layers.
fn found_in(layers: &[Arc<Layer, Global>], count: u32) -> usize {
    let mut found: usize = 0;
    for number in 0..count {
        if piece_of(layers, number).is_some() {
            found = found.saturating_add(1);
        }
    }
    found
}

// The number of layers after n pieces were added one by one, and the number of those pieces found in them.
fn counts_of(alloc: Global, count: u32) -> Option<(usize, usize)> {
    let layers = layers_of(alloc, count)?;
    let found = found_in(&layers, count);
    Some((layers.len(), found))
}

#[test]
fn layers_are_few(rt: HostRuntime) {
    assert!(rt; counts_of(rt.alloc(), 3) == Some((2, 3)));
    assert!(rt; counts_of(rt.alloc(), 8) == Some((1, 8)));
    assert!(rt; counts_of(rt.alloc(), 15) == Some((4, 15)));
}
