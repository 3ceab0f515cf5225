// The pieces of each strand.

ghost use Rattle.std.specs.Prelude.{◌≡◌, ◌+◌, ◌<◌, ℕ, IfOk, OnOk, None, Some, Option, length, drop, slice_get, if◌then◌else◌};
ghost use Rattle.std.specs.HashMap.{get};
ghost use Rattle.log_pieces.specs.Claims.{is_pair, is_that};
ghost use Rattle.log_pieces.specs.Pieces.{acts_in, acts_of_piece};
ghost use Rattle.log_touches.specs.Chains.{firsts_from, next_on, ArePieceLinks};

use fork_graph::GraphStrand;
use log_pieces::{LogPiece, StrandHasher, piece_lines};
use plain_vec::Listed;
use std::alloc::{AllocError, Global};
use std::collections::HashMap;
use std::hash::BuildHasherDefault;
use std::marker::Model;

/// The place of each strand's first piece, and for each piece the place of the next one of its strand.
#[derive(Drop)]
pub(crate) struct Links {
    pub(crate) heads: HashMap<(u32, u32), usize, BuildHasherDefault<StrandHasher>>,
    pub(crate) nexts: Listed<Option<usize>>,
}

/// The pieces of a log's texts, by their strands. It takes a row a piece.
#[derive(Drop)]
pub struct StrandPieces<'l> {
    texts: &'l [Listed<u8>],
    pieces: &'l [LogPiece],
    /// The number of each piece's first act.
    firsts: Listed<u64>,
    links: Links,
}

impl<'l> Model for StrandPieces<'l> {
    ghost use Rattle.std.specs.Prelude.{◌≡◌};
    ghost use Rattle.log_touches.specs.Chains.{LogPiecesValue, firsts_from, ArePieceLinks};

    ghost Value = { LogPiecesValue };

    ghost view = { λ p. record { texts = p.texts.now; pieces = p.pieces.now } };

    ghost invariant = { λ p. (p.firsts ≡ firsts_from p.texts.now 0 p.pieces.now) × ArePieceLinks p.pieces.now p.links };
}

// The piece at a place.
fn piece_at(pieces: &[LogPiece], place: usize) -> LogPiece
    requires { place < length pieces.now }
    ensures { slice_get pieces.now place ≡ Some result }
{
    pieces[place]
}

// A piece of a strand comes before all others; the place of the one that was first.
fn put_first(
    heads: &mut HashMap<(u32, u32), usize, BuildHasherDefault<StrandHasher>>,
    strand: GraphStrand,
    place: usize,
) -> Result<Option<usize>, AllocError>
    ensures old { IfOk result (λ old. old ≡ get is_pair heads.old (strand.task, strand.index)) }
    ensures new { OnOk result ((t i : ℕ) → get is_pair heads.new (t, i) ≡ (if is_that strand t i then Some place else get is_pair heads.old (t, i))) }
{
    Ok(heads.insert((strand.task, strand.index), place)?)
}

// No strand has a piece; there is room for as many strands.
fn no_heads(
    alloc: Global,
    strands: usize,
) -> Result<HashMap<(u32, u32), usize, BuildHasherDefault<StrandHasher>>, AllocError>
    ensures { IfOk result (λ heads. (t i : ℕ) → get is_pair heads (t, i) ≡ None) }
{
    HashMap::with_capacity_and_hasher(alloc, strands, BuildHasherDefault::new())
}

// The links between pieces of one strand; there is room for as many strands.
fn links_of(alloc: Global, pieces: &[LogPiece], strands: usize) -> Result<Links, AllocError>
    ensures { IfOk result (ArePieceLinks pieces.now) }
{
    let mut heads = no_heads(alloc, strands)?;
    let mut nexts = Listed::from_vec(vec![in alloc; None; pieces.len()]?);
    let mut place = pieces.len();
    while place > 0 {
        place -= 1;
        let piece = piece_at(pieces, place);
        let next = put_first(&mut heads, piece.strand, place)?;
        nexts.set(place, next);
    }
    Ok(Links { heads, nexts })
}

impl<'l> StrandPieces<'l> {
    ghost use Rattle.std.specs.Prelude.{◌≡◌, ◌+◌, ◌<◌, IfOk, IfSome, length, drop, slice_get, Some};
    ghost use Rattle.log_pieces.specs.declared.piece.LogPiece.{LogPiece};
    ghost use Rattle.log_pieces.specs.Pieces.{acts_in, acts_of_piece};
    ghost use Rattle.log_touches.specs.Chains.{firsts_from, next_on, NumbersPiece};

    /// The pieces of texts by their strands, with the number of each piece's first act; there is room for as many
    /// strands.
    pub fn new(
        alloc: Global,
        texts: &'l [Listed<u8>],
        pieces: &'l [LogPiece],
        firsts: Listed<u64>,
        strands: usize,
    ) -> Result<StrandPieces<'l>, AllocError>
        requires { firsts ≡ firsts_from texts.now 0 pieces.now }
        ensures { IfOk result (λ p. p ≡ record { texts = texts.entry.now; pieces = pieces.entry.now }) }
    {
        let links = links_of(alloc, pieces, strands)?;
        Ok(StrandPieces {
            texts,
            pieces,
            firsts,
            links,
        })
    }

    /// The place of a strand's first piece.
    pub(crate) fn first_on(&self, strand: GraphStrand) -> Option<usize>
        ensures place { result ≡ next_on strand 0 self.now.pieces }
        ensures there { IfSome result (λ i. i < length self.now.pieces) }
    {
        self.links.heads.get(&(strand.task, strand.index)).copied()
    }

    /// The place of the next piece of the strand that has the piece at a place.
    pub(crate) fn next_after(&self, place: usize) -> Option<usize>
        requires { place < length self.now.pieces }
        ensures place { (p : LogPiece) → slice_get self.now.pieces place ≡ Some p → result ≡ next_on p.strand (place + 1) (drop (place + 1) self.now.pieces) }
        ensures there { IfSome result (λ i. i < length self.now.pieces) }
    {
        *self.links.nexts.at(place)
    }

    /// The lines of the piece at a place, and the number of its first act.
    pub(crate) fn piece(&self, place: usize) -> (&[u8], u64)
        requires { place < length self.now.pieces }
        ensures acts { (p : LogPiece) → slice_get self.now.pieces place ≡ Some p → acts_in result.0.now ≡ acts_of_piece self.now.texts p }
        ensures number { NumbersPiece self.now place result.1 }
    {
        let piece = piece_at(self.pieces, place);
        (piece_lines(self.texts, piece), *self.firsts.at(place))
    }
}
