// The strands that are left out.

ghost use Rattle.std.specs.Prelude.{◌≡◌, ◌<◌, ◌++◌, [], ℕ, IfOk, OnOk, Contains, length};
ghost use Rattle.std.specs.List.Sorted.{IsStrictlyIncreasing};
ghost use Rattle.log_form.specs.Events.{events_of};
ghost use Rattle.log_pieces.specs.Pieces.{acts_of_piece, events_of_pieces};
ghost use Rattle.log_left.specs.Left.{code_of, is_left_out, code_if, left_codes, HasLeftOut};

use fork_graph::GraphStrand;
use log_pieces::LogPiece;
use log_strands::{next_act, piece_places};
use log_tasks::{LogTasks, piece_text};
use plain_vec::Listed;
use std::alloc::{AllocError, Global};

// The number of a strand among those of all tasks.
fn code_of(strand: GraphStrand) -> u64
    ensures { result ≡ code_of strand }
{
    (strand.task as u64) * (1 << 32) + strand.index as u64
}

// Whether a piece says what a strand does that has no place.
fn is_left_out(texts: &[Listed<u8>], piece: LogPiece, place: Option<usize>) -> bool
    ensures { result ≡ is_left_out (acts_of_piece texts.now piece) place }
{
    match place {
        Some(_) => false,
        None => next_act(piece_text(texts, piece)).is_some(),
    }
}

// Adds the number of a piece's strand, if it is left out.
fn add_left(codes: &mut Vec<u64>, strand: GraphStrand, is_left_out: bool) -> Result<(), AllocError>
    ensures { OnOk result (codes.new.items ≡ codes.old.items ++ code_if is_left_out strand) }
{
    if is_left_out {
        codes.push(code_of(strand))?;
    }
    Ok(())
}

// The numbers of the strands of pieces that are left out.
fn left_codes(
    alloc: Global,
    texts: &[Listed<u8>],
    pieces: &[LogPiece],
    places: &[Option<usize>],
) -> Result<Vec<u64>, AllocError>
    requires { length places.now ≡ length pieces.now }
    ensures { IfOk result (λ codes. codes.items ≡ left_codes texts.now pieces.now places.now) }
{
    let mut codes = Vec::new(alloc);
    for k in 0..pieces.len() {
        let piece = pieces[k];
        let left = is_left_out(texts, piece, places[k]);
        add_left(&mut codes, piece.strand, left)?;
    }
    Ok(codes)
}

// Each number once, in ascending order.
fn ascending(numbers: Vec<u64>) -> Vec<u64>
    ensures ascending { IsStrictlyIncreasing result.items }
    ensures kept { (n : ℕ) → Contains numbers.items n → Contains result.items n }
    ensures no_other { (n : ℕ) → Contains result.items n → Contains numbers.items n }
{
    let mut sorted = numbers;
    sorted.sort_unstable();
    sorted.dedup();
    sorted
}

/// How many strands do something in a log and have no place in an order of its graph's strands.
pub fn left_out(
    alloc: Global,
    texts: &[Listed<u8>],
    pieces: &[LogPiece],
    tasks: &LogTasks,
    order: &[GraphStrand],
) -> Result<usize, AllocError>
    requires { events_of_pieces texts.now pieces.now ≡ events_of texts.now }
    ensures { IfOk result (HasLeftOut (events_of texts.now) tasks.now order.now) }
{
    let places = piece_places(alloc, tasks, order, pieces)?;
    let codes = left_codes(alloc, texts, pieces, places.as_slice())?;
    Ok(ascending(codes).len())
}
