// A log without a faulty line, cut into pieces.

ghost use Rattle.std.specs.Prelude.{◌≡◌, IfOk, IfErr, None};
ghost use Rattle.log_form.specs.Events.{events_of, is_cut};
ghost use Rattle.log_form.specs.Faults.{log_fault};
ghost use Rattle.log_pieces.specs.Pieces.{events_of_pieces};
ghost use Rattle.or_no_memory.specs.Refusals.{Reports};

use crate::piece::LogPiece;
use crate::walk::LineWalk;
use log_form::LocatedFault;
use or_no_memory::OrNoMemory;
use plain_vec::Listed;
use std::alloc::Global;

/// A log that has no faulty line.
#[derive(Drop)]
pub struct CutLog {
    /// Pieces of its files, in their order, that have all that happens.
    pub pieces: Listed<LogPiece>,
    /// Whether the end of a file is missing.
    pub is_cut: bool,
}

/// Cuts the texts of a log's files into pieces.
pub fn cut_log(alloc: Global, texts: &[Listed<u8>]) -> Result<CutLog, OrNoMemory<LocatedFault>>
    ensures whole { IfOk result (λ log. log_fault texts.now ≡ None) }
    ensures cut { IfOk result (λ log. log.is_cut ≡ is_cut texts.now) }
    ensures pieces { IfOk result (λ log. events_of_pieces texts.now log.pieces ≡ events_of texts.now) }
    ensures refused { IfErr result (Reports (log_fault texts.now)) }
{
    let mut walk = LineWalk::new(alloc);
    match walk.take_files(texts)? {
        Ok(is_cut) => Ok(CutLog {
            pieces: walk.into_pieces(),
            is_cut,
        }),
        Err(found) => Err(OrNoMemory::Refused(found)),
    }
}
