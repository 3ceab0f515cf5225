// The walk along the lines of a log's files.

ghost use Rattle.std.specs.Prelude.{◌≡◌, ◌<◌, [], ◌∷◌, ◌++◌, List, IfOk, OnOk, None, Some, Ok, true, false, if◌then◌else◌, option_map};
ghost use Rattle.log_lines.specs.Grammar.{line_of};
ghost use Rattle.log_lines.specs.Limits.{strand_limit, IsLine};
ghost use Rattle.log_form.specs.Events.{Event, Spot, has_ended, spot_behind, spot_behind_act, spot_behind_said, is_last, strand_behind};
ghost use Rattle.log_form.specs.Faults.{act_fault, said_fault, line_fault};
ghost use Rattle.log_pieces.specs.Claims.{ClaimsHold, StrandIsWithin};
ghost use Rattle.log_pieces.specs.LineWalk.{IsAtSpot, OpenStrandIsSmall, open_place, cut_of, cut_behind_act, cut_behind, cut_behind_said, turned, open_behind, with_piece};

use crate::claims::Claims;
use crate::piece::LogPiece;
use fork_graph::GraphStrand;
use log_form::LogFault;
use log_lines::{Act, LogLine, read_line};
use plain_vec::Listed;
use std::alloc::{AllocError, Global};

/// The strand on which the next line of a file stands.
#[derive(Clone, Copy)]
pub(crate) struct OpenStrand {
    pub(crate) strand: GraphStrand,
    /// Whether the strand has ended.
    pub(crate) ended: bool,
    /// Where its piece begins.
    pub(crate) begin: usize,
}

/// How far a walk along the lines of a log has come.
#[derive(Drop)]
pub(crate) struct LineWalk {
    /// What was said so far.
    pub(crate) claims: Claims,
    /// The pieces so far.
    pub(crate) pieces: Listed<LogPiece>,
    /// The number of the file.
    pub(crate) file: usize,
    /// Whether the file's end came.
    pub(crate) closed: bool,
    pub(crate) here: Option<OpenStrand>,
}

impl LineWalk {
    /// Before the first file.
    pub(crate) fn new(alloc: Global) -> LineWalk
        ensures follows { IsAtSpot result (record { here = None; closed = false; events = [] }) }
        ensures pieces { result.pieces ≡ [] }
        ensures file { result.file ≡ 0 }
    {
        LineWalk {
            claims: Claims::new(alloc),
            pieces: Listed::new(alloc),
            file: 0,
            closed: false,
            here: None,
        }
    }

    /// The pieces alone.
    pub(crate) fn into_pieces(self) -> Listed<LogPiece>
        ensures { result ≡ self.pieces }
    {
        let LineWalk {
            claims: _claims,
            pieces,
            file: _,
            closed: _,
            here: _,
        } = self;
        pieces
    }

    /// The piece of the open strand ends.
    pub(crate) fn close(&mut self, end: usize) -> Result<(), AllocError>
        ensures pieces { OnOk result (self.new.pieces ≡ with_piece self.old.file (cut_of self.old).place end self.old.pieces) }
        ensures rest { self.new ≡ record self.old { pieces = self.new.pieces } }
    {
        if let Some(open) = self.here
            && open.begin < end
        {
            self.pieces.push(LogPiece {
                strand: open.strand,
                file: self.file,
                begin: open.begin,
                end,
            })?;
        }
        Ok(())
    }

    // A strand is open from a place on.
    fn begin_strand(&mut self, strand: GraphStrand, begin: usize)
        ensures rest { self.new ≡ record self.old { here = self.new.here } }
        ensures place { option_map open_place self.new.here ≡ Some (strand, begin) }
        ensures here { (events : List Event) → ClaimsHold self.old.claims events → self.new.here ≡ Some (record { strand = strand; ended = has_ended events strand; begin = begin }) }
    {
        let ended = self.claims.has_ended(strand);
        self.here = Some(OpenStrand {
            strand,
            ended,
            begin,
        });
    }

    // The strand that follows is told.
    fn take_strand(
        &mut self,
        strand: GraphStrand,
        begin: usize,
        end: usize,
    ) -> Result<(), AllocError>
        requires { strand.index < strand_limit }
        ensures after { OnOk result ((spot : Spot) → IsAtSpot self.old spot → IsAtSpot self.new (record { here = Some strand; closed = spot.closed; events = spot.events })) }
        ensures small { OnOk result (OpenStrandIsSmall self.new.here) }
        ensures cut { OnOk result (cut_of self.new ≡ record { place = Some (strand, end); pieces = with_piece self.old.file (cut_of self.old).place begin self.old.pieces }) }
        ensures file { self.new.file ≡ self.old.file }
    {
        self.close(begin)?;
        self.begin_strand(strand, end);
        Ok(())
    }

    // The strand has acted, up to a place; where the act was its last one, another strand follows, or none.
    fn turn(&mut self, strand: GraphStrand, act: Act, end: usize) -> Result<(), AllocError>
        requires strand { strand.index < strand_limit }
        requires behind { StrandIsWithin (strand_behind strand act) }
        requires small { OpenStrandIsSmall self.old.here }
        ensures small { OnOk result (OpenStrandIsSmall self.new.here) }
        ensures cut { OnOk result (cut_of self.new ≡ (if is_last act then turned self.old.file (cut_of self.old) strand act end else cut_of self.old)) }
        ensures here { OnOk result ((events : List Event) → ClaimsHold self.old.claims events → self.new.here ≡ (if is_last act then open_behind events strand act end else self.old.here)) }
        ensures rest { self.new ≡ record self.old { here = self.new.here; pieces = self.new.pieces } }
    {
        match act {
            Act::Spawn(_) | Act::Join(_) => {
                self.close(end)?;
                self.begin_strand(
                    GraphStrand {
                        task: strand.task,
                        index: strand.index + 1,
                    },
                    end,
                );
            }
            Act::Finish => {
                self.close(end)?;
                self.here = None;
            }
            _ => {}
        }
        Ok(())
    }

    // An act; why it may not be.
    fn take_act(&mut self, act: Act, end: usize) -> Result<Option<LogFault>, AllocError>
        requires { OpenStrandIsSmall self.old.here }
        ensures small { IfOk result (λ fault. fault ≡ None → OpenStrandIsSmall self.new.here) }
        ensures fault { IfOk result (λ fault. (spot : Spot) → IsAtSpot self.old spot → fault ≡ act_fault spot.events spot.here act) }
        ensures after { IfOk result (λ fault. fault ≡ None → (spot : Spot) → IsAtSpot self.old spot → IsAtSpot self.new (spot_behind_act spot spot.here act)) }
        ensures cut { IfOk result (λ fault. fault ≡ None → cut_of self.new ≡ cut_behind_act self.old.file (cut_of self.old) (cut_of self.old).place act end) }
        ensures file { self.new.file ≡ self.old.file }
    {
        let Some(open) = self.here else {
            return Ok(Some(LogFault::NoStrand));
        };
        if open.ended {
            return Ok(Some(LogFault::StrandEnded));
        }
        let fault = self.claims.take(open.strand, act)?;
        if fault.is_none() {
            self.turn(open.strand, act, end)?;
        }
        Ok(fault)
    }

    // What a line says that stands from one place up to another; why it may not.
    fn take_said(
        &mut self,
        line: LogLine,
        begin: usize,
        end: usize,
    ) -> Result<Option<LogFault>, AllocError>
        requires small { OpenStrandIsSmall self.old.here }
        requires line { IsLine line }
        ensures small { IfOk result (λ fault. fault ≡ None → OpenStrandIsSmall self.new.here) }
        ensures fault { IfOk result (λ fault. (spot : Spot) → IsAtSpot self.old spot → fault ≡ said_fault spot (Ok line)) }
        ensures after { IfOk result (λ fault. fault ≡ None → (spot : Spot) → IsAtSpot self.old spot → IsAtSpot self.new (spot_behind spot line)) }
        ensures cut { IfOk result (λ fault. fault ≡ None → cut_of self.new ≡ cut_behind self.old.file (cut_of self.old) line begin end) }
        ensures file { self.new.file ≡ self.old.file }
    {
        match line {
            LogLine::Version => return Ok(Some(LogFault::NoVersion)),
            LogLine::Strand { task, strand } => {
                self.take_strand(
                    GraphStrand {
                        task,
                        index: strand,
                    },
                    begin,
                    end,
                )?;
            }
            LogLine::Act(act) => return self.take_act(act, end),
            LogLine::End => {
                self.closed = true;
            }
            LogLine::Name(_) | LogLine::Comment => {}
        }
        Ok(None)
    }

    /// A line that stands from one place up to another; why it may not.
    pub(crate) fn take_line(
        &mut self,
        line: &[u8],
        begin: usize,
        end: usize,
    ) -> Result<Option<LogFault>, AllocError>
        requires { OpenStrandIsSmall self.old.here }
        ensures small { IfOk result (λ fault. fault ≡ None → OpenStrandIsSmall self.new.here) }
        ensures fault { IfOk result (λ fault. (spot : Spot) → IsAtSpot self.old spot → fault ≡ line_fault spot (line_of line.now)) }
        ensures after { IfOk result (λ fault. fault ≡ None → (spot : Spot) → IsAtSpot self.old spot → IsAtSpot self.new (spot_behind_said spot (line_of line.now))) }
        ensures cut { IfOk result (λ fault. fault ≡ None → cut_of self.new ≡ cut_behind_said self.old.file (cut_of self.old) (line_of line.now) begin end) }
        ensures file { self.new.file ≡ self.old.file }
    {
        if self.closed {
            return Ok(Some(LogFault::AfterEnd));
        }
        match read_line(line) {
            Ok(line) => self.take_said(line, begin, end),
            Err(cause) => Ok(Some(LogFault::NoLine(cause))),
        }
    }
}
