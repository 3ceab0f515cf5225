// Pieces of files.

use fork_graph::GraphStrand;

/// Some bytes of a file, from `begin` up to `end`, whose acts are all of one strand.
#[derive(Clone, Copy)]
pub struct LogPiece {
    pub strand: GraphStrand,
    pub file: usize,
    pub begin: usize,
    pub end: usize,
}
