// The chunks of a heap in a list, and what tasks see of their immutable objects.
#![tactic(auto)]

mod row;
mod shelf;
mod view;

pub use frozen_views::Pieces;
pub use row::ChunkList;
pub use shelf::{Shelf, missing_pieces};
pub use view::View;
