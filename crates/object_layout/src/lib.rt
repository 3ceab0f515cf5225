// Objects in the words of a chunk: how they are laid out, read and written.
#![tactic(auto)]

mod chunk;
mod laws;
mod piece;
mod reference;
mod word;
mod words;

pub use chunk::{
    Chunk, birth_at, copy_behind, drop_at, forward, forwarded_at, freeze, header_at, int_at,
    is_born_at, is_object_at, next_at, ref_at, set_birth, set_int, set_int_behind, set_ref,
    write_filled, write_new,
};
pub use chunk_sizes::{CHUNK_WORDS, units};
pub use laws::{
    appended_is_last, led_are_read, objects_lie_there, put_changes_one, sifted_are_filtered,
};
pub use piece::Piece;
pub use reference::is_same_reference;
pub use word::{Addr, Birth, Header};
pub use words::Words;
