//! The bytes of files: read a piece at a time, and written as a whole.
#![tactic(auto)]

mod fault;
mod read;
mod write;

pub use fault::ReadFault;
pub use read::{Piece, TakesPieces, read_file, read_whole};
pub use write::{begin_write, write_bytes};
