// Songs from text: two blocks of value lines under a names line (docs/RULES.md, "The clash list program").
#![tactic(auto)]

mod blocks;
mod read;
mod songs;
mod walk;

pub use blocks::{Gap, find_gap};
pub use read::read_songs;
pub use songs::{PassedLine, SongError, Songs};
