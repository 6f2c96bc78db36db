// The inner loops of the join, over lent memory (docs/RULES.md, "One step"):
// left rows meet the rows of a right batch, and the rest of a side is appended.
#![tactic(auto)]

mod output;
mod pairs;
mod rests;

pub use output::JoinOutput;
pub use pairs::{PairMarks, Pairing};
