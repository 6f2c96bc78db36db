// Rows from lines of text, and back (docs/RULES.md, "Lines of text").
#![tactic(auto)]

mod cell;
mod guard;
mod laws;
mod line;
mod print;
mod reader;

pub use cell::read_cell;
pub use laws::{one_meaning, printed_reads_back};
pub use print::{Line, row_text};
pub use reader::{Answer, LineRefusal, line_end, pass_line, read_row};
