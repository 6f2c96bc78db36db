// Sources: what brings rows, one item at a time (docs/RULES.md, "Sources").
#![tactic(auto)]

mod answer;
mod drained;
mod draining;
mod keep;
mod laws;
mod pile;
mod present;
mod refusal;
mod shape;
mod source;
mod table;

pub use answer::{Fault, SourceAnswer, SourceRefusal};
pub use drained::{DrainError, Drained};
pub use draining::drain;
pub use laws::{piles_compose, table_brings_rows};
pub use pile::rows_with_both;
pub use present::Present;
pub use refusal::ShapeRefusal;
pub use shape::TableShape;
pub use source::Source;
pub use table::TableSource;
