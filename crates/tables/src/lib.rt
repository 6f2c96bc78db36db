// The left table: rows are gathered in lent memory, then the table is sealed (docs/RULES.md, "The left table").
#![tactic(auto)]

mod laws;
mod refusal;
mod table;

pub use laws::holds_rows;
pub use refusal::TableRefusal;
pub use table::{Gathering, HasAllRows, LeftTable, Sealed, TakesRows};
