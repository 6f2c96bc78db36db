// Rows and marks in lent memory: tables, pages and output rows (docs/RULES.md, "The left table", "Pages").
#![tactic(auto)]

mod columns;
mod marks;
mod output;
mod page;
mod row;
mod rows;
mod waiting;

pub use columns::ColumnCount;
pub use marks::{clear_marks, is_marked, mark};
pub use output::{OutputParts, put_output};
pub use page::{NoRoom, has_room, put_row};
pub use row::{cell_at, row_at};
pub use rows::{Lent, LentRows, MemoryRows, Rows, RowsRefusal, Whole};
pub use waiting::WaitingRows;
