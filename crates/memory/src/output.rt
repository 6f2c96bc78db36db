// Output rows, built in place from a left row, a right row and a mark (docs/RULES.md, "Opening a join").
ghost use Rattle.std.specs.Prelude.{◌≡◌, ◌+◌, length, is_ok, if◌then◌else◌, nat_le};
ghost use Rattle.memory.specs.Output.{output_cell, output_row};
ghost use Rattle.memory.specs.Rows.{put_row};

use crate::cell_at;
use crate::page::{NoRoom, fits};
use cells::Cell;
use join_types::{ColumnIndex, JoinSide};

// What an output row is built from: a left row, a right row, and the cell of a mark column.
#[derive(Clone, Copy)]
pub struct OutputParts<'a, C> {
    pub left: &'a [C],
    pub right: &'a [C],
    pub mark: C,
}

impl<C: Cell> OutputParts<'_, C> {
    // The cell of an output column; a side that is padded is the row of no cells.
    fn cell(&self, column: ColumnIndex) -> C
        ensures { result ≡ output_cell C.Cell.missing self.now.left.now self.now.right.now self.now.mark column }
    {
        match column.side {
            JoinSide::Left => cell_at(self.left, column.index),
            JoinSide::Right => cell_at(self.right, column.index),
            JoinSide::None => self.mark,
        }
    }
}

// Writes the output row from a place on, if it fits.
pub fn put_output<C: Cell>(
    page: &mut [C],
    at: usize,
    columns: &[ColumnIndex],
    parts: &OutputParts<C>,
) -> Result<(), NoRoom>
    ensures room { is_ok result ≡ nat_le (at + length columns.now) (length page.old) }
    ensures cells { page.new ≡ (if is_ok result then put_row page.old at (output_row C.Cell.missing columns.now parts.now.left.now parts.now.right.now parts.now.mark) else page.old) }
{
    if !fits(page.len(), at, columns.len()) {
        return Err(NoRoom);
    }
    // Written by index: of what iter_mut().zip(columns) writes, a proof knows nothing.
    for (i, column) in columns.iter().enumerate() {
        page[at + i] = parts.cell(*column);
    }
    Ok(())
}
