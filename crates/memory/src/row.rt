// One row: where it lies, and its cells by column.
ghost use Rattle.std.specs.Prelude.{◌≡◌, slice_index_or};
ghost use Rattle.memory.specs.Rows.{row_at};

use cells::Cell;

// The cell in a column of a row; one that does not exist is missing.
pub fn cell_at<C: Cell>(row: &[C], column: usize) -> C
    ensures { result ≡ slice_index_or row.now column C.Cell.missing }
{
    row.get(column).copied().unwrap_or(C::missing_cell())
}

// Row i of memory with so many cells to a row; past the end, no cells.
pub fn row_at<C>(cells: &[C], columns: usize, i: usize) -> &[C]
    ensures { result.now ≡ row_at columns cells.now i }
{
    let len = cells.len();
    let at = i.saturating_mul(columns);
    let from = at.min(len);
    let to = at.saturating_add(columns).min(len);
    &cells[from..to]
}
