// Which rows of a page the present layer keeps.
ghost use Rattle.std.specs.Prelude.{◌≡◌, ◌*◌, ◌≤◌, length, take, filter};
ghost use Rattle.memory.specs.Rows.{rows_from, cells_of};
ghost use Rattle.sources.specs.Present.{has_cell};

use cells::Cell;
use memory::row_at;

// Whether a row has a cell in a column that is not missing.
fn has_cell<C: Cell>(row: &[C], column: usize) -> bool
    ensures { result ≡ has_cell C.Cell.is_missing column row.now }
{
    row.get(column).is_some_and(|cell| !cell.is_missing())
}

// Moves the rows that have a cell in a column to the front of the page, in order, and counts them.
// They are read from the page that they move within, so the loop goes by index: an iterator over the rows would hold the page.
#[tactic(auto, using(crate::proofs::Keeping::row_within))]
pub(crate) fn keep_rows<C: Cell>(
    page: &mut [C],
    columns: usize,
    rows: usize,
    column: usize,
) -> usize
    requires { rows * columns ≤ length page.old }
    ensures count { result ≡ length (filter (has_cell C.Cell.is_missing column) (rows_from rows columns page.old)) }
    ensures front { take (result * columns) page.new ≡ cells_of (filter (has_cell C.Cell.is_missing column) (rows_from rows columns page.old)) }
{
    let mut count = 0;
    for i in 0..rows {
        if has_cell(row_at(page, columns, i), column) {
            let from = i * columns;
            page.copy_within(from..from + columns, count * columns);
            count += 1;
        }
    }
    count
}
