// A pile in use: two present layers over a table source.
ghost use Rattle.std.specs.Prelude.{[], ◌∷◌};
ghost use Rattle.sources.specs.Tables.{PileDrains};

use crate::{DrainError, Drained, Present, TableShape, TableSource, drain};
use cells::Cell;
use std::alloc::Global;

// The rows of a table that have a cell in both columns, in order. Free is the page, unless it is too short.
pub fn rows_with_both<C: Cell>(
    heap: Global,
    shape: TableShape,
    cells: &[C],
    first: usize,
    second: usize,
    page: &mut [C],
) -> Result<Drained<C>, DrainError>
    ensures { PileDrains C.Cell.is_missing (first ∷ second ∷ []) shape cells.now page.old page.new result }
{
    let table = TableSource::new(shape, cells);
    let mut pile = Present::new(Present::new(table, first), second);
    drain(heap, &mut pile, page)
}
