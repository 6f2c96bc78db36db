// The table source: rows in lent memory, in batches of one length.
ghost use Rattle.std.specs.Prelude.{◌≡◌};
ghost use Rattle.std.proofs.Common.{lit≤};
ghost use Rattle.sources.specs.Cuts.{whole_rows, batches_of};
ghost use Rattle.sources.specs.Fitting.{table_fits};

use crate::{Source, SourceAnswer, SourceRefusal, TableShape};
use cells::Cell;

// The largest batch of every table source.
const LARGEST: usize = 1024;

// The rows still to come, in order.
#[derive(Drop)]
pub struct TableSource<'a, C> {
    cells: &'a [C],
    shape: TableShape,
}

impl<'a, C> TableSource<'a, C> {
    ghost use Rattle.sources.specs.Tables.{table_rows};

    // The rows that the shape has. Where the memory is shorter, the whole rows that lie in it.
    pub fn new(shape: TableShape, cells: &'a [C]) -> TableSource<'a, C>
        ensures rows { whole_rows shape.columns.count result.cells.now ≡ table_rows shape cells.now }
        ensures shape { result.shape ≡ shape }
    {
        let columns = shape.columns.get();
        let rows = shape.rows.min(cells.len() / columns);
        TableSource {
            cells: &cells[..rows * columns],
            shape,
        }
    }
}

impl<'a, C: Cell> Source for TableSource<'a, C> {
    type Cell = C;

    const S: usize = LARGEST;

    ghost most = { 1024 };

    ghost width = { λ s. s.shape.columns.count };

    ghost items = { λ s. batches_of s.shape.batch (whole_rows s.shape.columns.count s.cells.now) };

    ghost small = { lit≤ tt };

    ghost some = { λ s. s.shape.columns.some };

    ghost narrow = { λ s. s.shape.columns.few };

    ghost fits = { λ s. table_fits s.shape.batch s.shape.columns.count s.cells.now s.shape.small };

    fn largest() -> usize {
        LARGEST
    }

    fn columns(&self) -> usize {
        self.shape.columns.get()
    }

    fn ask(&mut self, page: &mut [C]) -> Result<SourceAnswer, SourceRefusal> {
        let columns = self.columns();
        if page.len() < LARGEST * columns {
            return Err(SourceRefusal::PageTooShort);
        }
        let count = self.shape.batch.min(self.cells.len() / columns);
        if count == 0 {
            return Ok(SourceAnswer::End);
        }
        let (front, rest) = self.cells.split_at(count * columns);
        page[..front.len()].copy_from_slice(front);
        self.cells = rest;
        Ok(SourceAnswer::Batch(count))
    }
}
