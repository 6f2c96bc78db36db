// The present layer: of the batches below it, the rows that have a cell in a column.
ghost use Rattle.std.specs.Prelude.{◌≡◌, map};
ghost use Rattle.sources.specs.Present.{present};
ghost use Rattle.sources.specs.Fitting.{present_fits};

use crate::keep::keep_rows;
use crate::{Source, SourceAnswer, SourceRefusal};
use cells::Cell;

#[derive(Drop)]
pub struct Present<S> {
    inner: S,
    column: usize,
}

impl<S> Present<S> {
    pub fn new(inner: S, column: usize) -> Present<S>
        ensures { result ≡ record { inner = inner; column = column } }
    {
        Present { inner, column }
    }
}

impl<S: Source> Source for Present<S> {
    type Cell = S::Cell;

    const S: usize = S::S;

    ghost most = { S.Source.most };

    ghost width = { λ s. S.Source.width s.inner };

    ghost items = { λ s. map (present S.Cell.Cell.is_missing s.column) (S.Source.items s.inner) };

    ghost small = { S.Source.small };

    ghost some = { λ s. S.Source.some s.inner };

    ghost narrow = { λ s. S.Source.narrow s.inner };

    ghost fits = { λ s. present_fits S.Cell.Cell.is_missing s.column S.Source.most (S.Source.width s.inner) (S.Source.items s.inner) (S.Source.fits s.inner) };

    fn largest() -> usize {
        S::largest()
    }

    fn columns(&self) -> usize {
        self.inner.columns()
    }

    fn ask(&mut self, page: &mut [S::Cell]) -> Result<SourceAnswer, SourceRefusal> {
        let columns = self.columns();
        Ok(match self.inner.ask(page)? {
            SourceAnswer::Batch(rows) => {
                SourceAnswer::Batch(keep_rows(page, columns, rows, self.column))
            }
            SourceAnswer::Fault(fault) => SourceAnswer::Fault(fault.deeper()),
            other => other,
        })
    }
}
