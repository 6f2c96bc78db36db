// How cells in memory are cut into rows and batches: plain numbers, checked before a table source is made.
ghost use Rattle.std.specs.Prelude.{◌≡◌, ◌*◌, ◌≤◌, true, MatchResult};
ghost use Rattle.memory.specs.Rows.{are_rows};
ghost use Rattle.sources.specs.Refusals.{is_batch, Refuses};

use crate::ShapeRefusal;
use memory::ColumnCount;

#[derive(Clone, Copy)]
pub struct TableShape {
    pub(crate) rows: usize,
    pub(crate) columns: ColumnCount,
    pub(crate) batch: usize,
    ghost filled: { 1 ≤ batch },
    ghost small: { batch ≤ 1024 },
}

impl TableShape {
    // So many cells as rows of so many columns, in batches of so many rows.
    pub fn check(cells: usize, columns: usize, batch: usize) -> Result<TableShape, ShapeRefusal>
        ensures { MatchResult result (λ t. (is_batch batch ≡ true) × (are_rows columns cells ≡ true) × (t.rows * columns ≡ cells) × (t.columns.count ≡ columns) × (t.batch ≡ batch)) (Refuses cells columns batch) }
    {
        if batch < 1 || batch > 1024 {
            return Err(ShapeRefusal::BatchLength);
        }
        let width = ColumnCount::new(columns).ok_or(ShapeRefusal::NotWholeRows)?;
        if cells % columns != 0 {
            return Err(ShapeRefusal::NotWholeRows);
        }
        Ok(TableShape {
            rows: cells / columns,
            columns: width,
            batch,
        })
    }
}
