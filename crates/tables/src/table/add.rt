// Adds a row to a table that gathers.
ghost use Rattle.std.specs.Prelude.{◌≡◌, true, [], ◌∷◌, ◌++◌, is_ok};
ghost use Rattle.std.specs.Result.{result_err};
ghost use Rattle.tables.specs.Tables.{gathered, rows_of, add_refusal, added};

use crate::{LeftTable, TableRefusal, TakesRows};
use cells::Cell;
use memory::put_row;

// As many rows as a table may have.
const MOST_ROWS: usize = 4096;

impl LeftTable<TakesRows> {
    // Writes a row behind the rows held; a refusal changes nothing.
    pub fn add<C: Cell>(&mut self, memory: &mut [C], row: &[C]) -> Result<(), TableRefusal>
        ensures refused { result_err result ≡ add_refusal (gathered self.old memory.old) row.now }
        ensures after { gathered self.new memory.new ≡ added (gathered self.old memory.old) row.now }
        ensures held { is_ok result ≡ true → rows_of (gathered self.new memory.new) ≡ rows_of (gathered self.old memory.old) ++ row.now ∷ [] }
    {
        let columns = self.columns.get();
        if row.len() != columns {
            return Err(TableRefusal::RowLength);
        }
        if self.rows >= MOST_ROWS || put_row(memory, self.rows * columns, row).is_err() {
            return Err(TableRefusal::Full);
        }
        self.rows += 1;
        Ok(())
    }
}
