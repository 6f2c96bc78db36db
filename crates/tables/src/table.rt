// The left table. It counts its rows; the cells lie in memory that is lent with each call.
// Whether rows may still be added is told by its type, so that adding to a sealed table does not compile.
ghost use Rattle.std.specs.Prelude.{◌≡◌, ◌≤◌, IfOk};
ghost use Rattle.std.specs.Result.{result_err};
ghost use Rattle.tables.specs.Refusals.{begin_refusal};

use crate::TableRefusal;
use memory::ColumnCount;
use std::marker::PhantomData;

mod add;

// The state of a table that takes rows.
pub enum TakesRows {}

// The state of a table whose rows are all there. Its memory is only read from now on.
pub enum HasAllRows {}

#[derive(Drop)]
pub struct LeftTable<State> {
    columns: ColumnCount,
    rows: usize,
    state: PhantomData<State>,
    ghost most: { rows ≤ 4096 },
}

pub type Gathering = LeftTable<TakesRows>;

pub type Sealed = LeftTable<HasAllRows>;

impl LeftTable<TakesRows> {
    // A table of no rows.
    pub fn begin(columns: usize) -> Result<Gathering, TableRefusal>
        ensures refused { result_err result ≡ begin_refusal columns }
        ensures begun { IfOk result (λ t. (t.columns.count ≡ columns) × (t.rows ≡ 0)) }
    {
        let columns = ColumnCount::new(columns).ok_or(TableRefusal::Columns)?;
        Ok(LeftTable {
            columns,
            rows: 0,
            state: PhantomData,
        })
    }

    // Ends the gathering.
    pub fn seal(self) -> Sealed
        ensures { (result.columns ≡ self.columns) × (result.rows ≡ self.rows) }
    {
        let LeftTable { columns, rows, .. } = self;
        LeftTable {
            columns,
            rows,
            state: PhantomData,
        }
    }
}

impl<State> LeftTable<State> {
    // How many columns it has.
    pub fn columns(&self) -> usize
        ensures { result ≡ self.now.columns.count }
    {
        self.columns.get()
    }

    // How many rows it holds.
    pub fn rows(&self) -> usize
        ensures { result ≡ self.now.rows }
    {
        self.rows
    }
}
