// Rows in memory that is only read: cell c of row r lies at r × columns + c. Whether they were checked is told by the type.
ghost use Rattle.std.specs.Prelude.{◌≡◌, ◌*◌, true, false, length, MatchResult};
ghost use Rattle.memory.specs.Rows.{row_at, are_rows, number_of};

use crate::{ColumnCount, row_at};
use std::marker::PhantomData;

// The state of rows that were checked: 1 to 16 columns, and no cells besides the rows.
#[derive(Clone, Copy)]
pub enum Whole {}

// The state of rows in memory as it is lent, longer or shorter than they are.
#[derive(Clone, Copy)]
pub enum Lent {}

#[derive(Clone, Copy)]
pub struct MemoryRows<'a, C, State> {
    cells: &'a [C],
    columns: usize,
    count: usize,
    state: PhantomData<State>,
}

pub type Rows<'a, C> = MemoryRows<'a, C, Whole>;

pub type LentRows<'a, C> = MemoryRows<'a, C, Lent>;

// Why memory is not taken as rows.
#[derive(Clone, Copy, Debug, PartialEq, Eq)]
pub enum RowsRefusal {
    NotWholeRows = 16,
}

impl RowsRefusal {
    // The number by which the refusal goes.
    pub fn number(self) -> u8
        ensures { result ≡ number_of self }
    {
        self as u8
    }
}

impl<'a, C> MemoryRows<'a, C, Whole> {
    // The rows that lie in `cells`, if the columns are 1 to 16 and the rows are whole.
    pub fn new(cells: &'a [C], columns: usize) -> Result<Rows<'a, C>, RowsRefusal>
        ensures { MatchResult result (λ t. (are_rows columns (length cells.now) ≡ true) × (t.cells.now ≡ cells.now) × (t.columns ≡ columns) × (t.count * columns ≡ length cells.now)) (λ _. are_rows columns (length cells.now) ≡ false) }
    {
        let Some(width) = ColumnCount::new(columns) else {
            return Err(RowsRefusal::NotWholeRows);
        };
        if cells.len() % width.get() != 0 {
            return Err(RowsRefusal::NotWholeRows);
        }
        Ok(MemoryRows {
            cells,
            columns,
            count: cells.len() / columns,
            state: PhantomData,
        })
    }
}

impl<'a, C> MemoryRows<'a, C, Lent> {
    // So many rows from the front of the memory, without a check.
    pub fn first(cells: &'a [C], columns: usize, count: usize) -> LentRows<'a, C>
        ensures { (result.cells.now ≡ cells.now) × (result.columns ≡ columns) × (result.count ≡ count) }
    {
        MemoryRows {
            cells,
            columns,
            count,
            state: PhantomData,
        }
    }
}

impl<'a, C, State> MemoryRows<'a, C, State> {
    // How many rows there are.
    pub fn count(&self) -> usize
        ensures { result ≡ self.now.count }
    {
        self.count
    }

    // How many cells a row has.
    pub fn columns(&self) -> usize
        ensures { result ≡ self.now.columns }
    {
        self.columns
    }

    // The memory that the rows lie in.
    pub fn cells(&self) -> &'a [C]
        ensures { result.now ≡ self.now.cells.now }
    {
        self.cells
    }

    // Row i of the memory, with the cells that are there.
    pub fn row(&self, i: usize) -> &'a [C]
        ensures { result.now ≡ row_at self.now.columns self.now.cells.now i }
    {
        row_at(self.cells, self.columns, i)
    }
}
