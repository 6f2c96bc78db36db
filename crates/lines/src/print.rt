// Prints a row as the line that stands for it.
ghost use Rattle.std.specs.Prelude.{◌≡◌, IfOk, Some, string_bytes};
ghost use Rattle.lines.specs.Printed.{row_text};

use cells::Full;
use std::alloc::{AllocError, Global};
use std::fmt;

// A row, printed cell after cell, with commas between.
#[derive(Clone, Copy)]
pub struct Line<'a> {
    pub cells: &'a [Full],
}

impl fmt::Display for Line<'_> {
    ghost output = { λ line. Some (row_text line.cells.now) };

    fn fmt<W: fmt::Write>(&self, f: &mut fmt::Formatter<W>) -> fmt::Result {
        let Some((first, rest)) = self.cells.split_first() else {
            return Ok(());
        };
        f.write(*first)?;
        for cell in rest {
            write!(f, ",{cell}")?;
        }
        Ok(())
    }
}

// What is printed of a row.
pub fn row_text(heap: Global, row: &[Full]) -> Result<String, AllocError>
    ensures { IfOk result (λ s. string_bytes s ≡ row_text row.now) }
{
    Line { cells: row }.to_string(heap)
}
