// The cells of a line: the texts between its commas.
ghost use Rattle.std.specs.Prelude.{◌≡◌, ◌+◌, ◌==◌, List, length, MatchBool};
ghost use Rattle.cells.specs.declared.full.Full.{Full as Cell};
ghost use Rattle.lines.specs.Written.{Means, commas};

use crate::cell::read_cell;
use cells::Full;

fn is_comma(b: &u8) -> bool
    ensures { result ≡ (b.now == 44) }
{
    *b == b','
}

// How many cells a line has.
// A sum of ones: the compiler adds up several bytes at a time, which it does not do for `filter` or `split` with `count`.
pub(crate) fn count(line: &[u8]) -> usize
    ensures { result ≡ commas line.now + 1 }
{
    let commas: usize = line.iter().map(|b| usize::from(is_comma(b))).sum();
    commas + 1
}

// Whether a line stands for a row.
pub(crate) fn stands(line: &[u8]) -> bool
    ensures { MatchBool result ((row : List Cell) × Means row line.now) ((row : List Cell) → Means row line.now → ⊥) }
{
    line.split(is_comma).all(|text| read_cell(text).is_some())
}

// Fills a row with the cells of a line that stands for one.
// The row is written by index: of what is written through `iter_mut` and `zip` a proof knows nothing afterwards.
pub(crate) fn fill(line: &[u8], row: &mut [Full])
    requires count { commas line.now + 1 ≡ length row.old }
    requires stands { (any : List Cell) × Means any line.now }
    ensures { Means row.new line.now }
{
    for (n, text) in line.split(is_comma).enumerate() {
        match read_cell(text) {
            Some(cell) => row[n] = cell,
            None => unreachable(),
        }
    }
}
