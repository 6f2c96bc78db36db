// One call for each law about all sources.
ghost use Rattle.sources.specs.Laws.{TableBrings, PilesCompose};

use crate::Source;
use cells::Cell;

// A table source brings each row of its table once, in order, in whole batches with the remainder last.
pub fn table_brings_rows<C: Cell>()
    ensures { TableBrings C }
{}

// Present layers over any source, piled to any height, have the meaning composed of theirs.
pub fn piles_compose<S: Source>()
    ensures { PilesCompose S.Cell.Cell.is_missing S.Source.items }
{}
