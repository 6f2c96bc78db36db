// What holds of adding rows one after another, as the contract of a call that does nothing.
ghost use Rattle.tables.specs.Laws.{HoldsRows};

use cells::Cell;

// Rows of one width that fit, added to a table begun with that width, are held exactly so and in order.
pub fn holds_rows<C: Cell>()
    ensures { HoldsRows C }
{}
