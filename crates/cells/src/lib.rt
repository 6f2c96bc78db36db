// The kinds of cell that rows are made of (docs/RULES.md, "Kinds of cells").
#![tactic(auto)]

ghost use Rattle.std.specs.Prelude.{◌≡◌, Bool, true, Decides, ◌≢◌};
ghost use Rattle.cells.specs.Laws.{CodesStand};

mod code;
mod display;
mod full;
mod place;

pub use code::{Code, CodeBytes};
pub use full::Full;
pub use place::Place;

// A kind of cell: a missing cell, a yes and a no cell unlike it and unlike each other, and a test that is true of the missing cell alone.
pub trait Cell: Copy {
    ghost missing: { Self };

    ghost yes: { Self };

    ghost no: { Self };

    ghost is_missing: { Self → Bool };

    fn missing_cell() -> Self
        ensures { result ≡ missing };

    fn yes_cell() -> Self
        ensures { result ≡ yes };

    fn no_cell() -> Self
        ensures { result ≡ no };

    fn is_missing(self) -> bool
        ensures { result ≡ is_missing self };

    ghost tells_missing: { (c : Self) → Decides (is_missing c) (c ≡ missing) };

    ghost yes_not_missing: { yes ≢ missing };

    ghost no_not_missing: { no ≢ missing };

    ghost yes_not_no: { yes ≢ no };
}

// Packing a code and reading its letters undo one another, and the letters tell codes apart.
pub fn codes_stand()
    ensures { CodesStand }
{}
