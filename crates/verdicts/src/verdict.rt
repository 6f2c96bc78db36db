// What a verdict is.
ghost use Rattle.std.specs.Prelude.{◌≡◌, List};
ghost use Rattle.verdicts.specs.declared.truth.Truth.{Truth};

use crate::Truth;
use cells::Cell;

// A verdict means a function of a left and a right row. Asking changes nothing.
pub trait Verdict {
    type Cell: Cell;

    ghost says: { Self → List Self.Cell → List Self.Cell → Truth };

    fn ask(&self, left: &[Self::Cell], right: &[Self::Cell]) -> Truth
        ensures { result ≡ says self.now left.now right.now };
}
