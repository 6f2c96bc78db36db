// A verdict on full rows, asked of places: column 0 of a row is the number of a row in a table.
ghost use Rattle.std.specs.Prelude.{◌≡◌};
ghost use Rattle.verdicts.specs.Placed.{placed};

use crate::{Truth, Verdict};
use cells::{Full, Place};
use memory::{Rows, cell_at};

#[derive(Clone, Copy)]
pub struct ByPlace<'a, V> {
    verdict: V,
    left: Rows<'a, Full>,
    right: Rows<'a, Full>,
}

impl<'a, V> ByPlace<'a, V> {
    pub fn new(verdict: V, left: Rows<'a, Full>, right: Rows<'a, Full>) -> ByPlace<'a, V>
        ensures { (result.verdict ≡ verdict) × (result.left ≡ left.entry) × (result.right ≡ right.entry) }
    {
        ByPlace {
            verdict,
            left,
            right,
        }
    }
}

impl<'a, V: Verdict<Cell = Full>> Verdict for ByPlace<'a, V> {
    type Cell = Place;

    ghost says = { λ p l r. V.Verdict.says p.verdict (placed p.left.columns p.left.cells.now l) (placed p.right.columns p.right.cells.now r) };

    fn ask(&self, left: &[Place], right: &[Place]) -> Truth {
        self.verdict
            .ask(row_of(&self.left, left), row_of(&self.right, right))
    }
}

// The row that the place in column 0 names; where it names none, no cells.
fn row_of<'a>(rows: &Rows<'a, Full>, places: &[Place]) -> &'a [Full]
    ensures { result.now ≡ placed rows.now.columns rows.now.cells.now places.now }
{
    match cell_at(places, 0) {
        Place::Row(n) => rows.row(n as usize),
        Place::Missing | Place::YesNo(_) => &[],
    }
}
