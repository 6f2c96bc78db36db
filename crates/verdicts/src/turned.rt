// A layer over any verdict that exchanges its rows.
ghost use Rattle.std.specs.Prelude.{◌≡◌};
ghost use Rattle.verdicts.specs.Truths.{turned};

use crate::{Truth, Verdict};

#[derive(Clone, Copy)]
pub struct TurnedAbout<V> {
    verdict: V,
}

impl<V> TurnedAbout<V> {
    pub fn new(verdict: V) -> TurnedAbout<V>
        ensures { result.verdict ≡ verdict }
    {
        TurnedAbout { verdict }
    }
}

impl<V: Verdict> Verdict for TurnedAbout<V> {
    type Cell = V::Cell;

    ghost says = { λ t. turned (V.Verdict.says t.verdict) };

    fn ask(&self, left: &[V::Cell], right: &[V::Cell]) -> Truth {
        self.verdict.ask(right, left)
    }
}
