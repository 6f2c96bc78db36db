// What one verdict finds true and another does not.
ghost use Rattle.std.specs.Prelude.{◌≡◌};
ghost use Rattle.clashes.specs.Pairs.{except};

use verdicts::{Truth, Verdict};

#[derive(Clone, Copy)]
pub struct Except<V, W> {
    of: V,
    but: W,
}

impl<V, W> Except<V, W> {
    pub fn new(of: V, but: W) -> Except<V, W>
        ensures { (result.of ≡ of) × (result.but ≡ but) }
    {
        Except { of, but }
    }
}

impl<V: Verdict, W: Verdict<Cell = V::Cell>> Verdict for Except<V, W> {
    type Cell = V::Cell;

    ghost says = { λ e. except (V.Verdict.says e.of) (W.Verdict.says e.but) };

    fn ask(&self, left: &[V::Cell], right: &[V::Cell]) -> Truth {
        let of = self.of.ask(left, right);
        let but = self.but.ask(left, right);
        Truth::from(of.is_true() && !but.is_true())
    }
}
