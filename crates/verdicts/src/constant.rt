// The same answer for every pair, over any kind of cell. Always true stands for a join without a filter.
ghost use Rattle.std.specs.Prelude.{◌≡◌};
ghost use Rattle.verdicts.specs.Truths.{always};

use crate::{Truth, Verdict};
use cells::Cell;
use std::marker::PhantomData;

#[derive(Clone, Copy)]
pub struct Constant<C> {
    truth: Truth,
    kind: PhantomData<C>,
}

impl<C> Constant<C> {
    pub fn new(truth: Truth) -> Constant<C>
        ensures { result.truth ≡ truth }
    {
        Constant {
            truth,
            kind: PhantomData,
        }
    }
}

impl<C: Cell> Verdict for Constant<C> {
    type Cell = C;

    ghost says = { λ c. always c.truth };

    fn ask(&self, _left: &[C], _right: &[C]) -> Truth {
        self.truth
    }
}
