// All pairs of a left and a right row, asked one by one, left row first.
ghost use Rattle.std.specs.Prelude.{◌≡◌, ◌++◌, IfOk, OnOk};
ghost use Rattle.memory.specs.Rows.{rows_in};
ghost use Rattle.clashes.specs.Pairs.{pairs_of, row_pairs, without};

use crate::Except;
use memory::Rows;
use std::alloc::{AllocError, Global};
use verdicts::Verdict;

// A left and a right row, by their numbers from 0.
#[derive(Clone, Copy, Debug, PartialEq, Eq)]
pub struct Pair {
    pub left: usize,
    pub right: usize,
}

// The pairs of the inner nested loop, in its order. Rows are taken by number, since pairs name them so: an iterator would be counted again.
pub fn pairs<V: Verdict>(
    heap: Global,
    verdict: &V,
    left: &Rows<V::Cell>,
    right: &Rows<V::Cell>,
) -> Result<Vec<Pair>, AllocError>
    ensures { IfOk result (λ v. v.items ≡ pairs_of (V.Verdict.says verdict.now) (rows_in left.now) (rows_in right.now)) }
{
    let mut found = Vec::new(heap);
    for i in 0..left.count() {
        add_row(&mut found, verdict, i, left.row(i), right)?;
    }
    Ok(found)
}

// Appends the pairs of one left row.
fn add_row<V: Verdict>(
    found: &mut Vec<Pair>,
    verdict: &V,
    i: usize,
    row: &[V::Cell],
    right: &Rows<V::Cell>,
) -> Result<(), AllocError>
    ensures { OnOk result (found.new.items ≡ found.old.items ++ row_pairs (V.Verdict.says verdict.now) i row.now (rows_in right.now)) }
{
    for j in 0..right.count() {
        if verdict.ask(row, right.row(j)).is_true() {
            found.push(Pair { left: i, right: j })?;
        }
    }
    Ok(())
}

// The pairs of one verdict that another does not have, in order.
pub fn pairs_except<V: Verdict + Copy, W: Verdict<Cell = V::Cell> + Copy>(
    heap: Global,
    of: &V,
    but: &W,
    left: &Rows<V::Cell>,
    right: &Rows<V::Cell>,
) -> Result<Vec<Pair>, AllocError>
    ensures { IfOk result (λ v. v.items ≡ without (pairs_of (V.Verdict.says of.now) (rows_in left.now) (rows_in right.now)) (pairs_of (W.Verdict.says but.now) (rows_in left.now) (rows_in right.now))) }
{
    pairs(heap, &Except::new(*of, *but), left, right)
}
