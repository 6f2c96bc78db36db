// Left rows meet the rows of a right batch: marks on both sides, and the output rows of pairs.
ghost use Rattle.std.specs.Prelude.{◌≡◌, ◌+◌, ◌-◌, ◌*◌, ◌≤◌, if◌then◌else◌};
ghost use Rattle.memory.specs.Marks.{marked};
ghost use Rattle.memory.specs.Rows.{rows_in};
ghost use Rattle.nested_loop.specs.Model.{Setup, has_pairs, is_true};
ghost use Rattle.nested_loop.specs.Loop.{output_row};
ghost use Rattle.probing.specs.Waiting.{stretch, waits_in, appended};
ghost use Rattle.probing.specs.Met.{width, PairsBy, met_in, met_row, met_range, MetRoom, MetRows, SameWords};

use crate::JoinOutput;
use cells::Cell;
use memory::{LentRows, OutputParts, WaitingRows, mark};
use std::ops::Range;
use verdicts::Verdict;

// The words of marks of the left rows, and of the rows of a right batch.
// The waiting rows are no part of it: through a struct in a struct, the check loses track of the memory that is lent.
#[derive(Drop)]
pub struct PairMarks<'left, 'right> {
    pub left: &'left mut [u64],
    pub right: &'right mut [u64],
}

impl PairMarks<'_, '_> {
    // Marks left row i and right row j.
    fn mark(&mut self, i: usize, j: usize)
        ensures words { SameWords self.old self.new }
        ensures left { self.new.left.now ≡ marked self.old.left.now i }
        ensures right { self.new.right.now ≡ marked self.old.right.now j }
    {
        mark(self.left, i);
        mark(self.right, j);
    }
}

// What pairs are made by: the verdict, and what their output rows are made by.
#[derive(Drop)]
pub struct Pairing<'a, V> {
    pub verdict: &'a V,
    pub output: JoinOutput<'a>,
}

impl<V: Verdict> Pairing<'_, V> {
    // Whether a left and a right row are a pair: the verdict is true.
    fn is_pair(&self, left: &[V::Cell], right: &[V::Cell]) -> bool
        ensures { result ≡ is_true (V.Verdict.says self.now.verdict.now left.now right.now) }
    {
        self.verdict.ask(left, right).is_true()
    }

    // Writes the output row of a pair behind the waiting rows, if the type has pairs and it fits.
    fn append_pair(&self, left: &[V::Cell], right: &[V::Cell], waiting: &mut WaitingRows<V::Cell>)
        ensures page { waiting.new.cells.ghost_name ≡ waiting.old.cells.ghost_name }
        ensures appended { (S : Setup V.Cell) → PairsBy S V.Cell.Cell.missing (V.Verdict.says self.now.verdict.now) self.now.output → waits_in waiting.new ≡ (if has_pairs S.join_type then appended (width S) (output_row S left.now right.now S.missing) (waits_in waiting.old) else waits_in waiting.old) }
    {
        if self.output.join_type.row().pairs {
            let mark = <V::Cell as Cell>::missing_cell();
            let _ = waiting.append(self.output.columns, &OutputParts { left, right, mark });
        }
    }

    // Left row i meets the rows of the batch, in order. Where the verdict is true, both rows are marked and make a pair.
    fn process_single_left_row_join(
        &self,
        i: usize,
        left: &[V::Cell],
        right: &LentRows<V::Cell>,
        marks: &mut PairMarks,
        waiting: &mut WaitingRows<V::Cell>,
    )
        ensures words { SameWords marks.old marks.new }
        ensures page { waiting.new.cells.ghost_name ≡ waiting.old.cells.ghost_name }
        ensures met { (S : Setup V.Cell) → PairsBy S V.Cell.Cell.missing (V.Verdict.says self.now.verdict.now) self.now.output → met_in marks.new waiting.new ≡ met_row S i left.now 0 (rows_in right.now) (met_in marks.old waiting.old) }
    {
        // By number, since the marks go by it.
        for j in 0..right.count() {
            let row = right.row(j);
            let is_pair = self.is_pair(left, row);
            if is_pair {
                marks.mark(i, j);
                self.append_pair(left, row, waiting);
            }
        }
    }

    // The left rows from one place to another meet the rows of the batch: each left row in order, with each right row in order.
    pub fn process_left_range_join(
        &self,
        left: &LentRows<V::Cell>,
        range: Range<usize>,
        right: &LentRows<V::Cell>,
        marks: &mut PairMarks,
        waiting: &mut WaitingRows<V::Cell>,
    )
        ensures words { SameWords marks.old marks.new }
        ensures page { waiting.new.cells.ghost_name ≡ waiting.old.cells.ghost_name }
        ensures met { (S : Setup V.Cell) → PairsBy S V.Cell.Cell.missing (V.Verdict.says self.now.verdict.now) self.now.output → met_in marks.new waiting.new ≡ met_range S range.start (stretch range.start range.end (rows_in left.now)) (rows_in right.now) (met_in marks.old waiting.old) }
        ensures rows { (S : Setup V.Cell) → PairsBy S V.Cell.Cell.missing (V.Verdict.says self.now.verdict.now) self.now.output → MetRoom S left.now.count right.now.count ((range.end - range.start) * right.now.count) (met_in marks.old waiting.old) → MetRows S left.now.count right.now.count range.start (stretch range.start range.end (rows_in left.now)) (rows_in right.now) (met_in marks.old waiting.old) (met_in marks.new waiting.new) }
        ensures few { waiting.new.rows ≤ waiting.old.rows + (range.end - range.start) * right.now.count }
    {
        // By number, since the marks go by it.
        for i in range.start..range.end.min(left.count()) {
            self.process_single_left_row_join(i, left.row(i), right, marks, waiting);
        }
    }
}
