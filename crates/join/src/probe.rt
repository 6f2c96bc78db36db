// ProbeRight: left rows are joined with the rows of the right batch.
ghost use Rattle.std.specs.Prelude.{◌≡◌, ℕ, ◌*◌, ◌<◌, ◌≤◌, List, length, take, drop};
ghost use Rattle.memory.specs.Items.{Item};
ghost use Rattle.memory.specs.Marks.{bits_of};
ghost use Rattle.memory.specs.Rows.{rows_from};
ghost use Rattle.nested_loop.specs.Machine.{meet, rows_met};
ghost use Rattle.nested_loop.specs.declared.answer.Answer.TheVariants.{On};
ghost use Rattle.nested_loop.specs.declared.answer.NLJState.TheVariants.{ProbeRight};
ghost use Rattle.opening.specs.Orders.{Planned};
ghost use Rattle.join.specs.View.{setup_in};
ghost use Rattle.join.specs.Handled.{around, waiting_rows, rows_joined, handled_by, Handles};
ghost use Rattle.join.specs.Sound.{Sound, room_of};

use crate::deliver::output_of;
use crate::record::Probe;
use join_types::need_produce_right_in_final;
use memory::{LentRows, WaitingRows};
use nested_loop::{Answer, NLJState};
use opening::Plan;
use probing::{PairMarks, Pairing};
use verdicts::Verdict;

// What the caller lends for the join: the verdict, and the left memory.
#[derive(Drop)]
pub(crate) struct TableAndVerdict<'a, V: Verdict> {
    pub verdict: &'a V,
    pub left: &'a [V::Cell],
}

impl Probe {
    // How many left rows the next step joins with the batch.
    pub(crate) fn rows_joined(&self, plan: &Plan) -> usize
        requires { 1 ≤ self.now.rows }
        ensures { result ≡ rows_joined plan.now self.now }
    {
        let group = plan.batch_size / self.rows;
        if group > 10 {
            group.min(plan.left_rows.saturating_sub(self.index))
        } else {
            1
        }
    }

    // Joins the next left rows with the rows of the batch.
    fn process_probe_batch<'a, V: Verdict>(
        &mut self,
        plan: &'a Plan,
        lent: &'a TableAndVerdict<V>,
        right: &[V::Cell],
        left_marks: &mut [u64],
        waiting: &mut [V::Cell],
    ) -> Answer
        requires state { self.old.state ≡ ProbeRight }
        requires planned { Planned plan.now }
        requires sound { Sound plan.now self.old }
        requires few { self.old.waiting < plan.now.batch_size }
        requires more { self.old.index < plan.now.left_rows }
        requires words { length left_marks.old ≡ 64 }
        requires room { room_of plan.now self.old.largest * plan.now.list.count ≤ length waiting.old }
        ensures answer { result ≡ On }
        ensures handled { (who most n : ℕ) (items : List (Item V.Cell)) (out : List V.Cell) → Handles plan.now who most self.old self.new (around left_marks.old n items right.now waiting.old out) (around left_marks.new n items right.now waiting.new out) On (meet (setup_in V.Cell.Cell.missing V.Cell.Cell.yes V.Cell.Cell.no plan.now (V.Verdict.says lent.now.verdict.now) lent.now.left.now) (take (rows_met (setup_in V.Cell.Cell.missing V.Cell.Cell.yes V.Cell.Cell.no plan.now (V.Verdict.says lent.now.verdict.now) lent.now.left.now) (length (rows_from self.old.rows plan.now.list.right_columns right.now)) self.old.index) (drop self.old.index (rows_from plan.now.left_rows plan.now.list.left_columns lent.now.left.now))) (bits_of plan.now.left_rows left_marks.old) n (rows_from self.old.rows plan.now.list.right_columns right.now) (bits_of self.old.rows self.old.right_marks) self.old.index (waiting_rows plan.now self.old waiting.old) items) }
        ensures sound { Sound plan.now self.new }
    {
        let from = self.index;
        let to = from + self.rows_joined(plan);
        let pairing = Pairing {
            verdict: lent.verdict,
            output: output_of(plan),
        };
        let lefts = LentRows::first(lent.left, plan.list.left_columns, plan.left_rows);
        let rights = LentRows::first(right, plan.list.right_columns, self.rows);
        let mut marks = PairMarks {
            left: left_marks,
            right: &mut self.right_marks,
        };
        let mut waiting = WaitingRows {
            cells: waiting,
            rows: self.waiting,
        };
        pairing.process_left_range_join(&lefts, from..to, &rights, &mut marks, &mut waiting);
        self.waiting = waiting.rows;
        self.index = to;
        Answer::On
    }

    // Delivers a full batch if one waits; joins the next left rows; or, with none left, goes on to the right rest or the next batch.
    pub(crate) fn handle_probe_right<V: Verdict>(
        &mut self,
        plan: &Plan,
        lent: &TableAndVerdict<V>,
        right: &[V::Cell],
        left_marks: &mut [u64],
        waiting: &mut [V::Cell],
        out: &mut [V::Cell],
    ) -> Answer
        requires state { self.old.state ≡ ProbeRight }
        requires planned { Planned plan.now }
        requires sound { Sound plan.now self.old }
        requires words { length left_marks.old ≡ 64 }
        requires room { room_of plan.now self.old.largest * plan.now.list.count ≤ length waiting.old }
        requires outs { plan.now.batch_size * plan.now.list.count ≤ length out.old }
        ensures handled { (who most n : ℕ) (items : List (Item V.Cell)) → Handles plan.now who most self.old self.new (around left_marks.old n items right.now waiting.old out.old) (around left_marks.new n items right.now waiting.new out.new) result (handled_by (setup_in V.Cell.Cell.missing V.Cell.Cell.yes V.Cell.Cell.no plan.now (V.Verdict.says lent.now.verdict.now) lent.now.left.now) plan.now self.old (around left_marks.old n items right.now waiting.old out.old)) }
        ensures sound { Sound plan.now self.new }
    {
        if self.waiting >= plan.batch_size {
            return self.deliver_rows(plan, plan.batch_size, waiting, out);
        }
        if self.index < plan.left_rows {
            return self.process_probe_batch(plan, lent, right, left_marks, waiting);
        }
        if need_produce_right_in_final(plan.list.join_type) {
            self.state = NLJState::EmitRightUnmatched;
        } else {
            self.state = NLJState::FetchingRight;
        }
        Answer::On
    }
}
