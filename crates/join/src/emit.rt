// EmitRightUnmatched: the right rest of the batch is appended, or a full batch that waits is delivered.
ghost use Rattle.std.specs.Prelude.{◌≡◌, ℕ, ◌*◌, ◌<◌, ◌≤◌, List, length};
ghost use Rattle.memory.specs.Items.{Item};
ghost use Rattle.verdicts.specs.declared.truth.Truth.{Truth};
ghost use Rattle.nested_loop.specs.Machine.{handled};
ghost use Rattle.nested_loop.specs.declared.answer.Answer.TheVariants.{On};
ghost use Rattle.nested_loop.specs.declared.answer.NLJState.TheVariants.{EmitRightUnmatched, EmitLeftUnmatched};
ghost use Rattle.opening.specs.Orders.{Planned};
ghost use Rattle.join.specs.View.{setup_in};
ghost use Rattle.join.specs.Handled.{around, handled_by, Handles};
ghost use Rattle.join.specs.Sound.{Sound, room_of};

use crate::deliver::output_of;
use crate::record::Probe;
use cells::Cell;
use memory::{LentRows, WaitingRows};
use nested_loop::{Answer, NLJState};
use opening::Plan;

impl Probe {
    // Delivers a full batch if one waits; else appends the right rest of the batch.
    pub(crate) fn handle_emit_right_unmatched<C: Cell>(
        &mut self,
        plan: &Plan,
        right: &[C],
        waiting: &mut [C],
        out: &mut [C],
    ) -> Answer
        requires state { self.old.state ≡ EmitRightUnmatched }
        requires planned { Planned plan.now }
        requires sound { Sound plan.now self.old }
        requires room { room_of plan.now self.old.largest * plan.now.list.count ≤ length waiting.old }
        requires outs { plan.now.batch_size * plan.now.list.count ≤ length out.old }
        ensures handled { (says : List C → List C → Truth) (left : List C) (who most n : ℕ) (marks : List ℕ) (items : List (Item C)) → Handles plan.now who most self.old self.new (around marks n items right.now waiting.old out.old) (around marks n items right.now waiting.new out.new) result (handled_by (setup_in C.Cell.missing C.Cell.yes C.Cell.no plan.now says left) plan.now self.old (around marks n items right.now waiting.old out.old)) }
        ensures sound { Sound plan.now self.new }
    {
        if self.waiting >= plan.batch_size {
            return self.deliver_rows(plan, plan.batch_size, waiting, out);
        }
        let rights = LentRows::first(right, plan.list.right_columns, self.rows);
        let mut waiting = WaitingRows {
            cells: waiting,
            rows: self.waiting,
        };
        output_of(plan).process_right_unmatched(&rights, &self.right_marks, &mut waiting);
        self.waiting = waiting.rows;
        self.state = NLJState::FetchingRight;
        Answer::On
    }
}
