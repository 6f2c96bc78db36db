// What a join delivers: its output rows, and the waiting rows.
ghost use Rattle.std.specs.Prelude.{◌≡◌, ◌-◌, ◌*◌, ◌≤◌, min, ◌++◌, length, take, drop};
ghost use Rattle.memory.specs.Rows.{cells_of};
ghost use Rattle.nested_loop.specs.declared.answer.Answer.TheVariants.{Batch};
ghost use Rattle.opening.specs.Lists.{columns_of};
ghost use Rattle.join.specs.Handled.{waiting_rows, with_waiting};

use crate::record::Probe;
use memory::WaitingRows;
use nested_loop::Answer;
use opening::Plan;
use probing::JoinOutput;

// What output rows are made by.
pub(crate) fn output_of(plan: &Plan) -> JoinOutput
    ensures join_type { result.join_type ≡ plan.now.list.join_type }
    ensures columns { result.columns.now ≡ columns_of plan.now.list }
    ensures long { length result.columns.now ≡ min plan.now.list.count 32 }
{
    JoinOutput {
        join_type: plan.list.join_type,
        columns: plan.list.as_slice(),
    }
}

impl Probe {
    // Moves the first of the waiting rows to the front of the out page, and the others to the front of their own.
    pub(crate) fn deliver_rows<C: Copy>(
        &mut self,
        plan: &Plan,
        rows: usize,
        waiting: &mut [C],
        out: &mut [C],
    ) -> Answer
        requires some { rows ≤ self.old.waiting }
        requires lying { self.old.waiting * plan.now.list.count ≤ length waiting.old }
        requires room { rows * plan.now.list.count ≤ length out.old }
        ensures answer { result ≡ Batch rows }
        ensures probe { self.new ≡ with_waiting self.old (self.old.waiting - rows) }
        ensures out { out.new ≡ cells_of (take rows (waiting_rows plan.now self.old waiting.old)) ++ drop (length (take rows (waiting_rows plan.now self.old waiting.old)) * plan.now.list.count) out.old }
        ensures left { waiting_rows plan.now self.new waiting.new ≡ drop rows (waiting_rows plan.now self.old waiting.old) }
    {
        let mut waiting = WaitingRows {
            cells: waiting,
            rows: self.waiting,
        };
        // There is room, by what is required.
        let _ = waiting.deliver(rows, plan.list.count, out);
        self.waiting = waiting.rows;
        Answer::Batch(rows)
    }
}
