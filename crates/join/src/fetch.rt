// FetchingRight: the source is asked once.
ghost use Rattle.std.specs.Prelude.{◌≡◌, ℕ, ◌*◌, ◌≤◌, List, length};
ghost use Rattle.memory.specs.Marks.{bits_of};
ghost use Rattle.nested_loop.specs.Model.{Setup};
ghost use Rattle.nested_loop.specs.Machine.{fetching_right};
ghost use Rattle.nested_loop.specs.declared.answer.NLJState.TheVariants.{FetchingRight};
ghost use Rattle.join.specs.Handled.{around, waiting_rows, Handles};
ghost use Rattle.join.specs.Sound.{Sound};

use crate::record::Probe;
use nested_loop::{Answer, Faulted, NLJState};
use opening::Plan;
use sources::{Source, SourceAnswer};

impl Probe {
    // Asks the source once. A batch that has rows is probed next, from the first left row on, with no right mark.
    pub(crate) fn handle_fetching_right<S: Source>(
        &mut self,
        plan: &Plan,
        number: usize,
        source: &mut S,
        right: &mut [S::Cell],
    ) -> Answer
        requires state { self.old.state ≡ FetchingRight }
        requires sound { Sound plan.now self.old }
        requires columns { S.Source.width source.old ≡ plan.now.list.right_columns }
        requires room { S.Source.most * S.Source.width source.old ≤ length right.old }
        ensures handled { (T : Setup S.Cell) (marks : List ℕ) (n : ℕ) (waiting out : List S.Cell) → Handles plan.now number S.Source.most self.old self.new (around marks n (S.Source.items source.old) right.old waiting out) (around marks n (S.Source.items source.new) right.new waiting out) result (fetching_right T (bits_of plan.now.left_rows marks) n (waiting_rows plan.now self.old waiting) (S.Source.items source.old)) }
        ensures sound { Sound plan.now self.new }
        ensures width { S.Source.width source.new ≡ S.Source.width source.old }
    {
        let largest = S::largest();
        let Ok(item) = source.ask(right) else {
            unreachable()
        };
        let before = self.taken;
        self.largest = self.largest.max(largest);
        // One match on the state and the item together, by the project's rules: all cases stand side by side.
        match (self.state, item) {
            (NLJState::FetchingRight, SourceAnswer::Batch(rows)) => {
                self.taken = before.saturating_add(1);
                if rows > 0 {
                    self.rows = rows;
                    self.right_marks = [0; 16];
                    self.index = 0;
                    self.state = NLJState::ProbeRight;
                }
                Answer::On
            }
            (NLJState::FetchingRight, SourceAnswer::Wait) => {
                self.taken = before.saturating_add(1);
                Answer::Wait
            }
            (NLJState::FetchingRight, SourceAnswer::Fault(fault)) => {
                self.taken = before.saturating_add(1);
                Answer::Fault(Faulted {
                    cause: fault.cause,
                    depth: fault.depth,
                    probe: number,
                    items: before,
                })
            }
            (NLJState::FetchingRight, SourceAnswer::End) => {
                self.state = NLJState::ProbeEnd;
                Answer::On
            }
            (_, _) => unreachable(),
        }
    }
}
