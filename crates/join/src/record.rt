// What a join keeps between steps, as plain data in arrays: a join uses no heap, and what holds of its records is required by each handler
// until the type that will hold them has it as an invariant (docs/DECISIONS.md, "Code forms").
use nested_loop::NLJState;
use opening::Plan;

// One probe: its state, the rows of its right batch and a mark for each, the next left row, whether it is the emitter, how many rows
// wait, the largest batch of any source that it asked, how many items it took, and whether it has answered done.
#[derive(Clone, Copy)]
pub struct Probe {
    pub state: NLJState,
    pub rows: usize,
    pub right_marks: [u64; 16],
    pub index: usize,
    pub is_emitter: bool,
    pub waiting: usize,
    pub largest: usize,
    pub taken: u64,
    pub answered: bool,
}

// The table of probes; those that the join has come first.
#[derive(Clone, Copy)]
pub struct Probes {
    pub probes: [Probe; 16],
}

// Rows and batches delivered, and pairs asked. Each count stops at 2^64 - 1.
#[derive(Clone, Copy)]
pub struct Counts {
    pub rows: u64,
    pub batches: u64,
    pub pairs: u64,
}

// The join: what it was opened with, the probes that have not ended, one mark for each left row, its probes and its counts.
#[derive(Clone, Copy)]
pub struct Core {
    pub plan: Plan,
    pub unfinished: usize,
    pub left_marks: [u64; 64],
    pub table: Probes,
    pub counts: Counts,
}
