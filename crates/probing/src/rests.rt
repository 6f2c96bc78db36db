// The rest of a side: rows that the join type delivers besides pairs, by their marks.
ghost use Rattle.std.specs.Prelude.{◌≡◌, ◌+◌, ◌-◌, ◌≤◌, ◌++◌, if◌then◌else◌};
ghost use Rattle.memory.specs.Marks.{bits_of};
ghost use Rattle.memory.specs.Rows.{rows_in};
ghost use Rattle.nested_loop.specs.Model.{Setup, kept, left_rest_of, right_rest_of};
ghost use Rattle.nested_loop.specs.Loop.{mark_cell, left_row, right_row, left_rest, right_rest};
ghost use Rattle.probing.specs.Waiting.{stretch, waits_in, waiting_rows, appended, HasRoom};
ghost use Rattle.probing.specs.Met.{width};
ghost use Rattle.probing.specs.Rests.{RestsBy, side_rest, side_row, rest_appended};

use crate::JoinOutput;
use cells::Cell;
use join_types::{JoinSide, Rest};
use memory::{LentRows, OutputParts, WaitingRows, is_marked};
use std::ops::Range;

// Whether a rest has a row, given whether the row is marked.
fn keeps(rest: Rest, marked: bool) -> bool
    ensures { result ≡ kept rest marked }
{
    match rest {
        Rest::Nothing => false,
        Rest::Unmatched => !marked,
        Rest::Matched => marked,
        Rest::Every => true,
    }
}

// The cell of a mark column: yes or no where the rest has every row.
fn mark_cell<C: Cell>(rest: Rest, marked: bool) -> C
    ensures { (S : Setup C) → S.missing ≡ C.Cell.missing → S.yes ≡ C.Cell.yes → S.no ≡ C.Cell.no → result ≡ mark_cell S rest marked }
{
    match rest {
        Rest::Every => { if marked { C::yes_cell() } else { C::no_cell() } }
        _ => C::missing_cell(),
    }
}

impl JoinOutput<'_> {
    // Which rows of a side come besides pairs; a mark column stands on no side.
    fn rest(&self, side: JoinSide) -> Rest
        ensures { result ≡ side_rest self.now.join_type side }
    {
        let row = self.join_type.row();
        match side {
            JoinSide::Left => row.left_rest,
            JoinSide::Right => row.right_rest,
            JoinSide::None => Rest::Nothing,
        }
    }

    // Writes a row of a side behind the waiting rows, if the side's rest has it and it fits. The other side has no cells.
    // The rest is handed in, since the caller looks it up once for all rows.
    fn append_row<C: Cell>(
        &self,
        side: JoinSide,
        rest: Rest,
        row: &[C],
        marked: bool,
        waiting: &mut WaitingRows<C>,
    )
        requires { rest ≡ side_rest self.now.join_type side }
        ensures page { waiting.new.cells.ghost_name ≡ waiting.old.cells.ghost_name }
        ensures appended { (S : Setup C) → RestsBy S C.Cell.missing C.Cell.yes C.Cell.no self.now → waits_in waiting.new ≡ (if kept (side_rest S.join_type side) marked then appended (width S) (side_row S side row.now marked) (waits_in waiting.old) else waits_in waiting.old) }
    {
        if !keeps(rest, marked) {
            return;
        }
        let mark = mark_cell::<C>(rest, marked);
        let padding = &row[0..0];
        let (left, right) = match side {
            JoinSide::Left => (row, padding),
            JoinSide::Right => (padding, row),
            JoinSide::None => (padding, padding),
        };
        let _ = waiting.append(self.columns, &OutputParts { left, right, mark });
    }

    // Appends the rest of a side's rows from one place to another, looking at each mark where it stands.
    fn append_rest<C: Cell>(
        &self,
        side: JoinSide,
        rows: &LentRows<C>,
        range: Range<usize>,
        marks: &[u64],
        waiting: &mut WaitingRows<C>,
    )
        ensures page { waiting.new.cells.ghost_name ≡ waiting.old.cells.ghost_name }
        ensures appended { (S : Setup C) → RestsBy S C.Cell.missing C.Cell.yes C.Cell.no self.now → waits_in waiting.new ≡ rest_appended (width S) (side_rest S.join_type side) (side_row S side) (stretch range.start range.end (rows_in rows.now)) (stretch range.start range.end (bits_of rows.now.count marks.now)) (waits_in waiting.old) }
    {
        let rest = self.rest(side);
        // By number, since the marks go by it.
        for i in range.start..range.end.min(rows.count()) {
            self.append_row(side, rest, rows.row(i), is_marked(marks, i), waiting);
        }
    }

    // Appends the left rest of the left rows from one place to another. This and the next are two functions of the Rust; both are append_rest.
    pub fn process_left_unmatched_range<C: Cell>(
        &self,
        left: &LentRows<C>,
        range: Range<usize>,
        left_marks: &[u64],
        waiting: &mut WaitingRows<C>,
    )
        ensures page { waiting.new.cells.ghost_name ≡ waiting.old.cells.ghost_name }
        ensures appended { (S : Setup C) → RestsBy S C.Cell.missing C.Cell.yes C.Cell.no self.now → waits_in waiting.new ≡ rest_appended (width S) (left_rest_of S.join_type) (left_row S) (stretch range.start range.end (rows_in left.now)) (stretch range.start range.end (bits_of left.now.count left_marks.now)) (waits_in waiting.old) }
        ensures rows { (S : Setup C) → RestsBy S C.Cell.missing C.Cell.yes C.Cell.no self.now → HasRoom (width S) (range.end - range.start) (waits_in waiting.old) → waiting_rows (width S) (waits_in waiting.new) ≡ waiting_rows (width S) (waits_in waiting.old) ++ left_rest S (stretch range.start range.end (rows_in left.now)) (stretch range.start range.end (bits_of left.now.count left_marks.now)) }
        ensures few { waiting.new.rows ≤ waiting.old.rows + (range.end - range.start) }
    {
        self.append_rest(JoinSide::Left, left, range, left_marks, waiting);
    }

    // Appends the right rest of a right batch.
    pub fn process_right_unmatched<C: Cell>(
        &self,
        right: &LentRows<C>,
        right_marks: &[u64],
        waiting: &mut WaitingRows<C>,
    )
        ensures page { waiting.new.cells.ghost_name ≡ waiting.old.cells.ghost_name }
        ensures appended { (S : Setup C) → RestsBy S C.Cell.missing C.Cell.yes C.Cell.no self.now → waits_in waiting.new ≡ rest_appended (width S) (right_rest_of S.join_type) (right_row S) (rows_in right.now) (bits_of right.now.count right_marks.now) (waits_in waiting.old) }
        ensures rows { (S : Setup C) → RestsBy S C.Cell.missing C.Cell.yes C.Cell.no self.now → HasRoom (width S) right.now.count (waits_in waiting.old) → waiting_rows (width S) (waits_in waiting.new) ≡ waiting_rows (width S) (waits_in waiting.old) ++ right_rest S (rows_in right.now) (bits_of right.now.count right_marks.now) }
        ensures few { waiting.new.rows ≤ waiting.old.rows + right.now.count }
    {
        self.append_rest(
            JoinSide::Right,
            right,
            0..right.count(),
            right_marks,
            waiting,
        );
    }
}
