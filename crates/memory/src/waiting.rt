// Rows that wait on a lent page (docs/RULES.md, "Pages").
ghost use Rattle.std.specs.Prelude.{◌≡◌, ◌+◌, ◌-◌, ◌*◌, ◌≤◌, true, ◌&&◌, [], ◌∷◌, ◌++◌, length, take, drop, is_ok, if◌then◌else◌, nat_le};
ghost use Rattle.memory.specs.Counts.{counted};
ghost use Rattle.memory.specs.Output.{output_row};
ghost use Rattle.memory.specs.Rows.{rows_from, put_row};

use crate::{NoRoom, OutputParts, has_room, put_output};
use cells::Cell;
use join_types::ColumnIndex;

// A page, and how many rows wait at its front. The page is lent, so it is no Vec.
#[derive(Drop)]
pub struct WaitingRows<'a, C> {
    pub cells: &'a mut [C],
    pub rows: usize,
}

// Moves the cells before a cut to the front of the out page, and those from there to an end to the front of their own.
fn move_front<C: Copy>(waiting: &mut [C], cut: usize, end: usize, out: &mut [C])
    requires { (cut ≤ end) × ((end ≤ length waiting.old) × (cut ≤ length out.old)) }
    ensures moved { out.new ≡ put_row out.old 0 (take cut waiting.old) }
    ensures stayed { waiting.new ≡ put_row waiting.old 0 (drop cut (take end waiting.old)) }
{
    out[0..cut].copy_from_slice(&waiting[0..cut]);
    waiting.copy_within(cut..end, 0);
}

impl<C: Cell> WaitingRows<'_, C> {
    // Writes the output row behind the waiting rows and counts it, if it fits. The count stops at the largest usize.
    pub fn append(&mut self, columns: &[ColumnIndex], parts: &OutputParts<C>) -> Result<(), NoRoom>
        ensures page { self.new.cells.ghost_name ≡ self.old.cells.ghost_name }
        ensures room { is_ok result ≡ nat_le (self.old.rows * length columns.now + length columns.now) (length self.old.cells.now) }
        ensures counted { self.new.rows ≡ (if is_ok result then counted (self.old.rows + 1) else self.old.rows) }
        ensures cells { self.new.cells.now ≡ (if is_ok result then put_row self.old.cells.now (self.old.rows * length columns.now) (output_row C.Cell.missing columns.now parts.now.left.now parts.now.right.now parts.now.mark) else self.old.cells.now) }
        ensures rows { is_ok result ≡ true → rows_from (self.old.rows + 1) (length columns.now) self.new.cells.now ≡ rows_from self.old.rows (length columns.now) self.old.cells.now ++ output_row C.Cell.missing columns.now parts.now.left.now parts.now.right.now parts.now.mark ∷ [] }
    {
        let at = self.rows.saturating_mul(columns.len());
        put_output(self.cells, at, columns, parts)?;
        self.rows = self.rows.saturating_add(1);
        Ok(())
    }
}

impl<C: Copy> WaitingRows<'_, C> {
    // Moves the first of the waiting rows to the front of the out page and the others to the front of their own,
    // unless there are not so many, or they do not lie on their page, or the out page has no room.
    pub fn deliver(&mut self, first: usize, width: usize, out: &mut [C]) -> Result<(), NoRoom>
        ensures page { self.new.cells.ghost_name ≡ self.old.cells.ghost_name }
        ensures room { is_ok result ≡ (nat_le first self.old.rows && (nat_le (self.old.rows * width) (length self.old.cells.now) && nat_le (first * width) (length out.old))) }
        ensures counted { self.new.rows ≡ (if is_ok result then self.old.rows - first else self.old.rows) }
        ensures moved { out.new ≡ (if is_ok result then put_row out.old 0 (take (first * width) self.old.cells.now) else out.old) }
        ensures stayed { self.new.cells.now ≡ (if is_ok result then put_row self.old.cells.now 0 (drop (first * width) (take (self.old.rows * width) self.old.cells.now)) else self.old.cells.now) }
        ensures given { is_ok result ≡ true → rows_from first width out.new ≡ take first (rows_from self.old.rows width self.old.cells.now) }
        ensures left { is_ok result ≡ true → rows_from self.new.rows width self.new.cells.now ≡ drop first (rows_from self.old.rows width self.old.cells.now) }
    {
        if first > self.rows
            || !has_room(self.cells.len(), self.rows, width)
            || !has_room(out.len(), first, width)
        {
            return Err(NoRoom);
        }
        move_front(self.cells, first * width, self.rows * width, out);
        self.rows -= first;
        Ok(())
    }
}
