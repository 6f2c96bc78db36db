// Pages: rows lie on them one behind the other, from the front (docs/RULES.md, "Pages").
ghost use Rattle.std.specs.Prelude.{◌≡◌, ◌+◌, ◌*◌, length, is_ok, if◌then◌else◌, nat_le};
ghost use Rattle.memory.specs.Rows.{put_row};

// What was to be written or moved does not fit.
#[derive(Clone, Copy, Debug, PartialEq, Eq)]
pub struct NoRoom;

// Whether so many cells have room for so many rows.
pub fn has_room(cells: usize, rows: usize, width: usize) -> bool
    ensures { result ≡ nat_le (rows * width) cells }
{
    rows.checked_mul(width)
        .is_some_and(|needed| needed <= cells)
}

// Whether so many cells have room for `more` of them from a place on.
pub(crate) fn fits(cells: usize, at: usize, more: usize) -> bool
    ensures { result ≡ nat_le (at + more) cells }
{
    at.checked_add(more).is_some_and(|end| end <= cells)
}

// Writes a row over what stood from a place on, if it fits.
pub fn put_row<C: Copy>(page: &mut [C], at: usize, row: &[C]) -> Result<(), NoRoom>
    ensures room { is_ok result ≡ nat_le (at + length row.now) (length page.old) }
    ensures cells { page.new ≡ (if is_ok result then put_row page.old at row.now else page.old) }
{
    if !fits(page.len(), at, row.len()) {
        return Err(NoRoom);
    }
    page[at..at + row.len()].copy_from_slice(row);
    Ok(())
}
