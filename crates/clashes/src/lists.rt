// Both clash lists of a text, and what widening the separation changed.
ghost use Rattle.std.specs.Prelude.{◌≡◌, ◌/◌, ◌%◌, length, IfOk};
ghost use Rattle.memory.specs.Rows.{rows_in, rows_from};
ghost use Rattle.texts.specs.Items.{lines_of};
ghost use Rattle.clashes.specs.Lists.{Listed, Compared};

use crate::{ClashLists, InputError, Lists, Separations, pairs, pairs_except};
use cells::Full;
use memory::Rows;
use schedules::{find_gap, read_songs};
use std::alloc::{AllocError, Global};
use verdicts::{Separation, SongColumns};

// The clash lists of the schedule and the log in a text, at two separations.
pub fn clash_lists(
    heap: Global,
    text: &[u8],
    separations: Separations,
) -> Result<ClashLists, InputError>
    ensures { Listed (lines_of text.now) separations.first.count separations.second.count result }
{
    let gap = find_gap(text);
    let schedule = read_songs(heap, &text[..gap.end]).map_err(InputError::Schedule)?;
    let log = read_songs(heap, &text[gap.next..]).map_err(InputError::Log)?;
    let left = song_rows(&schedule.cells);
    let right = song_rows(&log.cells);
    let lists = compare(heap, &left, &right, separations)?;
    Ok(ClashLists {
        schedule,
        log,
        lines_before_gap: gap.lines,
        lists,
    })
}

// Both lists of two tables of songs, and what the second adds and drops.
pub fn compare(
    heap: Global,
    left: &Rows<Full>,
    right: &Rows<Full>,
    separations: Separations,
) -> Result<Lists, AllocError>
    ensures { IfOk result (Compared (rows_in left.now) (rows_in right.now) separations.first.count separations.second.count) }
{
    let near = Separation::new(separations.first, SONG, SONG);
    let wide = Separation::new(separations.second, SONG, SONG);
    Ok(Lists {
        first: pairs(heap, &near, left, right)?,
        second: pairs(heap, &wide, left, right)?,
        added: pairs_except(heap, &wide, &near, left, right)?,
        dropped: pairs_except(heap, &near, &wide, left, right)?,
    })
}

// Artist first, then start.
const SONG: SongColumns = SongColumns {
    artist: 0,
    start: 1,
};

// Rows of two cells.
fn song_rows(cells: &[Full]) -> Rows<'_, Full>
    requires { length cells.now % 2 ≡ 0 }
    ensures { rows_in result ≡ rows_from (length cells.now / 2) 2 cells.now }
{
    match Rows::new(cells, 2) {
        Ok(rows) => rows,
        Err(_) => unreachable(),
    }
}
