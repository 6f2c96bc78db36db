// Reads the songs of a block.
ghost use Rattle.texts.specs.Items.{lines_of};
ghost use Rattle.schedules.specs.Reads.{ReadSongs};

use crate::walk::Lines;
use crate::{SongError, Songs};
use std::alloc::Global;

const NAMES: &[u8] = b"artist,start";

// The songs of a block: a names line, then a row for each line; a bad line is noted and passed by.
pub fn read_songs(heap: Global, text: &[u8]) -> Result<Songs, SongError>
    ensures { ReadSongs (lines_of text.now) result }
{
    let mut lines = Lines::new(text);
    let Some(names) = lines.next() else {
        return Err(SongError::NoNames);
    };
    if names != NAMES {
        return Err(SongError::NoNames);
    }
    let mut songs = Songs::new(heap);
    for line in lines.rows() {
        songs.take(line)?;
    }
    Ok(songs)
}
