// A text line by line: each line is a row, or is refused and passed by (docs/RULES.md, "Lines of text").
#![tactic(auto)]

ghost use Rattle.std.specs.Prelude.{◌<◌, length};
ghost use Rattle.texts.specs.Items.{Next};

use cells::Full;
use lines::{Answer, LineRefusal, pass_line, read_row};

// Reads the line at the cursor into the row and goes on behind it, whether it was a row or not.
pub fn next_line(text: &[u8], cursor: &mut usize, row: &mut [Full]) -> Result<Answer, LineRefusal>
    ensures { Next (length row.old) text.now cursor.old row.old result row.new cursor.new }
{
    let read = read_row(text, cursor, row);
    if read.is_err() {
        pass_line(text, cursor);
    }
    read
}
