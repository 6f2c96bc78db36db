// Where a text is parted into two blocks.
ghost use Rattle.std.specs.Prelude.{◌≡◌, ◌≤◌, length, take, drop};
ghost use Rattle.texts.specs.Items.{lines_of};
ghost use Rattle.schedules.specs.Blocks.{first_block, second_block};

use crate::walk::Lines;

// The first empty line: where it begins, where the line behind it begins, and how many lines stand before it.
#[derive(Clone, Copy)]
pub struct Gap {
    pub end: usize,
    pub next: usize,
    pub lines: usize,
}

// The gap between the two blocks; without an empty line it is the end of the text.
pub fn find_gap(text: &[u8]) -> Gap
    ensures within { (result.end ≤ result.next) × (result.next ≤ length text.now) }
    ensures first { lines_of (take result.end text.now) ≡ first_block (lines_of text.now) }
    ensures second { lines_of (drop result.next text.now) ≡ second_block (lines_of text.now) }
    ensures count { result.lines ≡ length (first_block (lines_of text.now)) }
{
    let mut walk = Lines::new(text);
    loop {
        let end = walk.at;
        let lines = walk.before;
        let Some(line) = walk.next() else {
            return Gap {
                end,
                next: end,
                lines,
            };
        };
        if line.is_empty() {
            return Gap {
                end,
                next: walk.at,
                lines,
            };
        }
    }
}
