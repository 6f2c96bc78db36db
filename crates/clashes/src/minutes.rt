// Minutes from text, as a value line would write them.
ghost use Rattle.std.specs.Prelude.{ℤ, MatchOption};
ghost use Rattle.cells.specs.declared.full.Full.TheVariants.{Number};
ghost use Rattle.lines.specs.Written.{Writes};
ghost use Rattle.clashes.specs.Written.{ReadMinutes};

use lines::read_cell;
use verdicts::{Minutes, MinutesRefusal};

// The minutes that a text writes: a number from 1 to 1,440.
pub fn read_minutes(text: &[u8]) -> Result<Minutes, MinutesRefusal>
    ensures { ReadMinutes text.now result }
{
    let Some(number) = read_number(text) else {
        return Err(MinutesRefusal::OutOfRange);
    };
    let Ok(count) = u32::try_from(number) else {
        return Err(MinutesRefusal::OutOfRange);
    };
    Minutes::try_from(count)
}

// The number that a text writes.
fn read_number(text: &[u8]) -> Option<i64>
    ensures { MatchOption result ((z : ℤ) → Writes (Number z) text.now → ⊥) (λ z. Writes (Number z) text.now) }
{
    read_cell(text)?.number()
}
