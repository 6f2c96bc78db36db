// The cell that a text stands for.
ghost use Rattle.std.specs.Prelude.{◌≡◌, ◌^◌, ◌<◌, ℤ, Decides, MatchOption};
ghost use Rattle.cells.specs.declared.full.Full.{Full as Cell};
ghost use Rattle.lines.specs.Written.{Sized, Numeral, Figures, Writes, value};

use cells::{Code, Full};

// Whether a text has 1 to 12 bytes and no needless zero in front.
fn sized(text: &[u8]) -> bool
    ensures { Decides result (Sized text.now) }
{
    match text {
        [] | [b'0', _, ..] => false,
        _ => text.len() <= 12,
    }
}

// The number that the digits of such a text write.
fn digits(text: &[u8]) -> Option<u64>
    ensures { MatchOption result (Numeral text.now → ⊥) (λ n. Numeral text.now × (value text.now ≡ n) × (n < 10 ^ 12)) }
{
    if !sized(text) {
        return None;
    }
    let mut n = 0;
    for b in text {
        if !b.is_ascii_digit() {
            return None;
        }
        n = n * 10 + u64::from(*b - b'0');
    }
    Some(n)
}

// The number that such a text writes, with a minus in front where it is below 0.
fn number(text: &[u8]) -> Option<i64>
    ensures { MatchOption result ((z : ℤ) → Figures z text.now → ⊥) (λ z. Figures z text.now) }
{
    match text {
        [b'-', rest @ ..] => digits(rest).filter(|n| *n != 0).map(|n| -(n as i64)),
        _ => digits(text).map(|n| n as i64),
    }
}

// The cell that a text stands for: its first character decides of which kind.
// Inlined, since a line is judged and its row filled by two such calls for each cell.
#[inline(always)]
#[tactic(auto, using(crate::proofs::Texts::first_bytes))]
pub fn read_cell(text: &[u8]) -> Option<Full>
    ensures { MatchOption result ((c : Cell) → Writes c text.now → ⊥) (λ c. Writes c text.now) }
{
    match text {
        [] => Some(Full::Missing),
        [b'A'..=b'Z' | b'a'..=b'z', ..] => Code::new(text).map(Full::Code),
        [b'0'..=b'9' | b'-', ..] => number(text).map(Full::Number),
        _ => None,
    }
}
