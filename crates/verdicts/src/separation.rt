// Separation: songs of one artist that start too close to each other.
ghost use Rattle.std.specs.Prelude.{◌≡◌, Bool, Decides};
ghost use Rattle.cells.specs.Codes.{letters};
ghost use Rattle.verdicts.specs.Separations.{same_code, near, half, separation};

use crate::{Minutes, Truth, Verdict};
use cells::{Code, Full};
use memory::cell_at;

// The columns that say whose song a row is and when it starts, in seconds.
#[derive(Clone, Copy)]
pub struct SongColumns {
    pub artist: usize,
    pub start: usize,
}

// True of two songs of one artist that start less than so many minutes apart.
#[derive(Clone, Copy)]
pub struct Separation {
    minutes: Minutes,
    left: SongColumns,
    right: SongColumns,
}

impl Separation {
    pub fn new(minutes: Minutes, left: SongColumns, right: SongColumns) -> Separation
        ensures { result ≡ record { minutes = minutes; left = left; right = right } }
    {
        Separation {
            minutes,
            left,
            right,
        }
    }
}

impl Verdict for Separation {
    type Cell = Full;

    ghost says = { λ s. separation s.minutes.count s.left s.right };

    fn ask(&self, left: &[Full], right: &[Full]) -> Truth {
        let artists = half(
            cell_at(left, self.left.artist).code(),
            cell_at(right, self.right.artist).code(),
            same_code,
        );
        let limit = self.minutes.seconds();
        let starts = half(
            cell_at(left, self.left.start).number(),
            cell_at(right, self.right.start).number(),
            |a, b| is_near(limit, a, b),
        );
        artists.and(starts)
    }
}

// The only place that says when two codes are one artist.
fn same_code(a: Code, b: Code) -> bool
    ensures value { result ≡ same_code a b }
    ensures letters { Decides result (letters a.bits ≡ letters b.bits) }
{
    a == b
}

fn is_near(limit: u64, a: i64, b: i64) -> bool
    ensures { result ≡ near limit a b }
{
    a.abs_diff(b) < limit
}

// One half of a separation: a test of two cells, absent where one is missing.
fn half<T: Copy, F: FnOnce(T, T) -> bool>(a: Option<T>, b: Option<T>, test: F) -> Truth
    requires { (x y : T) → F.pre test x y }
    ensures { (says : T → T → Bool) → ((x y : T) (r : Bool) → F.post test x y r → r ≡ says x y) → result ≡ half says a b }
{
    match (a, b) {
        (Some(x), Some(y)) => Truth::from(test(x, y)),
        _ => Truth::Absent,
    }
}
