// Tests of truth values, minutes and separation (docs/RULES.md, "Verdicts" and "The worked schedule").
use crate::common::code;
use cells::Full;
use cells::Full::{Missing, Number, YesNo};
use std::test::Fail;
use verdicts::Truth::{Absent, False, True};
use verdicts::{Minutes, MinutesRefusal, Separation, SongColumns, Truth, Verdict};

const AND: &[(Truth, Truth, Truth)] = &[
    (True, True, True),
    (True, False, False),
    (True, Absent, Absent),
    (False, True, False),
    (False, False, False),
    (False, Absent, False),
    (Absent, True, Absent),
    (Absent, False, False),
    (Absent, Absent, Absent),
];

// Lengths in minutes, and whether they are taken.
const LENGTHS: &[(u32, bool)] = &[
    (0, false),
    (1, true),
    (40, true),
    (1440, true),
    (1441, false),
    (65576, false),
    (u32::MAX, false),
];

#[test]
fn truths_and_minutes(rt: HostRuntime) {
    for &(a, b, both) in AND {
        assert!(rt; a.and(b) == both && a.is_true() == (a == True));
    }
    assert!(rt; Truth::from(true) == True && Truth::from(false) == False);
    for &(n, taken) in LENGTHS {
        let right = match Minutes::try_from(n) {
            Ok(m) => taken && m.count() == n && m.seconds() == u64::from(n) * 60,
            Err(refusal) => !taken && refusal == MinutesRefusal::OutOfRange,
        };
        assert!(rt; right, "{}", n);
    }
}

const LAST: i64 = i64::MAX;

const FIRST: i64 = i64::MIN;

// Minutes, artist and start on the left, artist and start on the right, and the verdict. No letters are a missing artist.
const SONGS: &[(u32, &str, Option<i64>, &str, Option<i64>, Truth)] = &[
    // the five pairs of the worked schedule
    (40, "ABBA", Some(3000), "ABBA", Some(2400), True),
    (40, "ABBA", Some(0), "ABBA", Some(2400), False),
    (41, "ABBA", Some(0), "ABBA", Some(2400), True),
    (40, "BLUR", Some(1200), "BLUR", None, Absent),
    (40, "ABBA", Some(0), "BLUR", None, False),
    // one second less than far enough, and far enough
    (40, "A", Some(0), "A", Some(2399), True),
    (40, "A", Some(2399), "A", Some(0), True),
    (40, "A", Some(2400), "A", Some(0), False),
    (40, "A", Some(-1200), "A", Some(1199), True),
    (40, "A", Some(-1200), "A", Some(1200), False),
    (1, "A", Some(0), "A", Some(0), True),
    (1, "A", Some(0), "A", Some(59), True),
    (1, "A", Some(0), "A", Some(60), False),
    (1440, "A", Some(0), "A", Some(86399), True),
    (1440, "A", Some(0), "A", Some(86400), False),
    // both ends of 64 bits
    (1440, "A", Some(FIRST), "A", Some(LAST), False),
    (1440, "A", Some(LAST), "A", Some(FIRST), False),
    (1440, "A", Some(0), "A", Some(FIRST), False),
    (1440, "A", Some(-1), "A", Some(LAST), False),
    (1, "A", Some(FIRST), "A", Some(FIRST), True),
    (1, "A", Some(LAST), "A", Some(LAST), True),
    (1, "A", Some(FIRST), "A", Some(FIRST + 59), True),
    (1, "A", Some(FIRST), "A", Some(FIRST + 60), False),
    (1, "A", Some(LAST - 59), "A", Some(LAST), True),
    (1, "A", Some(LAST - 60), "A", Some(LAST), False),
    // other artists
    (40, "ABBA", Some(0), "CAKE", Some(0), False),
    (40, "ABBA", Some(0), "abba", Some(0), False),
    (40, "ABBA", Some(0), "AB", Some(0), False),
    (40, "ABBA", Some(0), "CAKE", Some(9000), False),
    // a missing start
    (40, "A", None, "A", Some(0), Absent),
    (40, "A", None, "A", None, Absent),
    (40, "A", None, "B", Some(0), False),
    (40, "A", None, "B", None, False),
    // a missing artist
    (40, "", Some(0), "A", Some(0), Absent),
    (40, "A", Some(0), "", Some(0), Absent),
    (40, "", Some(0), "", Some(0), Absent),
    (40, "", Some(0), "A", Some(2400), False),
    (40, "A", Some(0), "", Some(2400), False),
    (40, "", Some(0), "", Some(2400), False),
    (40, "", None, "A", Some(0), Absent),
    (40, "", None, "", None, Absent),
];

fn number(n: Option<i64>) -> Full {
    n.map_or(Missing, Number)
}

#[test]
fn separations(rt: HostRuntime) -> Result<(), Fail> {
    let columns = SongColumns {
        artist: 0,
        start: 1,
    };
    for &(n, artist, start, other, at, want) in SONGS {
        let minutes = Minutes::try_from(n)?;
        let verdict = Separation::new(minutes, columns, columns);
        let left = [code(artist), number(start)];
        let right = [code(other), number(at)];
        assert!(rt;
            verdict.ask(&left, &right) == want,
            "{n} {artist:?} {start:?} {other:?} {at:?}"
        );
    }
    Ok(())
}

// Whether a row with a song in columns 1 and 3 gets this verdict beside the song `A,0`, on either side, and none where no column exists.
fn beside(row: &[Full], want: Truth) -> bool {
    let Ok(minutes) = Minutes::try_from(40) else {
        return false;
    };
    let four = SongColumns {
        artist: 1,
        start: 3,
    };
    let two = SongColumns {
        artist: 1,
        start: 0,
    };
    let nowhere = SongColumns {
        artist: usize::MAX,
        start: usize::MAX,
    };
    let song = [Number(0), code("A")];
    let on_left = Separation::new(minutes, four, two).ask(row, &song);
    let on_right = Separation::new(minutes, two, four).ask(&song, row);
    let on_none = Separation::new(minutes, nowhere, nowhere).ask(row, row);
    on_left == want && on_right == want && on_none == Absent
}

#[test]
fn odd_rows(rt: HostRuntime) {
    let a = code("A");
    let b = code("B");
    let zero = Number(0);
    let yes = YesNo(true);
    assert!(rt; beside(&[Missing, a, Missing, zero], True));
    assert!(rt; beside(&[b, a, Number(9000), zero, b, zero], True));
    // a column that does not exist
    assert!(rt; beside(&[], Absent) && beside(&[Missing], Absent) && beside(&[a, zero], Absent));
    assert!(rt; beside(&[Missing, a, Missing], Absent) && beside(&[Missing, b, zero], False));
    // a cell of another kind
    assert!(rt; beside(&[a, zero, a, zero], Absent) && beside(&[zero, a, zero, a], Absent));
    assert!(rt; beside(&[a, yes, a, zero], Absent) && beside(&[zero, a, zero, yes], Absent));
    assert!(rt; beside(&[zero, b, zero, b], False) && beside(&[a, yes, a, Number(2400)], False));
}
