// Tests of constants, turned-about verdicts, verdicts by place and rows in memory (docs/RULES.md, "Verdicts").
use crate::common::code;
use cells::Place::{Missing, Row, YesNo};
use cells::{Full, Place};
use memory::{Rows, RowsRefusal, cell_at};
use std::test::Fail;
use verdicts::Truth::{Absent, False, True};
use verdicts::{ByPlace, Constant, Minutes, Separation, SongColumns, Truth, TurnedAbout, Verdict};

// Whether a constant says the same of any rows, of both kinds of cells, turned about or not.
fn always(truth: Truth) -> bool {
    let full = Constant::<Full>::new(truth);
    let place = Constant::<Place>::new(truth);
    let song = [code("A"), Full::Number(0)];
    full.ask(&[], &[]) == truth
        && full.ask(&song, &song) == truth
        && full.ask(&[Full::Missing], &song) == truth
        && place.ask(&[Row(0)], &[Missing]) == truth
        && TurnedAbout::new(full).ask(&[], &song) == truth
}

#[test]
fn constants_and_turns(rt: HostRuntime) -> Result<(), Fail> {
    assert!(rt; always(True) && always(False) && always(Absent));
    let minutes = Minutes::try_from(40)?;
    let there = SongColumns {
        artist: 0,
        start: 1,
    };
    let back = SongColumns {
        artist: 1,
        start: 0,
    };
    let verdict = Separation::new(minutes, there, back);
    let turned = TurnedAbout::new(verdict);
    let twice = TurnedAbout::new(turned);
    let song = [code("A"), Full::Number(0)];
    let swapped = [Full::Number(0), code("A")];
    assert!(rt; verdict.ask(&song, &swapped) == True && verdict.ask(&swapped, &song) == Absent);
    assert!(rt; turned.ask(&song, &swapped) == Absent && turned.ask(&swapped, &song) == True);
    assert!(rt; twice.ask(&song, &swapped) == True && twice.ask(&swapped, &song) == Absent);
    Ok(())
}

// Left and right places into the worked schedule, and the verdict at 40 minutes.
const PLACES: &[(&[Place], &[Place], Truth)] = &[
    (&[Row(2)], &[Row(0)], True),
    (&[Row(0)], &[Row(0)], False),
    (&[Row(1)], &[Row(2)], Absent),
    (&[Row(0)], &[Row(2)], False),
    (&[Row(2)], &[Row(1)], False),
    (&[Row(1)], &[Row(0)], False),
    (&[Row(2), Missing], &[Row(0), Row(7)], True),
    (&[Row(3)], &[Row(0)], Absent),
    (&[Row(2)], &[Row(3)], Absent),
    (&[Row(3)], &[Row(3)], Absent),
    (&[Row(u32::MAX)], &[Row(0)], Absent),
    (&[Row(2)], &[Row(u32::MAX)], Absent),
    (&[Missing], &[Row(0)], Absent),
    (&[Row(2)], &[Missing], Absent),
    (&[YesNo(true)], &[Row(0)], Absent),
    (&[Row(2)], &[YesNo(false)], Absent),
    (&[], &[Row(0)], Absent),
    (&[Row(2)], &[], Absent),
    (&[Missing, Row(2)], &[Row(0)], Absent),
];

#[test]
fn places(rt: HostRuntime) -> Result<(), Fail> {
    let abba = code("ABBA");
    let blur = code("BLUR");
    let schedule = [
        abba,
        Full::Number(0),
        blur,
        Full::Number(1200),
        abba,
        Full::Number(3000),
    ];
    let log = [
        abba,
        Full::Number(2400),
        code("CAKE"),
        Full::Number(3000),
        blur,
        Full::Missing,
    ];
    let (Ok(left), Ok(right), Ok(none)) = (
        Rows::new(&schedule, 2),
        Rows::new(&log, 2),
        Rows::new(&[], 2),
    ) else {
        return Err(Fail::new("rows"));
    };
    let minutes = Minutes::try_from(40)?;
    let columns = SongColumns {
        artist: 0,
        start: 1,
    };
    let verdict = Separation::new(minutes, columns, columns);
    for (i, &(l, r, want)) in PLACES.iter().enumerate() {
        assert!(rt;
            ByPlace::new(verdict, left, right).ask(l, r) == want,
            "{}",
            i
        );
        assert!(rt;
            TurnedAbout::new(ByPlace::new(verdict, left, right)).ask(r, l) == want,
            "{}",
            i
        );
        assert!(rt;
            ByPlace::new(verdict, none, none).ask(l, r) == Absent,
            "{}",
            i
        );
    }
    Ok(())
}

const REFUSED: Result<usize, RowsRefusal> = Err(RowsRefusal::NotWholeRows);

// Cells and columns, and how many rows they make, where they are not refused.
const TABLES: &[(usize, usize, Result<usize, RowsRefusal>)] = &[
    (0, 0, REFUSED),
    (0, 1, Ok(0)),
    (0, 16, Ok(0)),
    (0, 17, REFUSED),
    (1, 1, Ok(1)),
    (1, 2, REFUSED),
    (2, 1, Ok(2)),
    (3, 2, REFUSED),
    (4, 0, REFUSED),
    (15, 16, REFUSED),
    (16, 16, Ok(1)),
    (17, 16, REFUSED),
    (17, 17, REFUSED),
    (32, 15, REFUSED),
    (32, 16, Ok(2)),
    (32, 32, REFUSED),
    (32, usize::MAX, REFUSED),
];

#[test]
fn rows_in_memory(rt: HostRuntime) {
    let memory = [Full::Number(5); 32];
    for &(len, columns, want) in TABLES {
        let cells = &memory[0..len.min(32)];
        let right = match Rows::new(cells, columns) {
            Ok(rows) => {
                let n = rows.count();
                want == Ok(n)
                    && rows.row(n).is_empty()
                    && rows.row(usize::MAX).is_empty()
                    && (n == 0 || rows.row(n - 1).len() == columns)
            }
            Err(refusal) => want == Err(refusal),
        };
        assert!(rt; right, "{len} {columns}");
    }
    assert!(rt; cell_at(&memory, 31) == Full::Number(5) && cell_at(&memory, 32) == Full::Missing);
}
