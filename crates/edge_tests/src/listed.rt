// Tests of minutes as text and of clash lists (docs/RULES.md, "The clash list program").
use crate::common::repeated;
use clashes::{InputError, Pair, Separations, clash_lists, read_minutes};
use schedules::SongError;
use std::test::Fail;
use verdicts::{Minutes, MinutesRefusal};

// Texts, and the minutes that they write.
const ARGUMENTS: &[(&str, Option<u32>)] = &[
    ("40", Some(40)),
    ("90", Some(90)),
    ("1", Some(1)),
    ("1440", Some(1440)),
    ("0", None),
    ("1441", None),
    ("14400", None),
    ("-1", None),
    ("-40", None),
    ("-0", None),
    ("040", None),
    ("0040", None),
    ("+40", None),
    ("40.0", None),
    ("40 ", None),
    (" 40", None),
    ("40\n", None),
    ("4,0", None),
    ("0x28", None),
    ("x", None),
    ("", None),
    ("ABBA", None),
    ("forty", None),
    ("65576", None),
    ("4294967336", None),
    ("999999999999", None),
    ("1000000000000", None),
    ("18446744073709551656", None),
];

#[test]
fn minutes_written(rt: HostRuntime) {
    for &(text, want) in ARGUMENTS {
        let right = match read_minutes(text.as_bytes()) {
            Ok(minutes) => want == Some(minutes.count()),
            Err(refusal) => want == None && refusal == MinutesRefusal::OutOfRange,
        };
        assert!(rt; right, "{}", text);
    }
}

const WORKED: &str =
    "artist,start\nABBA,0\nBLUR,1200\nABBA,3000\n\nartist,start\nABBA,2400\nCAKE,3000\nBLUR,\n";

// Row numbers of the schedule and the log.
type Pairs = &'static [(usize, usize)];

const NONE: Pairs = &[];

const BOTH: Pairs = &[(0, 0), (2, 0)];

// A text, the lines before its gap and two separations; then the first list, the second, what it adds and what it drops.
const LISTS: &[(&str, usize, u32, u32, [Pairs; 4])] = &[
    (WORKED, 4, 40, 90, [&[(2, 0)], BOTH, &[(0, 0)], NONE]),
    (WORKED, 4, 90, 40, [BOTH, &[(2, 0)], NONE, &[(0, 0)]]),
    (WORKED, 4, 40, 40, [&[(2, 0)], &[(2, 0)], NONE, NONE]),
    (WORKED, 4, 10, 11, [NONE, &[(2, 0)], &[(2, 0)], NONE]),
    (WORKED, 4, 41, 1440, [BOTH, BOTH, NONE, NONE]),
    (WORKED, 4, 1440, 1, [BOTH, NONE, NONE, BOTH]),
    // no songs on one side or both
    ("artist,start\n\nartist,start", 1, 40, 90, [NONE; 4]),
    ("artist,start\nA,0\n\nartist,start\n", 2, 40, 90, [NONE; 4]),
    ("artist,start\n\nartist,start\nA,0\n", 1, 40, 90, [NONE; 4]),
    // the schedule's order, then the log's; equal songs are songs of their own
    (
        "artist,start\nB,0\nA,0\nA,0\n\nartist,start\nA,60\nB,59\nA,0\nA,0",
        4,
        1,
        2,
        [
            &[(0, 1), (1, 2), (1, 3), (2, 2), (2, 3)],
            &[(0, 1), (1, 0), (1, 2), (1, 3), (2, 0), (2, 2), (2, 3)],
            &[(1, 0), (2, 0)],
            NONE,
        ],
    ),
    // bad lines are no rows, and missing cells make no clash
    (
        "artist,start\nbad\nA,0\n,0\nA,\n\nartist,start\n\n+,0\nA,\n,0\nA,0\r\nA,0",
        5,
        40,
        90,
        [&[(0, 2)], &[(0, 2)], NONE, NONE],
    ),
];

fn same(found: &[Pair], want: &[(usize, usize)]) -> bool {
    found
        .iter()
        .map(|pair| (pair.left, pair.right))
        .eq(want.iter().copied())
}

fn separations(first: u32, second: u32) -> Result<Separations, MinutesRefusal> {
    Ok(Separations {
        first: Minutes::try_from(first)?,
        second: Minutes::try_from(second)?,
    })
}

#[test]
fn lists(rt: HostRuntime) -> Result<(), Fail> {
    for &(text, lines, n, m, [first, second, added, dropped]) in LISTS {
        let right = match clash_lists(rt.alloc(), text.as_bytes(), separations(n, m)?) {
            Ok(found) => {
                found.lines_before_gap == lines
                    && same(found.lists.first.as_slice(), first)
                    && same(found.lists.second.as_slice(), second)
                    && same(found.lists.added.as_slice(), added)
                    && same(found.lists.dropped.as_slice(), dropped)
            }
            Err(_) => false,
        };
        assert!(rt; right, "{text:?} {n} {m}");
    }
    Ok(())
}

const NO_SCHEDULE: Option<InputError> = Some(InputError::Schedule(SongError::NoNames));

const NO_LOG: Option<InputError> = Some(InputError::Log(SongError::NoNames));

const LONG_SCHEDULE: Option<InputError> = Some(InputError::Schedule(SongError::TooManyRows));

const LONG_LOG: Option<InputError> = Some(InputError::Log(SongError::TooManyRows));

// A text in three parts, the middle one a song that comes so many times, and what it is refused for.
const INPUTS: &[(&str, usize, &str, Option<InputError>)] = &[
    ("", 0, "", NO_SCHEDULE),
    ("\n", 0, "", NO_SCHEDULE),
    ("\nartist,start\n", 1, "", NO_SCHEDULE),
    ("\nartist,start\n\nartist,start\n", 1, "", NO_SCHEDULE),
    ("", 1, "\nartist,start", NO_SCHEDULE),
    ("artist,start\r\n\nartist,start\n", 1, "", NO_SCHEDULE),
    ("start,artist\n\nstart,artist\n", 1, "", NO_SCHEDULE),
    ("artist,start", 0, "", NO_LOG),
    ("artist,start\n", 1, "", NO_LOG),
    ("artist,start\n", 1, "\n", NO_LOG),
    ("artist,start\n\n", 1, "", NO_LOG),
    ("artist,start\n\n\nartist,start\n", 1, "", NO_LOG),
    ("artist,start\n\nArtist,start\n", 1, "", NO_LOG),
    ("artist,start\n\nartist,start\r\n", 1, "", NO_LOG),
    ("artist,start\n\r\nartist,start\n", 1, "", NO_LOG),
    ("artist,start\n", 4096, "\nartist,start\nA,0", None),
    ("artist,start\n", 4097, "\nartist,start\nA,0", LONG_SCHEDULE),
    ("artist,start\n", 4097, "\nno names", LONG_SCHEDULE),
    ("artist,start\nA,0\n\nartist,start\n", 4096, "\n", None),
    ("artist,start\nA,0\n\nartist,start\n", 4096, "A,0", LONG_LOG),
];

#[test]
fn inputs(rt: HostRuntime) -> Result<(), Fail> {
    for &(head, times, tail, want) in INPUTS {
        let text = repeated(rt.alloc(), head, "A,0\n", times, tail)?;
        assert!(rt;
            clash_lists(rt.alloc(), text.as_slice(), separations(40, 40)?).err() == want,
            "{head:?} {times} {tail:?}"
        );
    }
    Ok(())
}
