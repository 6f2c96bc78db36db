// Tests of the two blocks of an input and their songs (docs/RULES.md, "The clash list program").
use crate::common::{code, repeated};
use cells::Full;
use lines::LineRefusal;
use schedules::{SongError, find_gap, read_songs};
use std::alloc::Global;
use std::test::Fail;

// Texts, where their gap begins and ends, and how many lines stand before it.
const GAPS: &[(&str, usize, usize, usize)] = &[
    ("", 0, 0, 0),
    ("A", 1, 1, 1),
    ("A\n", 2, 2, 1),
    ("A\nB", 3, 3, 2),
    ("A\nB\n", 4, 4, 2),
    ("\n", 0, 1, 0),
    ("\nA", 0, 1, 0),
    ("\n\nA", 0, 1, 0),
    ("A\n\n", 2, 3, 1),
    ("A\n\nB", 2, 3, 1),
    ("A\n\n\nB", 2, 3, 1),
    ("A\nB\n\nC\n\nD", 4, 5, 2),
    ("A\n\r\nB", 5, 5, 3),
    ("A\n \nB", 5, 5, 3),
    ("A\n,\n\n", 4, 5, 2),
];

#[test]
fn gaps(rt: HostRuntime) {
    for &(text, end, next, lines) in GAPS {
        let gap = find_gap(text.as_bytes());
        assert!(rt;
            gap.end == end && gap.next == next && gap.lines == lines,
            "{text:?}"
        );
    }
}

// A block in three parts, the middle one a song that comes so many times; then the cells and the lines passed by, or the error.
const BLOCKS: &[(&str, usize, &str, Result<(usize, usize), SongError>)] = &[
    ("artist,start", 0, "", Ok((0, 0))),
    ("artist,start\n", 0, "", Ok((0, 0))),
    ("artist,start\n", 0, "ABBA,1", Ok((2, 0))),
    ("artist,start\n", 1, "", Ok((2, 0))),
    ("artist,start\n", 0, ",\n,5\nA,", Ok((6, 0))),
    ("artist,start\n", 0, "artist,start\n", Ok((2, 0))),
    ("artist,start\n", 0, "\n", Ok((0, 1))),
    ("artist,start\n\n\n", 1, "\n", Ok((2, 3))),
    (
        "artist,start\n",
        0,
        "ABBA,0\r\nABBA\nA,B,C\nX,01\n",
        Ok((0, 4)),
    ),
    // 4,096 rows, and more
    ("artist,start\n", 4095, "ABBA,1", Ok((8192, 0))),
    ("artist,start\n", 4096, "", Ok((8192, 0))),
    ("artist,start\n", 4096, "bad\n\n+,\n", Ok((8192, 3))),
    ("artist,start\nbad\n", 4096, "", Ok((8192, 1))),
    (
        "artist,start\n",
        4096,
        "\nABBA,1",
        Err(SongError::TooManyRows),
    ),
    ("artist,start\n", 4096, ",", Err(SongError::TooManyRows)),
    ("artist,start\n", 4097, "", Err(SongError::TooManyRows)),
    ("artist,start\n", 4097, "bad", Err(SongError::TooManyRows)),
    // another names line, or none
    ("", 0, "", Err(SongError::NoNames)),
    ("", 4097, "", Err(SongError::NoNames)),
    ("\n", 0, "", Err(SongError::NoNames)),
    ("\nartist,start\n", 1, "", Err(SongError::NoNames)),
    ("", 1, "artist,start\n", Err(SongError::NoNames)),
    ("artist,start\r\n", 1, "", Err(SongError::NoNames)),
    ("artist,start\r", 0, "", Err(SongError::NoNames)),
    ("Artist,start\n", 1, "", Err(SongError::NoNames)),
    ("artist,Start\n", 1, "", Err(SongError::NoNames)),
    ("artist,start,\n", 1, "", Err(SongError::NoNames)),
    ("artist, start\n", 1, "", Err(SongError::NoNames)),
    ("artist,start \n", 1, "", Err(SongError::NoNames)),
    (" artist,start\n", 1, "", Err(SongError::NoNames)),
    ("artist;start\n", 1, "", Err(SongError::NoNames)),
    ("artist\n", 1, "", Err(SongError::NoNames)),
    ("artist,\n", 1, "", Err(SongError::NoNames)),
    ("artist,star\n", 1, "", Err(SongError::NoNames)),
    ("artist,starts\n", 1, "", Err(SongError::NoNames)),
    ("start,artist\n", 1, "", Err(SongError::NoNames)),
    ("\"artist\",\"start\"\n", 1, "", Err(SongError::NoNames)),
];

fn counts_of(heap: Global, text: &[u8]) -> Result<(usize, usize), SongError> {
    let songs = read_songs(heap, text)?;
    Ok((songs.cells.len(), songs.passed.len()))
}

#[test]
fn songs(rt: HostRuntime) -> Result<(), Fail> {
    for &(head, times, tail, want) in BLOCKS {
        let text = repeated(rt.alloc(), head, "ABBA,0\n", times, tail)?;
        assert!(rt;
            counts_of(rt.alloc(), text.as_slice()) == want,
            "{head:?} {times} {tail:?}"
        );
    }
    Ok(())
}

// The lines passed by of the block below: how many lines stand before each, and its refusal.
const NOTED: &[(usize, LineRefusal)] = &[
    (1, LineRefusal::Miscounted),
    (3, LineRefusal::Miscounted),
    (4, LineRefusal::Malformed),
    (6, LineRefusal::Malformed),
    (7, LineRefusal::Miscounted),
];

#[test]
fn noted_lines(rt: HostRuntime) -> Result<(), Fail> {
    let text = b"artist,start\n\nABBA,0\nbad\nX,01\nY,\nZ,5\r\n\nU2,-5";
    let cells = [
        code("ABBA"),
        Full::Number(0),
        code("Y"),
        Full::Missing,
        code("U2"),
        Full::Number(-5),
    ];
    match read_songs(rt.alloc(), text) {
        Ok(songs) => {
            assert!(rt;
                songs.cells.as_slice() == cells.as_slice() && songs.passed.len() == NOTED.len()
            );
            for (line, &(index, refusal)) in songs.passed.iter().zip(NOTED) {
                assert!(rt; line.index == index && line.refusal == refusal, "{}", index);
            }
            Ok(())
        }
        Err(_) => Err(Fail::new("no songs")),
    }
}
