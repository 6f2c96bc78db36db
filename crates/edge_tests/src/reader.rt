// Tests of the row reader and of passing lines (docs/RULES.md, "Lines of text").
use crate::common::repeated;
use cells::Full;
use lines::{Answer, LineRefusal, line_end, pass_line, read_row, row_text};
use std::alloc::{AllocError, Global};
use std::test::Fail;
use texts::next_line;

// A cell that no line writes.
const OLD: Full = Full::YesNo(true);

type Read = Result<Answer, LineRefusal>;

const ROW: Read = Ok(Answer::Row);

const END: Read = Ok(Answer::End);

const MISCOUNTED: Read = Err(LineRefusal::Miscounted);

const MALFORMED: Read = Err(LineRefusal::Malformed);

// Text, cursor, columns, then the answer and the cursor after it.
const READS: &[(&str, usize, usize, Read, usize)] = &[
    ("", 0, 1, END, 0),
    ("", 0, 2, END, 0),
    ("", 0, 0, END, 0),
    ("", 5, 2, END, 5),
    ("", usize::MAX, 2, END, usize::MAX),
    ("A", 1, 1, END, 1),
    ("A", 7, 1, END, 7),
    ("A,1\n", 4, 2, END, 4),
    ("A,1\n", usize::MAX, 2, END, usize::MAX),
    ("\n", 0, 1, ROW, 1),
    ("\n", 0, 2, MISCOUNTED, 0),
    ("\n", 1, 1, END, 1),
    ("\n\n", 0, 1, ROW, 1),
    ("\n\n", 1, 1, ROW, 2),
    ("\n\n", 2, 1, END, 2),
    ("ABBA,0", 0, 2, ROW, 6),
    ("ABBA,0", 6, 2, END, 6),
    ("ABBA,0\n", 0, 2, ROW, 7),
    ("ABBA,0\nBLUR,", 7, 2, ROW, 12),
    ("ABBA,0\nBLUR,", 2, 2, ROW, 7),
    ("ABBA,0\nBLUR,", 6, 1, ROW, 7),
    ("ABBA,0\nBLUR,", 0, 1, MISCOUNTED, 0),
    ("ABBA,0\nBLUR,", 0, 3, MISCOUNTED, 0),
    ("yes,no", 0, 2, ROW, 6),
    (",", 0, 2, ROW, 1),
    (",", 0, 1, MISCOUNTED, 0),
    (",", 0, 3, MISCOUNTED, 0),
    (",\n", 0, 2, ROW, 2),
    (",,\n", 0, 3, ROW, 3),
    ("A,", 0, 2, ROW, 2),
    (",-5", 0, 2, ROW, 3),
    (",,,,,,,,,,,,,,,", 0, 16, ROW, 15),
    (",,,,,,,,,,,,,,,", 0, 17, MISCOUNTED, 0),
    ("A", 0, 0, MISCOUNTED, 0),
    ("\n", 0, 0, MISCOUNTED, 0),
    (",", 0, 0, MISCOUNTED, 0),
    ("+", 0, 0, MISCOUNTED, 0),
    ("+,+,+", 0, 2, MISCOUNTED, 0),
    ("A-B", 0, 2, MISCOUNTED, 0),
    ("01\nA,1", 0, 2, MISCOUNTED, 0),
    ("A-B", 0, 1, MALFORMED, 0),
    ("A-B,1\n", 0, 2, MALFORMED, 0),
    ("A,01\n", 0, 2, MALFORMED, 0),
    ("A,1\n+,2\n", 4, 2, MALFORMED, 4),
    ("ABCDEFGHI,0", 0, 2, MALFORMED, 0),
    ("A,1000000000000", 0, 2, MALFORMED, 0),
    ("A, 1", 0, 2, MALFORMED, 0),
    ("A;1", 0, 2, MISCOUNTED, 0),
    ("A;1", 0, 1, MALFORMED, 0),
    ("\"A,1\"", 0, 2, MALFORMED, 0),
    ("A\t,1", 0, 2, MALFORMED, 0),
    ("ABBA,0\r\n", 0, 2, MALFORMED, 0),
    ("ABBA,\r\n", 0, 2, MALFORMED, 0),
    ("A\r,0\n", 0, 2, MALFORMED, 0),
    ("\r\n", 0, 1, MALFORMED, 0),
    ("\r\n", 0, 2, MISCOUNTED, 0),
    ("Ä,0\n", 0, 2, MALFORMED, 0),
    ("Ä", 0, 2, MISCOUNTED, 0),
    ("A¬B", 0, 2, MISCOUNTED, 0),
    ("A,1\u{8A}", 0, 2, MALFORMED, 0),
    ("A\0,1", 0, 2, MALFORMED, 0),
];

fn untouched(row: &[Full]) -> bool {
    row.iter().all(|cell| *cell == OLD)
}

// Reads once into a row of cells that no line writes. A row that was read prints as its line; otherwise it stays.
fn reads(
    heap: Global,
    text: &[u8],
    at: usize,
    row: &mut [Full],
    answer: Read,
    after: usize,
) -> Result<bool, AllocError> {
    let mut cursor = at;
    let got = read_row(text, &mut cursor, row);
    if cursor != after || got != answer {
        return Ok(false);
    }
    if answer != ROW || at > text.len() {
        return Ok(untouched(row));
    }
    let printed = row_text(heap, row)?;
    Ok(printed.as_bytes() == &text[at..line_end(text, at)])
}

#[test]
fn rows(rt: HostRuntime) -> Result<(), Fail> {
    for &(text, at, columns, answer, after) in READS {
        let mut row = [OLD; 17];
        let n = columns.min(17);
        let right = reads(
            rt.alloc(),
            text.as_bytes(),
            at,
            &mut row[0..n],
            answer,
            after,
        )?;
        assert!(rt; right, "{text:?} {at} {columns}");
    }
    Ok(())
}

// Text and place, then where the line ends and where the cursor stands behind it.
const PASSES: &[(&str, usize, usize, usize)] = &[
    ("", 0, 0, 0),
    ("", 9, 9, 9),
    ("", usize::MAX, usize::MAX, usize::MAX),
    ("\n", 0, 0, 1),
    ("\n", 1, 1, 1),
    ("\n\n", 0, 0, 1),
    ("\n\n", 1, 1, 2),
    ("A,B", 0, 3, 3),
    ("A,B", 1, 3, 3),
    ("A,B", 3, 3, 3),
    ("A,B\n", 0, 3, 4),
    ("A,B\n", 3, 3, 4),
    ("A,B\n", 4, 4, 4),
    ("+bad+\nX", 0, 5, 6),
    ("+bad+\nX", 6, 7, 7),
    ("A\r\nB", 0, 2, 3),
    ("Ä\u{8A}\nB", 0, 4, 5),
    ("A\nB", usize::MAX, usize::MAX, usize::MAX),
];

#[test]
fn passed_lines(rt: HostRuntime) {
    for &(text, at, end, after) in PASSES {
        let mut cursor = at;
        pass_line(text.as_bytes(), &mut cursor);
        assert!(rt;
            line_end(text.as_bytes(), at) == end && cursor == after,
            "{text:?} {at}"
        );
    }
}

// A part that a long first line has many times, and the answers for one, two and three columns.
const LONG: &[(&str, [Read; 3])] = &[
    ("A", [MISCOUNTED, MALFORMED, MISCOUNTED]),
    ("7", [MISCOUNTED, MALFORMED, MISCOUNTED]),
    ("+", [MISCOUNTED, MALFORMED, MISCOUNTED]),
    (",", [MISCOUNTED; 3]),
];

#[test]
fn long_lines(rt: HostRuntime) -> Result<(), Fail> {
    for &(part, answers) in LONG {
        let text = repeated(rt.alloc(), "", part, 5000, ",1\nB,2")?;
        for (i, answer) in answers.iter().enumerate() {
            let mut row = [OLD; 3];
            assert!(rt;
                reads(
                    rt.alloc(),
                    text.as_slice(),
                    0,
                    &mut row[0..i + 1],
                    *answer,
                    0,
                )?,
                "{}",
                part
            );
        }
        let mut cursor = 0;
        pass_line(text.as_slice(), &mut cursor);
        let mut row = [OLD; 2];
        assert!(rt;
            cursor == 5003 && reads(rt.alloc(), text.as_slice(), cursor, &mut row, ROW, 5006)?,
            "{}",
            part
        );
    }
    Ok(())
}

// The answers of one line after another, with the cursor behind each and the row as it then is.
const WALK: &[(Read, usize, &str)] = &[
    (MISCOUNTED, 1, "yes,yes"),
    (ROW, 8, "ABBA,0"),
    (MISCOUNTED, 12, "ABBA,0"),
    (MALFORMED, 16, "ABBA,0"),
    (MALFORMED, 22, "ABBA,0"),
    (MISCOUNTED, 23, "ABBA,0"),
    (ROW, 25, ","),
    (ROW, 29, "Z,-5"),
    (END, 29, "Z,-5"),
    (END, 29, "Z,-5"),
];

#[test]
fn next_lines(rt: HostRuntime) -> Result<(), Fail> {
    let text = b"\nABBA,0\nbad\n+,1\nCR,1\r\n\n,\nZ,-5";
    let mut cursor = 0;
    let mut cells = [OLD; 2];
    let row = &mut cells[0..2];
    for &(answer, after, shown) in WALK {
        let got = next_line(text, &mut cursor, row);
        let printed = row_text(rt.alloc(), row)?;
        assert!(rt;
            got == answer && cursor == after && printed.as_str() == shown,
            "{}",
            after
        );
    }
    Ok(())
}
