// Tests of the text source, and of layers over it.
use crate::common::{answers, is_refused, page};
use sources::SourceAnswer::Batch;
use sources::{Fault, Present, Source, SourceAnswer};
use std::alloc::{AllocError, Global};
use std::test::Fail;
use text_source::{TextRefusal, TextSource, text_columns};

// Column counts, and the refusal's number, if there is one.
const COLUMNS: &[(usize, Option<u8>)] = &[
    (0, Some(16)),
    (1, None),
    (16, None),
    (17, Some(16)),
    (usize::MAX, Some(16)),
];

#[test]
fn columns(rt: HostRuntime) {
    for &(columns, number) in COLUMNS {
        let refused = text_columns(columns).err().map(TextRefusal::number);
        assert_eq!(rt; refused, number, "{}", columns);
    }
}

// A good line many times, and then a tail.
fn lines(heap: Global, times: usize, tail: &str) -> Result<Vec<u8>, AllocError> {
    let mut text = Vec::new(heap);
    for _ in 0..times {
        text.extend_from_slice(b"ABBA,0\n")?;
    }
    text.extend_from_slice(tail.as_bytes())?;
    Ok(text)
}

// A line with another number of cells, and one with a malformed cell.
const MISCOUNTED: SourceAnswer = SourceAnswer::Fault(Fault {
    cause: 17,
    depth: 0,
});

const MALFORMED: SourceAnswer = SourceAnswer::Fault(Fault {
    cause: 18,
    depth: 0,
});

// The same through two layers.
const MISCOUNTED_BELOW: SourceAnswer = SourceAnswer::Fault(Fault {
    cause: 17,
    depth: 2,
});

const MALFORMED_BELOW: SourceAnswer = SourceAnswer::Fault(Fault {
    cause: 18,
    depth: 2,
});

// Good lines, a tail behind them, and the answers.
const TEXTS: &[(usize, &str, &[SourceAnswer])] = &[
    (0, "", &[]),
    (1, "", &[Batch(1)]),
    (0, "A,1", &[Batch(1)]),
    (63, "", &[Batch(63)]),
    (64, "", &[Batch(64)]),
    (65, "", &[Batch(64), Batch(1)]),
    (128, "", &[Batch(64), Batch(64)]),
    (63, "A,1", &[Batch(64)]),
    (64, "A,1", &[Batch(64), Batch(1)]),
    (0, "\n", &[MISCOUNTED]),
    (0, "A\n+,1\n", &[MISCOUNTED, MALFORMED]),
    (63, "+,1\nA,1", &[Batch(63), MALFORMED, Batch(1)]),
    (64, "+,1\nA,1", &[Batch(64), MALFORMED, Batch(1)]),
    (65, "A,1,2", &[Batch(64), Batch(1), MISCOUNTED]),
    (
        1,
        "\n\nA,1\n",
        &[Batch(1), MISCOUNTED, MISCOUNTED, Batch(1)],
    ),
];

#[test]
fn texts(rt: HostRuntime) -> Result<(), Fail> {
    for &(times, tail, expected) in TEXTS {
        let text = lines(rt.alloc(), times, tail)?;
        let mut asked = page(rt.alloc(), 128)?;
        let mut short = page(rt.alloc(), 127)?;
        let columns = text_columns(2).map_err(TextRefusal::number)?;
        let mut source = TextSource::new(columns, text.as_slice());
        let right = is_refused(&mut source, short.as_mut_slice())
            && answers(&mut source, asked.as_mut_slice(), expected);
        assert!(rt; right, "{times} {tail:?}");
    }
    Ok(())
}

// The same below a layer over the artist and a layer over the start.
const LAYERS: &[(usize, &str, &[SourceAnswer])] = &[
    (65, "", &[Batch(64), Batch(1)]),
    (62, ",1\nA,\nA,1", &[Batch(62), Batch(1)]),
    (0, ",\n+,1\nA,1", &[Batch(0), MALFORMED_BELOW, Batch(1)]),
    (0, "A\n,1", &[MISCOUNTED_BELOW, Batch(0)]),
];

#[test]
fn layers(rt: HostRuntime) -> Result<(), Fail> {
    for &(times, tail, expected) in LAYERS {
        let text = lines(rt.alloc(), times, tail)?;
        let mut asked = page(rt.alloc(), 128)?;
        let columns = text_columns(2).map_err(TextRefusal::number)?;
        let below = Present::new(TextSource::new(columns, text.as_slice()), 0);
        let mut source = Present::new(below, 1);
        let right = answers(&mut source, asked.as_mut_slice(), expected);
        assert!(rt; right, "{times} {tail:?}");
    }
    Ok(())
}
