// Tests of the table source and of layers over it.
use crate::common::{answers, is_refused, page};
use cells::Place;
use sources::SourceAnswer::Batch;
use sources::{Present, ShapeRefusal, Source, SourceAnswer, TableShape, TableSource};
use std::test::Fail;

// Cells, columns, batch length, and the refusal's number, if there is one.
const SHAPES: &[(usize, usize, usize, Option<u8>)] = &[
    (0, 1, 1, None),
    (6, 2, 0, Some(14)),
    (6, 2, 1, None),
    (6, 2, 1024, None),
    (6, 2, 1025, Some(14)),
    (6, 0, 3, Some(16)),
    (6, 4, 3, Some(16)),
    (16, 16, 1, None),
    (17, 17, 1, Some(16)),
    (7, 2, 1, Some(16)),
    (7, 2, 0, Some(14)),
    (6, 0, 1025, Some(14)),
    (0, 0, 1, Some(16)),
];

#[test]
fn shapes(rt: HostRuntime) {
    for &(cells, columns, batch, number) in SHAPES {
        let refused = TableShape::check(cells, columns, batch)
            .err()
            .map(ShapeRefusal::number);
        assert_eq!(rt; refused, number, "{cells} {columns} {batch}");
    }
}

// Rows of one column, batch length, and the batches.
const CUTS: &[(usize, usize, &[SourceAnswer])] = &[
    (0, 4, &[]),
    (1, 4, &[Batch(1)]),
    (3, 4, &[Batch(3)]),
    (4, 4, &[Batch(4)]),
    (5, 4, &[Batch(4), Batch(1)]),
    (3, 1, &[Batch(1), Batch(1), Batch(1)]),
    (1023, 1024, &[Batch(1023)]),
    (1024, 1024, &[Batch(1024)]),
    (1025, 1024, &[Batch(1024), Batch(1)]),
    (2048, 1024, &[Batch(1024), Batch(1024)]),
];

#[test]
fn cuts(rt: HostRuntime) -> Result<(), Fail> {
    for &(rows, batch, expected) in CUTS {
        let cells: Vec<Place> = page(rt.alloc(), rows)?;
        let mut asked = page(rt.alloc(), 1024)?;
        let mut short = page(rt.alloc(), 1023)?;
        let shape = TableShape::check(rows, 1, batch)?;
        let mut source = TableSource::new(shape, cells.as_slice());
        let right = is_refused(&mut source, short.as_mut_slice())
            && answers(&mut source, asked.as_mut_slice(), expected);
        assert!(rt; right, "{rows} {batch}");
    }
    Ok(())
}

const M: Place = Place::Missing;

const N: Place = Place::Row(7);

// Cells of rows of two columns, in batches of two; a layer over column 0 and one over another column.
const LAYERS: &[(&[Place], usize, &[SourceAnswer])] = &[
    (&[N, N, N, N, N, N], 1, &[Batch(2), Batch(1)]),
    (&[N, N, M, N, N, N], 1, &[Batch(1), Batch(1)]),
    (&[N, M, M, N, N, N], 1, &[Batch(0), Batch(1)]),
    (&[M, M, M, M, M, M], 1, &[Batch(0), Batch(0)]),
    (&[N, N, N, N], 2, &[Batch(0)]),
    (&[N, N, N, N], usize::MAX, &[Batch(0)]),
    (&[], 1, &[]),
];

#[test]
fn layers(rt: HostRuntime) -> Result<(), Fail> {
    for &(cells, column, expected) in LAYERS {
        let mut asked = page(rt.alloc(), 2048)?;
        let shape = TableShape::check(cells.len(), 2, 2)?;
        let below = Present::new(TableSource::new(shape, cells), 0);
        let mut source = Present::new(below, column);
        let right = answers(&mut source, asked.as_mut_slice(), expected);
        assert!(rt; right, "{} {column}", cells.len());
    }
    Ok(())
}
