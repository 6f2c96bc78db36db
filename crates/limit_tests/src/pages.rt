// Tests of marks at the ends of their words, and of delivering waiting rows.
use memory::{WaitingRows, clear_marks, is_marked, mark};
use std::alloc::{AllocError, Global};
use std::test::Fail;

// Rows that are marked in two words; the last two lie outside.
const MARKS: &[usize] = &[0, 1, 62, 63, 64, 65, 126, 127, 128, usize::MAX];

#[test]
fn marks(rt: HostRuntime) {
    for &i in MARKS {
        let mut words = [0; 2];
        mark(&mut words, i);
        for j in 0..130 {
            assert!(rt; is_marked(&words, j) == (i == j && j < 128), "{}", j);
        }
        clear_marks(&mut words);
        assert_eq!(rt; words, [0; 2], "{}", i);
    }
}

// So many numbers, counted from one on. Rows of any values can be delivered.
fn numbers(heap: Global, from: usize, count: usize) -> Result<Vec<usize>, AllocError> {
    (0..count).map(|i| from.saturating_add(i)).collect(heap)
}

// Waiting rows, how many are delivered, their width, cells of the waiting page and of the out page, and whether it is done.
const DELIVERS: &[(usize, usize, usize, usize, usize, bool)] = &[
    (3, 2, 2, 6, 4, true),
    (3, 2, 2, 7, 5, true),
    (3, 3, 2, 6, 6, true),
    (3, 0, 2, 6, 0, true),
    (0, 0, 2, 0, 0, true),
    (3, 2, 0, 0, 0, true),
    (3, 2, 2, 5, 4, false),
    (3, 2, 2, 6, 3, false),
    (2, 3, 2, 6, 6, false),
    (usize::MAX, 1, 2, 6, 6, false),
];

#[test]
fn delivered(rt: HostRuntime) -> Result<(), Fail> {
    for &(count, first, width, cells, room, done) in DELIVERS {
        let mut waiting = numbers(rt.alloc(), 0, cells)?;
        let mut out = numbers(rt.alloc(), 100, room)?;
        let mut rows = WaitingRows {
            cells: waiting.as_mut_slice(),
            rows: count,
        };
        let right = rows.deliver(first, width, out.as_mut_slice()).is_ok() == done;
        assert!(rt; right, "{count} {first} {width}");
        let cut = if done { first.saturating_mul(width) } else { 0 };
        for (i, &cell) in out.iter().enumerate() {
            let number = if i < cut { i } else { i.saturating_add(100) };
            assert_eq!(rt; cell, number, "{}", i);
        }
        let moved = if done {
            count.saturating_mul(width).saturating_sub(cut)
        } else {
            0
        };
        for (i, &cell) in waiting.iter().enumerate() {
            let number = if i < moved { i.saturating_add(cut) } else { i };
            assert_eq!(rt; cell, number, "{}", i);
        }
    }
    Ok(())
}
