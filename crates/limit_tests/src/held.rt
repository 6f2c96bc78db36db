// Tests of the left table: how many columns, how many rows, how much memory.
use crate::common::page;
use cells::Full;
use std::test::Fail;
use tables::{Gathering, TableRefusal};

// Column counts, and the refusal's number, if there is one.
const BEGINS: &[(usize, Option<u8>)] = &[
    (0, Some(1)),
    (1, None),
    (2, None),
    (16, None),
    (17, Some(1)),
    (usize::MAX, Some(1)),
];

#[test]
fn begins(rt: HostRuntime) {
    for &(columns, number) in BEGINS {
        let right = match Gathering::begin(columns) {
            Ok(table) => number.is_none() && table.columns() == columns && table.rows() == 0,
            Err(refusal) => number == Some(refusal.number()),
        };
        assert!(rt; right, "{}", columns);
    }
}

// Columns, cells of memory, cells of each row; then how many rows are held, and the refusal of the next.
const ADDS: &[(usize, usize, usize, usize, u8)] = &[
    (1, 0, 1, 0, 3),
    (2, 1, 2, 0, 3),
    (2, 2, 2, 1, 3),
    (2, 5, 2, 2, 3),
    (2, 5, 1, 0, 2),
    (2, 5, 3, 0, 2),
    (2, 0, 0, 0, 2),
    (16, 63, 16, 3, 3),
    (1, 4095, 1, 4095, 3),
    (1, 4096, 1, 4096, 3),
    (1, 4097, 1, 4096, 3),
];

// Adds a row until it is refused; the refusal.
fn fill(table: &mut Gathering, memory: &mut [Full], row: &[Full]) -> Option<TableRefusal> {
    (0..5000).find_map(|_| table.add(memory, row).err())
}

#[test]
fn adds(rt: HostRuntime) -> Result<(), Fail> {
    let row = [Full::YesNo(true); 16];
    for &(columns, cells, length, rows, number) in ADDS {
        let mut memory = page(rt.alloc(), cells)?;
        let mut table = Gathering::begin(columns).map_err(TableRefusal::number)?;
        let refusal = fill(&mut table, memory.as_mut_slice(), &row[..length.min(16)]);
        let refused = refusal.map(TableRefusal::number);
        assert_eq!(rt; refused, Some(number), "{columns} {cells} {length}");
        assert_eq!(rt; table.rows(), rows, "{columns} {cells} {length}");
        let sealed = table.seal();
        assert_eq!(rt; sealed.rows(), rows, "{columns} {cells} {length}");
        assert_eq!(rt; sealed.columns(), columns, "{columns} {cells} {length}");
    }
    Ok(())
}
