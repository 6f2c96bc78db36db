// Tests of printing cells and rows (docs/RULES.md, "Lines of text").
use crate::common::code;
use cells::{Full, Place};
use lines::row_text;
use std::alloc::{AllocError, Global};
use std::test::Fail;

const NUMBERS: &[(i64, &str)] = &[
    (0, "0"),
    (7, "7"),
    (-5, "-5"),
    (999_999_999_999, "999999999999"),
    (i64::MAX, "9223372036854775807"),
    (i64::MIN, "-9223372036854775808"),
];

const PLACES: &[(Place, &str)] = &[
    (Place::Missing, ""),
    (Place::YesNo(true), "yes"),
    (Place::YesNo(false), "no"),
    (Place::Row(0), "0"),
    (Place::Row(4095), "4095"),
    (Place::Row(u32::MAX), "4294967295"),
];

#[test]
fn cells_print(rt: HostRuntime) -> Result<(), Fail> {
    for &(n, want) in NUMBERS {
        assert!(rt;
            Full::Number(n).to_string(rt.alloc())?.as_str() == want,
            "{}",
            want
        );
    }
    for &(place, want) in PLACES {
        assert!(rt; place.to_string(rt.alloc())?.as_str() == want, "{}", want);
    }
    for letters in ["A", "U2", "abba", "ABCDEFGH", "A1234567"] {
        assert!(rt;
            code(letters).to_string(rt.alloc())?.as_str() == letters,
            "{}",
            letters
        );
    }
    let none = Full::Missing;
    let yes = Full::YesNo(true);
    let no = Full::YesNo(false);
    let mixed = format!(in rt.alloc(); "<{none}|{yes}|{no}>")?;
    assert!(rt; mixed.as_str() == "<|yes|no>");
    Ok(())
}

fn prints(heap: Global, row: &[Full], want: &str) -> Result<bool, AllocError> {
    Ok(row_text(heap, row)?.as_str() == want)
}

#[test]
fn rows_print(rt: HostRuntime) -> Result<(), Fail> {
    let heap = rt.alloc();
    let yes = Full::YesNo(true);
    let no = Full::YesNo(false);
    let none = Full::Missing;
    assert!(rt; prints(heap, &[], "")?);
    assert!(rt; prints(heap, &[none], "")?);
    assert!(rt; prints(heap, &[none, none], ",")?);
    assert!(rt; prints(heap, &[none; 16], ",,,,,,,,,,,,,,,")?);
    assert!(rt; prints(heap, &[code("ABBA"), Full::Number(3000)], "ABBA,3000")?);
    assert!(rt; prints(heap, &[code("BLUR"), none], "BLUR,")?);
    assert!(rt; prints(heap, &[yes, none, Full::Number(-5), no], "yes,,-5,no")?);
    assert!(rt;
        prints(
            heap,
            &[Full::Number(i64::MIN), code("a")],
            "-9223372036854775808,a",
        )?
    );
    Ok(())
}
