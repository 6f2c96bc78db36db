// Tests of single cells as a text writes them (docs/RULES.md, "Lines of text" and "Kinds of cells").
use cells::{Code, Full};
use lines::read_cell;
use std::test::Fail;

const NUMBERS: &[(&str, i64)] = &[
    ("0", 0),
    ("7", 7),
    ("-7", -7),
    ("10", 10),
    ("-15", -15),
    ("3000", 3000),
    ("100000000000", 100_000_000_000),
    ("-100000000000", -100_000_000_000),
    ("999999999999", 999_999_999_999),
    ("-999999999999", -999_999_999_999),
];

// Texts that are no cell.
const MALFORMED: &[&str] = &[
    "1000000000000",
    "-1000000000000",
    "9999999999999",
    "00",
    "01",
    "007",
    "000000000000",
    "012345678901",
    "-",
    "-0",
    "-00",
    "-01",
    "--1",
    "-A",
    "1-",
    "1-2",
    "1a",
    "12A",
    "1A2",
    "1.5",
    "1,2",
    "1 ",
    "1\r",
    "1\n",
    "+",
    "+1",
    "+5",
    " ",
    " 1",
    " A",
    "\r",
    "\n",
    "\0",
    ",",
    "_A",
    "\"A\"",
    "ABCDEFGHI",
    "A12345678",
    "A-B",
    "A-HA",
    "A_B",
    "A HA",
    "A,B",
    "A\rB",
    "ABBA\r",
    "ABBA\n",
    "A\0",
    "Ä",
    "AÄ",
];

// Bytes above 127 that would be letters or digits without their highest bit.
const ABOVE: &[&[u8]] = &[
    b"\xC1", b"\xE1", b"\xB1", b"\xAD1", b"A\xC1", b"1\xB1", b"\xFF", b"\x80",
];

#[test]
fn numbers(rt: HostRuntime) {
    for &(text, n) in NUMBERS {
        assert!(rt;
            read_cell(text.as_bytes()) == Some(Full::Number(n)),
            "{}",
            text
        );
    }
    for text in MALFORMED {
        assert!(rt; read_cell(text.as_bytes()) == None, "{}", *text);
    }
    for text in ABOVE {
        assert!(rt;
            read_cell(text) == None && Code::new(text) == None,
            "above 127"
        );
    }
    assert!(rt; read_cell(b"") == Some(Full::Missing));
}

// Codes, and the numbers that hold them.
const CODES: &[(&str, u64)] = &[
    ("A", 0x4100000000000000),
    ("a", 0x6100000000000000),
    ("z", 0x7A00000000000000),
    ("U2", 0x5532000000000000),
    ("ABBA", 0x4142424100000000),
    ("BLUR", 0x424C555200000000),
    ("CAKE", 0x43414B4500000000),
    ("abba", 0x6162626100000000),
    ("Abba", 0x4162626100000000),
    ("ABCDEFGH", 0x4142434445464748),
    ("A1234567", 0x4131323334353637),
    ("zzzzzzz9", 0x7A7A7A7A7A7A7A39),
];

// Whether the letters make a code with this number, are read as it, and come back from it in front of what an array holds.
fn is_code(text: &[u8], bits: u64) -> bool {
    let Some(code) = Code::new(text) else {
        return false;
    };
    let mut out = *b"????????";
    let n = code.write(&mut out);
    let rest = out[n..].iter().all(|b| *b == b'?');
    code.bits() == bits && read_cell(text) == Some(Full::Code(code)) && &out[0..n] == text && rest
}

#[test]
fn codes(rt: HostRuntime) {
    for &(text, bits) in CODES {
        assert!(rt; is_code(text.as_bytes(), bits), "{}", text);
    }
    for text in [
        "",
        "1",
        "1A",
        "9ABBA",
        "-1",
        "0",
        "ABCDEFGHI",
        "A-B",
        "A_B",
        "A\r",
    ] {
        assert!(rt; Code::new(text.as_bytes()) == None, "{}", text);
    }
}

#[test]
fn same_codes(rt: HostRuntime) -> Result<(), Fail> {
    for &(text, _) in CODES {
        for &(other, _) in CODES {
            let Some(a) = Code::new(text.as_bytes()) else {
                return Err(Fail::new(text));
            };
            let Some(b) = Code::new(other.as_bytes()) else {
                return Err(Fail::new(other));
            };
            assert!(rt; (a == b) == (text == other), "{}", text);
        }
    }
    Ok(())
}
