// Tests of what refusals are called (docs/RULES.md, "Refusals").
use clashes::InputError;
use lines::LineRefusal;
use memory::RowsRefusal;
use schedules::SongError;
use std::test::Fail;
use verdicts::MinutesRefusal;

#[test]
fn numbers(rt: HostRuntime) {
    assert!(rt; MinutesRefusal::OutOfRange.number() == 15);
    assert!(rt; RowsRefusal::NotWholeRows.number() == 16);
    assert!(rt; LineRefusal::Miscounted.number() == 17);
    assert!(rt; LineRefusal::Malformed.number() == 18);
    assert!(rt; SongError::TooManyRows.number() == Some(3));
    assert!(rt; SongError::NoNames.number() == None && SongError::NoMemory.number() == None);
}

const WORDS: &[(InputError, &str)] = &[
    (
        InputError::Schedule(SongError::NoNames),
        "the schedule has no names line artist,start on line 1",
    ),
    (
        InputError::Log(SongError::NoNames),
        "the log has no names line artist,start behind the first empty line",
    ),
    (
        InputError::Schedule(SongError::TooManyRows),
        "the schedule is refused with 3: it has more than 4096 songs",
    ),
    (
        InputError::Log(SongError::TooManyRows),
        "the log is refused with 3: it has more than 4096 songs",
    ),
    (
        InputError::Log(SongError::NoMemory),
        "there is not enough memory",
    ),
    (InputError::NoMemory, "there is not enough memory"),
];

#[test]
fn words(rt: HostRuntime) -> Result<(), Fail> {
    for &(error, want) in WORDS {
        assert!(rt; error.to_string(rt.alloc())?.as_str() == want, "{}", want);
    }
    Ok(())
}
