//! Days of the calendar, and keys.
use nm_day::{Day, Key};

fn is_day(text: &[u8], number: i64) -> bool {
    match Day::parse(text) {
        Ok(day) => {
            day.number() == number
                && day.text().as_slice() == text
                && Day::of_number(number) == Some(day)
        }
        Err(_error) => false,
    }
}

#[test]
fn days_of_the_calendar_are_read(rt: HostRuntime) {
    let days = [
        (b"1900-01-01", -25_567),
        (b"1969-12-31", -1),
        (b"1970-01-01", 0),
        (b"2000-01-01", 10_957),
        (b"2000-02-29", 11_016),
        (b"2400-02-29", 157_113),
        (b"2999-12-31", 376_199),
    ];
    for (text, number) in days {
        assert!(rt; is_day(text, number));
    }
}

#[test]
fn numbers_of_no_day_are_refused(rt: HostRuntime) {
    for number in [i64::MIN, -4_371_588, -25_568, 376_200, 2_932_897, i64::MAX] {
        assert!(rt; Day::of_number(number).is_none(), "{number}");
    }
}

#[test]
fn what_is_no_day_is_refused(rt: HostRuntime) {
    let texts = [
        "1899-12-31",
        "3000-01-01",
        "1900-02-29",
        "2100-02-29",
        "2027-02-29",
        "2027-04-31",
        "2027-00-01",
        "2027-13-01",
        "2027-01-00",
        "2027-1-01",
        "2027-01-011",
        "+027-01-01",
        "-027-01-01",
        " 2027-01-01",
        "2027-01- 1",
        "2027-01-01 ",
        "2027/01/01",
        "2027-Jan-1",
        "20270101",
        "",
    ];
    for text in texts {
        assert!(rt; Day::parse(text.as_bytes()).is_err(), "{text}");
    }
}

fn key(day: &[u8], filing: u32, stage: u32) -> Option<Key> {
    match Day::parse(day) {
        Ok(day) => Some(Key { day, filing, stage }),
        Err(_error) => None,
    }
}

/// Whether there are both keys, and the first stands before the second.
fn are_in_order(first: Option<Key>, second: Option<Key>) -> bool {
    match (first, second) {
        (Some(first), Some(second)) => first < second,
        _ => false,
    }
}

fn are_same(first: Option<Key>, second: Option<Key>) -> bool {
    first.is_some() && first == second
}

#[test]
fn keys_stand_by_day_and_filing_and_stage(rt: HostRuntime) {
    let earlier = b"1999-12-31";
    let later = b"2000-01-01";
    assert!(rt; are_in_order(key(earlier, 9, 9), key(later, 1, 0)));
    assert!(rt; are_in_order(key(later, 1, 9), key(later, 2, 0)));
    assert!(rt; are_in_order(key(later, 2, 0), key(later, 2, 1)));
    assert!(rt; are_same(key(later, 2, 1), key(later, 2, 1)));
}
