//! Dates and their texts.
use schema_date::Date;

// A text, the number of its date, and the text that is written for that.
const DATES: [(&str, i128, &str); 5] = [
    (
        "2011-11-28T01:32:36.5+01:00",
        1_322_440_356_500_000_000,
        "2011-11-28T00:32:36.5Z",
    ),
    (
        "0001-01-01T00:00:00Z",
        -62_135_596_800_000_000_000,
        "0001-01-01T00:00:00Z",
    ),
    (
        "9999-12-31T23:59:59.999999999Z",
        253_402_300_799_999_999_999,
        "9999-12-31T23:59:59.999999999Z",
    ),
    (
        "1970-01-01T00:00:00.000000001Z",
        1,
        "1970-01-01T00:00:00.000000001Z",
    ),
    (
        "2000-02-29T12:34:56.12Z",
        951_827_696_120_000_000,
        "2000-02-29T12:34:56.12Z",
    ),
];

fn is_written(number: i128, text: &str) -> bool {
    match Date::of(number) {
        Some(date) => date.text().as_slice() == text.as_bytes(),
        None => false,
    }
}

fn is_read(text: &str, number: i128) -> bool {
    match Date::read(text.as_bytes()) {
        Some(date) => date.ns() == number,
        None => false,
    }
}

#[test]
fn dates_have_their_texts(rt: HostRuntime) {
    for (text, number, written) in DATES {
        assert!(rt;
            is_read(text, number) && is_written(number, written),
            "{text}"
        );
    }
}
