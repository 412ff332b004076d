// Days by number: day 0 is 1 January 2020, and month 0 is January 2020.

// Until 2099 every fourth year is a leap year.
fn length_of(month: u16) -> u16 {
    match month % 12 {
        1 if month / 12 % 4 == 0 => 29,
        1 => 28,
        3 | 5 | 8 | 10 => 30,
        _ => 31,
    }
}

// The first day of a month.
pub(crate) fn first_day(month: u16) -> u16 {
    (0..month)
        .map(length_of)
        .fold(0, |day: u16, length| day.saturating_add(length))
}
