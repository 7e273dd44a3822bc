// The rows of bitvectors and of extension values, answered one after the other.
use crate::expected::expect_rows;
use crate::{bitvectors, extensions, tables};

/// The tables of decimals, datetimes and durations.
const OF_NUMBERS: &[&str] = &[
    tables::decimals::ROWS,
    tables::datetimes::ROWS,
    tables::durations::ROWS,
    tables::past_ascii::ROWS,
];

/// The tables of IP ranges.
const OF_RANGES: &[&str] = &[tables::ip_ranges::ROWS, tables::containment::ROWS];

#[test]
fn calls_on_bitvectors_are_answered(rt: HostRuntime) {
    expect_rows(
        &rt,
        rt.alloc(),
        tables::bitvectors::ROWS,
        &bitvectors::answer,
    );
}

#[test]
fn calls_on_numbers_are_answered(rt: HostRuntime) {
    for table in OF_NUMBERS {
        expect_rows(&rt, rt.alloc(), table, &extensions::answer);
    }
}

#[test]
fn calls_on_ranges_are_answered(rt: HostRuntime) {
    for table in OF_RANGES {
        expect_rows(&rt, rt.alloc(), table, &extensions::answer);
    }
}
