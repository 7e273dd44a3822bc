//! The comparisons of the tests. Each is proved once, where an `assert_eq!` is proved wherever it stands, with both values as
//! they are printed. They stand in each crate of tests: a function that may end the process has no place outside tests.

use std::process::Abort;

/// Stops the test where this does not hold, and names it.
pub(crate) fn expect(rt: &impl Abort, holds: bool, label: &str) {
    assert!(rt; holds, "{label}");
}

/// Stops the test where this does not hold of the row at this place, and names both.
pub(crate) fn expect_at(rt: &impl Abort, holds: bool, label: &str, place: usize) {
    assert!(rt; holds, "{label} at {place}");
}

/// Stops the test where a row is answered otherwise, and names its place.
pub(crate) fn expect_none_wrong(rt: &impl Abort, wrong: Option<usize>) {
    if let Some(place) = wrong {
        panic!(rt; "the row at {place} is answered otherwise");
    }
}

/// Stops the test where a text is another, and names it.
pub(crate) fn expect_text(rt: &impl Abort, label: &str, text: &str, wanted: &str) {
    assert!(rt; text == wanted, "{label}: {text:?}, not {wanted:?}");
}

/// Stops the test where the row at this place has another text, and names the place.
pub(crate) fn expect_text_at(rt: &impl Abort, place: usize, text: &str, wanted: &str) {
    assert!(rt; text == wanted, "at {place}: {text:?}, not {wanted:?}");
}
