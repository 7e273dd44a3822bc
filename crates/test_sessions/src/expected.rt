//! The comparisons of the tests. Each is proved once, where an `assert_eq!` is proved wherever it stands, with both values as
//! they are printed. They stand in each crate of tests: a function that may end the process has no place outside tests.

use std::process::Abort;

/// Stops the test where this does not hold, and names it.
pub(crate) fn expect(rt: &impl Abort, holds: bool, label: &str) {
    assert!(rt; holds, "{label}");
}

/// Stops the test where a text is another, and names it.
pub(crate) fn expect_text(rt: &impl Abort, label: &str, text: &str, wanted: &str) {
    assert!(rt; text == wanted, "{label}: {text:?}, not {wanted:?}");
}

/// Stops the test where these bytes are others, and names them.
pub(crate) fn expect_bytes(rt: &impl Abort, label: &str, bytes: &[u8], wanted: &[u8]) {
    assert!(rt; bytes == wanted, "{label}: {bytes:?}, not {wanted:?}");
}

/// Stops the test where a count is another, and names it.
pub(crate) fn expect_count(rt: &impl Abort, label: &str, count: usize, wanted: usize) {
    assert!(rt; count == wanted, "{label}: {count}, not {wanted}");
}

/// Stops the test where a run has another status, and names it.
pub(crate) fn expect_status(rt: &impl Abort, label: &str, status: u8, wanted: u8) {
    assert!(rt; status == wanted, "{label}: {status}, not {wanted}");
}
