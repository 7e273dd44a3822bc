//! The comparisons of the tests. Each is proved once, where an `assert_eq!` is proved wherever it stands, with both values as
//! they are printed. They stand in each crate of tests: a function that may end the process has no place outside tests.

use std::process::Abort;

/// Stops the test where this does not hold, and names it.
pub(crate) fn expect(rt: &impl Abort, holds: bool, label: &str) {
    assert!(rt; holds, "{label}");
}

/// Stops the test where a text is another, and names it.
pub(crate) fn expect_text(rt: &impl Abort, label: &str, text: &str, wanted: &str) {
    assert!(rt; text == wanted, "{label}: {text:?}, not {wanted:?}");
}

/// Stops the test at the first line that is not as it is stated, or where there are more or fewer lines.
pub(crate) fn expect_lines(rt: &impl Abort, said: &str, stated: &str) {
    for (line, wanted) in said.lines().zip(stated.lines()) {
        expect_text(rt, "a line", line, wanted);
    }
    expect_count(rt, "the bytes of all lines", said.len(), stated.len());
}

/// Stops the test where these bytes are others, and names them.
pub(crate) fn expect_bytes(rt: &impl Abort, label: &str, bytes: &[u8], wanted: &[u8]) {
    assert!(rt; bytes == wanted, "{label}: {bytes:?}, not {wanted:?}");
}

/// Stops the test where a count is another, and names it.
pub(crate) fn expect_count(rt: &impl Abort, label: &str, count: usize, wanted: usize) {
    assert!(rt; count == wanted, "{label}: {count}, not {wanted}");
}
