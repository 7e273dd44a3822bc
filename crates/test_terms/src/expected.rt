//! The comparisons of the tests. Each is proved once, where an `assert_eq!` is proved wherever it stands, with both values as
//! they are printed. They stand in each crate of tests: a function that may end the process has no place outside tests.

use anyhow::Result;
use std::alloc::Global;
use std::process::Abort;

/// Stops the test where this does not hold, and names it.
pub(crate) fn expect(rt: &impl Abort, holds: bool, label: &str) {
    assert!(rt; holds, "{label}");
}

/// Stops the test where a text is another, and names it.
pub(crate) fn expect_text(rt: &impl Abort, label: &str, text: &str, wanted: &str) {
    assert!(rt; text == wanted, "{label}: {text:?}, not {wanted:?}");
}

/// Stops the test at the first row of a table that is answered otherwise. A row stands before ` = `, and its answer behind it.
pub(crate) fn expect_rows<F: Fn(Global, &str) -> Result<String>>(
    rt: &impl Abort,
    alloc: Global,
    table: &str,
    answer: &F,
)
    requires { F.IsAlwaysCallable answer.now }
{
    for line in table.lines() {
        let (row, stated) = line.split_once(" = ").expect(rt, "a row and its answer");
        let said = answer(alloc, row).expect(rt, "the row says what to ask");
        expect_text(rt, row, said.as_str(), stated);
    }
}

/// Stops the test at the first line that is not as it is stated, or where there are more or fewer lines.
pub(crate) fn expect_lines(rt: &impl Abort, said: &str, stated: &str) {
    for (line, wanted) in said.lines().zip(stated.lines()) {
        expect_text(rt, "a line", line, wanted);
    }
    expect(rt, said.len() == stated.len(), "the bytes of all lines");
}
