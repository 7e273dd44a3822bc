// The rows, answered one after the other.
use crate::expected::expect_lines;
use crate::scripts::show;
use crate::tables::TABLES;
use crate::words::read_row;
use anyhow::Result;
use std::alloc::Global;
use std::io::Write;

/// Prints a row and its script.
fn put_row(alloc: Global, printer: &mut (impl Write + Drop), row: &str) -> Result<()> {
    writeln!(printer, "> {row}")?;
    show(alloc, printer, &read_row(alloc, row)?)
}

#[test]
fn rows_have_scripts(rt: HostRuntime) {
    let alloc = rt.alloc();
    for table in TABLES {
        let mut printed: Vec<u8> = Vec::new(alloc);
        for line in table.lines() {
            if let Some(row) = line.strip_prefix("> ") {
                put_row(alloc, &mut printed, row).expect(&rt, "the row says terms");
            }
        }
        let said = str::from_utf8(printed.as_slice()).expect(&rt, "the script is UTF-8");
        expect_lines(&rt, said, table);
    }
}
