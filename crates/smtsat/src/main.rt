//! `smtsat`: whether a formula in conjunctive normal form has a solution, by a search or by a proof.
#![tactic(auto)]

use smt_program::{WordsError, command_words, put_installed};
use smt_sat_run::{Refusal, proof_file, sat_run};
use smt_script::{BufferedSink, ReadSource, Sink, WriteSink};
use smt_text::Text;
use std::fs::File;
use std::io::{self, BufWriter, Read};
use std::process::ExitCode;

/// How many bytes of standard output are held back at most, to be written at once.
const PIECE: usize = 65_536;

/// What `--version` says first of the installed program, as tools/install writes it here.
const INSTALLED: &str = "";

/// Says why there is no run, and how the program ends.
fn refused(rt: &HostRuntime, refusal: Refusal) -> ExitCode {
    let mut diag = WriteSink::new(rt.stderr());
    if let Ok(line) = refusal.line(rt.alloc()) {
        // A line that is not put changes no status.
        let _ = diag.put(line.as_slice());
    }
    ExitCode::from(refusal.status())
}

/// Runs over these words, where this reader gives the proof.
fn run_with<P: Read + Drop>(rt: &HostRuntime, words: &[Text], reader: P) -> ExitCode {
    let alloc = rt.alloc();
    let mut source = ReadSource::new(rt.stdin());
    let mut proof = ReadSource::new(reader);
    let Ok(stdout) = BufWriter::with_capacity(alloc, PIECE, rt.stdout()) else {
        return refused(rt, Refusal::Memory);
    };
    // The run flushes it at its end.
    let mut out = BufferedSink::new(stdout);
    if put_installed(words, INSTALLED, &mut out).is_err() {
        return refused(rt, Refusal::Sink);
    }
    let mut diag = WriteSink::new(rt.stderr());
    ExitCode::from(sat_run(alloc, words, &mut source, &mut proof, &mut out, &mut diag))
}

fn main(rt: HostRuntime) -> ExitCode {
    let words = match command_words(&rt) {
        Ok(words) => words,
        Err(WordsError::NotText) => return refused(&rt, Refusal::Usage),
        Err(WordsError::Memory) => return refused(&rt, Refusal::Memory),
    };
    let Some(path) = proof_file(words.as_slice()) else {
        return run_with(&rt, words.as_slice(), io::empty());
    };
    match File::open(&rt, path.as_str()) {
        Ok(file) => run_with(&rt, words.as_slice(), file),
        Err(_) => {
            let _ = eprintln!(rt; "the file of the proof can't be opened: {}", path.as_str());
            ExitCode::from(Refusal::Source.status())
        }
    }
}
