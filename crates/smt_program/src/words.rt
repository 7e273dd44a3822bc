// The words of a command line.
ghost use Rattle.std.specs.Prelude.{◌≡◌, ◌∷◌, [], IfOk, List, Ok, map, option_map};
ghost use Rattle.std.specs.String.{string_bytes};
ghost use Rattle.std.specs.declared.alloc.Global.{Global};
ghost use Rattle.std.specs.declared.string.String.{String};
ghost use Rattle.law_texts.specs.SharedTexts.{texts};
ghost use Rattle.std.specs.Rc.{rc_str_bytes};
ghost use Rattle.smt_script.specs.Sink.{Puts};
ghost use Rattle.smt_program.specs.declared.words.Asked.TheVariants.{Own};
ghost use Rattle.smt_program.specs.Words.{AreArguments, AskVersion, IsAnswered, Reads, asked};

use smt_script::{Sink, SinkError};
use smt_text::Text;
use std::alloc::{AllocError, Global};
use std::env::{self, Args, Env};
use std::io::{self, ErrorKind};
use thiserror::Error;

/// Why the words of a command line are not given.
#[derive(Clone, Copy, Debug, PartialEq, Eq, Drop, Error)]
pub enum WordsError {
    /// An argument is not UTF-8, so that the words are no command.
    #[error("an argument is not UTF-8")]
    NotText,
    /// There was no memory for the words.
    #[error("no memory for the words of the command line")]
    Memory,
}

/// What the words of a command line ask for.
#[derive(Clone, Copy, Debug, PartialEq, Eq, Drop)]
pub enum Asked<C> {
    /// What the program does by them.
    Own(C),
    /// `--help`.
    Help,
    /// `--version`.
    Version,
}

/// These arguments as texts.
fn texts_of(alloc: Global, arguments: Args) -> Result<Vec<Text>, AllocError>
    ensures { IfOk result (λ words. (xs : List (String Global)) × AreArguments arguments xs
        × (texts words.items ≡ map string_bytes xs)) }
{
    let mut words = Vec::new(alloc);
    for argument in arguments {
        words.push(Text::from_string(argument)?)?;
    }
    Ok(words)
}

/// The words behind the program's name, where the system answered these arguments.
///
/// # Errors
///
/// `NotText` comes exactly where an argument is not UTF-8, which the system's answer says, and `Memory` for any other error of it or
/// where there is no memory for the words.
pub fn words_of(alloc: Global, arguments: io::Result<Args>) -> Result<Vec<Text>, WordsError>
    ensures { Reads arguments result }
{
    match arguments {
        Ok(arguments) => {
            let Ok(mut words) = texts_of(alloc, arguments) else {
                return Err(WordsError::Memory);
            };
            if !words.is_empty() {
                let _program = words.remove(0);
            }
            Ok(words)
        }
        Err(error) => match error.kind() {
            ErrorKind::InvalidData => Err(WordsError::NotText),
            _ => Err(WordsError::Memory),
        },
    }
}

/// The words behind the program's name.
///
/// # Errors
///
/// `NotText` comes where an argument is not UTF-8, and `Memory` where there is no memory for the words.
pub fn command_words<R: Env + AllocGlobal>(rt: &R) -> Result<Vec<Text>, WordsError>
    ensures { IsAnswered result }
{
    words_of(rt.alloc(), env::args(rt))
}

/// Puts the line that names what was installed, where the words ask for the version.
///
/// The line is empty in a program that was built and not installed. What the run puts for `--version` comes behind it.
pub fn put_installed<W: Sink>(words: &[Text], line: &str, out: &mut W) -> Result<(), SinkError>
    ensures asked { AskVersion (texts words.now) →
        Puts W.contents W.faults W.has_room W.place out.old out.new line.now result }
    ensures unasked { (AskVersion (texts words.now) → ⊥) → (out.new ≡ out.old) × (result ≡ Ok tt) }
{
    match words {
        [word] => match word.as_str() {
            "--version" => out.put(line.as_bytes()),
            _ => Ok(()),
        },
        _ => Ok(()),
    }
}

/// What is asked for by words that are no texts of the program's own.
fn named<C: Copy>(own: Option<C>) -> Option<Asked<C>>
    ensures { result ≡ option_map Own own }
{
    match own {
        Some(command) => Some(Asked::Own(command)),
        None => None,
    }
}

/// What one word asks for, where it names `own` to the program.
fn asked_by<C: Copy>(word: &Text, own: Option<C>) -> Option<Asked<C>>
    ensures { result ≡ asked own (rc_str_bytes word.now ∷ []) }
{
    match word.as_str() {
        "--help" => Some(Asked::Help),
        "--version" => Some(Asked::Version),
        _ => named(own),
    }
}

/// What the words ask for, where they name `own` to the program. None where they are no command.
pub fn asked_of<C: Copy>(words: &[Text], own: Option<C>) -> Option<Asked<C>>
    ensures { result ≡ asked own (texts words.now) }
{
    match words {
        [word] => asked_by(word, own),
        _ => named(own),
    }
}
