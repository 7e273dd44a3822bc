// The lines that spell truths of variables.
ghost use Rattle.std.specs.Prelude.{◌≡◌, ◌<◌, ◌≤◌, ◌+◌, ◌^◌, ◌++◌, ◌∷◌, [], ℕ, List, OnOk, IfOk};
ghost use Rattle.std.specs.Prelude.{codes, length, map, not, vec_len};
ghost use Rattle.std.specs.List.{range_with_len};
ghost use Rattle.law_texts.specs.Digits.{minus_if};
ghost use Rattle.smt_search.specs.Given.{truths};
ghost use Rattle.smt_sat_run.specs.Spelled.{HasSpelled};
ghost use Rattle.smt_sat_run.specs.Values.{SpellsTruths, value_word};

use crate::value_lines::ValueLines;
use itoa::Buffer;
use smt_search::Truths;
use std::alloc::{AllocError, Global};

/// How many characters a line has at most.
const WIDTH: usize = 78;

impl ValueLines {
    /// No words yet.
    fn new(alloc: Global) -> Result<ValueLines, AllocError>
        ensures { IfOk result (λ lines. HasSpelled lines []) }
    {
        Ok(ValueLines {
            text: Vec::from_slice(alloc, b"v")?,
            start: 0,
        })
    }

    /// Ends the line, and begins the next.
    fn end_line(&mut self) -> Result<(), AllocError>
        ensures text { OnOk result (self.new.text.items ≡ self.old.text.items ++ codes "\nv") }
        ensures start { OnOk result (self.new.start ≡ length self.old.text.items + 1) }
    {
        self.text.extend_from_slice(b"\nv")?;
        self.start = self.text.len() - 1;
        Ok(())
    }

    /// Sees that so many characters and a space have room in the line.
    fn make_room(&mut self, characters: usize) -> Result<(), AllocError>
        requires { characters ≤ 60 }
        ensures keeps { OnOk result ((words : List (List ℕ)) → HasSpelled self.old words
            → HasSpelled self.new words) }
        ensures room { OnOk result (vec_len self.new.text + characters < self.new.start + 78) }
    {
        if self.text.len() - self.start < WIDTH - characters {
            return Ok(());
        }
        self.end_line()
    }

    /// Puts a space, and the minus of a word that has one.
    fn begin_word(&mut self, negated: bool) -> Result<(), AllocError>
        ensures text { OnOk result (self.new.text.items
            ≡ self.old.text.items ++ (codes " " ++ minus_if negated)) }
        ensures start { self.new.start ≡ self.old.start }
    {
        if negated {
            self.text.extend_from_slice(b" -")
        } else {
            self.text.extend_from_slice(b" ")
        }
    }

    /// One more word: digits, which may be behind a minus.
    fn push(&mut self, negated: bool, digits: &[u8]) -> Result<(), AllocError>
        requires { length digits.now ≤ 50 }
        ensures { OnOk result ((words : List (List ℕ)) → HasSpelled self.old words
            → HasSpelled self.new (words ++ (minus_if negated ++ digits.now) ∷ [])) }
    {
        self.make_room(digits.len() + 1)?;
        self.begin_word(negated)?;
        self.text.extend_from_slice(digits)?;
        Ok(())
    }

    /// The literal of one more variable.
    fn push_value(&mut self, variable: u32, found: &Truths) -> Result<(), AllocError>
        requires { variable < 2 ^ 30 }
        ensures { OnOk result ((words : List (List ℕ)) → HasSpelled self.old words
            → HasSpelled self.new (words ++ value_word (truths found.now) variable ∷ [])) }
    {
        let mut buffer = Buffer::new();
        let digits = buffer.format(variable + 1);
        self.push(!found.truth(variable as usize), digits.as_bytes())
    }
}

/// The literals of so many variables that are true.
fn spelled(alloc: Global, variables: u32, found: &Truths) -> Result<ValueLines, AllocError>
    requires { variables ≤ 2 ^ 30 }
    ensures { IfOk result (λ lines. HasSpelled lines
        (map (value_word (truths found.now)) (range_with_len 0 variables))) }
{
    let mut lines = ValueLines::new(alloc)?;
    for variable in 0..variables {
        lines.push_value(variable, found)?;
    }
    Ok(lines)
}

/// The lines that spell the truths of so many variables.
pub(crate) fn values_text(
    alloc: Global,
    variables: u32,
    found: &Truths,
) -> Result<Vec<u8>, AllocError>
    requires { variables ≤ 2 ^ 30 }
    ensures { IfOk result (λ text. SpellsTruths (truths found.now) variables text.items) }
{
    let mut lines = spelled(alloc, variables, found)?;
    lines.push(false, b"0")?;
    let mut text = lines.text;
    text.push(b'\n')?;
    Ok(text)
}
