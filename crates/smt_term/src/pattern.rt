// Patterns of strings of the theory UnicodeStrings, of SMT-LIB 2.7, and which texts they match.
ghost use Rattle.std.specs.Prelude.{◌≡◌, ◌≢◌, ◌≤◌, ◌∷◌, [], List, ℕ, IfOk, MatchOption, length};
ghost use Rattle.std.specs.Prelude.{map};
ghost use Rattle.std.specs.Str.{IsUtf8, chars};
ghost use Rattle.smt_term.specs.PatternSearch.{IsFront, LeavesText, front_matches, front_size};
ghost use Rattle.smt_term.specs.PatternView.{plain_ord_pattern, plain_part, plain_pattern};
ghost use Rattle.law_terms.specs.Patterns.{matches};
ghost use Rattle.law_terms.specs.Plain.{Wildcard};

use crate::error::TermError;
use std::alloc::Global;
use std::rc::Rc;

/// An element of a pattern. Characters stand before the wildcard.
#[derive(Clone, Copy, Debug, PartialEq, Eq, PartialOrd, Ord)]
pub enum PatternElem {
    /// This character.
    Char(char),
    /// Any text, also the empty one.
    Wildcard,
}

/// A pattern of strings of the theory UnicodeStrings, of SMT-LIB 2.7: its elements in order. Its holders share them.
#[derive(Debug, PartialEq, Eq, Drop)]
pub struct Pattern {
    elems: Rc<Vec<PatternElem>>,
}

/// A pattern of strings of the theory UnicodeStrings, of SMT-LIB 2.7, with an order: patterns order by their first
/// different element, and a pattern stands before the longer ones that begin with it.
#[derive(Debug, PartialEq, Eq, PartialOrd, Ord, Drop)]
pub struct OrdPattern {
    elems: Rc<Vec<PatternElem>>,
}

impl Pattern {
    /// The pattern of these elements, in this order.
    ///
    /// # Errors
    /// `Memory`, where there is none for the pattern.
    pub fn new(alloc: Global, elems: &[PatternElem]) -> Result<Pattern, TermError>
        ensures { IfOk result (λ pattern. plain_pattern pattern ≡ map plain_part elems.now) }
    {
        let all = elems.iter().copied().collect(alloc)?;
        Ok(Pattern {
            elems: Rc::new(alloc, all)?,
        })
    }

    /// An equal pattern that shares the elements.
    ///
    /// # Errors
    /// `Memory`, where there is none for the pattern.
    pub fn share(&self) -> Result<Pattern, TermError>
        ensures { IfOk result (λ pattern. plain_pattern pattern ≡ plain_pattern self.now) }
    {
        Ok(Pattern {
            elems: self.elems.clone()?,
        })
    }
}

impl OrdPattern {
    /// The elements, in order.
    pub fn get_elems(&self) -> &[PatternElem]
        ensures { map plain_part result.now ≡ plain_ord_pattern self.now }
    {
        self.elems.as_slice()
    }

    /// An equal pattern that shares the elements.
    ///
    /// # Errors
    /// `Memory`, where there is none for the pattern.
    pub fn share(&self) -> Result<OrdPattern, TermError>
        ensures { IfOk result (λ pattern. plain_ord_pattern pattern ≡ plain_ord_pattern self.now) }
    {
        Ok(OrdPattern {
            elems: self.elems.clone()?,
        })
    }
}

impl From<Pattern> for OrdPattern {
    ghost use Rattle.std.specs.Prelude.{◌≡◌};
    ghost use Rattle.smt_term.specs.PatternView.{plain_ord_pattern, plain_pattern};

    ghost from_gives = { λ pattern ordered. plain_ord_pattern ordered ≡ plain_pattern pattern };

    fn from(pattern: Pattern) -> OrdPattern {
        let Pattern { elems } = pattern;
        OrdPattern { elems }
    }
}

impl OrdPattern {
    /// Whether the whole text is what the elements stand for, one after another. Takes no memory. A test shows that many
    /// wildcards take few steps.
    pub fn wildcard_match(&self, s: &str) -> bool
        ensures { result ≡ matches (plain_ord_pattern self.now) (chars s.now) }
    {
        let mut front = front_of(self.elems.as_slice(), s);
        while let Front::Continues { elems, text } = front {
            front = first_place(elems, text);
        }
        match front {
            Front::Ends => true,
            Front::Continues { .. } | Front::Differs => false,
        }
    }
}

// How a text compares with the characters before a pattern's first wildcard.
#[derive(Clone, Copy)]
enum Front<'a> {
    // The text begins with them, and then the wildcard stands: what is left behind it, and of the text.
    Continues {
        elems: &'a [PatternElem],
        text: &'a str,
    },
    // The text does not begin with them, or there is no wildcard and it goes on behind them.
    Differs,
    // There is no wildcard, and the text is just these characters.
    Ends,
}

// How the text compares with the characters before the first wildcard of these elements.
fn front_of<'a>(elems: &'a [PatternElem], text: &'a str) -> Front<'a>
    ensures { IsFront (map plain_part elems.now) (chars text.now) result }
{
    let mut left = elems;
    let mut rest = text;
    while let Some((first, behind)) = left.split_first() {
        match first {
            PatternElem::Char(c) => match strip_char(rest, *c) {
                Some(after) => {
                    left = behind;
                    rest = after;
                }
                None => return Front::Differs,
            },
            PatternElem::Wildcard => {
                return Front::Continues {
                    elems: behind,
                    text: rest,
                };
            }
        }
    }
    let at_end = rest.is_empty();
    if at_end { Front::Ends } else { Front::Differs }
}

// The front of these elements at the first place in the text where it stands. Where it stands at all, the first place
// does: the wildcard behind it takes what the later places would leave.
fn first_place<'a>(elems: &'a [PatternElem], text: &'a str) -> Front<'a>
    ensures same { front_matches result
        ≡ matches (Wildcard ∷ map plain_part elems.now) (chars text.now) }
    ensures shorter { front_size result ≤ length elems.now }
    ensures text { LeavesText result }
{
    let mut start = text;
    'starts: loop {
        match front_of(elems, start) {
            Front::Continues {
                elems: behind,
                text: rest,
            } => {
                return Front::Continues {
                    elems: behind,
                    text: rest,
                };
            }
            Front::Ends => return Front::Ends,
            Front::Differs => match split_char(start) {
                Some((_, rest)) => start = rest,
                None => return Front::Differs,
            },
        }
    }
}

// What follows this character at the front of the text.
fn strip_char(text: &str, c: char) -> Option<&str>
    ensures { MatchOption result ((rest : List ℕ) → chars text.now ≢ c ∷ rest)
        (λ rest. (chars text.now ≡ c ∷ chars rest.now) × IsUtf8 rest.now) }
{
    match split_char(text) {
        Some((first, rest)) => { if first == c { Some(rest) } else { None } }
        None => None,
    }
}

// The first character of the text, and what follows it.
fn split_char(text: &str) -> Option<(char, &str)>
    ensures { MatchOption result (chars text.now ≡ [])
        (λ pair. (chars text.now ≡ pair.0 ∷ chars pair.1.now) × IsUtf8 pair.1.now) }
{
    let mut left = text.chars();
    match left.next() {
        Some(first) => Some((first, left.as_str())),
        None => None,
    }
}
