// Names that are declared, each with its gate.
ghost use Rattle.std.specs.Prelude.{◌≡◌, map, reverse};
ghost use Rattle.law_scripts.specs.Script.{look_up};
ghost use Rattle.smt_mini.specs.Tables.{plain_name};

use smt_text::Text;

/// A name that is declared.
#[derive(Drop)]
pub struct Name {
    /// The name.
    pub text: Text,
    /// The gate that has its truth. A constructor or a selector of the datatype Option has none.
    pub gate: Option<usize>,
}

/// What was declared of a name last, if anything was: the names stand in order of declaration.
pub fn find(names: &[Name], text: &str) -> Option<Option<usize>>
    ensures { result ≡ look_up text.now (reverse (map plain_name names.now)) }
{
    let mut rest = names;
    while let Some((last, front)) = rest.split_last() {
        if text == last.text.as_str() {
            return Some(last.gate);
        }
        rest = front;
    }
    None
}
