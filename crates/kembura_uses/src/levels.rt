//! A caller that asks a question on top of a base: the terms of all open levels are what its script means.
ghost use Rattle.std.specs.Prelude.{◌≡◌, ◌++◌, IfOk};
ghost use Rattle.kembura.specs.Headline.{Headline};
ghost use Rattle.kembura.specs.Memory.{list_bytes};
ghost use Rattle.kembura.specs.NameTables.{Tables};
ghost use Rattle.kembura.specs.TermView.{plain_terms};
ghost use Rattle.kembura.specs.TermEnums.{enums_of};
ghost use Rattle.kembura.specs.Typing.{AreBoolean};

use kembura::laws::theorem::fitting::fitting_texts_are_scripts;
use kembura::{EncodeError, Encoder, EnumTable, ListSink, Term};
use std::alloc::Global;

/// The script of a base and of a question in a level above it, behind a first question that was taken back. Its models are
/// exactly the values of variables and functions that make the base and the question true.
///
/// # Errors
/// Those of `Encoder::encode`, `push` and `pop`.
pub(crate) fn asked_on_top(
    alloc: Global,
    enums: &EnumTable,
    base: &[Term],
    first: &[Term],
    question: &[Term],
) -> Result<ListSink, EncodeError>
    ensures { AreBoolean (plain_terms base.now) → AreBoolean (plain_terms first.now) →
        AreBoolean (plain_terms question.now) →
        IfOk result (λ script.
        (names : Tables)
        × Headline (enums_of enums.now) names (plain_terms base.now ++ plain_terms question.now)
        (list_bytes script)) }
{
    // What it says of a text that fits is what the clause says of the script.
    fitting_texts_are_scripts();
    let mut encoder = Encoder::new(alloc, enums, ListSink::new(alloc));
    encoder.encode(base)?;
    encoder.push()?;
    encoder.encode(first)?;
    encoder.pop()?;
    encoder.push()?;
    encoder.encode(question)?;
    Ok(encoder.into_script())
}

#[cfg(test)]
mod tests {
    use super::asked_on_top;
    use kembura::{EnumTable, Term};

    /// The lines behind the datatype of options, with which each script begins.
    const SCRIPT: &str = "\
(assert true)
(push 1)
(assert false)
(pop 1)
(push 1)
(assert true)
";

    #[test]
    fn the_question_stands_on_its_base(rt: HostRuntime) {
        let alloc = rt.alloc();
        let enums = EnumTable::new(alloc);
        let (yes, no) = ([Term::from(true)], [Term::from(false)]);
        let script = asked_on_top(alloc, &enums, &yes, &no, &yes).expect(
            &rt,
            "the terms have a script",
        );
        assert!(rt; script.bytes().ends_with(SCRIPT.as_bytes()));
    }
}
