//! A caller with a clause of its own: whether conditions on a request can all hold, as a script for a solver.
ghost use Rattle.std.specs.Prelude.{◌≡◌, IfOk};
ghost use Rattle.kembura.specs.Headline.{Headline};
ghost use Rattle.kembura.specs.Memory.{list_bytes};
ghost use Rattle.kembura.specs.NameTables.{Tables};
ghost use Rattle.kembura.specs.TermView.{plain_terms};
ghost use Rattle.kembura.specs.TermEnums.{enums_of};
ghost use Rattle.kembura.specs.Typing.{AreBoolean};

use kembura::bits::SIXTY_FOUR;
use kembura::factory::{bvsle, eq};
use kembura::{
    EncodeError, Encoder, EnumTable, ListSink, Term, TermError, TermType, TermVar, Text,
};
use std::alloc::Global;

/// In Cedar `context.hour >= 8 && context.hour == 7`: can a request at seven come late?
///
/// # Errors
/// `Memory`, where there is none for the terms.
pub(crate) fn late_at_seven(alloc: Global) -> Result<Vec<Term>, TermError> {
    let hour = Term::from(TermVar {
        id: Text::from_str(alloc, "context.hour")?,
        ty: TermType::Bitvec { n: SIXTY_FOUR },
    });
    let late = bvsle(alloc, Term::from(8i64), hour.share()?)?;
    let at_seven = eq(alloc, hour, Term::from(7i64))?;
    let mut conditions = Vec::new(alloc);
    conditions.push(late)?;
    conditions.push(at_seven)?;
    Ok(conditions)
}

/// The script of conditions. Its models are exactly the values of variables and functions that make all of them true.
///
/// # Errors
/// Those of `Encoder::encode`.
pub(crate) fn script_of(
    alloc: Global,
    enums: &EnumTable,
    conditions: &[Term],
) -> Result<ListSink, EncodeError>
    ensures { AreBoolean (plain_terms conditions.now) →
        IfOk result (λ script.
        (names : Tables)
        × Headline (enums_of enums.now) names (plain_terms conditions.now) (list_bytes script)) }
{
    let mut encoder = Encoder::new(alloc, enums, ListSink::new(alloc));
    encoder.encode(conditions)?;
    Ok(encoder.into_script())
}

#[cfg(test)]
mod tests {
    use super::{late_at_seven, script_of};
    use kembura::EnumTable;

    /// The lines behind the datatype of options, with which each script begins.
    const SCRIPT: &str = r#"; "context.hour"
(declare-const t0 (_ BitVec 64))
(define-fun t1 () Bool (bvsle (_ bv8 64) t0))
(define-fun t2 () Bool (= t0 (_ bv7 64)))
(assert t1)
(assert t2)
"#;

    #[test]
    fn the_question_is_written(rt: HostRuntime) {
        let alloc = rt.alloc();
        let conditions = late_at_seven(alloc).expect(&rt, "there is memory for the terms");
        let enums = EnumTable::new(alloc);
        let script = script_of(alloc, &enums, conditions.as_slice()).expect(
            &rt,
            "the terms have a script",
        );
        assert!(rt; script.bytes().ends_with(SCRIPT.as_bytes()));
    }
}
