ghost use Rattle.std.specs.Prelude.{◌≡◌, ◌↔◌, IsTrue, IfOk, IfErr, IfSome, is_some};
ghost use Rattle.std.specs.List.{list_all};
ghost use Rattle.std.specs.Str.{chars};
ghost use Rattle.law_texts.specs.Characters.{is_code_point};
ghost use Rattle.law_texts.specs.Lexicon.{Text};
ghost use Rattle.law_texts.specs.Reading.{Leaf};
ghost use Rattle.smt_sexpr.specs.View.{plain};
ghost use Rattle.smt_sexpr.specs.declared.error.SExprParseError.TheVariants.{Memory};

use crate::error::SExprParseError;
use crate::expression::SExpr;
use crate::parse::parse_sexpr;
use crate::quote::quote_string;
use std::alloc::Global;

/// Two expressions are equal exactly where they say the same.
pub fn same_expression(a: &SExpr, b: &SExpr) -> bool
    ensures { IsTrue result ↔ (plain a.now ≡ plain b.now) }
{
    a == b
}

/// What `quote_string` gives of a text, read by `parse_sexpr`: the string of the same characters, or `None` where a
/// character is above 196607.
///
/// # Errors
///
/// `Memory`, where there is none left, and no other.
pub fn quoted_and_read(alloc: Global, s: &str) -> Result<Option<SExpr>, SExprParseError>
    ensures same { IfOk result (λ o. IfSome o (λ e. plain e ≡ Leaf (Text (chars s.now)))) }
    ensures some { IfOk result (λ o. is_some o ≡ list_all is_code_point (chars s.now)) }
    ensures error { IfErr result (λ e. e ≡ Memory) }
{
    match quote_string(alloc, s) {
        Ok(Some(text)) => match parse_sexpr(alloc, text.as_str().as_bytes()) {
            Ok(expression) => Ok(Some(expression)),
            Err(fault) => Err(fault),
        },
        Ok(None) => Ok(None),
        Err(fault) => Err(fault),
    }
}
