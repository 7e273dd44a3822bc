// A job with an assignment, read from a source.
ghost use Rattle.std.specs.Prelude.{◌≡◌, [], IfErr, IfOk, OnOk, option_map};
ghost use Rattle.smt_script.specs.Sink.{Rose};
ghost use Rattle.smt_eval.specs.Causes.{HasReadingCause};
ghost use Rattle.smt_eval.specs.Refused.{eval_refusal, unread_refusal};
ghost use Rattle.smt_eval.specs.Run.{IsReadOf};

use crate::error::EvalError;
use crate::input::{EvalInput, read_eval};
use smt_jobs::GREATEST_JOB;
use smt_runs::{InputRefusal, Refusal};
use smt_script::{InputError, Source, read_input};
use std::alloc::Global;

/// Why a run is refused whose source was not read whole.
fn unread(error: InputError) -> Refusal
    ensures { result ≡ unread_refusal error }
{
    match error {
        InputError::TooLarge => Refusal::Input(InputRefusal::TooLarge),
        InputError::Fault => Refusal::Source,
        InputError::Memory => Refusal::Memory,
    }
}

impl From<EvalError> for Refusal {
    ghost use Rattle.std.specs.Prelude.{◌≡◌};
    ghost use Rattle.smt_eval.specs.Refused.{eval_refusal};

    ghost from_gives = { λ error refusal. refusal ≡ eval_refusal error };

    fn from(error: EvalError) -> Refusal {
        match error {
            EvalError::TooLarge => Refusal::Input(InputRefusal::TooLarge),
            EvalError::Parse(_) => Refusal::Input(InputRefusal::Parse),
            EvalError::TooDeep => Refusal::Input(InputRefusal::TooDeep),
            EvalError::BadForm => Refusal::Input(InputRefusal::BadForm),
            EvalError::Job(_) => Refusal::Input(InputRefusal::Job),
            EvalError::UnknownName(_) => Refusal::Input(InputRefusal::UnknownName),
            EvalError::DuplicateName(_) => Refusal::Input(InputRefusal::DuplicateName),
            EvalError::NotValue(_) => Refusal::Input(InputRefusal::NotValue),
            EvalError::Missing(_) => Refusal::Input(InputRefusal::Missing),
            EvalError::Memory => Refusal::Memory,
        }
    }
}

/// Reads the source to its end, and the job with an assignment that it gave.
pub(crate) fn input_from<R: Source>(alloc: Global, source: &mut R) -> Result<EvalInput, Refusal>
    ensures input { IfOk result (IsReadOf (R.remaining source.old)) }
    ensures ended { OnOk result
        (R.remaining source.new ≡ option_map (λ _. []) (R.remaining source.old)) }
    ensures refused { IfErr result (HasReadingCause (R.remaining source.old)
        (Rose (R.faults source.old) (R.faults source.new))) }
{
    let bytes = match read_input(alloc, source, GREATEST_JOB) {
        Ok(bytes) => bytes,
        Err(error) => return Err(unread(error)),
    };
    Ok(read_eval(alloc, bytes.as_slice())?)
}
