// The lines of a script, put to any sink.
ghost use Rattle.std.specs.Prelude.{◌≡◌, ◌↔◌, [], map, IsTrue};
ghost use Rattle.std.specs.List.{join_by};
ghost use Rattle.smt_script.specs.CommandTexts.{check_sat_text, exit_text, get_model_text};
ghost use Rattle.smt_script.specs.CommandTexts.{reset_text, set_logic_text, set_option_text};
ghost use Rattle.smt_script.specs.Sink.{Puts};
ghost use Rattle.law_texts.specs.LineTexts.{in_comment, spaced, sorted_names, datatype_body};
ghost use Rattle.law_texts.specs.LineTexts.{constructor_lines, comment_text, assert_text};
ghost use Rattle.law_texts.specs.LineTexts.{define_fun_text, declare_const_text, declare_fun_text};
ghost use Rattle.law_texts.specs.LineTexts.{declare_datatype_text, push_text};
ghost use Rattle.law_texts.specs.LineTexts.{pop_text};
ghost use Rattle.law_texts.specs.SharedTexts.{joined, texts, text_pairs};

use crate::sink::{Sink, SinkError};
use smt_text::{Text, line_end};

/// Puts these texts, one behind the other.
fn put_all<S: Sink>(sink: &mut S, pieces: &[&str]) -> Result<(), SinkError>
    ensures { Puts S.contents S.faults S.has_room S.place sink.old sink.new
        (joined (λ p. p.now) pieces.now) result }
{
    for piece in pieces {
        sink.put(piece.as_bytes())?;
    }
    Ok(())
}

/// Puts a text whose line ends become spaces.
fn put_on_one_line<S: Sink>(sink: &mut S, text: &[u8]) -> Result<(), SinkError>
    ensures { Puts S.contents S.faults S.has_room S.place sink.old sink.new
        (map in_comment text.now) result }
{
    let mut left = text;
    while let Some(end) = line_end(left) {
        sink.put(&left[..end])?;
        sink.put(b" ")?;
        left = &left[end + 1..];
    }
    sink.put(left)
}

/// Puts these texts with the separator between each two.
fn put_joined<S: Sink>(sink: &mut S, separator: &str, items: &[Text]) -> Result<(), SinkError>
    ensures { Puts S.contents S.faults S.has_room S.place sink.old sink.new
        (join_by (λ x. x) separator.now (texts items.now)) result }
{
    let mut gap = "";
    for item in items {
        put_all(sink, &[gap, item.as_str()])?;
        gap = separator;
    }
    Ok(())
}

/// Puts these sorted variables with a space between each two.
fn put_variables<S: Sink>(sink: &mut S, variables: &[(Text, Text)]) -> Result<(), SinkError>
    ensures { Puts S.contents S.faults S.has_room S.place sink.old sink.new
        (sorted_names (text_pairs variables.now)) result }
{
    let mut gap = "";
    for (name, sort) in variables {
        put_all(sink, &[gap, "(", name.as_str(), " ", sort.as_str(), ")"])?;
        gap = " ";
    }
    Ok(())
}

/// Puts the constructors in brackets, each on a line of its own.
fn put_constructors<S: Sink>(sink: &mut S, constructors: &[Text]) -> Result<(), SinkError>
    ensures { Puts S.contents S.faults S.has_room S.place sink.old sink.new
        (datatype_body [] (constructor_lines (texts constructors.now))) result }
{
    sink.put(b"(\n  ")?;
    put_joined(sink, "\n  ", constructors)?;
    sink.put(b")")
}

/// Whether the texts, with a space between each two, are no byte at all.
fn is_blank(params: &[Text]) -> bool
    ensures { IsTrue result ↔ (spaced (texts params.now) ≡ []) }
{
    match params {
        [] => true,
        [only] => only.as_str().is_empty(),
        [_, _, ..] => false,
    }
}

/// Puts what a datatype is, with its parameters where they are not blank.
fn put_datatype<S: Sink>(
    sink: &mut S,
    params: &[Text],
    constructors: &[Text],
) -> Result<(), SinkError>
    ensures { Puts S.contents S.faults S.has_room S.place sink.old sink.new
        (datatype_body (spaced (texts params.now)) (constructor_lines (texts constructors.now)))
        result }
{
    if is_blank(params) {
        return put_constructors(sink, constructors);
    }
    sink.put(b"(par (")?;
    put_joined(sink, " ", params)?;
    sink.put(b") ")?;
    put_constructors(sink, constructors)?;
    sink.put(b")")
}

/// The lines of a script, put to any sink.
///
/// Each call puts one line, piece by piece, and takes no memory of its own. On Ok the whole line
/// was put; on an error a first part of it. `Fault` comes only where the sink's count of faults
/// rose in this call, or stands at its last value; `Memory` only where the sink answered it. What
/// is handed in is written as it stands, so that a line is a command only where the parts are
/// symbols, sorts, terms and values as SMT-LIB 2.7 spells them (chapter 3).
///
/// # Examples
///
/// ```
/// use kembura::{ListSink, SmtLibScript};
///
/// let mut script = ListSink::new(alloc);
/// script.set_logic("ALL")?;
/// script.declare_const("x", "Bool")?;
/// script.assert("x")?;
/// script.check_sat()?;
/// ```
pub trait SmtLibScript: Sink {
    /// `(set-logic LOGIC)`.
    fn set_logic(&mut self, logic: &str) -> Result<(), SinkError>
        ensures { Puts Self.contents Self.faults Self.has_room Self.place self.old self.new
            (set_logic_text logic.now) result }
    {
        put_all(self, &["(set-logic ", logic, ")\n"])
    }

    /// `(set-option :OPTION VALUE)`.
    fn set_option(&mut self, option: &str, value: &str) -> Result<(), SinkError>
        ensures { Puts Self.contents Self.faults Self.has_room Self.place self.old self.new
            (set_option_text option.now value.now) result }
    {
        put_all(self, &["(set-option :", option, " ", value, ")\n"])
    }

    /// `; COMMENT`, each CR and LF in the text replaced by a space, since either would end the
    /// comment (SMT-LIB 2.7, chapter 3, Lexicon).
    fn comment(&mut self, comment: &str) -> Result<(), SinkError>
        ensures { Puts Self.contents Self.faults Self.has_room Self.place self.old self.new
            (comment_text comment.now) result }
    {
        self.put(b"; ")?;
        put_on_one_line(self, comment.as_bytes())?;
        self.put(b"\n")
    }

    /// `(assert EXPR)`.
    fn assert(&mut self, expr: &str) -> Result<(), SinkError>
        ensures { Puts Self.contents Self.faults Self.has_room Self.place self.old self.new
            (assert_text expr.now) result }
    {
        put_all(self, &["(assert ", expr, ")\n"])
    }

    /// `(define-fun ID (ARGS) TY EXPR)`, where each argument is a variable and its sort.
    fn define_fun(
        &mut self,
        id: &str,
        args: &[(Text, Text)],
        ty: &str,
        expr: &str,
    ) -> Result<(), SinkError>
        ensures { Puts Self.contents Self.faults Self.has_room Self.place self.old self.new
            (define_fun_text id.now (text_pairs args.now) ty.now expr.now) result }
    {
        put_all(self, &["(define-fun ", id, " ("])?;
        put_variables(self, args)?;
        put_all(self, &[") ", ty, " ", expr, ")\n"])
    }

    /// `(declare-const ID TY)`.
    fn declare_const(&mut self, id: &str, ty: &str) -> Result<(), SinkError>
        ensures { Puts Self.contents Self.faults Self.has_room Self.place self.old self.new
            (declare_const_text id.now ty.now) result }
    {
        put_all(self, &["(declare-const ", id, " ", ty, ")\n"])
    }

    /// `(declare-fun ID (ARGS) TY)`, where each argument is a sort.
    fn declare_fun(&mut self, id: &str, args: &[Text], ty: &str) -> Result<(), SinkError>
        ensures { Puts Self.contents Self.faults Self.has_room Self.place self.old self.new
            (declare_fun_text id.now (spaced (texts args.now)) ty.now) result }
    {
        put_all(self, &["(declare-fun ", id, " ("])?;
        put_joined(self, " ", args)?;
        put_all(self, &[") ", ty, ")\n"])
    }

    /// `(declare-datatype ID (CONSTRUCTORS))`, or `(declare-datatype ID (par (PARAMS)
    /// (CONSTRUCTORS)))` where the parameters are not blank. Each constructor stands on a line of
    /// its own.
    fn declare_datatype(
        &mut self,
        id: &str,
        params: &[Text],
        constructors: &[Text],
    ) -> Result<(), SinkError>
        ensures { Puts Self.contents Self.faults Self.has_room Self.place self.old self.new
            (declare_datatype_text id.now (texts params.now) (texts constructors.now)) result }
    {
        put_all(self, &["(declare-datatype ", id, " "])?;
        put_datatype(self, params, constructors)?;
        self.put(b")\n")
    }

    /// `(push 1)`, which opens a level: what is declared and asserted behind it goes with the matching `(pop 1)` (SMT-LIB
    /// 2.7, chapter 4, The Assertion Stack).
    fn push(&mut self) -> Result<(), SinkError>
        ensures { Puts Self.contents Self.faults Self.has_room Self.place self.old self.new
            push_text result }
    {
        self.put(b"(push 1)\n")
    }

    /// `(pop 1)`, which takes the last level out, with all that was declared and asserted in it.
    fn pop(&mut self) -> Result<(), SinkError>
        ensures { Puts Self.contents Self.faults Self.has_room Self.place self.old self.new
            pop_text result }
    {
        self.put(b"(pop 1)\n")
    }

    /// `(check-sat)`, which asks whether the assertions have a model.
    fn check_sat(&mut self) -> Result<(), SinkError>
        ensures { Puts Self.contents Self.faults Self.has_room Self.place self.old self.new
            check_sat_text result }
    {
        self.put(b"(check-sat)\n")
    }

    /// `(get-model)`, which asks for the model that the last check found.
    fn get_model(&mut self) -> Result<(), SinkError>
        ensures { Puts Self.contents Self.faults Self.has_room Self.place self.old self.new
            get_model_text result }
    {
        self.put(b"(get-model)\n")
    }

    /// `(reset)`, after which no declaration, assertion or option is left.
    fn reset(&mut self) -> Result<(), SinkError>
        ensures { Puts Self.contents Self.faults Self.has_room Self.place self.old self.new
            reset_text result }
    {
        self.put(b"(reset)\n")
    }

    /// `(exit)`, which ends the script.
    fn exit(&mut self) -> Result<(), SinkError>
        ensures { Puts Self.contents Self.faults Self.has_room Self.place self.old self.new
            exit_text result }
    {
        self.put(b"(exit)\n")
    }
}

impl<S: Sink> SmtLibScript for S {}
