// The encoder, from terms to the lines of a script.
ghost use Rattle.std.specs.Prelude.{ℕ, List, ◌≡◌, ◌≤◌, ◌+◌, ◌*◌, Bool, IsTrue, []};
ghost use Rattle.std.specs.Prelude.{false, length, IfOk, OnOk};
ghost use Rattle.std.specs.Prelude.{option_map};
ghost use Rattle.std.specs.Rc.{rc_str_bytes};
ghost use Rattle.law_texts.specs.SharedTexts.{texts};
ghost use Rattle.smt_term.specs.Enums.{enums_of};
ghost use Rattle.law_terms.specs.Faults.{first_fault, term_fault, type_fault};
ghost use Rattle.law_terms.specs.Plain.{PlainTerm, terms};
ghost use Rattle.law_terms.specs.Typing.{AreBoolean, AreTyped};
ghost use Rattle.law_terms.specs.Nodes.{FunctionMeaning, TermMeaning, TypeMeaning};
ghost use Rattle.smt_term.specs.View.{plain_function, plain_term, plain_terms};
ghost use Rattle.smt_term.specs.View.{plain_type};
ghost use Rattle.law_lines.specs.Lines as lines;
ghost use Rattle.law_lines.specs.Lines.{fresh};
ghost use Rattle.law_lines.specs.Lines.{EncodeCall, Encoding};
ghost use Rattle.law_lines.specs.NameTables.{Tables, no_names};
ghost use Rattle.law_lines.specs.Text.{names, text};
ghost use Rattle.law_theorem.specs.Fits.{new_stages};
ghost use Rattle.law_theorem.specs.Headline.{Headline};
ghost use Rattle.smt_encode.specs.Complete.{AreWritten};
ghost use Rattle.smt_spelling.specs.LookUps.{edges, look_ups, IsClosed};
ghost use Rattle.smt_spelling.specs.NodeTexts.{StandFor};
ghost use Rattle.smt_spelling.specs.NodeLines.{encode_meaning, meaning_fault};
ghost use Rattle.smt_nodes.specs.Interned.{nodes_of, KeepsMeanings};
ghost use Rattle.smt_nodes.specs.Subject.{meaning_of};
ghost use Rattle.smt_nodes.specs.View.{places_of};
ghost use Rattle.std.specs.List.{AllByRecursion};
ghost use Rattle.smt_encode.specs.Refusals.{HasCause, IsComplete, TakesAttributes};
ghost use Rattle.smt_encode.specs.Encoded.{AreWellWritten, Gave, MeansTerms};

use crate::alone::settle;
use crate::error::EncodeError;
use crate::writer::Writer;
use smt_nodes::{Interner, NodeId, Subject};
use smt_script::Sink;
use smt_spelling::{Names, NodeNames, Steps};
use smt_term::{EnumTable, Term, TermType, Text, Uuf};
use std::alloc::Global;
use std::marker::Brand;
use std::sync::ledger::{Blank, Ledger};

/// Writes terms as lines of a script, and keeps the names under which it wrote them.
///
/// Each term that has no inline text gets one name, under which it is declared or defined once, and so does each entity type,
/// each record type and each function. `encode` and `encode_nodes` assert terms, as often as they are called, and `push` and
/// `pop` open and close levels: what a level got, its names too, goes with it (SMT-LIB 2.7, chapter 4, The Assertion Stack).
/// After an error an encoder is spent. `into_script` gives its sink back.
///
/// `encode_type`, `encode_uuf` and `encode_term` write the lines of one type, function or term behind what was written, and
/// enter their names. The calls from `declare_type` to `define_app` write the lines of one name alone. They answer the name and
/// enter none, but for those that a function needs in `define_app`, so that two of them may give one name twice. All of these
/// may come before terms are asserted or after that.
#[derive(Drop)]
pub struct Encoder<'a, S> {
    pub(crate) writer: Writer<'a, S>,
    pub(crate) begun: bool,
    pub(crate) failed: bool,
}

impl<'a, S> Encoder<'a, S> {
    ghost use Rattle.smt_encode.specs.Encoded.{enums_in, is_spent, nodes_in, sink_of, texts_in};
    ghost use Rattle.smt_encode.specs.Encoded.{FitsEncoder, HasEncoding, HasNames};
    ghost use Rattle.smt_encode.specs.Encoded.{HasTexts, IsFresh, IsNameOf};

    /// An encoder without names over this sink, which has written nothing yet. Takes no memory, and puts nothing.
    ///
    /// # Examples
    ///
    /// ```
    /// use kembura::{Encoder, EnumTable, ListSink};
    ///
    /// let enums = EnumTable::new(alloc);
    /// let encoder = Encoder::new(alloc, &enums, ListSink::new(alloc));
    /// assert_eq!(rt; encoder.term_count(), 0);
    /// ```
    pub fn new(alloc: Global, enums: &'a EnumTable, script: S) -> Encoder<'a, S>
        ensures no_names { HasNames result no_names }
        ensures no_texts { HasTexts result no_names }
        ensures fresh { IsFresh result }
        ensures stands { HasEncoding result fresh }
        ensures fits { FitsEncoder result [] new_stages }
        ensures unspent { is_spent result ≡ false }
        ensures sink { sink_of result ≡ script }
        ensures enums { enums_in result ≡ enums_of enums.now }
    {
        Encoder::with_nodes(alloc, enums, Interner::new(alloc), script)
    }

    /// The same over the nodes that an interner has. Takes no memory, and puts nothing.
    pub fn with_nodes(
        alloc: Global,
        enums: &'a EnumTable,
        nodes: Interner,
        script: S,
    ) -> Encoder<'a, S>
        ensures no_names { HasNames result no_names }
        ensures no_texts { HasTexts result no_names }
        ensures fresh { IsFresh result }
        ensures stands { HasEncoding result fresh }
        ensures fits { FitsEncoder result [] new_stages }
        ensures nodes { nodes_in result ≡ nodes }
        ensures unspent { is_spent result ≡ false }
        ensures sink { sink_of result ≡ script }
        ensures enums { enums_in result ≡ enums_of enums.now }
    {
        let writer = Writer {
            alloc,
            names: Names::new(alloc, enums, nodes),
            script,
        };
        Encoder {
            writer,
            begun: false,
            failed: false,
        }
    }

    /// The name under which a term is declared or defined, None exactly where it has none. Takes no memory; it compares the
    /// term with one node after the other.
    pub fn name_of_term(&self, term: &Term) -> Option<&Text>
        ensures { IsNameOf self.now (TermMeaning (plain_term term.now))
            (option_map (λ name. rc_str_bytes name.now) result) }
    {
        self.name_of_subject(Subject::Term(term))
    }

    /// The same of a type, whose name is that of its datatype.
    pub fn name_of_type(&self, ty: &TermType) -> Option<&Text>
        ensures { IsNameOf self.now (TypeMeaning (plain_type ty.now))
            (option_map (λ name. rc_str_bytes name.now) result) }
    {
        self.name_of_subject(Subject::Type(ty))
    }

    /// The same of an uninterpreted function.
    pub fn name_of_uuf(&self, f: &Uuf) -> Option<&Text>
        ensures { IsNameOf self.now (FunctionMeaning (plain_function f.now))
            (option_map (λ name. rc_str_bytes name.now) result) }
    {
        self.name_of_subject(Subject::Function(f))
    }

    fn name_of_subject(&self, subject: Subject<'_>) -> Option<&Text>
        ensures { IsNameOf self.now (meaning_of subject.entry)
            (option_map (λ name. rc_str_bytes name.now) result) }
    {
        self.writer.names.name_by::<Brand>(subject, Blank::new(1))
    }

    /// The nodes of the terms that it was given.
    pub fn nodes(&self) -> &Interner
        ensures { result.now ≡ nodes_in self.now }
    {
        self.writer.names.nodes()
    }

    /// The texts of the nodes that it wrote. Takes no memory.
    pub fn names(&self) -> &NodeNames
        ensures { result.now ≡ texts_in self.now }
    {
        self.writer.names.texts()
    }

    /// How many terms have names, of those that live. Takes no memory.
    pub fn term_count(&self) -> usize
        ensures { (s : Tables) → HasNames self.now s → result ≡ length s.terms }
    {
        self.writer.names.term_count()
    }

    /// The sink that it held, with what was put to it, also after an error.
    ///
    /// # Examples
    ///
    /// ```
    /// use kembura::{Encoder, EnumTable, ListSink, Term};
    ///
    /// let enums = EnumTable::new(alloc);
    /// let mut encoder = Encoder::new(alloc, &enums, ListSink::new(alloc));
    /// encoder.encode(&[Term::from(true)])?;
    /// let script = encoder.into_script();
    /// assert!(rt; script.bytes().ends_with(b"(assert true)\n"));
    /// ```
    pub fn into_script(self) -> S
        ensures { result ≡ sink_of self.entry }
    {
        self.writer.script
    }
}

impl<'a, S: Drop> Encoder<'a, S> {
    ghost use Rattle.smt_encode.specs.Encoded.{enums_in, is_spent, nodes_in, texts_in, HasEncoding};
    ghost use Rattle.smt_encode.specs.Encoded.{HasNames, HasTexts};

    /// The same encoder without its sink, for its names alone. Takes no memory.
    pub fn finalize(self) -> Encoder<'a, ()>
        ensures names { (s : Tables) → HasNames self.entry s → HasNames result s }
        ensures stated { (s : Tables) → HasTexts self.entry s → HasTexts result s }
        ensures nodes { nodes_in result ≡ nodes_in self.entry }
        ensures texts { texts_in result ≡ texts_in self.entry }
        ensures enums { enums_in result ≡ enums_in self.entry }
        ensures stands { (x : Encoding) → HasEncoding self.entry x → HasEncoding result x }
        ensures spent { is_spent result ≡ is_spent self.entry }
    {
        let (encoder, script) = self.detach();
        drop(script);
        encoder
    }
}

impl<S: Sink> Encoder<'_, S> {
    ghost use Rattle.smt_encode.specs.Interrupted.{IsInterrupted};
    ghost use Rattle.smt_encode.specs.Encoded.{enums_in, is_spent, nodes_in, sink_of, texts_in};
    ghost use Rattle.smt_encode.specs.Encoded.{CallKeepsFit, CallKeepsWellWritten};
    ghost use Rattle.smt_encode.specs.Encoded.{HasNames, HasTexts, IsFresh, Keeps, LevelsStay};
    ghost use Rattle.smt_encode.specs.Encoded.{PutScript, PutStated};
    ghost use Rattle.smt_encode.specs.Encoded.{PutsCall, Spends, SpendsOnError, WroteText};

    /// Asserts these terms: writes the declaration of the datatype `Option`, if no `push`, `encode` or `encode_nodes` has
    /// written it, what the terms need, and an assertion for each term, in order (commands of SMT-LIB 2.7, chapter 3, Scripts).
    ///
    /// What a term needs are the lines of its type, those of its parts and then its own: `; "id"` and
    /// `(declare-const t0 S)` for a variable, `(define-fun t0 () S BODY)` for another term that has no inline text, where
    /// `t0` is its name and `S` its sort. An entity of an enum type is named by a constructor, and an overflow test of the
    /// negation of what is no bitvector is named `false`, both without a line. An entity type has a comment and
    /// `(declare-datatype E0 ..)`, a record type a comment and `(declare-datatype R0 ..)`, and a function a comment and
    /// `(declare-fun f0 ..)`. A type, a function or a term that has a name already is not written again. A term's assertion
    /// is `(assert TEXT)`, where `TEXT` is its name or, of a literal, its inline text.
    ///
    /// After Ok it has put exactly the lines that are stated over the names that it had, and has the names that are stated
    /// then, and each node that it wrote has its stated text: the name of a term, of an entity or record type or of a
    /// function, or what stands inline for another type or a literal (`put`). Of a fresh encoder, as `new` gives it, this is
    /// the stated text with its names (`stated`). Of such an encoder, for Boolean terms, `headline` says what the bytes mean
    /// that the sink got in this call, by the names that the encoder has then: they are a script by the grammar of SMT-LIB
    /// 2.7, each name is declared once and before its use, the assertions are the terms' texts in order, and the models are
    /// exactly the interpretations that make all terms true. `models` says the same of the stated text and its names. Of such
    /// an encoder and such terms, `well_written` says that each definition's body has the definition's sort and each assertion
    /// the sort Bool (SMT-LIB 2.7, chapter 3, Terms and Formulas), by the declarations before it; that each term is defined at
    /// most once, by a body in which its parts stand by name or as an inline literal; and that there are at most as many
    /// commands as assertions, distinct named sorts, functions and subterms that the terms reach, and one for `Option`. By
    /// `written` each node of terms that are typed has its text then.
    ///
    /// After any list of calls of `push`, `pop`, `encode` and `encode_nodes` the same holds of all that the sink got, with the
    /// names that live and the terms of all open levels in order. Each call is a step of it: it puts the lines that are stated
    /// for it (`called`), and where a text and these terms fitted the encoder, they do so with the new bytes and terms (`fits`,
    /// `keeps_well_written`); a fresh encoder fits the empty text. What a text that fits is worth says the law
    /// `fitting_texts_are_scripts` of `law_theorem`.
    ///
    /// # Examples
    ///
    /// ```
    /// use kembura::{Encoder, EnumTable, ListSink, Term};
    ///
    /// let enums = EnumTable::new(alloc);
    /// let mut encoder = Encoder::new(alloc, &enums, ListSink::new(alloc));
    /// encoder.encode(&[Term::from(true)])?;
    /// encoder.encode(&[Term::from(false)])?;
    /// assert!(rt; encoder.into_script().bytes().ends_with(b"(assert true)\n(assert false)\n"));
    /// ```
    ///
    /// # Errors
    ///
    /// `Spent` comes exactly from an encoder of which an earlier call answered an error, and leaves it as it is. `Io` comes
    /// only where the sink's count of faults rose in this call, or stands at its last value. `EmptyEnum`,
    /// `EnumMissingMember`, `EncodeStringFailed`, `EncodePatternFailed`, `MalformedRecordGet`, `MissingTypeEncoding`,
    /// `ExpectRecord` and `RecordMissingAttr` come only where this is the first fault of the terms, from left to right, a
    /// term's type before its parts and these before the term; where the terms have a fault, the answer is never Ok. The last
    /// four never come of typed terms (`takes`). `Memory` may come from any encoder that is not spent, where there is no memory
    /// left. Each of these spends the encoder. For typed terms, wherever a text fitted the encoder, the sink has got a first
    /// part of the first of the stated lines then, with which the text is a script still: whole comments and commands, and only
    /// after `Io` and `Memory` at most one more that is cut (`stopped`). The names are those of some tables, so that
    /// `term_count` counts them (`names`).
    pub fn encode(&mut self, terms: &[Term]) -> Result<(), EncodeError>
        ensures put { (s : Tables) → HasTexts self.old s →
            OnOk result (PutScript S.contents self.old self.new
            (lines.encode (enums_in self.old) (plain_terms terms.now) s)) }
        ensures stated { IsFresh self.old →
            OnOk result (WroteText S.contents self.old self.new (plain_terms terms.now)) }
        ensures headline { IsFresh self.old → AreBoolean (plain_terms terms.now) →
            OnOk result (Gave S.contents self.old self.new
            (MeansTerms self.old self.new (plain_terms terms.now))) }
        ensures well_written { IsFresh self.old → AreBoolean (plain_terms terms.now) →
            OnOk result (Gave S.contents self.old self.new
            (AreWellWritten self.old self.new (plain_terms terms.now))) }
        ensures models { AreBoolean (plain_terms terms.now) →
            OnOk result (Headline (enums_in self.old)
            (names (enums_in self.old) (plain_terms terms.now)) (plain_terms terms.now)
            (text (enums_in self.old) (plain_terms terms.now))) }
        ensures called { PutsCall S.contents self.old self.new (EncodeCall (plain_terms terms.now))
            result }
        ensures fits { AreBoolean (plain_terms terms.now) →
            CallKeepsFit S.contents self.old self.new (EncodeCall (plain_terms terms.now)) result }
        ensures keeps_well_written { AreBoolean (plain_terms terms.now) →
            CallKeepsWellWritten S.contents self.old self.new (EncodeCall (plain_terms terms.now))
            result }
        ensures spent { Spends self.old self.new result }
        ensures refused { HasCause (S.faults (sink_of self.old)) (S.faults (sink_of self.new))
            (first_fault (enums_in self.old) (plain_terms terms.now)) result }
        ensures takes { AreTyped (plain_terms terms.now) → TakesAttributes result }
        ensures complete { IsComplete (is_spent self.old) (S.faults (sink_of self.old))
            (S.faults (sink_of self.new)) (first_fault (enums_in self.old) (plain_terms terms.now))
            result }
        ensures stopped { AreTyped (plain_terms terms.now) →
            IsInterrupted S.contents self.old self.new (EncodeCall (plain_terms terms.now)) result }
        ensures names { (s : Tables) → HasTexts self.old s → (t : Tables) × HasTexts self.new t }
        ensures numbers { KeepsMeanings (nodes_in self.old) (nodes_in self.new) }
        ensures written { OnOk result
            (AreWritten (nodes_in self.new) (texts_in self.new) (plain_terms terms.now)) }
        ensures kept { Keeps S.faults S.place self.old self.new }
    {
        if self.failed {
            return Err(EncodeError::Spent);
        }
        let outcome = self.writer.put_terms(terms, self.begun);
        self.begun = true;
        self.failed = outcome.is_err();
        Ok(outcome?)
    }

    /// Writes the script of the terms for which these numbers of its nodes stand, in order, as `encode` does for the terms,
    /// and counts its look-ups of nodes.
    ///
    /// After Ok there are at most as many look-ups as numbers that were given, parts of nodes and attributes that are taken
    /// together, of the nodes to which these numbers lead (`steps`, of any set of nodes that has these and the parts of its
    /// own), and so at most twice as many as assertions and edges (`by_edges`).
    ///
    /// # Errors
    ///
    /// Those of `encode` for these terms.
    pub fn encode_nodes<L: Ledger>(
        &mut self,
        ids: &[NodeId],
        steps: &mut Steps<L>,
    ) -> Result<(), EncodeError>
        requires stand { (ts : List PlainTerm) × StandFor (nodes_in self.old) ids.now ts }
        ensures put { (ts : List PlainTerm) (s : Tables) → StandFor (nodes_in self.old) ids.now ts →
            HasTexts self.old s →
            OnOk result
            (PutScript S.contents self.old self.new (lines.encode (enums_in self.old) ts s)) }
        ensures stated { (ts : List PlainTerm) → StandFor (nodes_in self.old) ids.now ts →
            IsFresh self.old → OnOk result (WroteText S.contents self.old self.new ts) }
        ensures headline { (ts : List PlainTerm) → StandFor (nodes_in self.old) ids.now ts →
            IsFresh self.old → AreBoolean ts →
            OnOk result (Gave S.contents self.old self.new (MeansTerms self.old self.new ts)) }
        ensures well_written { (ts : List PlainTerm) → StandFor (nodes_in self.old) ids.now ts →
            IsFresh self.old → AreBoolean ts →
            OnOk result (Gave S.contents self.old self.new (AreWellWritten self.old self.new ts)) }
        ensures models { (ts : List PlainTerm) → StandFor (nodes_in self.old) ids.now ts →
            AreBoolean ts →
            OnOk result (Headline (enums_in self.old) (names (enums_in self.old) ts) ts
            (text (enums_in self.old) ts)) }
        ensures called { (ts : List PlainTerm) → StandFor (nodes_in self.old) ids.now ts →
            PutsCall S.contents self.old self.new (EncodeCall ts) result }
        ensures fits { (ts : List PlainTerm) → StandFor (nodes_in self.old) ids.now ts →
            AreBoolean ts → CallKeepsFit S.contents self.old self.new (EncodeCall ts) result }
        ensures keeps_well_written { (ts : List PlainTerm) →
            StandFor (nodes_in self.old) ids.now ts → AreBoolean ts →
            CallKeepsWellWritten S.contents self.old self.new (EncodeCall ts) result }
        ensures spent { Spends self.old self.new result }
        ensures takes { (ts : List PlainTerm) → StandFor (nodes_in self.old) ids.now ts →
            AreTyped ts → TakesAttributes result }
        ensures refused { (ts : List PlainTerm) → StandFor (nodes_in self.old) ids.now ts →
            HasCause (S.faults (sink_of self.old)) (S.faults (sink_of self.new))
            (first_fault (enums_in self.old) ts) result }
        ensures complete { (ts : List PlainTerm) → StandFor (nodes_in self.old) ids.now ts →
            IsComplete (is_spent self.old) (S.faults (sink_of self.old))
            (S.faults (sink_of self.new)) (first_fault (enums_in self.old) ts) result }
        ensures stopped { (ts : List PlainTerm) → StandFor (nodes_in self.old) ids.now ts →
            AreTyped ts → IsInterrupted S.contents self.old self.new (EncodeCall ts) result }
        ensures names { (s : Tables) → HasTexts self.old s → (t : Tables) × HasTexts self.new t }
        ensures written { (ts : List PlainTerm) → StandFor (nodes_in self.old) ids.now ts →
            OnOk result (AreWritten (nodes_in self.new) (texts_in self.new) ts) }
        ensures steps { (has : ℕ → Bool) → IsClosed (nodes_of (nodes_in self.old)) has →
            AllByRecursion (λ place. IsTrue (has place)) (places_of ids.now) →
            OnOk result
            (steps.new ≤ steps.old + length ids.now + look_ups has (nodes_of (nodes_in self.old))) }
        ensures by_edges { (has : ℕ → Bool) → IsClosed (nodes_of (nodes_in self.old)) has →
            AllByRecursion (λ place. IsTrue (has place)) (places_of ids.now) →
            OnOk result (steps.new
            ≤ steps.old + 2 * (length ids.now + edges has (nodes_of (nodes_in self.old)))) }
        ensures numbers { nodes_in self.new ≡ nodes_in self.old }
        ensures kept { Keeps S.faults S.place self.old self.new }
    {
        if self.failed {
            return Err(EncodeError::Spent);
        }
        let outcome = self.writer.put_nodes(ids, self.begun, steps);
        self.begun = true;
        self.failed = outcome.is_err();
        Ok(outcome?)
    }

    /// Writes the lines that a type needs, as `encode` does, and answers its sort: its name, or what stands inline for it.
    ///
    /// What has a name already is not written again. The names that are new are entered, so that no later call writes these
    /// lines again.
    ///
    /// # Errors
    ///
    /// `Spent` comes exactly from an encoder of which an earlier call answered an error, and leaves it as it is. `Io` comes
    /// only where the sink's count of faults rose in this call, or stands at its last value. `EmptyEnum` comes only where this
    /// is the first fault of the type, and where the type has a fault, the answer is never Ok. `Memory` comes where there is
    /// no memory left. After an error the encoder refuses all that it is to write.
    pub fn encode_type(&mut self, ty: &TermType) -> Result<Text, EncodeError>
        ensures put { (s : Tables) → HasTexts self.old s →
            IfOk result (PutStated S.contents self.old self.new
            (lines.encode_type (enums_in self.old) (plain_type ty.now) s)) }
        ensures refused { HasCause (S.faults (sink_of self.old)) (S.faults (sink_of self.new))
            (type_fault (enums_in self.old) (plain_type ty.now)) result }
        ensures complete { IsComplete (is_spent self.old) (S.faults (sink_of self.old))
            (S.faults (sink_of self.new)) (type_fault (enums_in self.old) (plain_type ty.now))
            result }
        ensures spent { SpendsOnError self.old self.new result }
        ensures kept { Keeps S.faults S.place self.old self.new }
        ensures names { (s : Tables) → HasTexts self.old s → (t : Tables) × HasTexts self.new t }
        ensures numbers { KeepsMeanings (nodes_in self.old) (nodes_in self.new) }
        ensures levels { LevelsStay self.old self.new }
    {
        self.encode_subject(Subject::Type(ty))
    }

    /// Writes the lines that an uninterpreted function needs, as `encode` does: `; ID`, those of the type of its argument and
    /// of that of its values, and `(declare-fun fk (ARGUMENT) VALUES)` (SMT-LIB 2.7, chapter 3, Scripts), `fk` being the name
    /// of the next function. It answers the name.
    ///
    /// What `encode_type` says of names holds here.
    ///
    /// # Errors
    ///
    /// Those of `encode_type`, for the two types of the function, that of its argument first.
    pub fn encode_uuf(&mut self, uuf: &Uuf) -> Result<Text, EncodeError>
        ensures put { (s : Tables) → HasTexts self.old s →
            IfOk result (PutStated S.contents self.old self.new
            (lines.encode_function (enums_in self.old) (plain_function uuf.now) s)) }
        ensures refused { HasCause (S.faults (sink_of self.old)) (S.faults (sink_of self.new))
            (meaning_fault (enums_in self.old) (FunctionMeaning (plain_function uuf.now))) result }
        ensures complete { IsComplete (is_spent self.old) (S.faults (sink_of self.old))
            (S.faults (sink_of self.new))
            (meaning_fault (enums_in self.old) (FunctionMeaning (plain_function uuf.now))) result }
        ensures spent { SpendsOnError self.old self.new result }
        ensures kept { Keeps S.faults S.place self.old self.new }
        ensures names { (s : Tables) → HasTexts self.old s → (t : Tables) × HasTexts self.new t }
        ensures numbers { KeepsMeanings (nodes_in self.old) (nodes_in self.new) }
        ensures levels { LevelsStay self.old self.new }
    {
        self.encode_subject(Subject::Function(uuf))
    }

    /// Writes the lines that a term needs, as `encode` does, and answers its text: its name, or what stands inline for a
    /// literal. It writes no assertion.
    ///
    /// What `encode_type` says of names holds here.
    ///
    /// # Errors
    ///
    /// Those of `encode` for this term; `Spent` comes as there.
    pub fn encode_term(&mut self, t: &Term) -> Result<Text, EncodeError>
        ensures put { (s : Tables) → HasTexts self.old s →
            IfOk result (PutStated S.contents self.old self.new
            (lines.encode_term (enums_in self.old) (plain_term t.now) s)) }
        ensures refused { HasCause (S.faults (sink_of self.old)) (S.faults (sink_of self.new))
            (term_fault (enums_in self.old) (plain_term t.now)) result }
        ensures complete { IsComplete (is_spent self.old) (S.faults (sink_of self.old))
            (S.faults (sink_of self.new)) (term_fault (enums_in self.old) (plain_term t.now))
            result }
        ensures spent { SpendsOnError self.old self.new result }
        ensures kept { Keeps S.faults S.place self.old self.new }
        ensures names { (s : Tables) → HasTexts self.old s → (t : Tables) × HasTexts self.new t }
        ensures numbers { KeepsMeanings (nodes_in self.old) (nodes_in self.new) }
        ensures levels { LevelsStay self.old self.new }
    {
        self.encode_subject(Subject::Term(t))
    }

    /// Writes the lines that a subject needs, and answers its text.
    fn encode_subject(&mut self, subject: Subject<'_>) -> Result<Text, EncodeError>
        ensures put { (s : Tables) → HasTexts self.old s →
            IfOk result (PutStated S.contents self.old self.new
            (encode_meaning (enums_in self.old) (meaning_of subject.entry) s)) }
        ensures refused { HasCause (S.faults (sink_of self.old)) (S.faults (sink_of self.new))
            (meaning_fault (enums_in self.old) (meaning_of subject.entry)) result }
        ensures complete { IsComplete (is_spent self.old) (S.faults (sink_of self.old))
            (S.faults (sink_of self.new))
            (meaning_fault (enums_in self.old) (meaning_of subject.entry)) result }
        ensures spent { SpendsOnError self.old self.new result }
        ensures kept { Keeps S.faults S.place self.old self.new }
        ensures names { (s : Tables) → HasTexts self.old s → (t : Tables) × HasTexts self.new t }
        ensures numbers { KeepsMeanings (nodes_in self.old) (nodes_in self.new) }
        ensures levels { LevelsStay self.old self.new }
    {
        if self.failed {
            return Err(EncodeError::Spent);
        }
        let outcome = self.writer.put_subject(subject);
        settle(&mut self.failed, outcome)
    }
}
