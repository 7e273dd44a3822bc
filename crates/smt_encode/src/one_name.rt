// The calls of the encoder that write the lines of one name alone.
ghost use Rattle.std.specs.Prelude.{◌≡◌, ◌+◌, ◌++◌, ◌∷◌, IsTrue, []};
ghost use Rattle.std.specs.Prelude.{false, IfOk, None};
ghost use Rattle.std.specs.Prelude.{is_some};
ghost use Rattle.std.specs.Rc.{rc_str_bytes};
ghost use Rattle.law_texts.specs.LineTexts.{comment_text, declare_const_text};
ghost use Rattle.law_texts.specs.LineTexts.{declare_datatype_text, define_fun_text};
ghost use Rattle.law_texts.specs.Quoting.{quoted_id};
ghost use Rattle.law_texts.specs.SharedTexts.{texts};
ghost use Rattle.smt_term.specs.Entities.{bytes_of_id, bytes_of_type};
ghost use Rattle.smt_term.specs.ExtensionView.{plain_kind};
ghost use Rattle.smt_term.specs.Pairs.{attributes_in};
ghost use Rattle.law_terms.specs.Plain.{terms};
ghost use Rattle.smt_term.specs.View.{plain_op, plain_terms};
ghost use Rattle.smt_term.specs.View.{plain_type};
ghost use Rattle.law_lines.specs.Line.{spelled_lines};
ghost use Rattle.law_lines.specs.EntryNames.{kind_name};
ghost use Rattle.law_lines.specs.LineForms.{entity_lines, kind_lines, record_lines};
ghost use Rattle.law_lines.specs.Lines.{encode_head, members_of, next_entity, next_record};
ghost use Rattle.law_lines.specs.Lines.{next_term};
ghost use Rattle.law_lines.specs.NameTables.{Tables};
ghost use Rattle.smt_nodes.specs.Interned.{KeepsMeanings};
ghost use Rattle.smt_spelling.specs.SelectorFaults.{fault_of_selection};
ghost use Rattle.smt_encode.specs.Refusals.{HasCause, IsComplete};

use crate::alone::settle;
use crate::encoder::Encoder;
use crate::error::EncodeError;
use smt_script::Sink;
use smt_term::{Attr, EntityType, EntityUID, ExtType, Op, Term, TermType, TermVar, Text};

impl<S: Sink> Encoder<'_, S> {
    ghost use Rattle.smt_encode.specs.Alone.{fault_of_entity, fault_of_type, line_of_entity};
    ghost use Rattle.smt_encode.specs.Alone.{name_of_entity, record_body_text};
    ghost use Rattle.smt_encode.specs.Alone.{set_body_text, sorts_given, NamesStay, PutUnder};
    ghost use Rattle.smt_encode.specs.Applied.{begins_with_function, fault_of_application};
    ghost use Rattle.smt_encode.specs.Applied.{selection_text, PutApplied};
    ghost use Rattle.smt_encode.specs.Encoded.{enums_in, is_spent, nodes_in, sink_of};
    ghost use Rattle.smt_encode.specs.Encoded.{HasNames, HasTexts, Keeps, LevelsStay};
    ghost use Rattle.smt_encode.specs.Encoded.{SpendsOnError};

    /// Writes `(declare-datatype ID (CONSTRUCTORS))` (SMT-LIB 2.7, chapter 3, Scripts) of these constructors, each on a line
    /// of its own, and answers the id.
    ///
    /// What is handed in is written as it stands. The names that the encoder has stay as they are: the id is not entered
    /// among them.
    ///
    /// # Errors
    ///
    /// `Spent` comes exactly from an encoder of which an earlier call answered an error, and leaves it as it is. `Io` comes
    /// only where the sink's count of faults rose in this call, or stands at its last value; `Memory` where there is no memory
    /// left. After an error the encoder refuses all that it is to write.
    pub fn declare_type(&mut self, id: &str, mks: &[Text]) -> Result<Text, EncodeError>
        ensures put { IfOk result (PutUnder S.contents (sink_of self.old) (sink_of self.new) id.now
            (declare_datatype_text id.now [] (texts mks.now))) }
        ensures refused { HasCause (S.faults (sink_of self.old)) (S.faults (sink_of self.new)) None
            result }
        ensures complete { IsComplete (is_spent self.old) (S.faults (sink_of self.old))
            (S.faults (sink_of self.new)) None result }
        ensures spent { SpendsOnError self.old self.new result }
        ensures kept { NamesStay S.faults S.place None self.old self.new }
    {
        if self.failed {
            return Err(EncodeError::Spent);
        }
        let outcome = self.writer.put_type(id, mks);
        settle(&mut self.failed, outcome)
    }

    /// Writes the comment and the datatype of an entity type, as `encode` does, under the name `Ek` of the next entity type,
    /// and answers the name (`; TYPE` and `(declare-datatype Ek ..)`, SMT-LIB 2.7, chapter 3, Lexicon and Scripts).
    ///
    /// Of an enum type the comment has the members, and the datatype a constructor `Ek_mi` for each of them; of another
    /// type the constructor is `Ek` with the id. The names that the encoder has stay as they are, so that the next entity
    /// type gets the same name.
    ///
    /// # Errors
    ///
    /// Those of `declare_type`, and `EmptyEnum` of an enum type without members, of which nothing is written.
    pub fn declare_entity_type(&mut self, ety: &EntityType) -> Result<Text, EncodeError>
        ensures put { (s : Tables) → HasNames self.old s → let members = members_of
            (enums_in self.old) (bytes_of_type ety.now) in
            IfOk result (PutUnder S.contents (sink_of self.old) (sink_of self.new) (next_entity s)
            (spelled_lines (entity_lines members (bytes_of_type ety.now) (next_entity s)))) }
        ensures refused { HasCause (S.faults (sink_of self.old)) (S.faults (sink_of self.new))
            (fault_of_type (enums_in self.old) ety.now) result }
        ensures complete { IsComplete (is_spent self.old) (S.faults (sink_of self.old))
            (S.faults (sink_of self.new)) (fault_of_type (enums_in self.old) ety.now) result }
        ensures spent { SpendsOnError self.old self.new result }
        ensures kept { NamesStay S.faults S.place (fault_of_type (enums_in self.old) ety.now)
            self.old self.new }
    {
        if self.failed {
            return Err(EncodeError::Spent);
        }
        let outcome = self.writer.put_entity_type(ety);
        settle(&mut self.failed, outcome)
    }

    /// Writes the datatype of an extension type, as `encode` does, under the name that it has, and answers this name
    /// (`(declare-datatype Decimal ..)` and so on, SMT-LIB 2.7, chapter 3, Lexicon and Scripts).
    ///
    /// The datatypes of decimals, datetimes and durations have one constructor, at a number of 64 bits. That of IP ranges,
    /// `IPAddr`, has `V4` and `V6`, at an address of 32 or 128 bits and the option of a prefix of 5 or 7 bits. The names
    /// that the encoder has stay as they are.
    ///
    /// # Errors
    ///
    /// Those of `declare_type`.
    pub fn declare_ext_type(&mut self, ext_ty: ExtType) -> Result<Text, EncodeError>
        ensures put { IfOk result (PutUnder S.contents (sink_of self.old) (sink_of self.new)
            (kind_name (plain_kind ext_ty))
            (spelled_lines (kind_lines (plain_kind ext_ty) (kind_name (plain_kind ext_ty))))) }
        ensures refused { HasCause (S.faults (sink_of self.old)) (S.faults (sink_of self.new)) None
            result }
        ensures complete { IsComplete (is_spent self.old) (S.faults (sink_of self.old))
            (S.faults (sink_of self.new)) None result }
        ensures spent { SpendsOnError self.old self.new result }
        ensures kept { NamesStay S.faults S.place None self.old self.new }
    {
        if self.failed {
            return Err(EncodeError::Spent);
        }
        let outcome = self.writer.put_ext_type(ext_ty);
        settle(&mut self.failed, outcome)
    }

    /// Writes the comment and the datatype of a record type, by its attributes and their sorts in this order, under the name
    /// `Rk` of the next record type, and answers the name (`; {a, b}` and `(declare-datatype Rk ..)`, SMT-LIB 2.7, chapter 3,
    /// Lexicon and Scripts).
    ///
    /// The datatype has the constructor `Rk`, with a selector `Rk_ai` for the attribute at the place i of the list. The
    /// sorts are written as they stand. The names that the encoder has stay as they are, so that the next record type gets
    /// the same name.
    ///
    /// # Errors
    ///
    /// Those of `declare_type`.
    pub fn declare_record_type(&mut self, rty: &[(Attr, Text)]) -> Result<Text, EncodeError>
        ensures put { (s : Tables) → HasNames self.old s →
            IfOk result (PutUnder S.contents (sink_of self.old) (sink_of self.new) (next_record s)
            (spelled_lines
            (record_lines (attributes_in rty.now) (next_record s) (sorts_given rty.now)))) }
        ensures refused { HasCause (S.faults (sink_of self.old)) (S.faults (sink_of self.new)) None
            result }
        ensures complete { IsComplete (is_spent self.old) (S.faults (sink_of self.old))
            (S.faults (sink_of self.new)) None result }
        ensures spent { SpendsOnError self.old self.new result }
        ensures kept { NamesStay S.faults S.place None self.old self.new }
    {
        if self.failed {
            return Err(EncodeError::Spent);
        }
        let outcome = self.writer.put_record_type_of_pairs(rty);
        settle(&mut self.failed, outcome)
    }

    /// Writes `; "id"` and `(declare-const tm TY_ENC)` of a variable (SMT-LIB 2.7, chapter 3, Lexicon and Scripts), `tm`
    /// being the name of the next term, and answers the name.
    ///
    /// The sort is written as it stands, whatever the type of the variable is. The names that the encoder has stay as they
    /// are, so that the next term gets the same name.
    ///
    /// # Errors
    ///
    /// Those of `declare_type`.
    pub fn declare_var(&mut self, v: &TermVar, ty_enc: &str) -> Result<Text, EncodeError>
        ensures put { (s : Tables) → HasNames self.old s →
            IfOk result (PutUnder S.contents (sink_of self.old) (sink_of self.new) (next_term s)
            (comment_text (quoted_id (rc_str_bytes v.now.id))
            ++ declare_const_text (next_term s) ty_enc.now)) }
        ensures refused { HasCause (S.faults (sink_of self.old)) (S.faults (sink_of self.new)) None
            result }
        ensures complete { IsComplete (is_spent self.old) (S.faults (sink_of self.old))
            (S.faults (sink_of self.new)) None result }
        ensures spent { SpendsOnError self.old self.new result }
        ensures kept { NamesStay S.faults S.place None self.old self.new }
    {
        if self.failed {
            return Err(EncodeError::Spent);
        }
        let outcome = self.writer.put_var(v, ty_enc);
        settle(&mut self.failed, outcome)
    }

    /// Writes `(define-fun tm () TY_ENC T_ENC)` (SMT-LIB 2.7, chapter 3, Scripts), `tm` being the name of the next term, and
    /// answers the name.
    ///
    /// The sort and the body are written as they stand. The names that the encoder has stay as they are, so that the next
    /// term gets the same name.
    ///
    /// # Errors
    ///
    /// Those of `declare_type`.
    pub fn define_term(&mut self, ty_enc: &str, t_enc: &str) -> Result<Text, EncodeError>
        ensures put { (s : Tables) → HasNames self.old s →
            IfOk result (PutUnder S.contents (sink_of self.old) (sink_of self.new) (next_term s)
            (define_fun_text (next_term s) [] ty_enc.now t_enc.now)) }
        ensures refused { HasCause (S.faults (sink_of self.old)) (S.faults (sink_of self.new)) None
            result }
        ensures complete { IsComplete (is_spent self.old) (S.faults (sink_of self.old))
            (S.faults (sink_of self.new)) None result }
        ensures spent { SpendsOnError self.old self.new result }
        ensures kept { NamesStay S.faults S.place None self.old self.new }
    {
        if self.failed {
            return Err(EncodeError::Spent);
        }
        let outcome = self.writer.put_term(ty_enc, t_enc);
        settle(&mut self.failed, outcome)
    }

    /// Writes the definition of a set as `define_term` does, with the body `(set.insert x y (as set.empty TY_ENC))` of these
    /// elements, or `(as set.empty TY_ENC)` where there are none, and answers the name.
    ///
    /// The sort and the elements are written as they stand. The names that the encoder has stay as they are.
    ///
    /// # Errors
    ///
    /// Those of `declare_type`.
    pub fn define_set(&mut self, ty_enc: &str, t_encs: &[Text]) -> Result<Text, EncodeError>
        ensures put { (s : Tables) → HasNames self.old s →
            IfOk result (PutUnder S.contents (sink_of self.old) (sink_of self.new) (next_term s)
            (define_fun_text (next_term s) [] ty_enc.now
            (set_body_text ty_enc.now (texts t_encs.now)))) }
        ensures refused { HasCause (S.faults (sink_of self.old)) (S.faults (sink_of self.new)) None
            result }
        ensures complete { IsComplete (is_spent self.old) (S.faults (sink_of self.old))
            (S.faults (sink_of self.new)) None result }
        ensures spent { SpendsOnError self.old self.new result }
        ensures kept { NamesStay S.faults S.place None self.old self.new }
    {
        if self.failed {
            return Err(EncodeError::Spent);
        }
        let outcome = self.writer.put_set(ty_enc, t_encs);
        settle(&mut self.failed, outcome)
    }

    /// Writes the definition of a record as `define_term` does, with the body `(TY_ENC x y)` of these fields, or `TY_ENC`
    /// alone where there is no field, or one that has no character, and answers the name.
    ///
    /// The sort and the fields are written as they stand. The names that the encoder has stay as they are.
    ///
    /// # Errors
    ///
    /// Those of `declare_type`.
    pub fn define_record(&mut self, ty_enc: &str, t_encs: &[Text]) -> Result<Text, EncodeError>
        ensures put { (s : Tables) → HasNames self.old s →
            IfOk result (PutUnder S.contents (sink_of self.old) (sink_of self.new) (next_term s)
            (define_fun_text (next_term s) [] ty_enc.now
            (record_body_text ty_enc.now (texts t_encs.now)))) }
        ensures refused { HasCause (S.faults (sink_of self.old)) (S.faults (sink_of self.new)) None
            result }
        ensures complete { IsComplete (is_spent self.old) (S.faults (sink_of self.old))
            (S.faults (sink_of self.new)) None result }
        ensures spent { SpendsOnError self.old self.new result }
        ensures kept { NamesStay S.faults S.place None self.old self.new }
    {
        if self.failed {
            return Err(EncodeError::Spent);
        }
        let outcome = self.writer.put_record(ty_enc, t_encs);
        settle(&mut self.failed, outcome)
    }

    /// Answers the name of an entity whose type has this sort: of an enum type `TY_ENC_mi`, the constructor of the member,
    /// for which there is no line; of another type the name of the next term, for which it writes the definition as
    /// `define_term` does, with the body `(TY_ENC "id")`.
    ///
    /// The sort is written as it stands. The names that the encoder has stay as they are.
    ///
    /// # Errors
    ///
    /// Those of `declare_type`, and where the type is an enum type and the entity no member of it, `EnumMissingMember`;
    /// where the type is none, and the id has a character above `SMT_LIB_MAX_CODE_POINT`, `EncodeStringFailed`. Of these
    /// two nothing is written.
    pub fn define_entity(&mut self, ty_enc: &str, entity: &EntityUID) -> Result<Text, EncodeError>
        ensures put { (s : Tables) → HasNames self.old s → let members = members_of
            (enums_in self.old) (bytes_of_type entity.now.ety) in
            IfOk result (PutUnder S.contents (sink_of self.old) (sink_of self.new)
            (name_of_entity members (bytes_of_id entity.now.id) ty_enc.now s)
            (line_of_entity members (bytes_of_id entity.now.id) ty_enc.now s)) }
        ensures refused { HasCause (S.faults (sink_of self.old)) (S.faults (sink_of self.new))
            (fault_of_entity (enums_in self.old) entity.now) result }
        ensures complete { IsComplete (is_spent self.old) (S.faults (sink_of self.old))
            (S.faults (sink_of self.new)) (fault_of_entity (enums_in self.old) entity.now) result }
        ensures spent { SpendsOnError self.old self.new result }
        ensures kept { NamesStay S.faults S.place (fault_of_entity (enums_in self.old) entity.now)
            self.old self.new }
    {
        if self.failed {
            return Err(EncodeError::Spent);
        }
        let outcome = self.writer.put_entity(ty_enc, entity);
        settle(&mut self.failed, outcome)
    }

    /// Writes the definition of an attribute of a record as `define_term` does, with the body `(Rk_ai T_ENC)`, and answers
    /// the name: `Rk` is the name that the encoder has for the record type, and i the place of the attribute there.
    ///
    /// The sort and the record's text are written as they stand. The names that the encoder has stay as they are.
    ///
    /// # Errors
    ///
    /// Those of `declare_type`, and where the encoder has no name for the type, `MissingTypeEncoding`; where it has one, and
    /// the type is no record type, `ExpectRecord`; where the record type does not have the attribute, `RecordMissingAttr`.
    /// Of these three nothing is written.
    pub fn define_record_get(
        &mut self,
        ty_enc: &str,
        a: &Attr,
        t_enc: &str,
        ty: &TermType,
    ) -> Result<Text, EncodeError>
        ensures put { (s : Tables) → HasNames self.old s →
            IfOk result (PutUnder S.contents (sink_of self.old) (sink_of self.new) (next_term s)
            (define_fun_text (next_term s) [] ty_enc.now
            (selection_text (rc_str_bytes a.now) (plain_type ty.now) (t_enc.now ∷ []) s))) }
        ensures refused { (s : Tables) → HasNames self.old s →
            HasCause (S.faults (sink_of self.old)) (S.faults (sink_of self.new))
            (fault_of_selection s (rc_str_bytes a.now) (plain_type ty.now)) result }
        ensures complete { (s : Tables) → HasNames self.old s →
            IsComplete (is_spent self.old) (S.faults (sink_of self.old))
            (S.faults (sink_of self.new))
            (fault_of_selection s (rc_str_bytes a.now) (plain_type ty.now)) result }
        ensures spent { SpendsOnError self.old self.new result }
        ensures kept { (s : Tables) → HasNames self.old s →
            NamesStay S.faults S.place
            (fault_of_selection s (rc_str_bytes a.now) (plain_type ty.now)) self.old self.new }
    {
        if self.failed {
            return Err(EncodeError::Spent);
        }
        let outcome = self.writer.put_record_get(ty_enc, a, t_enc, ty);
        settle(&mut self.failed, outcome)
    }

    /// Writes the definition of an application as `define_term` does, with the body `(HEAD x y)` of these texts of its
    /// operands, and answers the name. Behind the operands of `string.like` stands the pattern.
    ///
    /// The head is the operator's text; of a function it is the function's name, whose lines are written before, as
    /// `encode_uuf` does; of an attribute it is the selector at the type of the first of the terms, as `define_record_get`
    /// has it. The sort and the operands are written as they stand, and of other operators the terms do not matter. Only the
    /// names that a function needs are entered, and the name that is answered is not.
    ///
    /// # Errors
    ///
    /// Those of `declare_type`, and where an attribute is taken and there is no term, `MalformedRecordGet`; where there is
    /// one, those of `define_record_get` for its type; of a function those of `encode_uuf`; and of a pattern with a character
    /// above `SMT_LIB_MAX_CODE_POINT`, `EncodePatternFailed`. Of these nothing is written, unless the operator is a function.
    pub fn define_app(
        &mut self,
        ty_enc: &str,
        op: &Op,
        t_encs: &[Text],
        ts: &[Term],
    ) -> Result<Text, EncodeError>
        ensures put { (s : Tables) → HasTexts self.old s →
            IfOk result (PutApplied S.contents self.old self.new
            (encode_head (enums_in self.old) (plain_op op.now) (terms (plain_terms ts.now)) s)
            (plain_op op.now) ty_enc.now (texts t_encs.now)) }
        ensures refused { (s : Tables) → HasTexts self.old s →
            HasCause (S.faults (sink_of self.old)) (S.faults (sink_of self.new))
            (fault_of_application (enums_in self.old) s (plain_op op.now) (plain_terms ts.now))
            result }
        ensures complete { (s : Tables) → HasTexts self.old s →
            IsComplete (is_spent self.old) (S.faults (sink_of self.old))
            (S.faults (sink_of self.new))
            (fault_of_application (enums_in self.old) s (plain_op op.now) (plain_terms ts.now))
            result }
        ensures spent { SpendsOnError self.old self.new result }
        ensures kept { Keeps S.faults S.place self.old self.new }
        ensures numbers { KeepsMeanings (nodes_in self.old) (nodes_in self.new) }
        ensures levels { LevelsStay self.old self.new }
        ensures unput { (s : Tables) → HasTexts self.old s →
            begins_with_function (plain_op op.now) ≡ false →
            IsTrue
            (is_some
            (fault_of_application (enums_in self.old) s (plain_op op.now) (plain_terms ts.now)))
            → sink_of self.new ≡ sink_of self.old }
    {
        if self.failed {
            return Err(EncodeError::Spent);
        }
        let outcome = self.writer.put_application(ty_enc, op, t_encs, ts);
        settle(&mut self.failed, outcome)
    }
}
