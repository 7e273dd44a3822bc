// The lines of one name alone: they are put, and the names stay as they are.
ghost use Rattle.std.specs.Prelude.{◌≡◌, ◌++◌, ◌||◌, List, [], IfOk, None, OnErr};
ghost use Rattle.std.specs.Rc.{rc_str_bytes};
ghost use Rattle.std.specs.Result.{is_err};
ghost use Rattle.std.specs.String.{string_bytes};
ghost use Rattle.law_texts.specs.LineTexts.{comment_text, declare_const_text};
ghost use Rattle.law_texts.specs.LineTexts.{declare_datatype_text, define_fun_text};
ghost use Rattle.law_texts.specs.Quoting.{quoted_id};
ghost use Rattle.law_texts.specs.SharedTexts.{GivesText, texts};
ghost use Rattle.smt_encode.specs.Alone.{encoded, fault_of_entity, fault_of_type, line_of_entity};
ghost use Rattle.smt_encode.specs.Alone.{name_of_entity, record_body_text};
ghost use Rattle.smt_encode.specs.Alone.{set_body_text, sorts_given};
ghost use Rattle.smt_spelling.specs.NodeEntries.{entry_name};
ghost use Rattle.smt_term.specs.Entities.{bytes_of_id, bytes_of_type};
ghost use Rattle.smt_term.specs.ExtensionView.{plain_kind};
ghost use Rattle.smt_term.specs.Pairs.{attributes_in};
ghost use Rattle.law_lines.specs.Line.{spelled_lines};
ghost use Rattle.law_texts.specs.Reading.{Expression};
ghost use Rattle.law_lines.specs.EntryNames.{kind_name};
ghost use Rattle.law_lines.specs.LineForms.{entity_lines, kind_lines, record_lines};
ghost use Rattle.law_lines.specs.Lines.{members_of, next_entity, next_record, next_term};
ghost use Rattle.law_lines.specs.NameTables.{Tables};
ghost use Rattle.smt_spelling.specs.Entries.{entry_bytes, PlainEntry, SaysEntry};
ghost use Rattle.smt_script.specs.Sink.{AppendsPart};
ghost use Rattle.smt_spelling.specs.Spelled.{AreSpelled};

use crate::error::{EncodeError, WriteError};
use crate::writer::Writer;
use smt_script::{Sink, SmtLibScript};
use smt_spelling::{
    Entry, entity_datatype, entity_entry, extension_constructors, extension_name, record_datatype,
    set_text,
};
use smt_term::{Attr, EntityType, EntityUID, ExtType, TermVar, Text};
use smt_text::{push_spaced, quote_id, share_text};
use std::alloc::{AllocError, Global};

/// Hands an outcome on, and marks a refusal.
pub(crate) fn settle(
    failed: &mut bool,
    outcome: Result<Text, WriteError>,
) -> Result<Text, EncodeError>
    ensures answer { result ≡ encoded outcome }
    ensures marked { failed.new ≡ (failed.old || is_err outcome) }
{
    match outcome {
        Ok(name) => Ok(name),
        Err(error) => {
            *failed = true;
            Err(EncodeError::from(error))
        }
    }
}

/// The attributes of pairs, and the sorts beside them, in their order.
fn attributes_and_sorts(
    alloc: Global,
    pairs: &[(Attr, Text)],
) -> Result<(Vec<Attr>, Vec<Text>), AllocError>
    ensures attributes { IfOk result (λ made. texts made.0.items ≡ attributes_in pairs.now) }
    ensures sorts { IfOk result (λ made. AreSpelled (sorts_given pairs.now) made.1.items) }
{
    let mut attributes = Vec::with_capacity(alloc, pairs.len())?;
    let mut sorts = Vec::with_capacity(alloc, pairs.len())?;
    for (attribute, sort) in pairs {
        attributes.push(share_text(attribute)?)?;
        sorts.push(share_text(sort)?)?;
    }
    Ok((attributes, sorts))
}

/// `(SORT x y)`: a record of this sort by its fields, the sort alone where the joined fields have no character.
fn record_body(alloc: Global, sort: &str, fields: &[Text]) -> Result<String, AllocError>
    ensures { IfOk result
        (λ body. string_bytes body ≡ record_body_text sort.now (texts fields.now)) }
{
    let mut joined = String::new(alloc);
    push_spaced(&mut joined, fields)?;
    if joined.is_empty() {
        return String::from_str(alloc, sort);
    }
    format!(in alloc; "({sort} {joined})")
}

impl<S: Sink> Writer<'_, S> {
    ghost use Rattle.smt_encode.specs.Alone.{PutsAlone, PutUnder};
    ghost use Rattle.smt_spelling.specs.Names.{enums_under, AreTables};

    /// Puts the datatype of these constructors.
    pub(crate) fn put_type(&mut self, id: &str, mks: &[Text]) -> Result<Text, WriteError>
        ensures lines { IfOk result (PutUnder S.contents self.old.script self.new.script id.now
            (declare_datatype_text id.now [] (texts mks.now))) }
        ensures part { OnErr result (AppendsPart (S.contents self.old.script)
            (S.contents self.new.script) (declare_datatype_text id.now [] (texts mks.now))) }
        ensures alone { PutsAlone S.faults S.place None self.old self.new result }
    {
        let name = Text::from_str(self.alloc, id)?;
        self.script.declare_datatype(id, &[], mks)?;
        Ok(name)
    }

    /// Puts the comment and the datatype of an entity type under the name that is next.
    pub(crate) fn put_entity_type(&mut self, ety: &EntityType) -> Result<Text, WriteError>
        ensures lines { (s : Tables) → AreTables self.old.names s → let members = members_of
            (enums_under self.old.names) (bytes_of_type ety.now) in
            IfOk result (PutUnder S.contents self.old.script self.new.script (next_entity s)
            (spelled_lines (entity_lines members (bytes_of_type ety.now) (next_entity s)))) }
        ensures part { (s : Tables) → AreTables self.old.names s →
            OnErr result (AppendsPart (S.contents self.old.script) (S.contents self.new.script)
            (spelled_lines (entity_lines
            (members_of (enums_under self.old.names) (bytes_of_type ety.now))
            (bytes_of_type ety.now) (next_entity s)))) }
        ensures alone { PutsAlone S.faults S.place
            (fault_of_type (enums_under self.old.names) ety.now) self.old self.new result }
    {
        let name = self.names.next_entity()?;
        let members = self.names.enums().members_of(ety);
        let datatype = entity_datatype(self.alloc, ety, members, name.as_str())?;
        datatype.put(&mut self.script, name.as_str())?;
        Ok(name)
    }

    /// Puts the datatype of an extension type under its own name.
    pub(crate) fn put_ext_type(&mut self, xty: ExtType) -> Result<Text, WriteError>
        ensures lines { IfOk result (PutUnder S.contents self.old.script self.new.script
            (kind_name (plain_kind xty))
            (spelled_lines (kind_lines (plain_kind xty) (kind_name (plain_kind xty))))) }
        ensures part { OnErr result (AppendsPart (S.contents self.old.script)
            (S.contents self.new.script)
            (spelled_lines (kind_lines (plain_kind xty) (kind_name (plain_kind xty))))) }
        ensures alone { PutsAlone S.faults S.place None self.old self.new result }
    {
        let constructors = extension_constructors(self.alloc, xty)?;
        self.put_type(extension_name(xty), constructors.as_slice())
    }

    /// Puts the comment and the datatype of a record type, by the sorts of its attributes, under the name that is next.
    pub(crate) fn put_record_type(
        &mut self,
        attributes: &[Attr],
        sorts: &[Text],
    ) -> Result<Text, WriteError>
        ensures lines { (s : Tables) (es : List Expression) → AreTables self.old.names s →
            AreSpelled es sorts.now →
            IfOk result (PutUnder S.contents self.old.script self.new.script (next_record s)
            (spelled_lines (record_lines (texts attributes.now) (next_record s) es))) }
        ensures part { (s : Tables) (es : List Expression) → AreTables self.old.names s →
            AreSpelled es sorts.now →
            OnErr result (AppendsPart (S.contents self.old.script) (S.contents self.new.script)
            (spelled_lines (record_lines (texts attributes.now) (next_record s) es))) }
        ensures alone { PutsAlone S.faults S.place None self.old self.new result }
    {
        let name = self.names.next_record()?;
        let datatype = record_datatype(self.alloc, attributes, sorts, name.as_str())?;
        datatype.put(&mut self.script, name.as_str())?;
        Ok(name)
    }

    /// The same by pairs of attributes and sorts, which are put as they stand.
    pub(crate) fn put_record_type_of_pairs(
        &mut self,
        rty: &[(Attr, Text)],
    ) -> Result<Text, WriteError>
        ensures lines { (s : Tables) → AreTables self.old.names s →
            IfOk result (PutUnder S.contents self.old.script self.new.script (next_record s)
            (spelled_lines
            (record_lines (attributes_in rty.now) (next_record s) (sorts_given rty.now)))) }
        ensures alone { PutsAlone S.faults S.place None self.old self.new result }
    {
        let (attributes, sorts) = attributes_and_sorts(self.alloc, rty)?;
        self.put_record_type(attributes.as_slice(), sorts.as_slice())
    }

    /// Puts the declaration of a variable by its sort, behind its id in a comment, under the name that is next.
    pub(crate) fn put_var(&mut self, v: &TermVar, ty_enc: &str) -> Result<Text, WriteError>
        ensures lines { (s : Tables) → AreTables self.old.names s →
            IfOk result (PutUnder S.contents self.old.script self.new.script (next_term s)
            (comment_text (quoted_id (rc_str_bytes v.now.id))
            ++ declare_const_text (next_term s) ty_enc.now)) }
        ensures alone { PutsAlone S.faults S.place None self.old self.new result }
    {
        let comment = quote_id(self.alloc, v.id.as_str())?;
        self.put_entry(ty_enc, &Entry::Constant(comment))
    }

    /// Puts the definition of a term by its sort and its body under the name that is next.
    pub(crate) fn put_term(&mut self, ty_enc: &str, t_enc: &str) -> Result<Text, WriteError>
        ensures lines { (s : Tables) → AreTables self.old.names s →
            IfOk result (PutUnder S.contents self.old.script self.new.script (next_term s)
            (define_fun_text (next_term s) [] ty_enc.now t_enc.now)) }
        ensures alone { PutsAlone S.faults S.place None self.old self.new result }
    {
        let name = self.names.next_term()?;
        self.script.define_fun(name.as_str(), &[], ty_enc, t_enc)?;
        Ok(name)
    }

    /// Puts the definition of a set by its sort and its elements under the name that is next.
    pub(crate) fn put_set(&mut self, ty_enc: &str, t_encs: &[Text]) -> Result<Text, WriteError>
        ensures lines { (s : Tables) → AreTables self.old.names s →
            IfOk result (PutUnder S.contents self.old.script self.new.script (next_term s)
            (define_fun_text (next_term s) [] ty_enc.now
            (set_body_text ty_enc.now (texts t_encs.now)))) }
        ensures alone { PutsAlone S.faults S.place None self.old self.new result }
    {
        let elements = t_encs.to_vec(self.alloc)?;
        let body = set_text(self.alloc, ty_enc, elements)?;
        self.put_term(ty_enc, body.as_str())
    }

    /// Puts the definition of a record by its sort and its fields under the name that is next.
    pub(crate) fn put_record(&mut self, ty_enc: &str, t_encs: &[Text]) -> Result<Text, WriteError>
        ensures lines { (s : Tables) → AreTables self.old.names s →
            IfOk result (PutUnder S.contents self.old.script self.new.script (next_term s)
            (define_fun_text (next_term s) [] ty_enc.now
            (record_body_text ty_enc.now (texts t_encs.now)))) }
        ensures alone { PutsAlone S.faults S.place None self.old self.new result }
    {
        let body = record_body(self.alloc, ty_enc, t_encs)?;
        self.put_term(ty_enc, body.as_str())
    }

    /// Puts the definition of an entity by its sort under the name that is next. An entity of an enum type has a name and no
    /// line.
    pub(crate) fn put_entity(
        &mut self,
        ty_enc: &str,
        entity: &EntityUID,
    ) -> Result<Text, WriteError>
        ensures lines { (s : Tables) → AreTables self.old.names s → let members = members_of
            (enums_under self.old.names) (bytes_of_type entity.now.ety) in
            IfOk result (PutUnder S.contents self.old.script self.new.script
            (name_of_entity members (bytes_of_id entity.now.id) ty_enc.now s)
            (line_of_entity members (bytes_of_id entity.now.id) ty_enc.now s)) }
        ensures alone { PutsAlone S.faults S.place
            (fault_of_entity (enums_under self.old.names) entity.now) self.old self.new result }
    {
        let members = self.names.enums().members_of(&entity.ety);
        let entry = entity_entry(self.alloc, members, entity, ty_enc)?;
        self.put_entry(ty_enc, &entry)
    }

    /// Puts the lines of an entry under its name: its own, or the one that is next.
    pub(crate) fn put_entry(&mut self, sort: &str, entry: &Entry) -> Result<Text, WriteError>
        ensures lines { (s : Tables) (p : PlainEntry) → AreTables self.old.names s →
            SaysEntry p entry.now →
            IfOk result (PutUnder S.contents self.old.script self.new.script (entry_name p s)
            (entry_bytes entry.now (entry_name p s) sort.now)) }
        ensures part { (s : Tables) (p : PlainEntry) → AreTables self.old.names s →
            SaysEntry p entry.now →
            OnErr result (AppendsPart (S.contents self.old.script) (S.contents self.new.script)
            (entry_bytes entry.now (entry_name p s) sort.now)) }
        ensures alone { PutsAlone S.faults S.place None self.old self.new result }
    {
        let name = self.name_for(entry)?;
        entry.put(&mut self.script, name.as_str(), sort)?;
        Ok(name)
    }

    /// The name of an entry.
    fn name_for(&self, entry: &Entry) -> Result<Text, AllocError>
        ensures { (s : Tables) (p : PlainEntry) → AreTables self.now.names s →
            SaysEntry p entry.now → GivesText result (entry_name p s) }
    {
        match entry {
            Entry::Constant(_) | Entry::Body(_) => self.names.next_term(),
            Entry::Name(name) => name.clone(),
        }
    }
}
