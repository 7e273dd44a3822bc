// The lines of nodes, each behind those of its parts.
ghost use Rattle.std.specs.Prelude.{ℕ, List, [], ◌≡◌, ◌<◌, ◌≤◌, ◌+◌, Bool, false, None, OnOk, Some};
ghost use Rattle.std.specs.Prelude.{IfOk, IsTrue, length, map, suc};
ghost use Rattle.std.specs.List.{AllByRecursion};
ghost use Rattle.std.specs.Rc.{rc_str_bytes};
ghost use Rattle.law_terms.specs.Meanings.{all_found, meanings};
ghost use Rattle.law_texts.specs.SharedTexts.{texts};
ghost use Rattle.law_terms.specs.Nodes.{EntityLabel, ExtensionLabel, FunctionMeaning, Meaning};
ghost use Rattle.law_terms.specs.Nodes.{RecordLabel, TermMeaning, TypeMeaning};
ghost use Rattle.smt_nodes.specs.Attributes.{attributes_of};
ghost use Rattle.law_terms.specs.Parts.{label_in, parts_in};
ghost use Rattle.smt_nodes.specs.Interned.{IsMeant, IsNumber, meaning_in, nodes_of};
ghost use Rattle.smt_nodes.specs.View.{place_of, places_of, plain_label};
ghost use Rattle.law_texts.specs.Reading.{Expression};
ghost use Rattle.smt_script.specs.Sink.{Puts};
ghost use Rattle.smt_term.specs.Entities.{bytes_of_type};
ghost use Rattle.smt_term.specs.ExtensionView.{plain_kind};
ghost use Rattle.law_terms.specs.Faults.{entity_type_fault};
ghost use Rattle.law_terms.specs.Plain.{AttributeTypes, EntityType as EntityTypeOf, ExtensionType};
ghost use Rattle.law_terms.specs.Plain.{PlainFunction, PlainTerm, RecordType};
ghost use Rattle.law_lines.specs.Line.{spelled_lines};
ghost use Rattle.law_lines.specs.Lines.{made_of, members_of};
ghost use Rattle.law_lines.specs.NameTables.{Tables};
ghost use Rattle.law_lines.specs.Spelling.{spelled};
ghost use Rattle.smt_spelling.specs.NodeLines.{encode_meaning, encode_meanings, has_entry};
ghost use Rattle.smt_spelling.specs.NodeLines.{meaning_fault, meanings_fault};
ghost use Rattle.smt_spelling.specs.NodeEntries.{declare_by, declare_function, enter_by};
ghost use Rattle.smt_spelling.specs.NodeEntries.{has_inline, heading, inline_by, inline_fault};
ghost use Rattle.smt_spelling.specs.NodeEntries.{own_lines, rendering_in, written_parts};
ghost use Rattle.smt_spelling.specs.Entries.{PlainEntry, SaysEntry};
ghost use Rattle.smt_encode.specs.Complete.{AreTypedMeanings};
ghost use Rattle.smt_spelling.specs.Whole.{is_typed, HasWrittenParts};
ghost use Rattle.smt_spelling.specs.LookUps.{selections, IsClosed};
ghost use Rattle.smt_spelling.specs.NodeTexts.{kept_now, text_at, IsNodeOf};
ghost use Rattle.smt_encode.specs.Refusals.{write_fault};
ghost use Rattle.smt_spelling.specs.TextFaults.{Finds};
ghost use Rattle.smt_spelling.specs.Texts.{kept_at};
ghost use Rattle.smt_spelling.specs.Renderings.{plain_rendering};

use crate::error::WriteError;
use crate::writer::Writer;
use smt_nodes::{AttrList, Label, Node, NodeId};
use smt_script::{Sink, SinkError, SmtLibScript};
use smt_spelling::{Entry, Rendering, Shape, Steps, entry_from, inline_text, rendering_of};
use smt_term::{EntityType, ExtType, Text};
use std::sync::ledger::Ledger;

/// Puts what stands before the lines of a node's parts: of a function its id in a comment, of another node nothing.
fn put_heading<S: Sink>(script: &mut S, label: &Label) -> Result<(), SinkError>
    ensures { Puts S.contents S.faults S.has_room S.place script.old script.new
        (spelled_lines (heading (plain_label label.now))) result }
{
    match label {
        Label::Fun(id) => script.comment(id.as_str()),
        _ => Ok(()),
    }
}

impl<S: Sink> Writer<'_, S> {
    ghost use Rattle.smt_spelling.specs.Names.{enums_under, nodes_under, texts_under, HasRoom};
    ghost use Rattle.smt_encode.specs.Steps.{look_ups_in, HasTables, Walks};
    ghost use Rattle.smt_encode.specs.Stopped.{WritesOrStops, WritesOwn};
    ghost use Rattle.smt_spelling.specs.Spelled.{AreSpelled, IsSpelled};

    /// The text of a node: the one that it has, or else a new one, behind the lines that it needs.
    #[cycle(walk)]
    pub(crate) fn encode_node<L: Ledger>(
        &mut self,
        id: NodeId,
        steps: &mut Steps<L>,
    ) -> Result<Text, WriteError>
        requires meant { IsMeant (nodes_under self.old.names) id }
        requires room { HasRoom self.old.names }
        ensures lines { (m : Meaning) → meaning_in (nodes_under self.old.names) id ≡ Some m →
            WritesOrStops S.contents (enums_under self.old.names) (IsTrue (is_typed m)) self.old
            self.new (encode_meaning (enums_under self.old.names) m) IsSpelled result }
        ensures fault { (m : Meaning) → meaning_in (nodes_under self.old.names) id ≡ Some m →
            Finds write_fault (meaning_fault (enums_under self.old.names) m) result }
        ensures walks { Walks S.faults S.place (WriteError.Sink SinkError.Fault) (suc (place_of id))
            self.old self.new result }
        ensures kept { IfOk result
            (λ text. text_at (texts_under self.new.names) id ≡ Some (rc_str_bytes text)) }
        ensures steps { (has : ℕ → Bool) → IsClosed (nodes_of (nodes_under self.old.names)) has →
            IsTrue (has (place_of id)) →
            OnOk result
            (steps.new + look_ups_in has self.new ≤ suc steps.old + look_ups_in has self.old) }
    {
        match self.names.text(id, steps) {
            Some(text) => Ok(text.clone()?),
            None => self.encode_new(id, steps),
        }
    }

    /// Gives a node its text, by its lines: its heading, those of its parts, the type first, and then its own.
    #[cycle(walk)]
    fn encode_new<L: Ledger>(
        &mut self,
        id: NodeId,
        steps: &mut Steps<L>,
    ) -> Result<Text, WriteError>
        requires meant { IsMeant (nodes_under self.old.names) id }
        requires room { HasRoom self.old.names }
        requires unkept { text_at (texts_under self.old.names) id ≡ None }
        ensures lines { (m : Meaning) → meaning_in (nodes_under self.old.names) id ≡ Some m →
            WritesOrStops S.contents (enums_under self.old.names) (IsTrue (is_typed m)) self.old
            self.new (encode_meaning (enums_under self.old.names) m) IsSpelled result }
        ensures fault { (m : Meaning) → meaning_in (nodes_under self.old.names) id ≡ Some m →
            Finds write_fault (meaning_fault (enums_under self.old.names) m) result }
        ensures walks { Walks S.faults S.place (WriteError.Sink SinkError.Fault) (suc (place_of id))
            self.old self.new result }
        ensures kept { IfOk result
            (λ text. text_at (texts_under self.new.names) id ≡ Some (rc_str_bytes text)) }
        ensures steps { (has : ℕ → Bool) → IsClosed (nodes_of (nodes_under self.old.names)) has →
            IsTrue (has (place_of id)) →
            OnOk result
            (steps.new + look_ups_in has self.new ≤ steps.old + look_ups_in has self.old) }
    {
        let node = self.names.node(id)?;
        let rendering = rendering_of(self.names.nodes(), &node);
        let parts = rendering.written(self.alloc, node.parts.items())?;
        put_heading(&mut self.script, &node.label)?;
        let texts = self.encode_all(parts.items(), id.place(), steps)?;
        self.finish(id, &node, rendering, texts, steps)
    }

    /// The texts of nodes in order, all of which stand before a place.
    #[cycle(walk)]
    pub(crate) fn encode_all<L: Ledger>(
        &mut self,
        ids: &[NodeId],
        before: usize,
        steps: &mut Steps<L>,
    ) -> Result<Vec<Text>, WriteError>
        requires earlier { AllByRecursion (λ place. place < before) (places_of ids.now) }
        requires meant { (ms : List Meaning)
            × (all_found (meanings (nodes_of (nodes_under self.old.names))) (places_of ids.now)
            ≡ Some ms) }
        requires room { HasRoom self.old.names }
        ensures lines { (ms : List Meaning) →
            all_found (meanings (nodes_of (nodes_under self.old.names))) (places_of ids.now) ≡ Some
            ms →
            WritesOrStops S.contents (enums_under self.old.names) (AreTypedMeanings ms) self.old
            self.new (encode_meanings (enums_under self.old.names) ms)
            (λ es texts. AreSpelled es texts.items) result }
        ensures fault { (ms : List Meaning) →
            all_found (meanings (nodes_of (nodes_under self.old.names))) (places_of ids.now) ≡ Some
            ms → Finds write_fault (meanings_fault (enums_under self.old.names) ms) result }
        ensures walks { Walks S.faults S.place (WriteError.Sink SinkError.Fault) before self.old
            self.new result }
        ensures count { IfOk result (λ texts. length texts.items ≡ length ids.now) }
        ensures kept { IfOk result (λ texts.
            map (text_at (texts_under self.new.names)) ids.now
            ≡ map (λ text. Some (rc_str_bytes text)) texts.items) }
        ensures steps { (has : ℕ → Bool) → IsClosed (nodes_of (nodes_under self.old.names)) has →
            AllByRecursion (λ place. IsTrue (has place)) (places_of ids.now) →
            OnOk result (steps.new + look_ups_in has self.new
            ≤ steps.old + length ids.now + look_ups_in has self.old) }
    {
        let mut texts = Vec::with_capacity(self.alloc, ids.len())?;
        for id in ids {
            texts.push(self.encode_node(*id, steps)?)?;
        }
        Ok(texts)
    }

    /// Gives a node its text behind the lines of its parts, by their texts.
    fn finish<L: Ledger>(
        &mut self,
        id: NodeId,
        node: &Node,
        rendering: Rendering,
        texts: Vec<Text>,
        steps: &mut Steps<L>,
    ) -> Result<Text, WriteError>
        requires meant { IsMeant (nodes_under self.old.names) id }
        requires room { HasRoom self.old.names }
        requires unkept { text_at (texts_under self.old.names) id ≡ None }
        requires parts { HasWrittenParts (nodes_under self.old.names)
            (kept_now (texts_under self.old.names)).texts id }
        requires is_node { IsNodeOf (nodes_under self.old.names) id node.now }
        requires rendered { (m : Meaning) → meaning_in (nodes_under self.old.names) id ≡ Some m →
            plain_rendering rendering ≡ rendering_in m }
        requires count { (m : Meaning) → meaning_in (nodes_under self.old.names) id ≡ Some m →
            length texts.items ≡ length (written_parts (rendering_in m) (parts_in m)) }
        requires sound { (m : Meaning) → meaning_in (nodes_under self.old.names) id ≡ Some m →
            meanings_fault (enums_under self.old.names)
            (written_parts (rendering_in m) (parts_in m)) ≡ None }
        requires written { (m : Meaning) (s : Tables) →
            meaning_in (nodes_under self.old.names) id ≡ Some m → HasTables self.old s →
            (es : List Expression) × AreSpelled es texts.items
            × (encode_meanings (enums_under self.old.names)
            (written_parts (rendering_in m) (parts_in m)) s ≡ made_of es s) }
        ensures lines { (m : Meaning) (es : List Expression) (s : Tables) →
            meaning_in (nodes_under self.old.names) id ≡ Some m → AreSpelled es texts.items →
            HasTables self.old s →
            WritesOwn S.contents (meaning_fault (enums_under self.old.names) m) self.old self.new
            (own_lines (enums_under self.old.names) m es s) IsSpelled result }
        ensures fault { (m : Meaning) → meaning_in (nodes_under self.old.names) id ≡ Some m →
            Finds write_fault (meaning_fault (enums_under self.old.names) m) result }
        ensures walks { Walks S.faults S.place (WriteError.Sink SinkError.Fault) (suc (place_of id))
            self.old self.new result }
        ensures kept { IfOk result
            (λ text. text_at (texts_under self.new.names) id ≡ Some (rc_str_bytes text)) }
        ensures only { (place : ℕ) → ¬ (place ≡ place_of id) →
            kept_at (texts_under self.new.names).texts.items place
            ≡ kept_at (texts_under self.old.names).texts.items place }
        ensures steps { steps.new ≤ steps.old + selections (plain_label node.now.label) }
    {
        match inline_text(self.alloc, &node.label, texts.as_slice())? {
            Some(text) => {
                self.names.keep(id, text.clone()?);
                Ok(text)
            }
            None => self.name(id, node, rendering, texts, steps),
        }
    }

    /// Gives a node that has no text of its own its name, behind the lines of its parts, by their texts.
    fn name<L: Ledger>(
        &mut self,
        id: NodeId,
        node: &Node,
        rendering: Rendering,
        mut texts: Vec<Text>,
        steps: &mut Steps<L>,
    ) -> Result<Text, WriteError>
        requires meant { IsMeant (nodes_under self.old.names) id }
        requires room { HasRoom self.old.names }
        requires unkept { text_at (texts_under self.old.names) id ≡ None }
        requires parts { HasWrittenParts (nodes_under self.old.names)
            (kept_now (texts_under self.old.names)).texts id }
        requires is_node { IsNodeOf (nodes_under self.old.names) id node.now }
        requires rendered { (m : Meaning) → meaning_in (nodes_under self.old.names) id ≡ Some m →
            plain_rendering rendering ≡ rendering_in m }
        requires count { (m : Meaning) → meaning_in (nodes_under self.old.names) id ≡ Some m →
            length texts.items ≡ length (written_parts (rendering_in m) (parts_in m)) }
        requires sound { (m : Meaning) → meaning_in (nodes_under self.old.names) id ≡ Some m →
            meanings_fault (enums_under self.old.names)
            (written_parts (rendering_in m) (parts_in m)) ≡ None }
        requires plain { has_inline (plain_label node.now.label) (length texts.items) ≡ false }
        requires faultless { inline_fault (plain_label node.now.label) ≡ None }
        ensures lines { (m : Meaning) (es : List Expression) (s : Tables) →
            meaning_in (nodes_under self.old.names) id ≡ Some m → AreSpelled es texts.items →
            HasTables self.old s → inline_by (label_in m) es ≡ None →
            WritesOwn S.contents (meaning_fault (enums_under self.old.names) m) self.old self.new
            (own_lines (enums_under self.old.names) m es s) IsSpelled result }
        ensures fault { (m : Meaning) → meaning_in (nodes_under self.old.names) id ≡ Some m →
            Finds write_fault (meaning_fault (enums_under self.old.names) m) result }
        ensures walks { Walks S.faults S.place (WriteError.Sink SinkError.Fault) (suc (place_of id))
            self.old self.new result }
        ensures kept { IfOk result
            (λ text. text_at (texts_under self.new.names) id ≡ Some (rc_str_bytes text)) }
        ensures only { (place : ℕ) → ¬ (place ≡ place_of id) →
            kept_at (texts_under self.new.names).texts.items place
            ≡ kept_at (texts_under self.old.names).texts.items place }
        ensures steps { steps.new ≤ steps.old + selections (plain_label node.now.label) }
    {
        match &node.label {
            Label::TEntity(ety) => self.declare(id, ety),
            Label::TExt(xty) => self.declare_extension(id, *xty),
            Label::TRecord(names) => self.declare_record(id, names, texts.as_slice()),
            Label::Fun(_) => self.declare_function(id, texts.as_slice()),
            label => {
                let sort = texts.remove(0);
                let selector = self.names.selector_of(node, steps)?;
                let shape = Shape {
                    label,
                    rendering,
                    selector,
                };
                let enums = self.names.enums();
                let entry = entry_from(self.alloc, enums, shape, sort.as_str(), texts)?;
                self.enter(id, sort.as_str(), &entry)
            }
        }
    }

    /// Puts the declaration of a function that has no name yet, by the sorts of its argument and of its values, and enters it.
    fn declare_function(&mut self, id: NodeId, sorts: &[Text]) -> Result<Text, WriteError>
        requires meant { IsMeant (nodes_under self.old.names) id }
        requires room { HasRoom self.old.names }
        requires unkept { text_at (texts_under self.old.names) id ≡ None }
        requires parts { HasWrittenParts (nodes_under self.old.names)
            (kept_now (texts_under self.old.names)).texts id }
        requires two { length sorts.now ≡ 2 }
        requires sound { (m : Meaning) → meaning_in (nodes_under self.old.names) id ≡ Some m →
            meaning_fault (enums_under self.old.names) m ≡ None }
        ensures lines { (f : PlainFunction) (es : List Expression) (s : Tables) →
            meaning_in (nodes_under self.old.names) id ≡ Some (FunctionMeaning f) →
            AreSpelled es sorts.now → HasTables self.old s →
            WritesOwn S.contents None self.old self.new (declare_function f es s) IsSpelled result }
        ensures fault { Finds write_fault None result }
        ensures walks { Walks S.faults S.place (WriteError.Sink SinkError.Fault) (suc (place_of id))
            self.old self.new result }
        ensures kept { IfOk result
            (λ text. text_at (texts_under self.new.names) id ≡ Some (rc_str_bytes text)) }
        ensures only { (place : ℕ) → ¬ (place ≡ place_of id) →
            kept_at (texts_under self.new.names).texts.items place
            ≡ kept_at (texts_under self.old.names).texts.items place }
    {
        let name = self.names.next_function()?;
        self.script
            .declare_fun(name.as_str(), &sorts[..1], sorts[1].as_str())?;
        self.names.enter_function(id, name.clone()?);
        Ok(name)
    }

    /// Puts the lines of an entity type that has no name yet, and enters it.
    fn declare(&mut self, id: NodeId, ety: &EntityType) -> Result<Text, WriteError>
        requires meant { meaning_in (nodes_under self.old.names) id
            ≡ Some (TypeMeaning (EntityTypeOf (bytes_of_type ety.now))) }
        requires room { HasRoom self.old.names }
        requires unkept { text_at (texts_under self.old.names) id ≡ None }
        requires parts { HasWrittenParts (nodes_under self.old.names)
            (kept_now (texts_under self.old.names)).texts id }
        ensures lines { (s : Tables) → HasTables self.old s →
            WritesOwn S.contents
            (entity_type_fault (bytes_of_type ety.now)
            (members_of (enums_under self.old.names) (bytes_of_type ety.now)))
            self.old self.new
            (declare_by (enums_under self.old.names) (EntityLabel (bytes_of_type ety.now))
            (EntityTypeOf (bytes_of_type ety.now)) [] s)
            IsSpelled result }
        ensures fault { Finds write_fault
            (entity_type_fault (bytes_of_type ety.now)
            (members_of (enums_under self.old.names) (bytes_of_type ety.now)))
            result }
        ensures walks { Walks S.faults S.place (WriteError.Sink SinkError.Fault) (suc (place_of id))
            self.old self.new result }
        ensures kept { IfOk result
            (λ text. text_at (texts_under self.new.names) id ≡ Some (rc_str_bytes text)) }
        ensures only { (place : ℕ) → ¬ (place ≡ place_of id) →
            kept_at (texts_under self.new.names).texts.items place
            ≡ kept_at (texts_under self.old.names).texts.items place }
    {
        let name = self.put_entity_type(ety)?;
        self.names.enter_type(id, name.clone()?);
        Ok(name)
    }

    /// Puts the datatype of an extension type that has no name yet, and enters it.
    fn declare_extension(&mut self, id: NodeId, xty: ExtType) -> Result<Text, WriteError>
        requires meant { meaning_in (nodes_under self.old.names) id
            ≡ Some (TypeMeaning (ExtensionType (plain_kind xty))) }
        requires room { HasRoom self.old.names }
        requires unkept { text_at (texts_under self.old.names) id ≡ None }
        requires parts { HasWrittenParts (nodes_under self.old.names)
            (kept_now (texts_under self.old.names)).texts id }
        ensures lines { (s : Tables) → HasTables self.old s →
            WritesOwn S.contents None self.old self.new
            (declare_by (enums_under self.old.names) (ExtensionLabel (plain_kind xty))
            (ExtensionType (plain_kind xty)) [] s)
            IsSpelled result }
        ensures fault { Finds write_fault None result }
        ensures walks { Walks S.faults S.place (WriteError.Sink SinkError.Fault) (suc (place_of id))
            self.old self.new result }
        ensures kept { IfOk result
            (λ text. text_at (texts_under self.new.names) id ≡ Some (rc_str_bytes text)) }
        ensures only { (place : ℕ) → ¬ (place ≡ place_of id) →
            kept_at (texts_under self.new.names).texts.items place
            ≡ kept_at (texts_under self.old.names).texts.items place }
    {
        let name = self.put_ext_type(xty)?;
        self.names.enter_type(id, name.clone()?);
        Ok(name)
    }

    /// Puts the lines of a record type that has no name yet, by the sorts of its attributes, and enters it.
    fn declare_record(
        &mut self,
        id: NodeId,
        names: &AttrList,
        sorts: &[Text],
    ) -> Result<Text, WriteError>
        requires meant { IsMeant (nodes_under self.old.names) id }
        requires room { HasRoom self.old.names }
        requires unkept { text_at (texts_under self.old.names) id ≡ None }
        requires parts { HasWrittenParts (nodes_under self.old.names)
            (kept_now (texts_under self.old.names)).texts id }
        requires sound { (m : Meaning) → meaning_in (nodes_under self.old.names) id ≡ Some m →
            meaning_fault (enums_under self.old.names) m ≡ None }
        ensures lines { (x : AttributeTypes) (es : List Expression) (s : Tables) →
            meaning_in (nodes_under self.old.names) id ≡ Some (TypeMeaning (RecordType x)) →
            AreSpelled es sorts.now → HasTables self.old s →
            WritesOwn S.contents None self.old self.new
            (declare_by (enums_under self.old.names) (RecordLabel (texts (attributes_of names.now)))
            (RecordType x) es s)
            IsSpelled result }
        ensures fault { Finds write_fault None result }
        ensures walks { Walks S.faults S.place (WriteError.Sink SinkError.Fault) (suc (place_of id))
            self.old self.new result }
        ensures kept { IfOk result
            (λ text. text_at (texts_under self.new.names) id ≡ Some (rc_str_bytes text)) }
        ensures only { (place : ℕ) → ¬ (place ≡ place_of id) →
            kept_at (texts_under self.new.names).texts.items place
            ≡ kept_at (texts_under self.old.names).texts.items place }
    {
        let name = self.put_record_type(names.items(), sorts)?;
        self.names.enter_type(id, name.clone()?);
        Ok(name)
    }

    /// Puts the lines of a term that has no name yet, and enters it.
    fn enter(&mut self, id: NodeId, sort: &str, entry: &Entry) -> Result<Text, WriteError>
        requires meant { IsMeant (nodes_under self.old.names) id }
        requires room { HasRoom self.old.names }
        requires unkept { text_at (texts_under self.old.names) id ≡ None }
        requires parts { HasWrittenParts (nodes_under self.old.names)
            (kept_now (texts_under self.old.names)).texts id }
        requires sound { (m : Meaning) → meaning_in (nodes_under self.old.names) id ≡ Some m →
            meaning_fault (enums_under self.old.names) m ≡ None }
        ensures lines { (t : PlainTerm) (s : Tables) (e : Expression) (p : PlainEntry) →
            IsNumber (nodes_under self.old.names) id t → IsTrue (has_entry (TermMeaning t)) →
            HasTables self.old s → sort.now ≡ spelled e → SaysEntry p entry.now →
            WritesOwn S.contents None self.old self.new (enter_by p t e s) IsSpelled result }
        ensures fault { Finds write_fault None result }
        ensures walks { Walks S.faults S.place (WriteError.Sink SinkError.Fault) (suc (place_of id))
            self.old self.new result }
        ensures kept { IfOk result
            (λ text. text_at (texts_under self.new.names) id ≡ Some (rc_str_bytes text)) }
        ensures only { (place : ℕ) → ¬ (place ≡ place_of id) →
            kept_at (texts_under self.new.names).texts.items place
            ≡ kept_at (texts_under self.old.names).texts.items place }
    {
        let name = self.put_entry(sort, entry)?;
        self.names.enter_term(id, name.clone()?);
        Ok(name)
    }
}
