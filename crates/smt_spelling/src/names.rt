// The nodes of terms, and the texts that stand for them.
#![tactic(auto, using(smt_term::specs::View::views))]

ghost use Rattle.std.specs.Prelude.{◌≡◌, ◌<◌, ◌++◌, ◌∷◌, ◌+◌, List, [], false, IfOk, IsTrue, None};
ghost use Rattle.std.specs.Prelude.{OnErr, OnOk, Some, length, map, not};
ghost use Rattle.std.specs.Prelude.{option_map};
ghost use Rattle.std.specs.Rc.{rc_str_bytes};
ghost use Rattle.law_terms.specs.Plain.{PlainFunction, PlainTerm, PlainType};
ghost use Rattle.law_terms.specs.Meanings.{all_found, meanings};
ghost use Rattle.law_terms.specs.Nodes.{FunctionMeaning, Meaning, TermMeaning, TypeMeaning};
ghost use Rattle.smt_nodes.specs.Interned.{IsMeant, IsNumber, KeepsMeanings, meaning_in, nodes_of};
ghost use Rattle.smt_nodes.specs.Subject.{meaning_of};
ghost use Rattle.smt_nodes.specs.View.{place_of, places_of};
ghost use Rattle.smt_term.specs.Enums.{enums_of};
ghost use Rattle.smt_term.specs.View.{plain_term, plain_terms, plain_type};
ghost use Rattle.law_lines.specs.Lines.{next_entity, next_function, next_record, next_term};
ghost use Rattle.law_lines.specs.NameTables.{Tables, no_names};
ghost use Rattle.smt_spelling.specs.NodeLines.{has_entry, meaning_fault, with_name};
ghost use Rattle.smt_spelling.specs.NodeTexts.{kept_below, kept_now, text_at, AreSound, HasName};
ghost use Rattle.smt_spelling.specs.NodeTexts.{HasNoTexts, IsNodeOf, IsText, Kept};
ghost use Rattle.smt_spelling.specs.NodeTexts.{KeepsRoom};
ghost use Rattle.smt_spelling.specs.Texts.{IsKept};
ghost use Rattle.smt_spelling.specs.Whole.{AreWhole, HasWrittenParts};
ghost use Rattle.law_texts.specs.SharedTexts.{GivesText};

use crate::node_names::NodeNames;
use crate::spell::{entity_name, function_name, record_name, term_name};
use crate::steps::Steps;
use smt_nodes::{Interner, Node, NodeId, Subject};
use smt_term::{EnumTable, Term, TermError, TermPrim, TermType, Text};
use std::alloc::{AllocError, Global};
use std::sync::ledger::{Blank, Ledger};

/// Whether a subject has a text of its own, which stands wherever it is used, so that it gets no name.
fn is_inline(subject: Subject<'_>) -> bool
    ensures { result ≡ not (has_entry (meaning_of subject.entry)) }
{
    match subject {
        Subject::Term(term) => is_inline_term(term),
        Subject::Type(ty) => is_inline_type(ty),
        Subject::Function(_) => false,
    }
}

/// Whether a type has a text of its own.
fn is_inline_type(ty: &TermType) -> bool
    ensures { result ≡ not (has_entry (TypeMeaning (plain_type ty.now))) }
{
    match ty {
        TermType::Option { .. }
        | TermType::Bitvec { .. }
        | TermType::Bool
        | TermType::String
        | TermType::Set { .. } => true,
        TermType::Entity { .. } | TermType::Ext { .. } | TermType::Record { .. } => false,
    }
}

/// Whether a term has a text of its own.
fn is_inline_term(term: &Term) -> bool
    ensures { result ≡ not (has_entry (TermMeaning (plain_term term.now))) }
{
    match term {
        Term::Prim(literal) => match literal {
            TermPrim::Bitvec(_) | TermPrim::Bool(_) | TermPrim::String(_) => true,
            TermPrim::Entity(_) | TermPrim::Ext(_) => false,
        },
        Term::App { .. }
        | Term::None(_)
        | Term::Record(_)
        | Term::Set { .. }
        | Term::Some(_)
        | Term::Var(_) => false,
    }
}

/// The nodes that stand for terms, and the text of each node that was written, over the enum types of the terms.
///
/// What has a text has no fault, so that a node whose text is found needs no second look; and where it is typed, its parts have
/// texts too.
pub struct Names<'a> {
    pub(crate) alloc: Global,
    enums: &'a EnumTable,
    nodes: Interner,
    pub(crate) texts: NodeNames,
    ghost sound: { AreSound (enums_of enums.now) nodes texts },
    ghost whole: { ∥ AreWhole nodes texts ∥₁ },
}

// By hand, since a derived one is written out in each function that lets names go.
impl Drop for Names<'_> {
    fn drop(self) {
        let Names {
            alloc: _,
            enums: _,
            nodes: _,
            texts: _,
        } = self;
    }
}

impl<'a> Names<'a> {
    ghost use Rattle.smt_spelling.specs.Names.{enums_under, levels_under, nodes_under, texts_under};
    ghost use Rattle.smt_spelling.specs.Names.{AreTables, KeepLevels, KeepTables};
    ghost use Rattle.smt_spelling.specs.Names.{HasRoom, StandsOn};

    /// There are no names yet, for these nodes and enum types, and no push is open. It takes no memory.
    pub fn new(alloc: Global, enums: &'a EnumTable, nodes: Interner) -> Names<'a>
        ensures none { KeepTables result no_names }
        ensures levels { KeepLevels result [] }
        ensures bottom { levels_under result ≡ 0 }
        ensures unwritten { HasNoTexts (texts_under result) }
        ensures enums { enums_under result ≡ enums_of enums.now }
        ensures nodes { nodes_under result ≡ nodes }
    {
        Names {
            alloc,
            enums,
            nodes,
            texts: NodeNames::new(alloc),
        }
    }

    /// These are the nodes. It takes no memory.
    pub fn nodes(&self) -> &Interner
        ensures { result.now ≡ nodes_under self.now }
    {
        &self.nodes
    }

    /// These are the texts of the nodes. It takes no memory.
    pub fn texts(&self) -> &NodeNames
        ensures { result.now ≡ texts_under self.now }
    {
        &self.texts
    }

    /// It counts the terms that have names. It takes no memory.
    pub fn term_count(&self) -> usize
        ensures { (s : Tables) → AreTables self.now s → result ≡ length s.terms }
    {
        self.texts.terms
    }

    /// It gives the text of a node, and None exactly where the node has none. It is one look-up, and takes no memory.
    pub fn text<L: Ledger>(&self, id: NodeId, steps: &mut Steps<L>) -> Option<&Text>
        ensures text { option_map (λ text. rc_str_bytes text.now) result
            ≡ text_at (texts_under self.now) id }
        ensures counted { steps.new ≡ steps.old + 1 }
    {
        self.texts.get(id, steps)
    }

    /// It gives the name of a term, a type or a function, and None exactly where that has none. Its one look-up is counted by a
    /// ledger of its own, which is opened from `blank`. It compares the subject with one node after the other, and takes no
    /// memory.
    pub fn name_by<L: Ledger>(&self, subject: Subject<'_>, blank: Blank) -> Option<&Text>
        requires name { blank.name ≡ L.name }
        requires parts { blank.parts ≡ L.parts }
        requires some { 0 < blank.parts }
        ensures { HasName (nodes_under self.now) (texts_under self.now) (meaning_of subject.entry)
            (option_map (λ name. rc_str_bytes name.now) result) }
    {
        // The text of such a subject is no name.
        if is_inline(subject) {
            return None;
        }
        let id = self.nodes.find_subject(subject)?;
        self.texts.get(id, &mut Steps::<L>::new(blank))
    }

    /// It gives the node of a number that stands for something, with its label and the numbers of its parts.
    ///
    /// # Errors
    ///
    /// Only that there is no memory.
    pub fn node(&self, id: NodeId) -> Result<Node, TermError>
        requires { IsMeant (nodes_under self.now) id }
        ensures { IfOk result (IsNodeOf (nodes_under self.now) id) }
    {
        match self.nodes.node(id) {
            Some(node) => node.share(),
            // A number that stands for something has a node.
            None => unreachable!(),
        }
    }

    /// It gives the numbers that stand for these terms, in order, and enters as nodes what has no number yet. The texts stay
    /// as they are, also where it fails.
    ///
    /// # Errors
    ///
    /// Only that there is no memory.
    pub fn intern(&mut self, terms: &[Term]) -> Result<Vec<NodeId>, TermError>
        ensures meanings { IfOk result (λ ids.
            all_found (meanings (nodes_of (nodes_under self.new))) (places_of ids.items)
            ≡ Some (map TermMeaning (plain_terms terms.now))) }
        ensures kept { KeepsMeanings (nodes_under self.old) (nodes_under self.new) }
        ensures texts { texts_under self.new ≡ texts_under self.old }
        ensures tables { (s : Tables) → KeepTables self.old s → KeepTables self.new s }
        ensures levels { (below : List Tables) → KeepLevels self.old below →
            KeepLevels self.new below }
        ensures below { kept_below (texts_under self.new) ≡ kept_below (texts_under self.old) }
        ensures enums { enums_under self.new ≡ enums_under self.old }
    {
        self.nodes.intern_terms(terms)
    }

    /// It gives the number that stands for a term, a type or a function, and enters as nodes what has no number yet.
    ///
    /// # Errors
    ///
    /// Only that there is no memory.
    pub fn intern_subject(&mut self, subject: Subject<'_>) -> Result<NodeId, TermError>
        ensures meaning { IfOk result
            (λ id. meaning_in (nodes_under self.new) id ≡ Some (meaning_of subject.entry)) }
        ensures kept { KeepsMeanings (nodes_under self.old) (nodes_under self.new) }
        ensures tables { (s : Tables) → KeepTables self.old s → KeepTables self.new s }
        ensures levels { (below : List Tables) → KeepLevels self.old below →
            KeepLevels self.new below }
        ensures below { kept_below (texts_under self.new) ≡ kept_below (texts_under self.old) }
        ensures enums { enums_under self.new ≡ enums_under self.old }
    {
        self.nodes.intern_subject(subject)
    }

    /// It makes room for a text of each node. The nodes and the texts stay as they are, also where it fails.
    ///
    /// # Errors
    ///
    /// Only that there is no memory.
    pub fn make_room(&mut self) -> Result<(), AllocError>
        ensures room { OnOk result (HasRoom self.new) }
        ensures nodes { nodes_under self.new ≡ nodes_under self.old }
        ensures texts { (id : NodeId) →
            text_at (texts_under self.new) id ≡ text_at (texts_under self.old) id }
        ensures tables { (s : Tables) → KeepTables self.old s → KeepTables self.new s }
        ensures levels { (below : List Tables) → KeepLevels self.old below →
            KeepLevels self.new below }
        ensures below { kept_below (texts_under self.new) ≡ kept_below (texts_under self.old) }
        ensures enums { enums_under self.new ≡ enums_under self.old }
    {
        self.texts.make_room(self.nodes.len())
    }

    /// It counts the pushes that are open. It takes no memory.
    pub fn level_count(&self) -> usize
        ensures { result ≡ levels_under self.now }
    {
        self.texts.level_count()
    }

    /// It opens a level, at whose end `pop_level` forgets what got a name or a text since. What is kept stays, also where it
    /// fails, and then no level is opened.
    ///
    /// # Errors
    ///
    /// Only that there is no memory.
    pub fn push_level(&mut self) -> Result<(), AllocError>
        ensures nodes { nodes_under self.new ≡ nodes_under self.old }
        ensures enums { enums_under self.new ≡ enums_under self.old }
        ensures now { kept_now (texts_under self.new) ≡ kept_now (texts_under self.old) }
        ensures room { KeepsRoom (texts_under self.old) (texts_under self.new) }
        ensures opened { OnOk result (kept_below (texts_under self.new)
            ≡ kept_now (texts_under self.old) ∷ kept_below (texts_under self.old)) }
        ensures unopened { OnErr result
            (kept_below (texts_under self.new) ≡ kept_below (texts_under self.old)) }
        ensures tables { (s : Tables) → KeepTables self.old s → KeepTables self.new s }
        ensures levels { (s : Tables) (below : List Tables) → KeepTables self.old s →
            KeepLevels self.old below → OnOk result (KeepLevels self.new (s ∷ below)) }
        ensures unlevelled { (below : List Tables) → KeepLevels self.old below →
            OnErr result (KeepLevels self.new below) }
        ensures count { OnOk result (levels_under self.new ≡ levels_under self.old + 1) }
    {
        self.texts.push_level()
    }

    /// It closes the level that was opened last: what got a name or a text since has none again, and the names are counted as
    /// they were then. The nodes stay, and so does the room for texts. It takes no memory, and time in what it forgets.
    pub fn pop_level(&mut self)
        requires { 0 < levels_under self.old }
        ensures nodes { nodes_under self.new ≡ nodes_under self.old }
        ensures enums { enums_under self.new ≡ enums_under self.old }
        ensures room { KeepsRoom (texts_under self.old) (texts_under self.new) }
        ensures levels { (k : Kept) (ks : List Kept) → kept_below (texts_under self.old) ≡ k ∷ ks →
            (kept_now (texts_under self.new) ≡ k) × (kept_below (texts_under self.new) ≡ ks) }
        ensures tables { (s : Tables) (below : List Tables) → KeepLevels self.old (s ∷ below) →
            KeepTables self.new s × KeepLevels self.new below }
        ensures count { levels_under self.old ≡ levels_under self.new + 1 }
    {
        self.texts.pop_level();
    }

    /// These are the enum types of the terms. It takes no memory.
    pub fn enums(&self) -> &EnumTable
        ensures { enums_of result.now ≡ enums_under self.now }
    {
        self.enums
    }

    /// It makes the name of the next term that gets one. It enters none.
    ///
    /// # Errors
    ///
    /// Only that there is no memory.
    pub fn next_term(&self) -> Result<Text, AllocError>
        ensures { (s : Tables) → AreTables self.now s → GivesText result (next_term s) }
    {
        term_name(self.alloc, self.texts.terms)
    }

    /// It makes the name of the next entity type that gets one. It enters none.
    ///
    /// # Errors
    ///
    /// Only that there is no memory.
    pub fn next_entity(&self) -> Result<Text, AllocError>
        ensures { (s : Tables) → AreTables self.now s → GivesText result (next_entity s) }
    {
        entity_name(self.alloc, self.texts.types)
    }

    /// It makes the name of the next record type that gets one. It enters none.
    ///
    /// # Errors
    ///
    /// Only that there is no memory.
    pub fn next_record(&self) -> Result<Text, AllocError>
        ensures { (s : Tables) → AreTables self.now s → GivesText result (next_record s) }
    {
        record_name(self.alloc, self.texts.types)
    }

    /// It makes the name of the next function that gets one. It enters none.
    ///
    /// # Errors
    ///
    /// Only that there is no memory.
    pub fn next_function(&self) -> Result<Text, AllocError>
        ensures { (s : Tables) → AreTables self.now s → GivesText result (next_function s) }
    {
        function_name(self.alloc, self.texts.functions)
    }

    /// It keeps the inline text of a node that has no text yet, and neither an entry nor a fault. There has to be room for it, and where
    /// what
    /// the number stands for is typed, its parts have to have texts.
    pub fn keep(&mut self, id: NodeId, text: Text)
        requires room { HasRoom self.old }
        requires unkept { text_at (texts_under self.old) id ≡ None }
        requires meant { IsMeant (nodes_under self.old) id }
        requires sound { (m : Meaning) → meaning_in (nodes_under self.old) id ≡ Some m →
            meaning_fault (enums_under self.old) m ≡ None }
        requires parts { HasWrittenParts (nodes_under self.old)
            (kept_now (texts_under self.old)).texts id }
        ensures tables { (s : Tables) (m : Meaning) → KeepTables self.old s →
            meaning_in (nodes_under self.old) id ≡ Some m → has_entry m ≡ false →
            IsText (enums_under self.old) s m (rc_str_bytes text) → KeepTables self.new s }
        ensures stands { StandsOn self.old self.new }
        ensures kept { IsKept (texts_under self.old).texts.items (texts_under self.new).texts.items
            (place_of id) (rc_str_bytes text) }
    {
        self.texts.keep(id, text);
    }

    /// It enters a term's name under its node, which has no text yet, and no fault. There has to be room for it, and where what
    /// the number stands for is typed, its parts have to have texts.
    pub fn enter_term(&mut self, id: NodeId, name: Text)
        requires room { HasRoom self.old }
        requires unkept { text_at (texts_under self.old) id ≡ None }
        requires meant { IsMeant (nodes_under self.old) id }
        requires sound { (m : Meaning) → meaning_in (nodes_under self.old) id ≡ Some m →
            meaning_fault (enums_under self.old) m ≡ None }
        requires parts { HasWrittenParts (nodes_under self.old)
            (kept_now (texts_under self.old)).texts id }
        ensures tables { (s : Tables) (t : PlainTerm) → KeepTables self.old s →
            IsNumber (nodes_under self.old) id t → IsTrue (has_entry (TermMeaning t)) →
            KeepTables self.new (with_name s (TermMeaning t) (rc_str_bytes name)) }
        ensures stands { StandsOn self.old self.new }
        ensures kept { IsKept (texts_under self.old).texts.items (texts_under self.new).texts.items
            (place_of id) (rc_str_bytes name) }
    {
        self.texts.enter_term(id, name);
    }

    /// It enters a type's name under its node, which has no text yet, and no fault. There has to be room for it, and where what
    /// the number stands for is typed, its parts have to have texts.
    pub fn enter_type(&mut self, id: NodeId, name: Text)
        requires room { HasRoom self.old }
        requires unkept { text_at (texts_under self.old) id ≡ None }
        requires meant { IsMeant (nodes_under self.old) id }
        requires sound { (m : Meaning) → meaning_in (nodes_under self.old) id ≡ Some m →
            meaning_fault (enums_under self.old) m ≡ None }
        requires parts { HasWrittenParts (nodes_under self.old)
            (kept_now (texts_under self.old)).texts id }
        ensures tables { (s : Tables) (t : PlainType) → KeepTables self.old s →
            meaning_in (nodes_under self.old) id ≡ Some (TypeMeaning t) →
            IsTrue (has_entry (TypeMeaning t)) →
            KeepTables self.new (with_name s (TypeMeaning t) (rc_str_bytes name)) }
        ensures stands { StandsOn self.old self.new }
        ensures kept { IsKept (texts_under self.old).texts.items (texts_under self.new).texts.items
            (place_of id) (rc_str_bytes name) }
    {
        self.texts.enter_type(id, name);
    }

    /// It enters a function's name under its node, which has no text yet, and no fault. There has to be room for it, and where what
    /// the number stands for is typed, its parts have to have texts.
    pub fn enter_function(&mut self, id: NodeId, name: Text)
        requires room { HasRoom self.old }
        requires unkept { text_at (texts_under self.old) id ≡ None }
        requires meant { IsMeant (nodes_under self.old) id }
        requires sound { (m : Meaning) → meaning_in (nodes_under self.old) id ≡ Some m →
            meaning_fault (enums_under self.old) m ≡ None }
        requires parts { HasWrittenParts (nodes_under self.old)
            (kept_now (texts_under self.old)).texts id }
        ensures tables { (s : Tables) (f : PlainFunction) → KeepTables self.old s →
            meaning_in (nodes_under self.old) id ≡ Some (FunctionMeaning f) →
            KeepTables self.new (with_name s (FunctionMeaning f) (rc_str_bytes name)) }
        ensures stands { StandsOn self.old self.new }
        ensures kept { IsKept (texts_under self.old).texts.items (texts_under self.new).texts.items
            (place_of id) (rc_str_bytes name) }
    {
        self.texts.enter_function(id, name);
    }
}
