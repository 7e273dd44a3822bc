// The texts of nodes, by their numbers.
#![tactic(auto, using(smt_term::specs::View::views))]

ghost use Rattle.std.specs.Prelude.{◌≡◌, ◌≤◌, ◌<◌, ◌+◌, ◌++◌, ◌∷◌, ℕ, List, [], None, OnErr, OnOk};
ghost use Rattle.std.specs.Prelude.{length, option_map, reverse};
ghost use Rattle.std.specs.Rc.{rc_str_bytes};
ghost use Rattle.std.specs.Vec.{vec_capacity};
ghost use Rattle.smt_spelling.specs.Marks.{AreMarks, AreMarks-prop};
ghost use Rattle.smt_spelling.specs.Texts.{kept_at, kept_count, kept_then, IsKept};
ghost use Rattle.smt_nodes.specs.View.{place_of, places_of};

use crate::steps::Steps;
use smt_nodes::NodeId;
use smt_term::Text;
use std::alloc::{AllocError, Global};
use std::sync::ledger::Ledger;

/// The moment of a push: how many nodes had texts, and how many names of each kind there were.
#[derive(Drop)]
struct Mark {
    kept: usize,
    terms: usize,
    types: usize,
    functions: usize,
}

/// For each node the text that stands for it: its name, or the inline text of what has none. It knows the order in which nodes got
/// their texts, so that those can be forgotten that came since a push.
#[derive(Drop)]
pub struct NodeNames {
    texts: Vec<Option<Text>>,
    order: Vec<NodeId>,
    marks: Vec<Mark>,
    pub(crate) terms: usize,
    pub(crate) types: usize,
    pub(crate) functions: usize,
    ghost named: { terms + types + functions ≤ length order.items },
    ghost ordered: { length order.items ≤ kept_count texts.items },
    ghost marked: { AreMarks (length order.items) (reverse marks.items) } by { AreMarks-prop (length order.items) (reverse marks.items) },
}

impl NodeNames {
    ghost use Rattle.smt_spelling.specs.NodeTexts.{kept_at_mark, kept_below, kept_now, text_at};
    ghost use Rattle.smt_spelling.specs.NodeTexts.{Kept, KeepsRoom};
    ghost use Rattle.smt_spelling.specs.declared.node_names.Mark.{Mark};

    /// No text yet, and no open push. Takes no memory.
    pub(crate) fn new(alloc: Global) -> NodeNames
        ensures texts { result.texts.items ≡ [] }
        ensures marks { result.marks.items ≡ [] }
        ensures terms { result.terms ≡ 0 }
        ensures types { result.types ≡ 0 }
        ensures functions { result.functions ≡ 0 }
    {
        NodeNames {
            texts: Vec::new(alloc),
            order: Vec::new(alloc),
            marks: Vec::new(alloc),
            terms: 0,
            types: 0,
            functions: 0,
        }
    }

    /// The text of a node, None exactly where none is kept. It is one look-up, and takes no memory.
    pub fn get<L: Ledger>(&self, id: NodeId, steps: &mut Steps<L>) -> Option<&Text>
        ensures text { option_map (λ text. rc_str_bytes text.now) result ≡ text_at self.now id }
        ensures counted { steps.new ≡ steps.old + 1 }
    {
        steps.tick();
        self.texts.get(id.place())?.as_ref()
    }

    /// How many pushes are open.
    pub(crate) fn level_count(&self) -> usize
        ensures { result ≡ length self.now.marks.items }
    {
        self.marks.len()
    }

    /// Makes room for the texts of as many nodes, at their places and in the order in which they are kept.
    pub(crate) fn make_room(&mut self, nodes: usize) -> Result<(), AllocError>
        requires { length self.old.texts.items ≤ nodes }
        ensures room { OnOk result (length self.new.texts.items ≡ nodes) }
        ensures order { OnOk result (nodes ≤ vec_capacity self.new.order) }
        ensures within { length self.new.texts.items ≤ nodes }
        ensures texts { (place : ℕ) →
            kept_at self.new.texts.items place ≡ kept_at self.old.texts.items place }
        ensures below { kept_below self.new ≡ kept_below self.old }
        ensures terms { self.new.terms ≡ self.old.terms }
        ensures types { self.new.types ≡ self.old.types }
        ensures functions { self.new.functions ≡ self.old.functions }
    {
        for _ in self.texts.len()..nodes {
            self.texts.push(None)?;
        }
        self.order.reserve(nodes - self.order.len())
    }

    /// Opens a level: the matching `pop_level` forgets what is kept from now on.
    pub(crate) fn push_level(&mut self) -> Result<(), AllocError>
        ensures now { kept_now self.new ≡ kept_now self.old }
        ensures room { KeepsRoom self.old self.new }
        ensures opened { OnOk result
            (kept_below self.new ≡ kept_now self.old ∷ kept_below self.old) }
        ensures unopened { OnErr result (kept_below self.new ≡ kept_below self.old) }
        ensures count { OnOk result
            (length self.new.marks.items ≡ length self.old.marks.items + 1) }
    {
        let mark = Mark {
            kept: self.order.len(),
            terms: self.terms,
            types: self.types,
            functions: self.functions,
        };
        self.marks.push(mark)?;
        Ok(())
    }

    /// Closes the last level: what was kept at its push is kept now. Takes no memory.
    pub(crate) fn pop_level(&mut self)
        requires { 0 < length self.old.marks.items }
        ensures levels { (k : Kept) (ks : List Kept) → kept_below self.old ≡ k ∷ ks →
            (kept_now self.new ≡ k) × (kept_below self.new ≡ ks) }
        ensures room { KeepsRoom self.old self.new }
        ensures count { length self.old.marks.items ≡ length self.new.marks.items + 1 }
    {
        let mark = self.marks.take_last();
        self.terms = mark.terms;
        self.types = mark.types;
        self.functions = mark.functions;
        self.cut(mark.kept);
    }

    /// Forgets the texts that were kept since as many nodes had texts. Takes no memory.
    fn cut(&mut self, kept: usize)
        requires kept { kept ≤ length self.old.order.items }
        requires named { self.old.terms + self.old.types + self.old.functions ≤ kept }
        requires marked { AreMarks kept (reverse self.old.marks.items) }
        ensures texts { (place : ℕ) →
            kept_at self.new.texts.items place
            ≡ kept_then (kept_at self.old.texts.items) (places_of self.old.order.items) kept place }
        ensures levels { (mark : Mark) → mark.kept ≤ kept →
            kept_at_mark self.new mark ≡ kept_at_mark self.old mark }
        ensures marks { self.new.marks.items ≡ self.old.marks.items }
        ensures room { KeepsRoom self.old self.new }
        ensures terms { self.new.terms ≡ self.old.terms }
        ensures types { self.new.types ≡ self.old.types }
        ensures functions { self.new.functions ≡ self.old.functions }
    {
        while self.order.len() > kept {
            let id = self.order.take_last();
            if let Some(slot) = self.texts.get_mut(id.place()) {
                *slot = None;
            }
        }
    }

    /// Keeps the text of a node that has none yet.
    pub(crate) fn keep(&mut self, id: NodeId, text: Text)
        requires room { place_of id < length self.old.texts.items }
        requires order { length self.old.texts.items ≤ vec_capacity self.old.order }
        requires unkept { text_at self.old id ≡ None }
        ensures kept { IsKept self.old.texts.items self.new.texts.items (place_of id)
            (rc_str_bytes text) }
        ensures order { self.new.order.items ≡ self.old.order.items ++ id ∷ [] }
        ensures levels { kept_below self.new ≡ kept_below self.old }
        ensures room { KeepsRoom self.old self.new }
        ensures terms { self.new.terms ≡ self.old.terms }
        ensures types { self.new.types ≡ self.old.types }
        ensures functions { self.new.functions ≡ self.old.functions }
    {
        self.texts[id.place()] = Some(text);
        self.order.push_reserved(id);
    }

    /// Keeps the name of a term's node that has none yet.
    pub(crate) fn enter_term(&mut self, id: NodeId, name: Text)
        requires room { place_of id < length self.old.texts.items }
        requires order { length self.old.texts.items ≤ vec_capacity self.old.order }
        requires unkept { text_at self.old id ≡ None }
        ensures kept { IsKept self.old.texts.items self.new.texts.items (place_of id)
            (rc_str_bytes name) }
        ensures levels { kept_below self.new ≡ kept_below self.old }
        ensures room { KeepsRoom self.old self.new }
        ensures terms { self.new.terms ≡ self.old.terms + 1 }
        ensures types { self.new.types ≡ self.old.types }
        ensures functions { self.new.functions ≡ self.old.functions }
    {
        self.keep(id, name);
        self.terms += 1;
    }

    /// Keeps the name of a type's node that has none yet.
    pub(crate) fn enter_type(&mut self, id: NodeId, name: Text)
        requires room { place_of id < length self.old.texts.items }
        requires order { length self.old.texts.items ≤ vec_capacity self.old.order }
        requires unkept { text_at self.old id ≡ None }
        ensures kept { IsKept self.old.texts.items self.new.texts.items (place_of id)
            (rc_str_bytes name) }
        ensures levels { kept_below self.new ≡ kept_below self.old }
        ensures room { KeepsRoom self.old self.new }
        ensures terms { self.new.terms ≡ self.old.terms }
        ensures types { self.new.types ≡ self.old.types + 1 }
        ensures functions { self.new.functions ≡ self.old.functions }
    {
        self.keep(id, name);
        self.types += 1;
    }

    /// Keeps the name of a function's node that has none yet.
    pub(crate) fn enter_function(&mut self, id: NodeId, name: Text)
        requires room { place_of id < length self.old.texts.items }
        requires order { length self.old.texts.items ≤ vec_capacity self.old.order }
        requires unkept { text_at self.old id ≡ None }
        ensures kept { IsKept self.old.texts.items self.new.texts.items (place_of id)
            (rc_str_bytes name) }
        ensures levels { kept_below self.new ≡ kept_below self.old }
        ensures room { KeepsRoom self.old self.new }
        ensures terms { self.new.terms ≡ self.old.terms }
        ensures types { self.new.types ≡ self.old.types }
        ensures functions { self.new.functions ≡ self.old.functions + 1 }
    {
        self.keep(id, name);
        self.functions += 1;
    }
}
