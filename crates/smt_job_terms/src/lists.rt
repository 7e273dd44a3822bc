// The lists of variables and of functions that a job declares.
ghost use Rattle.std.specs.Prelude.{◌≡◌, ◌++◌, ◌∷◌, [], OnOk, OnErr, map, length};
ghost use Rattle.smt_job_terms.specs.DeclarationView as view;
ghost use Rattle.smt_job_terms.specs.DeclarationView.{plain_declaration, plain_declared_function};

use smt_term::{TermVar, Uuf};
use std::alloc::{AllocError, Global};

/// A list of variables.
#[derive(Debug, Drop)]
pub struct VarList {
    items: Vec<TermVar>,
}

impl VarList {
    /// The empty list. It takes no memory.
    pub fn new(alloc: Global) -> VarList
        ensures { view.declarations result ≡ [] }
    {
        VarList {
            items: Vec::new(alloc),
        }
    }

    /// Appends a variable. An `Err` changes nothing.
    pub fn push(&mut self, item: TermVar) -> Result<(), AllocError>
        ensures ok { OnOk result (view.declarations self.new
            ≡ view.declarations self.old ++ plain_declaration item ∷ []) }
        ensures err { OnErr result (view.declarations self.new ≡ view.declarations self.old) }
    {
        self.items.push(item)?;
        Ok(())
    }

    /// How many variables there are.
    pub fn len(&self) -> usize
        ensures { result ≡ length (view.declarations self.now) }
    {
        self.items.len()
    }

    /// The variables, in order.
    pub fn items(&self) -> &[TermVar]
        ensures { map plain_declaration result.now ≡ view.declarations self.now }
    {
        self.items.as_slice()
    }
}

/// A list of uninterpreted functions.
#[derive(Debug, Drop)]
pub struct UufList {
    items: Vec<Uuf>,
}

impl UufList {
    /// The empty list. It takes no memory.
    pub fn new(alloc: Global) -> UufList
        ensures { view.functions result ≡ [] }
    {
        UufList {
            items: Vec::new(alloc),
        }
    }

    /// Appends a function. An `Err` changes nothing.
    pub fn push(&mut self, item: Uuf) -> Result<(), AllocError>
        ensures ok { OnOk result (view.functions self.new
            ≡ view.functions self.old ++ plain_declared_function item ∷ []) }
        ensures err { OnErr result (view.functions self.new ≡ view.functions self.old) }
    {
        self.items.push(item)?;
        Ok(())
    }

    /// How many functions there are.
    pub fn len(&self) -> usize
        ensures { result ≡ length (view.functions self.now) }
    {
        self.items.len()
    }

    /// The functions, in order.
    pub fn items(&self) -> &[Uuf]
        ensures { map plain_declared_function result.now ≡ view.functions self.now }
    {
        self.items.as_slice()
    }
}
