// What a script declares and asserts, as gates.
ghost use Rattle.std.specs.Prelude.{◌≡◌, ◌∷◌, [], length, IfOk, OnOk};
ghost use Rattle.std.specs.Rc.{rc_str_bytes};
ghost use Rattle.smt_mini.specs.Tables.{cut, empty_table, gained, mark_of, table_of};
ghost use Rattle.smt_mini.specs.Tables.{with_assertion, with_constant, with_name};
ghost use Rattle.smt_mini.specs.Tables.{with_options};

use crate::gate::Gate;
use crate::names::Name;
use smt_text::Text;
use std::alloc::{AllocError, Global};

/// What is declared and asserted.
#[derive(Drop)]
pub struct Tables {
    /// The gates, each behind its parts.
    pub gates: Vec<Gate>,
    /// The names, in order of declaration.
    pub names: Vec<Name>,
    /// The constants, in order of declaration.
    pub constants: Vec<Text>,
    /// The gates of the assertions, in order.
    pub assertions: Vec<usize>,
    /// Whether the datatype Option is declared.
    pub options: bool,
}

/// How much of the tables stands below a level.
#[derive(Clone, Copy)]
pub struct Mark {
    /// How many gates.
    pub gates: usize,
    /// How many names.
    pub names: usize,
    /// How many constants.
    pub constants: usize,
    /// How many assertions.
    pub assertions: usize,
    /// Whether the datatype Option is declared below.
    pub options: bool,
}

impl Tables {
    /// Nothing declared or asserted. Takes no memory.
    pub fn new(alloc: Global) -> Tables
        ensures { table_of result ≡ empty_table }
    {
        Tables {
            gates: Vec::new(alloc),
            names: Vec::new(alloc),
            constants: Vec::new(alloc),
            assertions: Vec::new(alloc),
            options: false,
        }
    }

    /// A new gate, and its place.
    pub fn add_gate(&mut self, gate: Gate) -> Result<usize, AllocError>
        ensures { IfOk result (λ place.
            (place ≡ length (table_of self.old).gates)
            × (table_of self.new ≡ gained (table_of self.old) (gate ∷ []))) }
    {
        let place = self.gates.len();
        self.gates.push(gate)?;
        Ok(place)
    }

    /// A new name with its gate, if it has one.
    pub fn add_name(&mut self, name: &Text, gate: Option<usize>) -> Result<(), AllocError>
        ensures { OnOk result
            (table_of self.new ≡ with_name (table_of self.old) (rc_str_bytes name.now) gate) }
    {
        self.names.push(Name {
            text: name.clone()?,
            gate,
        })?;
        Ok(())
    }

    /// A new constant, with its input.
    pub fn add_constant(&mut self, name: &Text) -> Result<(), AllocError>
        ensures { OnOk result
            (table_of self.new ≡ with_constant (table_of self.old) (rc_str_bytes name.now)) }
    {
        let input = self.constants.len();
        let place = self.add_gate(Gate::Input(input))?;
        self.add_name(name, Some(place))?;
        self.constants.push(name.clone()?)?;
        Ok(())
    }

    /// The constructors and the selector of the datatype Option.
    pub fn add_options(&mut self, alloc: Global) -> Result<(), AllocError>
        ensures { OnOk result (table_of self.new ≡ with_options (table_of self.old)) }
    {
        self.add_name(&Text::from_str(alloc, "none")?, None)?;
        self.add_name(&Text::from_str(alloc, "some")?, None)?;
        self.add_name(&Text::from_str(alloc, "val")?, None)?;
        self.options = true;
        Ok(())
    }

    /// A new assertion, of this gate.
    pub fn add_assertion(&mut self, gate: usize) -> Result<(), AllocError>
        ensures { OnOk result (table_of self.new ≡ with_assertion (table_of self.old) gate) }
    {
        self.assertions.push(gate)?;
        Ok(())
    }

    /// How much there is.
    pub fn mark(&self) -> Mark
        ensures { result ≡ mark_of (table_of self.now) }
    {
        Mark {
            gates: self.gates.len(),
            names: self.names.len(),
            constants: self.constants.len(),
            assertions: self.assertions.len(),
            options: self.options,
        }
    }

    /// Lets go what came behind a mark.
    pub fn cut(&mut self, mark: &Mark)
        ensures { table_of self.new ≡ cut mark.now (table_of self.old) }
    {
        self.gates.truncate(mark.gates);
        self.names.truncate(mark.names);
        self.constants.truncate(mark.constants);
        self.assertions.truncate(mark.assertions);
        self.options = mark.options;
    }
}
