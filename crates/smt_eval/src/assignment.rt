// Assignments: literals for all that terms leave open to interpretation.
ghost use Rattle.std.specs.Prelude.{◌≡◌, ◌++◌, ◌∷◌, [], OnErr, OnOk, bytes_eq, option_map};
ghost use Rattle.std.specs.BTreeMap.{get, is_at};
ghost use Rattle.std.specs.Map.{keys_of, lookup};
ghost use Rattle.std.specs.Rc.{rc_str_bytes};
ghost use Rattle.std.specs.declared.cmp.Ordering.TheVariants.{Equal};
ghost use Rattle.law_assignments.specs.Assignments.{get_in, selector_in, variable_in};
ghost use Rattle.smt_term.specs.Functions.{plain_definition};
ghost use Rattle.smt_term.specs.View.{plain_term, plain_type};
ghost use Rattle.smt_term.specs.ExtensionView.{plain_extension_op};
ghost use Rattle.smt_eval.specs.FirstPlaces.{first_place};

use smt_term::{ExtOp, Term, TermError, TermType, Text, Udf};
use std::alloc::{AllocError, Global};
use std::collections::BTreeMap;

// Entries in the order in which they were given. A map has for each key the place of the first entry that has it, so a look-up takes
// logarithmic time.
#[derive(Drop)]
struct Entries<K: Ord, V> {
    items: Vec<(K, V)>,
    places: BTreeMap<K, usize>,
    ghost placed: { (key : K) →
        get K.cmp places key ≡ first_place (is_at (K.cmp key)) (keys_of items.items) },
}

impl<K: Ord + Drop, V: Drop> Entries<K, V> {
    // No entry. Takes no memory.
    fn new(alloc: Global) -> Entries<K, V>
        ensures { result.items.items ≡ [] }
    {
        Entries {
            items: Vec::new(alloc),
            places: BTreeMap::new(alloc),
        }
    }

    // The value of the first entry that has the key.
    fn find(&self, key: &K) -> Option<&V>
        ensures { option_map (λ value. value.now) result
            ≡ lookup (is_at (K.cmp key.now)) self.now.items.items }
    {
        let place = self.places.get(key)?;
        let (_, value) = self.items.get(*place)?;
        Some(value)
    }

    // Enters an entry behind those that are there, by a key that is equal to the entry's own. An `Err` changes no entry.
    fn give(&mut self, key: K, entry: (K, V)) -> Result<(), AllocError>
        requires { K.cmp key entry.0 ≡ Equal }
        ensures ok { OnOk result (self.new.items.items ≡ self.old.items.items ++ entry ∷ []) }
        ensures err { OnErr result (self.new.items.items ≡ self.old.items.items) }
    {
        // Once there is room for the entry, only the map can fail.
        self.items.reserve(1)?;
        if self.places.contains_key(&key) {
            return Ok(self.items.push(entry)?);
        }
        self.places.insert(key, self.items.len())?;
        Ok(self.items.push(entry)?)
    }
}

/// Literals for all that terms leave open to interpretation. Of entries with one key the first counts. The look-ups of variables,
/// functions and inner types take logarithmic time.
#[derive(Drop)]
pub struct Assignment {
    variables: Entries<Text, Term>,
    functions: Entries<Text, Udf>,
    gets: Entries<TermType, Term>,
    // Only four selectors are of IP ranges, so these entries are looked through one by one.
    selectors: Vec<(ExtOp, Udf)>,
}

impl Assignment {
    ghost use Rattle.smt_eval.specs.AssignmentView.{no_entries, plain_assignment, plain_get};
    ghost use Rattle.smt_eval.specs.AssignmentView.{plain_selector, plain_table, plain_value};

    /// The assignment that gives nothing. Takes no memory.
    pub fn new(alloc: Global) -> Assignment
        ensures { plain_assignment result ≡ no_entries }
    {
        Assignment {
            variables: Entries::new(alloc),
            functions: Entries::new(alloc),
            gets: Entries::new(alloc),
            selectors: Vec::new(alloc),
        }
    }

    /// The literal that it gives a variable.
    pub fn variable(&self, id: &Text) -> Option<&Term>
        ensures { option_map (λ term. plain_term term.now) result
            ≡ variable_in (plain_assignment self.now) (rc_str_bytes id.now) }
    {
        self.variables.find(id)
    }

    /// The table that it gives a function, by the function's id.
    pub fn function(&self, id: &Text) -> Option<&Udf>
        ensures { option_map (λ table. plain_definition table.now) result
            ≡ lookup (bytes_eq (rc_str_bytes id.now)) (plain_assignment self.now).functions }
    {
        self.functions.find(id)
    }

    /// The literal that `option.get` of none gives at an inner type.
    pub fn get(&self, inside: &TermType) -> Option<&Term>
        ensures { option_map (λ term. plain_term term.now) result
            ≡ get_in (plain_assignment self.now) (plain_type inside.now) }
    {
        self.gets.find(inside)
    }

    /// The table that it gives a selector of IP ranges, for ranges of the other family.
    pub fn selector(&self, op: ExtOp) -> Option<&Udf>
        ensures { option_map (λ table. plain_definition table.now) result
            ≡ selector_in (plain_assignment self.now) (plain_extension_op op) }
    {
        for (selector, table) in self.selectors.as_slice() {
            if op == *selector {
                return Some(table);
            }
        }
        None
    }

    /// Gives a literal to the variable of an id, behind what is given. An `Err` changes nothing.
    ///
    /// # Errors
    ///
    /// `AllocError`, where there is no memory for the entry.
    pub fn give_variable(&mut self, id: Text, value: Term) -> Result<(), AllocError>
        ensures ok { OnOk result (plain_assignment self.new
            ≡ record {
              variables = (plain_assignment self.old).variables ++ plain_value (id, value)
                  ∷ [];
              functions = (plain_assignment self.old).functions;
              gets = (plain_assignment self.old).gets;
              selectors = (plain_assignment self.old).selectors;
            }) }
        ensures err { OnErr result (plain_assignment self.new ≡ plain_assignment self.old) }
    {
        self.variables.give(id.clone()?, (id, value))
    }

    /// Gives a table to the function of an id, behind what is given. An `Err` changes nothing.
    ///
    /// # Errors
    ///
    /// `AllocError`, where there is no memory for the entry.
    pub fn give_function(&mut self, id: Text, table: Udf) -> Result<(), AllocError>
        ensures ok { OnOk result (plain_assignment self.new
            ≡ record {
              variables = (plain_assignment self.old).variables;
              functions = (plain_assignment self.old).functions ++ plain_table (id, table) ∷ [];
              gets = (plain_assignment self.old).gets;
              selectors = (plain_assignment self.old).selectors;
            }) }
        ensures err { OnErr result (plain_assignment self.new ≡ plain_assignment self.old) }
    {
        self.functions.give(id.clone()?, (id, table))
    }

    /// Gives a literal to `option.get` of none at an inner type, behind what is given. An `Err` changes nothing.
    ///
    /// # Errors
    ///
    /// `AllocError`, where there is no memory for the entry.
    pub fn give_get(&mut self, inside: TermType, value: Term) -> Result<(), AllocError>
        ensures ok { OnOk result (plain_assignment self.new
            ≡ record {
              variables = (plain_assignment self.old).variables;
              functions = (plain_assignment self.old).functions;
              gets = (plain_assignment self.old).gets ++ plain_get (inside, value) ∷ [];
              selectors = (plain_assignment self.old).selectors;
            }) }
        ensures err { OnErr result (plain_assignment self.new ≡ plain_assignment self.old) }
    {
        match inside.share() {
            Ok(shared) => self.gets.give(shared, (inside, value)),
            Err(TermError::Memory) => Err(AllocError),
        }
    }

    /// Gives a table to a selector of IP ranges, behind what is given. An `Err` changes nothing.
    ///
    /// # Errors
    ///
    /// `AllocError`, where there is no memory for the entry.
    pub fn give_selector(&mut self, op: ExtOp, table: Udf) -> Result<(), AllocError>
        ensures ok { OnOk result (plain_assignment self.new
            ≡ record {
              variables = (plain_assignment self.old).variables;
              functions = (plain_assignment self.old).functions;
              gets = (plain_assignment self.old).gets;
              selectors =
                  (plain_assignment self.old).selectors ++ plain_selector (op, table) ∷ [];
            }) }
        ensures err { OnErr result (plain_assignment self.new ≡ plain_assignment self.old) }
    {
        self.selectors.push((op, table))?;
        Ok(())
    }
}
