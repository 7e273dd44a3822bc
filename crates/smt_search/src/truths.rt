// Truths of variables.
ghost use Rattle.std.specs.Prelude.{◌≡◌, length};

/// Truths of the variables from 0 on. A variable past the end is false.
#[derive(Drop)]
pub struct Truths {
    values: Vec<bool>,
}

impl Truths {
    ghost use Rattle.smt_search.specs.Given.{listed, truths};

    /// The truths of a list.
    pub(crate) fn new(values: Vec<bool>) -> Truths
        ensures { listed result ≡ values.items }
    {
        Truths { values }
    }

    /// The truth of a variable, false past the end.
    pub fn truth(&self, variable: usize) -> bool
        ensures { result ≡ truths self.now variable }
    {
        match self.values.get(variable) {
            Some(truth) => *truth,
            None => false,
        }
    }

    /// How many variables have a truth of their own.
    pub fn len(&self) -> usize
        ensures { result ≡ length (listed self.now) }
    {
        self.values.len()
    }
}
