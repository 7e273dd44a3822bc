// Commands that start a solver.
ghost use Rattle.std.specs.Prelude.{◌≡◌, ◌++◌, ◌∷◌, [], codes, length, IfOk, IsOkUnless, OnErr};
ghost use Rattle.std.specs.Prelude.{OnOk};
ghost use Rattle.std.specs.Rc.{rc_str_bytes};
ghost use Rattle.law_texts.specs.SharedTexts.{texts};
ghost use Rattle.smt_solve.specs.Cvc5.{cvc5_command};
ghost use Rattle.smt_solve.specs.Starter.{command_of, texts_in};

use crate::error::SolverError;
use smt_text::{Text, share_text};
use std::alloc::{AllocError, Global};

/// A list of texts, in the order in which they were given.
#[derive(Debug, Drop)]
pub struct TextList {
    items: Vec<Text>,
}

impl TextList {
    /// The empty list. It takes no memory.
    pub fn new(alloc: Global) -> TextList
        ensures { texts_in result ≡ [] }
    {
        TextList {
            items: Vec::new(alloc),
        }
    }

    /// A list that shares these texts.
    fn from_texts(alloc: Global, items: &[Text]) -> Result<TextList, AllocError>
        ensures { IfOk result (λ list. texts_in list ≡ texts items.now) }
    {
        let mut shared = Vec::new(alloc);
        for item in items {
            shared.push(share_text(item)?)?;
        }
        Ok(TextList { items: shared })
    }

    /// Appends a text. An `Err` changes nothing.
    pub fn push(&mut self, item: Text) -> Result<(), AllocError>
        ensures ok { OnOk result (texts_in self.new ≡ texts_in self.old ++ rc_str_bytes item ∷ []) }
        ensures err { OnErr result (texts_in self.new ≡ texts_in self.old) }
    {
        self.items.push(item)?;
        Ok(())
    }

    /// How many texts there are.
    pub fn len(&self) -> usize
        ensures { result ≡ length (texts_in self.now) }
    {
        self.items.len()
    }

    /// The texts in their order.
    pub fn items(&self) -> &[Text]
        ensures { texts result.now ≡ texts_in self.now }
    {
        self.items.as_slice()
    }
}

/// The arguments by which cvc5 reads SMT-LIB, and these behind them.
fn cvc5_args(alloc: Global, args: &[Text]) -> Result<Vec<Text>, AllocError>
    ensures { IfOk result (λ all. texts all.items ≡ codes "--lang" ∷ codes "smt" ∷ texts args.now) }
{
    let mut all = Vec::new(alloc);
    all.push(Text::from_str(alloc, "--lang")?)?;
    all.push(Text::from_str(alloc, "smt")?)?;
    for arg in args {
        all.push(share_text(arg)?)?;
    }
    Ok(all)
}

/// A program that is a solver, and its arguments.
#[derive(Debug)]
pub struct SolverCommand {
    /// The name or the path of the program.
    pub program: Text,
    /// The arguments in their order.
    pub args: TextList,
}

// By hand, since a derived one is written out in each function that lets a command go.
impl Drop for SolverCommand {
    fn drop(self) {
        let SolverCommand {
            program: _,
            args: _,
        } = self;
    }
}

impl SolverCommand {
    /// A command of this program with these arguments. Its only error is `Memory`.
    ///
    /// # Examples
    ///
    /// ```
    /// use kembura::{SolverCommand, Text};
    ///
    /// let option = Text::from_str(alloc, "-in")?;
    /// let command = SolverCommand::new(alloc, "z3", &[option])?;
    /// assert_eq!(rt; command.args.len(), 1);
    /// ```
    pub fn new(alloc: Global, program: &str, args: &[Text]) -> Result<SolverCommand, SolverError>
        ensures ok { IfOk result
            (λ cmd. command_of cmd ≡ record { program = program.now; args = texts args.now }) }
        ensures refusal { IsOkUnless result SolverError.Memory }
    {
        let (Ok(program), Ok(args)) = (
            Text::from_str(alloc, program),
            TextList::from_texts(alloc, args),
        ) else {
            return Err(SolverError::Memory);
        };
        Ok(SolverCommand { program, args })
    }

    /// A command that starts cvc5: the program of `setting`, or `cvc5` where there is none, with the arguments `--lang` and
    /// `smt`, and these behind them. Its only error is `Memory`.
    ///
    /// # Examples
    ///
    /// ```
    /// use kembura::{SolverCommand, Text};
    ///
    /// let limit = Text::from_str(alloc, "--tlimit=60000")?;
    /// let command = SolverCommand::cvc5(alloc, None, &[limit])?;
    /// assert_eq!(rt; command.program.as_str(), "cvc5");
    /// assert_eq!(rt; command.args.len(), 3);
    /// ```
    pub fn cvc5(
        alloc: Global,
        setting: Option<&str>,
        args: &[Text],
    ) -> Result<SolverCommand, SolverError>
        ensures ok { IfOk result
            (λ cmd. command_of cmd ≡ cvc5_command setting.entry (texts args.now)) }
        ensures refusal { IsOkUnless result SolverError.Memory }
    {
        let program = setting.unwrap_or("cvc5");
        let Ok(all) = cvc5_args(alloc, args) else {
            return Err(SolverError::Memory);
        };
        SolverCommand::new(alloc, program, all.as_slice())
    }

    /// A command that says the same, and shares the texts.
    pub(crate) fn share(&self, alloc: Global) -> Result<SolverCommand, AllocError>
        ensures { IfOk result (λ cmd. command_of cmd ≡ command_of self.now) }
    {
        Ok(SolverCommand {
            program: share_text(&self.program)?,
            args: TextList::from_texts(alloc, self.args.items())?,
        })
    }
}
