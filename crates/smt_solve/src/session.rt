// A session with a solver, over a link.
ghost use Rattle.std.specs.Prelude.{◌≡◌, ◌||◌, [], ◌∷◌, IfOk, IsErr, true, false, is_err};
ghost use Rattle.std.specs.Borrow.{sem};
ghost use Rattle.law_texts.specs.SharedTexts.{texts};
ghost use Rattle.smt_solve.specs.Cvc5.{cvc5_command, cvc5_limit};
ghost use Rattle.smt_solve.specs.Lends.{LendsInput};
ghost use Rattle.smt_solve.specs.Link.{AllowsOnly, AllowsTheSame, IsOver, IsUnused};
ghost use Rattle.smt_solve.specs.Model.{AsksWithModel};
ghost use Rattle.smt_solve.specs.Question.{AsksDecision, KillsLink, SendsCommand};
ghost use Rattle.smt_solve.specs.Session.{Guards, StartsSession, enable_models_text};
ghost use Rattle.smt_solve.specs.Session.{session_failed, session_link, state_by};
ghost use Rattle.smt_solve.specs.Starter.{command_of};

use crate::answer::{Decision, DecisionWithModel};
use crate::command::SolverCommand;
use crate::error::SolverError;
use crate::input::SessionInput;
use crate::link::Link;
use crate::model::ask_with_model;
use crate::question::{ask_decision, kill_link, send_text};
use crate::starter::{StartError, Starter};
use smt_script::Sink;
use smt_text::Text;
use std::alloc::Global;

/// A solver that takes a script and answers questions about it.
pub trait Solver {
    /// What takes the lines of the script.
    type Input: Sink;

    /// Lends what takes the lines of the script.
    fn smtlib_input(&mut self) -> &mut Self::Input;

    /// Asks the solver to keep its models. It is to come before the first assertion.
    fn enable_models(&mut self) -> Result<(), SolverError>;

    /// Asks whether the assertions have a model.
    fn check_sat(&mut self) -> Result<Decision, SolverError>;

    /// Asks whether the assertions have a model, and for one.
    fn check_sat_with_model(&mut self) -> Result<DecisionWithModel, SolverError>;
}

/// A session with a solver behind a link.
///
/// After any error it has failed, and so it has once it was marked: it sends nothing more, and answers `SolverMarkedFailed` to
/// each question. It may still be cleaned up.
#[derive(Debug)]
pub struct LocalSolver<L> {
    pub(crate) input: SessionInput<L>,
    pub(crate) alloc: Global,
}

// By hand, so that what lets a session go calls this, and has no account of its parts.
impl<L: Drop> Drop for LocalSolver<L> {
    fn drop(self) {
        let LocalSolver { input: _, alloc: _ } = self;
    }
}

impl<L: Link> LocalSolver<L> {
    /// A session over this link, which takes memory for answers from `alloc`.
    pub fn new(alloc: Global, link: L) -> LocalSolver<L>
        ensures link { session_link result ≡ link }
        ensures unfailed { session_failed result ≡ false }
    {
        LocalSolver {
            input: SessionInput {
                link,
                failed: false,
                refused: 0,
            },
            alloc,
        }
    }

    /// Starts a solver by this command, and opens a session with it.
    ///
    /// # Errors
    ///
    /// `Io` comes where the solver did not start, which the starter's count of failed starts shows, and `Memory` where there
    /// is no memory for it.
    pub fn from_command<P: Starter<L = L>>(
        alloc: Global,
        starter: &mut P,
        cmd: &SolverCommand,
    ) -> Result<LocalSolver<L>, SolverError>
        ensures starts { StartsSession (P.state starter.old) (P.state starter.new)
            (command_of cmd.now) result }
        ensures unused { IfOk result (λ s. IsUnused (L.state (session_link s))) }
        ensures unfailed { IfOk result (λ s. session_failed s ≡ false) }
        ensures honest { IfOk result
            (λ s. AllowsOnly (L.allows (session_link s)) (P.allows starter.old)) }
        ensures allows { AllowsTheSame (P.allows starter.old) (P.allows starter.new) }
    {
        match starter.start(alloc, cmd) {
            Ok(link) => Ok(LocalSolver::new(alloc, link)),
            Err(StartError::Fault) => Err(SolverError::Io),
            Err(StartError::Memory) => Err(SolverError::Memory),
        }
    }

    /// Starts cvc5 with a limit of a minute on its whole life, and opens a session with it.
    ///
    /// The program is that of `setting`, or `cvc5` where there is none, and the arguments are `--lang`, `smt` and
    /// `--tlimit=60000`. cvc5 counts this minute from its start, also while it waits for commands, and ends when it is over: so a
    /// session that is kept longer fails. For a limit on each question pass `--tlimit-per=60000` to `cvc5_with_args`, or begin a
    /// command of `from_command` with `timeout`.
    ///
    /// # Errors
    ///
    /// As those of `from_command`.
    pub fn cvc5<P: Starter<L = L>>(
        alloc: Global,
        starter: &mut P,
        setting: Option<&str>,
    ) -> Result<LocalSolver<L>, SolverError>
        ensures starts { StartsSession (P.state starter.old) (P.state starter.new)
            (cvc5_command setting.entry (cvc5_limit ∷ [])) result }
        ensures unused { IfOk result (λ s. IsUnused (L.state (session_link s))) }
        ensures unfailed { IfOk result (λ s. session_failed s ≡ false) }
        ensures honest { IfOk result
            (λ s. AllowsOnly (L.allows (session_link s)) (P.allows starter.old)) }
        ensures allows { AllowsTheSame (P.allows starter.old) (P.allows starter.new) }
    {
        let Ok(limit) = Text::from_str(alloc, "--tlimit=60000") else {
            return Err(SolverError::Memory);
        };
        LocalSolver::cvc5_with_args(alloc, starter, setting, &[limit])
    }

    /// Starts cvc5, and opens a session with it.
    ///
    /// The program is that of `setting`, or `cvc5` where there is none, and the arguments are `--lang`, `smt` and those of
    /// `args`.
    ///
    /// # Errors
    ///
    /// As those of `from_command`.
    pub fn cvc5_with_args<P: Starter<L = L>>(
        alloc: Global,
        starter: &mut P,
        setting: Option<&str>,
        args: &[Text],
    ) -> Result<LocalSolver<L>, SolverError>
        ensures starts { StartsSession (P.state starter.old) (P.state starter.new)
            (cvc5_command setting.entry (texts args.now)) result }
        ensures unused { IfOk result (λ s. IsUnused (L.state (session_link s))) }
        ensures unfailed { IfOk result (λ s. session_failed s ≡ false) }
        ensures honest { IfOk result
            (λ s. AllowsOnly (L.allows (session_link s)) (P.allows starter.old)) }
        ensures allows { AllowsTheSame (P.allows starter.old) (P.allows starter.new) }
    {
        let cmd = SolverCommand::cvc5(alloc, setting, args)?;
        LocalSolver::from_command(alloc, starter, &cmd)
    }

    /// The link.
    pub fn link(&self) -> &L
        ensures { result.now ≡ session_link self.now }
    {
        &self.input.link
    }

    /// Whether the session has failed.
    pub fn is_failed(&self) -> bool
        ensures { result ≡ session_failed self.now }
    {
        self.input.failed
    }

    /// Marks the session failed, and sends nothing. It takes no memory and never fails.
    ///
    /// The session is then as it is after an error: a put or a flush on its input sends nothing and answers `Fault`, and each
    /// question is answered `SolverMarkedFailed`.
    pub fn mark_failed(&mut self)
        ensures failed { session_failed self.new ≡ true }
        ensures link { session_link self.new ≡ session_link self.old }
    {
        self.input.failed = true;
    }

    /// Ends the session, and gives its link back.
    pub fn into_link(self) -> L
        ensures { result ≡ session_link self }
    {
        let LocalSolver { input, alloc: _ } = self;
        let SessionInput {
            link,
            failed: _,
            refused: _,
        } = input;
        link
    }

    /// Sends these lines of a script as they stand, as a put on the session's input does. They may be held back until the next
    /// question.
    ///
    /// # Errors
    ///
    /// `SolverMarkedFailed` comes where the session has failed before, `Io` where the link failed, and `Memory` where the link
    /// has no memory. The session has failed after any of them.
    pub fn send_lines(&mut self, lines: &[u8]) -> Result<(), SolverError>
        ensures guards { Guards L.allows self.old self.new result }
        ensures sends { session_failed self.old ≡ false →
            SendsCommand (state_by L.state self.old) (state_by L.state self.new) lines.now result }
    {
        if self.input.failed {
            return Err(SolverError::SolverMarkedFailed);
        }
        let done = send_text(&mut self.input.link, lines);
        self.input.failed = done.is_err();
        done
    }

    /// Kills the solver, whether the session has failed or not.
    ///
    /// # Errors
    ///
    /// `Io` comes where the link failed, and `Memory` where the link has no memory. The session has failed after any of them,
    /// and the solver may be killed or not.
    pub fn clean_up(&mut self) -> Result<(), SolverError>
        ensures kills { KillsLink (state_by L.state self.old) (state_by L.state self.new) result }
        ensures marks { session_failed self.new ≡ (session_failed self.old || is_err result) }
        ensures allows { AllowsTheSame (L.allows (session_link self.old))
            (L.allows (session_link self.new)) }
    {
        let done = kill_link(&mut self.input.link);
        self.input.failed = self.input.failed || done.is_err();
        done
    }
}

impl<L: Link> Solver for LocalSolver<L> {
    type Input = SessionInput<L>;

    fn smtlib_input(&mut self) -> &mut SessionInput<L>
        ensures value { result.now ≡ self.old.input }
        ensures* writes_back { sem 𝓛 (LendsInput L.row self.entry result) }
    {
        &mut self.input
    }

    /// Sends `(set-option :produce-models true)`.
    ///
    /// # Errors
    ///
    /// `SolverMarkedFailed` comes where the session has failed before, `Io` where the link failed, and `Memory` where the link
    /// has no memory. The session has failed after any of them.
    fn enable_models(&mut self) -> Result<(), SolverError>
        ensures guards { Guards L.allows self.old self.new result }
        ensures sends { session_failed self.old ≡ false →
            SendsCommand (state_by L.state self.old) (state_by L.state self.new) enable_models_text
            result }
    {
        self.send_lines(b"(set-option :produce-models true)\n")
    }

    /// Sends `(check-sat)`, hands it on, and reads one line of at most 65536 bytes.
    ///
    /// Spaces, tabs, LF and CR at the ends of the line aside, it is `sat`, `unsat` or `unknown`. The end of the answers counts
    /// as the LF of a line that has bytes. Behind such a line nothing more comes: no later check is `Ok`.
    ///
    /// # Examples
    ///
    /// ```
    /// use kembura::{ChildStarter, Decision, LocalSolver, Solver, Starter};
    ///
    /// let mut starter = ChildStarter::new(rt.clone()?);
    /// let mut session = LocalSolver::cvc5(alloc, &mut starter, None)?;
    /// session.send_lines(b"(set-logic ALL)\n(assert false)\n")?;
    /// let decision = session.check_sat();
    /// starter.finish(session.into_link())?;
    /// assert_eq!(rt; decision, Ok(Decision::Unsat));
    /// ```
    ///
    /// # Errors
    ///
    /// `SolverMarkedFailed` comes where the session has failed before, and nothing is sent. `Solver` tells that the solver had
    /// ended, and nothing is sent; that no byte was to come, after which the solver is killed; or the message of a line
    /// `(error "message")`, after which the solver is killed where the message begins with `Parse Error: `.
    /// `UnrecognizedSolverOutput` gives any other line. `AnswerTooLong` comes where 65536 bytes have no LF, `Io` where the link
    /// failed or the line is no UTF-8, and `Memory` where there is no memory. The session has failed after any of them.
    fn check_sat(&mut self) -> Result<Decision, SolverError>
        ensures guards { Guards L.allows self.old self.new result }
        ensures asks { session_failed self.old ≡ false →
            AsksDecision (L.allows (session_link self.old)) (state_by L.state self.old)
            (state_by L.state self.new) result }
        ensures over { IsOver (state_by L.state self.old) → IsErr result }
    {
        if self.input.failed {
            return Err(SolverError::SolverMarkedFailed);
        }
        let answer = ask_decision(self.alloc, &mut self.input.link);
        self.input.failed = answer.is_err();
        answer
    }

    /// As `check_sat`, and behind `sat` sends `(get-model)`, hands it on, and reads the lines of the model.
    ///
    /// Blanks at the ends of the lines aside, the first is `(` and the last, as the only one behind it, `)`. They come as they
    /// stand, 16777216 bytes at most. `enable_models` is to come before.
    ///
    /// # Errors
    ///
    /// As those of `check_sat`, of the first line of the model too. Inside the model `Solver` tells that the answers ended,
    /// after which the solver is killed, `Io` comes for a line that is no UTF-8, and `AnswerTooLong` where 65536 bytes have no
    /// LF or the model has more bytes than it may.
    fn check_sat_with_model(&mut self) -> Result<DecisionWithModel, SolverError>
        ensures guards { Guards L.allows self.old self.new result }
        ensures asks { session_failed self.old ≡ false →
            AsksWithModel (L.allows (session_link self.old)) (state_by L.state self.old)
            (state_by L.state self.new) result }
        ensures over { IsOver (state_by L.state self.old) → IsErr result }
    {
        if self.input.failed {
            return Err(SolverError::SolverMarkedFailed);
        }
        let answer = ask_with_model(self.alloc, &mut self.input.link);
        self.input.failed = answer.is_err();
        answer
    }
}
