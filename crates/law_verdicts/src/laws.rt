//! Laws of verdicts and of scripts of Boolean constants, proved with no code.
ghost use Rattle.law_verdicts.specs.Broken.{BrokenAnswersAreLast};
ghost use Rattle.law_verdicts.specs.Dialogues.{DialogueChecksAreInTurn, DialoguesAreBelieved};
ghost use Rattle.law_verdicts.specs.HandedOut.{BlankScriptsAreEmpty, ExitStays, HandOutsAreBlank};
ghost use Rattle.law_verdicts.specs.HandedOut.{HoldersStandAlone, ResetLeavesNothing};
ghost use Rattle.law_verdicts.specs.Idle.{AskedLinksAreIdleAgain, IdleChecksAreInTurn};
ghost use Rattle.law_verdicts.specs.Idle.{IdleLinksAreBelieved, UnusedLinksAreIdle};
ghost use Rattle.law_verdicts.specs.InHand.{AskedLinksAreBlankAgain, HonestyIsHandedOn};
ghost use Rattle.law_verdicts.specs.InHand.{PreamblesKeepBlank, SessionsAreBelieved};
ghost use Rattle.law_verdicts.specs.InHand.{SessionsWithModelsAreBelieved, TheseArePreambles};
ghost use Rattle.law_verdicts.specs.InHand.{UnusedLinksAreBlank};
ghost use Rattle.law_verdicts.specs.Joined.{ScriptsJoin, TextsJoin};
ghost use Rattle.law_verdicts.specs.Streams.{StreamsReply};
ghost use Rattle.law_verdicts.specs.Verdicts.{AnyLineIsNotHonest, ChecksAreInTurn, LogicIsBlank};
ghost use Rattle.law_verdicts.specs.Verdicts.{SilenceIsHonest, UnsatIsBelieved};
ghost use Rattle.law_verdicts.specs.Chunks.{ChunksAreCommands};
ghost use Rattle.law_verdicts.specs.FirstModel.{ModelsAreFound};
ghost use Rattle.law_verdicts.specs.Fragment.{CommandsAreFound};
ghost use Rattle.law_verdicts.specs.Honest.{MachinesAreHonest, MachinesMayPut};
ghost use Rattle.law_verdicts.specs.Machine.{ChecksAreAnswered, ModelsAreShown, RefusalsAreMeant};
ghost use Rattle.law_verdicts.specs.Machine.{TurnsAreScripts};
ghost use Rattle.law_verdicts.specs.TruthRows.{BranchesMayBeDropped, FormulasMayBe};
ghost use Rattle.law_verdicts.specs.TruthRows.{LeastRowIsFirst, RowsStandAlone};
ghost use Rattle.law_verdicts.specs.Rows.{SmallSamples};
ghost use Rattle.law_verdicts.specs.Scan.{ChunksAreScanned, ScannedAreChunks};
ghost use Rattle.law_verdicts.specs.Truths.{FormulasHaveTruths};

use smt_solve::{Link, Starter};

/// The commands of whole texts follow one another.
pub fn texts_join()
    ensures commands { TextsJoin }
    ensures scripts { ScriptsJoin }
{}

/// A check of the text of conditions, on which nothing was asked before, is in turn.
pub fn checks_are_in_turn()
    ensures { ChecksAreInTurn }
{}

/// Where a line that tells the truth says `unsat` to a check in turn, no interpretation makes all terms true that the script
/// stands for. `(set-logic ALL)` may stand before the script.
pub fn unsat_is_believed()
    ensures logic { LogicIsBlank }
    ensures believed { UnsatIsBelieved }
{}

/// In a dialogue each check is in turn: a script grows by the lines of an encoder's calls, with `(check-sat)` between them, and each
/// check before this one was answered by one line.
pub fn dialogue_checks_are_in_turn()
    ensures { DialogueChecksAreInTurn }
{}

/// Where a line that tells the truth says `unsat` to a check of a dialogue, no interpretation makes all the terms true that are
/// encoded at the levels open then.
pub fn dialogues_are_believed()
    ensures { DialoguesAreBelieved }
{}

/// A link is blank where it tells what it was sent and what was read, where that left nothing declared or asserted, and where each
/// question in it was answered. A link on which no call was made is blank, and it stays so behind `(set-logic ALL)` and
/// `(set-option :produce-models true)`.
pub fn links_are_blank()
    ensures unused { UnusedLinksAreBlank }
    ensures preambles { TheseArePreambles }
    ensures kept { PreamblesKeepBlank }
{}

/// Whoever holds a session on a blank link, puts the text of conditions to it and asks it next, may believe its `unsat`: where the
/// link is honest, no interpretation makes all the conditions true. Behind the answer and `(reset)`, by which a pool takes a
/// session back, the link is blank again.
pub fn sessions_are_believed<L: Link>(link: &L)
    ensures decision { SessionsAreBelieved (L.allows link.now) }
    ensures with_model { SessionsWithModelsAreBelieved (L.allows link.now) }
    ensures again { AskedLinksAreBlankAgain (L.allows link.now) }
{
    let _ = link;
}

/// A link is idle where what it was sent leaves nothing declared or asserted and each question in it was answered. One on which no
/// call was made is idle, and the question about conditions is in turn on an idle link.
pub fn links_are_idle()
    ensures unused { UnusedLinksAreIdle }
    ensures turn { IdleChecksAreInTurn }
{}

/// An idle link that is honest may be believed, and behind its answer and `(reset)`, by which a pool takes a session back, it is idle
/// again.
pub fn idle_links_are_believed<L: Link>(link: &L)
    ensures believed { IdleLinksAreBelieved (L.allows link.now) }
    ensures again { AskedLinksAreIdleAgain (L.allows link.now) }
{
    let _ = link;
}

/// A link that an honest starter gives is honest.
pub fn honesty_is_handed_on<P: Starter>(starter: &P, link: &P::L)
    ensures { HonestyIsHandedOn (P.L.allows link.now) (P.allows starter.now) }
{
    let _ = starter;
    let _ = link;
}

/// `(reset)` leaves nothing of whole commands before it, unless one of them is `(exit)`.
///
/// So a session is handed out with nothing declared or asserted where each of those that held it before left whole commands
/// without `(exit)`, and what the next holder sends comes to what it would come to alone.
pub fn hand_outs_are_blank()
    ensures reset { ResetLeavesNothing }
    ensures holders { HandOutsAreBlank }
    ensures empty { BlankScriptsAreEmpty }
    ensures alone { HoldersStandAlone }
    ensures ended { ExitStays }
{}

/// An answer to a check that ends without a line feed is the link's last: no later check of it is answered.
pub fn broken_answers_are_last()
    ensures { BrokenAnswersAreLast }
{}

/// A link that gives no line is honest, and one that may give any line is not.
pub fn honesty_is_meant()
    ensures silent { SilenceIsHonest }
    ensures any { AnyLineIsNotHonest }
{}

/// An expression is a command of the fragment exactly where it states one that lies in it.
pub fn commands_are_found()
    ensures { CommandsAreFound }
{}

/// A script of the fragment has no model exactly where the search finds none, and what it finds is the first model.
pub fn models_are_found()
    ensures { ModelsAreFound }
{}

/// In a script of the fragment a formula has the truth that the connectives of Core give those of its names.
pub fn formulas_have_truths()
    ensures { FormulasHaveTruths }
{}

/// What a formula may be follows from what its names may be. Rows of truths stand side by side in words, each by itself, the
/// first model is that of the least row, and a search that drops branches of which nothing can come finds the same.
pub fn rows_stand_alone()
    ensures formulas { FormulasMayBe }
    ensures rows { RowsStandAlone }
    ensures least { LeastRowIsFirst }
    ensures branches { BranchesMayBeDropped }
{}

/// While no command was outside, the machine's state is that of a script of the fragment. Its answers to checks tell the truth
/// of that script, and directly behind `sat` it shows the first model. It refuses exactly what makes no script, and what comes
/// behind `exit`.
pub fn turns_are_scripts()
    ensures scripts { TurnsAreScripts }
    ensures checks { ChecksAreAnswered }
    ensures models { ModelsAreShown }
    ensures refusals { RefusalsAreMeant }
{}

/// Commands that come one by one, each up to its last bracket, are those of the whole text, and a scan of the bytes finds these
/// brackets.
pub fn chunks_are_commands()
    ensures commands { ChunksAreCommands }
    ensures scanned { ChunksAreScanned }
    ensures cut { ScannedAreChunks }
{}

/// Worked examples.
pub fn small_samples()
    ensures { SmallSamples }
{}

/// Whoever puts for each text what the machine puts for its commands, up to where it stops, is honest.
pub fn machines_are_honest()
    ensures put { MachinesMayPut }
    ensures honest { MachinesAreHonest }
{}

/// What is put for a stream of bytes that are commands is what the machine replies to them, up to where it stops, in whole lines. A
/// link that gives nothing else is honest.
pub fn streams_reply()
    ensures { StreamsReply }
{}
