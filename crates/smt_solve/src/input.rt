// The input of a session, which is a sink over its link.
ghost use Rattle.smt_script.specs.Sink.{Flushes, Puts, uncertain, unreferenced};
ghost use Rattle.smt_solve.specs.Link.{HandsOn, Sends};
ghost use Rattle.smt_solve.specs.Session.{OnlySends, faults_by, sent_by};

use crate::link::{Link, LinkError};
use smt_script::{Sink, SinkError};

/// Takes the lines of a script, and sends them to the solver of a session.
///
/// It holds what its link sent. Each put and each flush of a session that has not failed is one of its link, with the link's
/// answer. One that fails is the end of the session: any later one is refused with `Fault`, and counts among the faults of the
/// input.
#[derive(Debug, Drop)]
pub struct SessionInput<L> {
    pub(crate) link: L,
    pub(crate) failed: bool,
    pub(crate) refused: u64,
}

impl<L: Link> Sink for SessionInput<L> {
    ghost contents = { sent_by L.state };

    ghost faults = { faults_by L.state };

    ghost has_room = { uncertain };

    /// Sends all bytes, or refuses them where the session has failed.
    fn put(&mut self, bytes: &[u8]) -> Result<(), SinkError>
        ensures puts { Puts (sent_by L.state) (faults_by L.state) uncertain unreferenced self.old
            self.new bytes.now result }
        ensures sends { OnlySends L.state L.allows (λ old new done. Sends old new bytes.now done)
            self.old self.new result }
    {
        if self.failed {
            self.refused = self.refused.saturating_add(1);
            return Err(SinkError::Fault);
        }
        match self.link.send(bytes) {
            Ok(()) => Ok(()),
            Err(LinkError::Fault) => {
                self.failed = true;
                Err(SinkError::Fault)
            }
            Err(LinkError::Memory) => {
                self.failed = true;
                Err(SinkError::Memory)
            }
        }
    }

    /// Hands on all bytes that the link holds back.
    fn flush(&mut self) -> Result<(), SinkError>
        ensures flushes { Flushes (sent_by L.state) (faults_by L.state) uncertain unreferenced
            self.old self.new result }
        ensures sends { OnlySends L.state L.allows (λ old new done. HandsOn old new done) self.old
            self.new result }
    {
        if self.failed {
            self.refused = self.refused.saturating_add(1);
            return Err(SinkError::Fault);
        }
        match self.link.flush() {
            Ok(()) => Ok(()),
            Err(LinkError::Fault) => {
                self.failed = true;
                Err(SinkError::Fault)
            }
            Err(LinkError::Memory) => {
                self.failed = true;
                Err(SinkError::Memory)
            }
        }
    }
}
