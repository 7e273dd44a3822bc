// Links in memory on which no call was made.
ghost use Rattle.smt_solve.specs.LinkList.{AreUntouched};
ghost use Rattle.std.proofs.Props.{props};

use crate::link::LinkError;
use crate::memory::MemoryLink;
use std::alloc::Global;

/// Links in memory on which no call was made, in order.
#[derive(Debug, Drop)]
pub struct LinkList {
    links: Vec<MemoryLink>,
    ghost untouched: { AreUntouched links.items } by { Prim.hlevel props },
}

impl LinkList {
    ghost use Rattle.std.specs.Prelude.{◌≡◌, ◌++◌, ◌∷◌, [], length, IfSome, OnOk, OnErr};
    ghost use Rattle.std.specs.Prelude.{IsOkUnless, MatchOption};
    ghost use Rattle.smt_solve.specs.MemoryLink.{IsUntouched};
    ghost use Rattle.smt_solve.specs.MemoryStarter.{links_in};

    /// The empty list. It takes no memory.
    pub fn new(alloc: Global) -> LinkList
        ensures { links_in result ≡ [] }
    {
        LinkList {
            links: Vec::new(alloc),
        }
    }

    /// Appends a link on which no call was made. Its only error is `Memory`, after which the link is lost.
    pub fn push(&mut self, link: MemoryLink) -> Result<(), LinkError>
        requires { IsUntouched link }
        ensures ok { OnOk result (links_in self.new ≡ links_in self.old ++ link ∷ []) }
        ensures err { OnErr result (links_in self.new ≡ links_in self.old) }
        ensures refusal { IsOkUnless result LinkError.Memory }
    {
        match self.links.push(link) {
            Ok(()) => Ok(()),
            Err(_) => Err(LinkError::Memory),
        }
    }

    /// How many links there are.
    pub fn len(&self) -> usize
        ensures { result ≡ length (links_in self.now) }
    {
        self.links.len()
    }

    /// The links, in order.
    pub fn items(&self) -> &[MemoryLink]
        ensures { result.now ≡ links_in self.now }
    {
        self.links.as_slice()
    }

    /// Takes the first link out.
    pub(crate) fn take_first(&mut self) -> Option<MemoryLink>
        ensures taken { MatchOption result ((links_in self.old ≡ []) × (links_in self.new ≡ []))
            (λ link. links_in self.old ≡ link ∷ links_in self.new) }
        ensures untouched { IfSome result IsUntouched }
    {
        if self.links.is_empty() {
            return None;
        }
        Some(self.links.remove(0))
    }
}
