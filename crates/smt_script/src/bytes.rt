// Lists of bytes.
ghost use Rattle.std.specs.Prelude.{◌≡◌, [], ◌++◌, OnOk, OnErr};
ghost use Rattle.smt_script.specs.Bytes.{bytes_in};

use std::alloc::{AllocError, Global};

/// A list of bytes.
#[derive(Debug, PartialEq, Eq, Drop)]
pub struct Bytes {
    items: Vec<u8>,
}

impl Bytes {
    /// The empty list. It takes no memory.
    pub fn new(alloc: Global) -> Bytes
        ensures { bytes_in result ≡ [] }
    {
        Bytes {
            items: Vec::new(alloc),
        }
    }

    /// Appends all of these bytes, or none where there is no memory for them.
    pub fn append(&mut self, bytes: &[u8]) -> Result<(), AllocError>
        ensures ok { OnOk result (bytes_in self.new ≡ bytes_in self.old ++ bytes.now) }
        ensures err { OnErr result (bytes_in self.new ≡ bytes_in self.old) }
    {
        self.items.extend_from_slice(bytes)
    }

    /// The bytes in their order.
    pub fn items(&self) -> &[u8]
        ensures { result.now ≡ bytes_in self.now }
    {
        self.items.as_slice()
    }
}
