//! Text that is built in memory before it is put anywhere.
ghost use Rattle.std.specs.Prelude.{◌≡◌, ◌++◌, [], OnOk};

use std::alloc::Global;
use tame_names::NoMemory;

/// Text that is built in memory.
#[derive(Drop)]
pub struct Page {
    bytes: Vec<u8>,
}

impl Page {
    /// An empty page.
    pub fn new(alloc: Global) -> Page
        ensures { result.bytes.items ≡ [] }
    {
        Page {
            bytes: Vec::new(alloc),
        }
    }

    /// Appends a text.
    pub fn push(&mut self, text: &str) -> Result<(), NoMemory>
        ensures { OnOk result (self.new.bytes.items ≡ self.old.bytes.items ++ text.now) }
    {
        self.bytes.extend_from_slice(text.as_bytes())?;
        Ok(())
    }

    /// Empties the page.
    pub fn clear(&mut self)
        ensures { self.new.bytes.items ≡ [] }
    {
        self.bytes.clear();
    }

    /// The text so far.
    pub fn as_bytes(&self) -> &[u8]
        ensures { result.now ≡ self.now.bytes.items }
    {
        self.bytes.as_slice()
    }
}
