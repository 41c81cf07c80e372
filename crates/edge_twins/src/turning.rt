//! A mirror that changes while it is asked.
use crate::host::Host;
use std::{fs, io};

/// What becomes of a mirror.
#[derive(Clone, Copy, PartialEq, Eq)]
pub enum Turned {
    Nothing,
    /// The file `turn` comes to a place of it.
    Put,
    /// A file of it goes.
    Removed,
    /// The folder `next` comes in its place.
    Folder,
}

/// A change before one of the calls that name a path.
#[derive(Clone, Copy)]
pub struct Turn {
    pub turned: Turned,
    /// How many calls come before it.
    pub left: u64,
    /// The number of the file.
    pub place: usize,
}

/// The files that change, below the mirror. Those with an even number are crates' files, the others
/// their tags.
pub const TURNED: [&str; 4] = ["k", "k.etag", "a/k", "a/k.etag"];

/// No change.
pub const UNTURNED: Turn = Turn {
    turned: Turned::Nothing,
    left: 0,
    place: 0,
};

/// The folder of the mirror, below the base.
pub const MIRROR: &str = "mirror";

impl<'a> Host<'a> {
    /// Makes the change, where it wasn't made yet.
    pub fn turn(&self) -> io::Result<()> {
        let turn = self.plan.turn.get();
        self.plan.turn.set(UNTURNED);
        let rt = self.rt;
        let path = TURNED[turn.place % 4];
        let place = format!(in rt.alloc(); "{}/{MIRROR}/{path}", self.base)?;
        let mirror = self.place(MIRROR)?;
        match turn.turned {
            Turned::Nothing => {}
            Turned::Put => {
                let _ = fs::rename(rt, self.place("turn")?.as_str(), place.as_str());
            }
            Turned::Removed => {
                let _ = fs::remove_file(rt, place.as_str());
            }
            Turned::Folder => {
                let _ = fs::rename(rt, mirror.as_str(), self.place("last")?.as_str());
                let _ = fs::rename(rt, self.place("next")?.as_str(), mirror.as_str());
            }
        }
        Ok(())
    }

    /// One call less comes before the change, which is made where none does.
    pub fn come_nearer(&self) -> io::Result<()> {
        let turn = self.plan.turn.get();
        if turn.turned == Turned::Nothing {
            return Ok(());
        }
        if turn.left > 0 {
            let left = turn.left.saturating_sub(1);
            self.plan.turn.set(Turn { left, ..turn });
            return Ok(());
        }
        self.turn()
    }

    /// Whether the change is still to come.
    pub fn is_to_turn(&self) -> bool {
        self.plan.turn.get().turned != Turned::Nothing
    }
}
