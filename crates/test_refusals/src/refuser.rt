//! Asks what is preloaded to refuse an allocation.

use std::alloc::Global;

/// An allocation of N bytes and n more asks for the refusal of the nth one after it; of just N, for
/// none. No run of a script asks for as much.
const REFUSE: usize = 0x5_EED0_0000;

/// An allocation of N bytes is refused itself, just if one was refused since that was asked for last.
const WAS_REFUSED: usize = 0x5_EEC0_0000;

/// Who asks for refusals. It keeps the last allocation by which it asked, so that no compiler leaves it out.
#[derive(Drop)]
pub(crate) struct Refuser {
    alloc: Global,
    /// Whether there is something that refuses.
    is_there: bool,
    asked: Vec<Vec<u8>>,
}

impl Refuser {
    pub(crate) fn new(alloc: Global) -> Refuser {
        let mut refuser = Refuser {
            alloc,
            is_there: false,
            asked: Vec::new(alloc),
        };
        refuser.refuse(1);
        refuser.is_there = !refuser.ask(1);
        refuser
    }

    /// Asks by an allocation of this size. Answers whether it was made.
    fn ask(&mut self, size: usize) -> bool {
        self.asked.clear();
        if self.asked.reserve(1).is_err() {
            return false;
        }
        match Vec::with_capacity(self.alloc, size) {
            Ok(room) => self.asked.push(room).is_ok(),
            Err(_) => false,
        }
    }

    /// The first allocation to be refused; 0, where there is nothing that refuses.
    pub(crate) fn first(&self) -> usize {
        if self.is_there { 1 } else { 0 }
    }

    /// Has the nth allocation from now on refused, and no other; none, where n is 0.
    pub(crate) fn refuse(&mut self, nth: usize) {
        let _ = self.ask(REFUSE.saturating_add(nth));
    }

    /// Whether one was refused since. Nothing is refused after that.
    pub(crate) fn has_refused(&mut self) -> bool {
        let refused = self.is_there && !self.ask(WAS_REFUSED);
        self.refuse(0);
        refused
    }
}
