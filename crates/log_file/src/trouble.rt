//! What the system said of the last call that failed.

use std::alloc::{AllocError, Global};
use std::cell::Cell;
use std::io;
use std::rc::Rc;

/// The error of the last call of the system that failed under a file. A store tells that its device failed;
/// who let go of the store, or gave it away, has the reason here.
#[derive(Drop)]
pub struct Trouble {
    last: Rc<Cell<Option<io::Error>>, Global>,
}

impl Trouble {
    /// No call has failed yet.
    pub(crate) fn new(alloc: Global) -> Result<Trouble, AllocError> {
        match Rc::new(alloc, Cell::new(None)) {
            Ok(last) => Ok(Trouble { last }),
            Err(_) => Err(AllocError),
        }
    }

    /// Another handle, for somebody else: both tell the error of the last call that failed.
    pub fn shared(&self) -> Result<Trouble, AllocError> {
        Ok(Trouble {
            last: self.last.clone()?,
        })
    }

    /// The error of the last call that failed; None, if none did.
    pub fn last(&self) -> Option<io::Error> {
        self.last.get()
    }

    /// Keeps the error of a call, if it failed, and hands its answer on.
    pub(crate) fn note(&self, answer: io::Result<()>) -> io::Result<()> {
        if let Err(error) = answer {
            self.last.set(Some(error));
        }
        answer
    }
}
