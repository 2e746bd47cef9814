//! The calls that a store asked of its file, in order, shared by the file and by whoever makes them.

use crate::call::{CallKind, FileCall};
use std::alloc::{AllocError, Global};
use std::cell::Cell;
use std::rc::Rc;

/// The calls that were asked for and are not made yet, the first one first.
#[derive(Drop)]
pub struct Calls {
    alloc: Global,
    left: Rc<Cell<Vec<FileCall>>, Global>,
}

/// The call that is to be made next.
#[derive(Clone, Copy)]
pub struct NextCall {
    pub kind: CallKind,
    /// After how many bytes of the file it writes.
    pub place: u64,
    /// How many bytes it has.
    pub size: usize,
}

/// Copies bytes to the front of a room, and gives their number. If they are more nothing is copied.
fn copy_into(bytes: &[u8], room: &mut [u8]) -> usize {
    let size = bytes.len();
    if size <= room.len() {
        let (front, _) = room.split_at_mut(size);
        front.copy_from_slice(bytes);
    }
    size
}

/// A call, with its bytes copied to the front of a room if they fit.
fn shown(call: &FileCall, room: &mut [u8]) -> NextCall {
    match call {
        FileCall::Write(place, bytes) => NextCall {
            kind: CallKind::Write,
            place: *place,
            size: copy_into(bytes, room),
        },
        FileCall::Sync => NextCall {
            kind: CallKind::Sync,
            place: 0,
            size: 0,
        },
        FileCall::Replace(bytes) => NextCall {
            kind: CallKind::Replace,
            place: 0,
            size: copy_into(bytes, room),
        },
    }
}

impl Calls {
    /// No call was asked for yet.
    pub fn new(alloc: Global) -> Result<Calls, AllocError> {
        match Rc::new(alloc, Cell::new(Vec::new(alloc))) {
            Ok(left) => Ok(Calls { alloc, left }),
            Err(_) => Err(AllocError),
        }
    }

    /// These calls, for somebody else.
    pub fn shared(&self) -> Result<Calls, AllocError> {
        Ok(Calls {
            alloc: self.alloc,
            left: self.left.clone()?,
        })
    }

    /// How many calls are left.
    pub fn len(&self) -> usize {
        let left = self.left.replace(Vec::new(self.alloc));
        let count = left.len();
        self.left.set(left);
        count
    }

    /// Asks for one more call, after the others. Err: it is not asked for.
    pub(crate) fn ask(&self, call: FileCall) -> Result<(), AllocError> {
        let mut left = self.left.replace(Vec::new(self.alloc));
        let asked = match left.push(call) {
            Ok(()) => Ok(()),
            Err(_) => Err(AllocError),
        };
        self.left.set(left);
        asked
    }

    /// The call that is to be made next, with its bytes copied to the front of a room if they fit; None, if
    /// no call is left.
    pub fn show_next(&self, room: &mut [u8]) -> Option<NextCall> {
        let left = self.left.replace(Vec::new(self.alloc));
        let next = match left.first() {
            Some(call) => Some(shown(call, room)),
            None => None,
        };
        self.left.set(left);
        next
    }

    /// The call that was to be made next is no longer left.
    pub fn pass(&self) {
        let mut left = self.left.replace(Vec::new(self.alloc));
        if !left.is_empty() {
            let _ = left.remove(0);
        }
        self.left.set(left);
    }

    /// No call is left.
    pub fn clear(&self) {
        self.left.set(Vec::new(self.alloc));
    }
}
