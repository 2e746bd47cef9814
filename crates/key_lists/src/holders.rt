//! The holders of one key.

ghost use Rattle.std.specs.Prelude.{◌≡◌, true, false, [], if◌then◌else◌, find, IfOk};
ghost use Rattle.std.specs.Option.{option_copied};
ghost use Rattle.key_lists.specs.Holders.{blocked_by, given, holds, is_exclusive, is_in_way, without};

use std::alloc::{AllocError, Global};
use xa_xid::Xid;

/// How a branch holds a key.
#[derive(Clone, Copy, PartialEq, Eq)]
pub enum Mode {
    /// Beside other shared holders: for a read.
    Shared,
    /// Alone: for a write.
    Exclusive,
}

/// A branch that holds a key.
#[derive(Clone, Copy, PartialEq, Eq)]
pub struct Holder {
    pub xid: Xid,
    pub mode: Mode,
}

impl Mode {
    fn is_exclusive(self) -> bool
        ensures { result ≡ is_exclusive self }
    {
        matches!(self, Mode::Exclusive)
    }
}

impl Holder {
    /// Whether this holder is in the way of a branch's lock.
    fn is_in_way(&self, xid: &Xid, mode: Mode) -> bool
        ensures { result ≡ is_in_way xid.now mode self.now }
    {
        self.xid != *xid && (self.mode.is_exclusive() || mode.is_exclusive())
    }
}

/// The first holder in the way of a branch's lock.
fn find_in_way<'a>(holders: &'a [Holder], xid: &Xid, mode: Mode) -> Option<&'a Holder>
    ensures { option_copied result ≡ find (is_in_way xid.now mode) holders.now }
{
    holders.iter().find(|holder| holder.is_in_way(xid, mode))
}

/// The first branch in the way of a branch's lock; None if nobody is.
pub fn blocked_by(holders: &[Holder], xid: &Xid, mode: Mode) -> Option<Xid>
    ensures { result ≡ blocked_by holders.now xid.now mode }
{
    match find_in_way(holders, xid, mode) {
        None => None,
        Some(holder) => Some(holder.xid),
    }
}

/// Whether a branch is among the holders.
pub fn holds(holders: &[Holder], xid: &Xid) -> bool
    ensures { result ≡ holds holders.now xid.now }
{
    holders.iter().any(|holder| holder.xid == *xid)
}

/// The holders that stay beside a branch that gets the key in this mode.
fn beside(holders: &[Holder], mode: Mode) -> &[Holder]
    ensures { result.now ≡ (if is_exclusive mode then [] else holders.now) }
{
    match mode {
        Mode::Shared => holders,
        Mode::Exclusive => &[],
    }
}

/// The holders once the branch has the key in this mode: it goes last, but where it holds the key already.
pub fn given(
    alloc: Global,
    holders: &[Holder],
    xid: &Xid,
    mode: Mode,
) -> Result<Vec<Holder>, AllocError>
    ensures { IfOk result (λ list. list.items ≡ given holders.now xid.now mode) }
{
    let others = beside(holders, mode);
    let mut list = Vec::with_capacity(alloc, others.len() + 1)?;
    list.extend_from_slice(others)?;
    if !holds(others, xid) {
        list.push(Holder { xid: *xid, mode })?;
    }
    Ok(list)
}

/// Gives a branch that is among the holders the key in this mode. It takes no memory.
pub fn raise(holders: &mut Vec<Holder>, xid: &Xid, mode: Mode)
    requires { holds holders.old.items xid.now ≡ true }
    ensures { holders.new.items ≡ given holders.old.items xid.now mode }
{
    if mode.is_exclusive() {
        holders.truncate(1);
        holders[0] = Holder { xid: *xid, mode };
    }
}

/// Takes a branch from the holders. It takes no memory.
pub fn remove(holders: &mut Vec<Holder>, xid: &Xid)
    ensures { holders.new.items ≡ without holders.old.items xid.now }
{
    holders.retain(|holder| holder.xid != *xid);
}
