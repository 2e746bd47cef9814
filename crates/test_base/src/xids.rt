//! An XID as bytes and as text.

use log_text::xids::branch_xid;
use protocol::{Presumption, ProcessId, Ticket, Txn};
use std::test::Fail;
use xa_xid::{Xid, XidError};

#[test]
fn one_xid(rt: HostRuntime) -> Result<(), Fail> {
    let bytes = b"\0\0\0\x07\x01\x02\xaa\x00\xff".as_slice();
    let xid = Xid::from_bytes(bytes)?;
    assert_eq!(rt; xid.text(rt.alloc())?.as_str(), "7:aa:00ff");
    assert_eq!(rt; xid.to_bytes(rt.alloc())?.as_slice(), bytes);
    Ok(())
}

/// The number of a refusal; 0 where there is an XID.
fn number_of(made: Result<Xid, XidError>) -> u8 {
    match made {
        Ok(_) => 0,
        Err(error) => error.number(),
    }
}

/// The number of the refusal of these bytes; 0 of those of an XID.
fn refusal_of(bytes: &[u8]) -> u8 {
    number_of(Xid::from_bytes(bytes))
}

#[test]
fn bytes_that_are_too_few_or_too_many(rt: HostRuntime) {
    // format 7, a gtrid of 16 bytes and a bqual of 2
    let mut bytes = [0; 25];
    bytes[3] = 7;
    bytes[4] = 16;
    bytes[5] = 2;
    assert_eq!(rt; refusal_of(&bytes[..22]), 4);
    assert_eq!(rt; refusal_of(&bytes[..24]), 0);
    assert_eq!(rt; refusal_of(&bytes), 5);
}

#[test]
fn parts_that_are_too_long_or_negative(rt: HostRuntime) {
    let name = [1; 65];
    assert_eq!(rt; Xid::new(7, &name[..64], &[]).is_ok(), true);
    assert_eq!(rt; number_of(Xid::new(7, &name, &[])), 2);
    assert_eq!(rt; number_of(Xid::new(-1, &name[..1], &[])), 1);
    assert_eq!(rt; refusal_of(&[255, 255, 255, 255, 0, 0]), 0);
}

/// The bytes of a name's format, the lengths of its two parts, and the first part: the root, its boot and the
/// sequence.
const FRONT: &[u8] = b"\0\0\x0f\xa2\x14\x18\0\0\0\x01\0\0\0\0\0\0\0\x02\0\0\0\0\0\0\0\x03";

/// The bytes of its second part, below the root: the parent, the child, the child's boot and the number of
/// its ticket.
const BEHIND: &[u8] = b"\0\0\0\x01\0\0\0\x04\0\0\0\0\0\0\0\x05\0\0\0\0\0\0\0\x06";

/// The XIDs of a transaction's case at the root, whose second part is empty, and of one below it.
#[test]
fn two_xids_of_branches(rt: HostRuntime) -> Result<(), Fail> {
    let txn = Txn {
        root: ProcessId(1),
        boot: 2,
        sequence: 3,
        presumption: Presumption::PresumeCommit,
    };
    let ticket = Ticket {
        child: ProcessId(4),
        boot: 5,
        number: 6,
    };
    let mut below = Vec::from_slice(rt.alloc(), FRONT)?;
    below.extend_from_slice(BEHIND)?;
    let found = branch_xid(txn, Some((ProcessId(1), ticket)));
    assert_eq!(rt; found.to_bytes(rt.alloc())?.as_slice(), below.as_slice());
    let mut root = Vec::from_slice(rt.alloc(), FRONT)?;
    if let Some(length) = root.get_mut(5) {
        *length = 0;
    }
    let found = branch_xid(txn, None);
    assert_eq!(rt; found.to_bytes(rt.alloc())?.as_slice(), root.as_slice());
    Ok(())
}
