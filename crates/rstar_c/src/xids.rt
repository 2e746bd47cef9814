//! What C calls of XIDs: the names of branches.

use linked_node::{DONE, FOREIGN, MEMORY, NO_CASE, copy_into};
use log_text::{name_in, name_xid};
use protocol::{BranchName, ProcessId};
use std::alloc::Global;
use std::str;
use trace_lines::case_text;
use tree_script::case_of;
use xa_xid::{Xid, XidError};

/// The number of why there is no XID: 31 to 36.
fn xid_number(error: XidError) -> u32 {
    30 + u32::from(error.number())
}

/// Spells the XID that these bytes are.
#[unsafe(no_mangle)]
pub extern "C" fn rstar_xid_text(
    alloc: Global,
    bytes: &[u8],
    room: &mut [u8],
    size: &mut usize,
) -> u32 {
    *size = 0;
    let xid = match Xid::from_bytes(bytes) {
        Ok(xid) => xid,
        Err(error) => return xid_number(error),
    };
    match xid.text(alloc) {
        Ok(text) => {
            *size = copy_into(text.as_bytes(), room);
            DONE
        }
        Err(_) => MEMORY,
    }
}

/// Gives the bytes of the XID that a text spells.
#[unsafe(no_mangle)]
pub extern "C" fn rstar_xid_bytes(
    alloc: Global,
    text: &[u8],
    room: &mut [u8],
    size: &mut usize,
) -> u32 {
    *size = 0;
    let Ok(text) = str::from_utf8(text) else {
        return xid_number(XidError::Syntax);
    };
    let xid = match Xid::parse(text) {
        Ok(xid) => xid,
        Err(error) => return xid_number(error),
    };
    match xid.to_bytes(alloc) {
        Ok(bytes) => {
            *size = copy_into(&bytes, room);
            DONE
        }
        Err(_) => MEMORY,
    }
}

/// Gives the bytes of the XID of a case: the root of its tree, the parent of the case's process (0 at the
/// root), and the case as a trace spells it.
#[unsafe(no_mangle)]
pub extern "C" fn rstar_xid_of_case(
    alloc: Global,
    root: u32,
    parent: u32,
    case: &[u8],
    room: &mut [u8],
    size: &mut usize,
) -> u32 {
    *size = 0;
    let Ok(text) = str::from_utf8(case) else {
        return NO_CASE;
    };
    let Some(case) = case_of(ProcessId(root), text) else {
        return NO_CASE;
    };
    if case.ticket.is_some() != (parent != 0) {
        return NO_CASE;
    }
    let above = if parent == 0 {
        None
    } else {
        Some(ProcessId(parent))
    };
    match name_xid(above, BranchName::Case(case)).to_bytes(alloc) {
        Ok(bytes) => {
            *size = copy_into(&bytes, room);
            DONE
        }
        Err(_) => MEMORY,
    }
}

/// Spells the case that an XID of these bytes names, and gives its root and its parent (0 at the root).
#[unsafe(no_mangle)]
pub extern "C" fn rstar_xid_case(
    alloc: Global,
    bytes: &[u8],
    root: &mut u32,
    parent: &mut u32,
    room: &mut [u8],
    size: &mut usize,
) -> u32 {
    *size = 0;
    let xid = match Xid::from_bytes(bytes) {
        Ok(xid) => xid,
        Err(error) => return xid_number(error),
    };
    let (above, branch) = name_in(&xid);
    let BranchName::Case(case) = branch else {
        return FOREIGN;
    };
    match case_text(alloc, &case) {
        Ok(text) => {
            *root = case.txn.root.0;
            *parent = match above {
                Some(ProcessId(number)) => number,
                None => 0,
            };
            *size = copy_into(&text, room);
            DONE
        }
        Err(_) => MEMORY,
    }
}
