//! What C calls of an audit: texts of logs, without a node.

ghost use Rattle.rstar_c.specs.Texts.{Audits, Logs, detail_by};

use audit_engine::{Detail, run_audit, run_log};
use linked_node::{DONE, MEMORY, copy_into};
use std::alloc::Global;

/// Audits the logs of a tree, as `rstar audit` does; with `--explain` if that is asked for.
#[unsafe(no_mangle)]
pub extern "C" fn rstar_audit(
    alloc: Global,
    logs: &[u8],
    is_explained: u32,
    room: &mut [u8],
    size: &mut usize,
    ending: &mut u32,
) -> u32
    ensures { Audits (detail_by is_explained) logs.now room.old room.new size.new ending.new result }
{
    let detail = if is_explained == 0 {
        Detail::Lines
    } else {
        Detail::Explained
    };
    let mut text = Vec::new(alloc);
    match run_audit(alloc, detail, &mut &*logs, &mut text) {
        Ok(how) => {
            *ending = u32::from(how.number());
            *size = copy_into(&text, room);
            DONE
        }
        Err(_) => {
            *ending = 4;
            *size = 0;
            MEMORY
        }
    }
}

/// Writes what the logs of a tree hold, as `rstar log` does.
#[unsafe(no_mangle)]
pub extern "C" fn rstar_log(
    alloc: Global,
    logs: &[u8],
    room: &mut [u8],
    size: &mut usize,
    ending: &mut u32,
) -> u32
    ensures { Logs logs.now room.old room.new size.new ending.new result }
{
    let mut text = Vec::new(alloc);
    match run_log(alloc, &mut &*logs, &mut text) {
        Ok(how) => {
            *ending = u32::from(how.number());
            *size = copy_into(&text, room);
            DONE
        }
        Err(_) => {
            *ending = 4;
            *size = 0;
            MEMORY
        }
    }
}
