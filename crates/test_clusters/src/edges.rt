//! The rows that are functions.

use crate::callers::ok_is_in_the_journal;
use crate::deliveries::each_message_once;
use crate::floods::journal_is_full;
use crate::meeting::two_steps_meet;
use crate::restarts::restarts_under_way;
use crate::works::works_keep_their_order;
use std::alloc::Global;
use std::sync::Wait;
use std::thread::Threads;

/// Whether the edge of this name holds.
pub fn holds<R: Threads + Wait + Sync>(rt: &R, alloc: Global, name: &str) -> bool {
    let held = match name {
        "two_steps_meet" => two_steps_meet(rt, alloc, 4),
        "two_steps_meet_of_sixteen_workers" => two_steps_meet(rt, alloc, 16),
        "one_worker_gives_up" => two_steps_meet(rt, alloc, 1).map(|met| !met),
        "ok_is_in_the_journal" => ok_is_in_the_journal(rt, alloc),
        "each_message_once" => each_message_once(rt, alloc, 4),
        "each_message_once_by_sixteen_workers" => each_message_once(rt, alloc, 16),
        "works_keep_their_order" => works_keep_their_order(rt, alloc, 4),
        "works_keep_their_order_by_one_worker" => works_keep_their_order(rt, alloc, 1),
        "works_keep_their_order_by_sixteen_workers" => works_keep_their_order(rt, alloc, 16),
        "restarts_under_way" => restarts_under_way(rt, alloc),
        "journal_is_full" => journal_is_full(rt, alloc),
        _ => None,
    };
    held == Some(true)
}
