//! What no script can show: streams and devices that fail, a script cut at every byte, and the calls of a
//! tree that runs.

use crate::{faults, floods, judges, reopenings, scripts, stops, streams, worlds};
use std::alloc::Global;

/// Whether the edge of this name holds. There is none of another name, nor where memory is refused.
pub(crate) fn holds(alloc: Global, name: &str) -> bool {
    match name {
        "a_reader_that_fails" => streams::a_reader_that_fails(alloc),
        "a_writer_that_fails" => streams::a_writer_that_fails(alloc),
        "streams_that_are_interrupted" => streams::streams_that_are_interrupted(alloc),
        "every_front_of_a_script" => scripts::every_front_of_a_script(alloc),
        "too_many_event_lines" => scripts::too_many_event_lines(alloc) == Ok(true),
        "too_many_request_lines" => scripts::too_many_request_lines(alloc) == Ok(true),
        "stores_are_refused" => worlds::stores_are_refused(alloc) == Ok(true),
        "a_world_runs" => worlds::a_world_runs(alloc) == Some(true),
        "a_root_fails_with_its_device" => worlds::a_root_fails_with_its_device(alloc) == Some(true),
        "faults_stand_in_the_trace" => faults::faults_stand_in_the_trace(alloc) == Some(true),
        "a_run_goes_on_after_a_fault" => faults::a_run_goes_on_after_a_fault(alloc) == Some(true),
        "a_promise_cut_at_each_byte" => stops::a_promise_cut_at_each_byte(alloc) == Some(true),
        "a_reopening_that_stops_at_each_write" => {
            reopenings::a_reopening_that_stops_at_each_write(alloc) == Some(true)
        }
        "floods_keep_the_promises" => floods::floods_keep_the_promises(alloc) == Some(true),
        "what_the_key_store_answers_conforms" => {
            judges::what_the_key_store_answers_conforms(alloc) == Some(true)
        }
        "nothing_is_left_live" => worlds::nothing_is_left_live(alloc) == Some(true),
        _ => false,
    }
}
