//! Scripts that are cut, or too long.

use explain_events::{Script, refusal_text};
use std::alloc::{AllocError, Global};
use tree_engine::{Failure, Status, TreeOutput, run_tree};
use xa_engine::run_xa;

/// A script that commits one transaction of two managers.
pub(crate) const FLAT_PA_COMMIT: &str =
    "[[process]]\nid = 1\nkind = \"coordinator\"\n[[process]]\nid = 2\nkind = \"manager\"\n\
     parent = 1\n[[process]]\nid = 3\nkind = \"manager\"\nparent = 1\n---\nbegin pa\n\
     join a1.1 2\njoin a1.1 3\nsettle\nwork a1.1 2 put x 1\nwork a1.1 3 put y 2\nsettle\n\
     commit a1.1\nsettle\n";

/// Whether a script's run ends so, and writes this text.
fn is_run(alloc: Global, mut script: &[u8], text: &[u8], status: Status) -> bool {
    let mut out = Vec::new(alloc);
    run_tree(alloc, TreeOutput::Trace, &mut script, &mut out) == Ok(status)
        && out.as_slice() == text
}

/// Whether a script is refused, or runs to its end.
fn is_refused_or_ends(alloc: Global, mut script: &[u8]) -> bool {
    let mut out = Vec::new(alloc);
    match run_tree(alloc, TreeOutput::Trace, &mut script, &mut out) {
        Ok(Status::Ended) => out.ends_with(b"end\n"),
        Ok(Status::Refused) => out.starts_with(b"error "),
        _ => false,
    }
}

/// The script cut at every byte is refused, or runs to its end.
pub(crate) fn every_front_of_a_script(alloc: Global) -> bool {
    let script = FLAT_PA_COMMIT.as_bytes();
    for cut in 0..script.len() {
        if !is_refused_or_ends(alloc, &script[..cut]) {
            return false;
        }
    }
    true
}

/// A script with N event lines.
fn long_script(alloc: Global, lines: u32) -> Result<Vec<u8>, AllocError> {
    let head = b"[[process]]\nid = 1\nkind = \"coordinator\"\n---\n";
    let mut script = Vec::from_slice(alloc, head)?;
    for _ in 0..lines {
        script.extend_from_slice(b"settle\n")?;
    }
    Ok(script)
}

/// Whether a script that is refused gets these lines.
fn is_told(alloc: Global, script: Script, input: &[u8], text: &str) -> Result<bool, Failure> {
    let told = refusal_text(alloc, script, input)?;
    Ok(told.as_str() == text)
}

/// 100,000 event lines are run, and one more is refused, and explained.
pub(crate) fn too_many_event_lines(alloc: Global) -> Result<bool, Failure> {
    let most = long_script(alloc, 100_000)?;
    let more = long_script(alloc, 100_001)?;
    let text = b"log 1 Opened 1 forced\nend\n";
    let why = "rstar: the script has more than 100000 event lines\n\
               wanted: at most 100,000 lines; split the script\n";
    Ok(
        is_run(alloc, &most, text, Status::Ended)
            && is_run(alloc, &more, b"error 5\n", Status::Refused)
            && is_told(alloc, Script::Tree, &more, why)?,
    )
}

/// 100,001 request lines are refused, and explained.
pub(crate) fn too_many_request_lines(alloc: Global) -> Result<bool, Failure> {
    let mut script = Vec::new(alloc);
    for _ in 0..100_001 {
        script.extend_from_slice(b"trim\n")?;
    }
    let mut out = Vec::new(alloc);
    let status = run_xa(alloc, &mut script.as_slice(), &mut out);
    let why = "rstar: the script has more than 100000 request lines\n\
               wanted: at most 100,000 lines; split the script\n";
    Ok(
        status == Ok(Status::Refused)
            && out.as_slice() == b"error 5\n".as_slice()
            && is_told(alloc, Script::Xa, &script, why)?,
    )
}
