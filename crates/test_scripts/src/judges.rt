//! Rows of transcripts that are judged, and of plans of calls. A transcript is what the lines of a row's
//! input are; a plan's input is a line `SEED N`.

use judge_engine::{Extent, JudgeStatus, run_judge, run_plan};
use report_io::Failure;
use std::alloc::{AllocError, Global};
use std::str;
use xa_engine::run_xa;

/// Judges a transcript: the exit status, and what it writes. No status where it fails.
pub fn judged(alloc: Global, extent: Extent, mut input: &[u8], out: &mut Vec<u8>) -> Option<u8> {
    let ended: Result<_, Failure> = run_judge(alloc, extent, &mut input, out);
    Some(ended.ok()?.number())
}

/// Writes the plan that an input asks for: the exit status. No status where it fails.
pub fn planned(alloc: Global, input: &[u8], out: &mut Vec<u8>) -> Option<u8> {
    let text = str::from_utf8(input).ok()?;
    let (seed, count) = text.trim_end().split_once(' ')?;
    let ended: Result<_, Failure> = run_plan(alloc, seed.parse().ok()?, count.parse().ok()?, out);
    ended.ok()?;
    Some(0)
}

/// The transcript of a script of calls and of its answers, of a manager that does not force what ends a
/// branch.
fn transcript(alloc: Global, calls: &str, answers: &str) -> Result<Vec<u8>, AllocError> {
    let mut text = Vec::new(alloc);
    text.extend_from_slice(b"lacks forced\n")?;
    for (call, answer) in calls.lines().zip(answers.lines()) {
        text.extend_from_slice(call.as_bytes())?;
        text.extend_from_slice(b" -> ")?;
        text.extend_from_slice(answer.as_bytes())?;
        text.extend_from_slice(b"\n")?;
    }
    Ok(text)
}

/// Whether what the key store answers to the plan of a seed conforms.
fn conforms(alloc: Global, seed: u64) -> Option<bool> {
    let mut calls = Vec::new(alloc);
    let planned: Result<_, Failure> = run_plan(alloc, seed, 120, &mut calls);
    planned.ok()?;
    let mut answers = Vec::new(alloc);
    run_xa(alloc, &mut calls.as_slice(), &mut answers).ok()?;
    let calls = str::from_utf8(calls.as_slice()).ok()?;
    let answers = str::from_utf8(answers.as_slice()).ok()?;
    let text = transcript(alloc, calls, answers).ok()?;
    let mut out = Vec::new(alloc);
    let ended: Result<_, Failure> = run_judge(alloc, Extent::First, &mut text.as_slice(), &mut out);
    Some(ended.ok()? == JudgeStatus::Conforms)
}

/// Whether what the key store answers conforms, call by call, to the plans of ten seeds.
pub fn what_the_key_store_answers_conforms(alloc: Global) -> Option<bool> {
    for seed in 1..=10 {
        if !conforms(alloc, seed)? {
            return Some(false);
        }
    }
    Some(true)
}
