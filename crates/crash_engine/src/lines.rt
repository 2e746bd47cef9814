//! The lines of crashes.

ghost use Rattle.std.specs.Prelude.{◌≡◌, ◌++◌, IfOk, OnOk};
ghost use Rattle.tree_engine.specs.Trees.{IsNumberedRefusal};
ghost use Rattle.crash_engine.specs.Texts.{alone_text, are_clean, cases_text, crashes_text, delivery_text, doubt_count, found_text, has_doubt, has_mismatch, is_clean, left_text, mismatch_count, place_text, point_text, refusal_text, totals_text, trial_text};
ghost use Rattle.std.specs.List.{flat_map};
ghost use Rattle.trace_lines.specs.Trace.{case_word, number_word};

use crate::auditing::Leftover;
use crate::points::{CrashPlace, Point};
use crate::trial::CrashEnd;
use crate::trials::Trial;
use protocol::Case;
use std::alloc::{AllocError, Global};
use trace_lines::{push, push_case_word, push_number_word};
use tree_engine::{Refusal, push_refused};

/// Each of these cases.
fn push_each(out: &mut Vec<u8>, cases: &[Case]) -> Result<(), AllocError>
    ensures { OnOk result (out.new.items ≡ out.old.items ++ flat_map case_word cases.now) }
{
    for case in cases {
        push_case_word(out, case)?;
    }
    Ok(())
}

/// A word and cases after it, if there are any.
#[tactic(auto, unfolding(crate::specs::Texts::cases_text))]
fn push_cases(out: &mut Vec<u8>, word: &str, cases: &[Case]) -> Result<(), AllocError>
    ensures { OnOk result (out.new.items ≡ out.old.items ++ cases_text word.now cases.now) }
{
    if cases.len() == 0 {
        return Ok(());
    }
    push(out, word)?;
    push_each(out, cases)
}

#[tactic(auto, unfolding(crate::specs::Texts::left_text))]
fn push_left(out: &mut Vec<u8>, left: &Leftover) -> Result<(), AllocError>
    ensures { OnOk result (out.new.items ≡ out.old.items ++ left_text left.now) }
{
    push_cases(out, " in-doubt", &left.in_doubt)?;
    push_cases(out, " mismatch", &left.mismatches)
}

/// A word and two numbers.
fn push_two(out: &mut Vec<u8>, word: &str, one: u64, other: u64) -> Result<(), AllocError>
    ensures { OnOk result (out.new.items
        ≡ out.old.items ++ (word.now ++ number_word one ++ number_word other)) }
{
    push(out, word)?;
    push_number_word(out, one)?;
    push_number_word(out, other)
}

/// What a crash ends with.
#[tactic(auto, unfolding(crate::specs::Texts::found_text))]
fn push_found(out: &mut Vec<u8>, found: &CrashEnd) -> Result<(), AllocError>
    ensures { OnOk result (out.new.items ≡ out.old.items ++ found_text found.now) }
{
    match found {
        CrashEnd::Ended(left) => push_left(out, left),
        CrashEnd::Refused(event, refusal) => {
            push_two(out, " refused", *event, u64::from(refusal.number()))
        }
        CrashEnd::Damaged(process, place) => {
            push_two(out, " damaged", u64::from(process.0), *place as u64)
        }
    }
}

/// Whether nothing is left.
pub(crate) fn is_clean(found: &CrashEnd) -> bool
    ensures { result ≡ is_clean found.now }
{
    match found {
        CrashEnd::Ended(left) => left.in_doubt.len() == 0 && left.mismatches.len() == 0,
        _ => false,
    }
}

/// Whether a case is left in doubt.
fn has_doubt(found: &CrashEnd) -> bool
    ensures { result ≡ has_doubt found.now }
{
    match found {
        CrashEnd::Ended(left) => left.in_doubt.len() != 0,
        _ => false,
    }
}

/// Whether a mismatch is left.
fn has_mismatch(found: &CrashEnd) -> bool
    ensures { result ≡ has_mismatch found.now }
{
    match found {
        CrashEnd::Ended(left) => left.mismatches.len() != 0,
        _ => false,
    }
}

/// After how many deliveries, if it is within a settle.
fn push_delivery(out: &mut Vec<u8>, delivery: usize) -> Result<(), AllocError>
    ensures { OnOk result (out.new.items ≡ out.old.items ++ delivery_text delivery) }
{
    if delivery == 0 {
        return Ok(());
    }
    push(out, " delivery")?;
    push_number_word(out, delivery as u64)
}

/// After which event, or within which.
#[tactic(auto, unfolding(crate::specs::Texts::place_text))]
fn push_place(out: &mut Vec<u8>, place: CrashPlace) -> Result<(), AllocError>
    ensures { OnOk result (out.new.items ≡ out.old.items ++ place_text place) }
{
    push(out, "event")?;
    push_number_word(out, place.event as u64)?;
    push_delivery(out, place.delivery)
}

/// Where the crash is.
#[tactic(auto, unfolding(crate::specs::Texts::point_text))]
fn push_point(out: &mut Vec<u8>, place: CrashPlace, point: Point) -> Result<(), AllocError>
    ensures { OnOk result (out.new.items ≡ out.old.items ++ point_text place point) }
{
    push_place(out, place)?;
    push_two(out, " restart", u64::from(point.process.0), point.keep)?;
    push(out, ":")
}

/// The line of a crash, where something is left.
#[tactic(auto, unfolding(crate::specs::Texts::trial_text))]
fn push_trial(out: &mut Vec<u8>, trial: &Trial) -> Result<(), AllocError>
    ensures { OnOk result (out.new.items ≡ out.old.items ++ trial_text trial.now) }
{
    if is_clean(&trial.found) {
        return Ok(());
    }
    push_point(out, trial.place, trial.point)?;
    push_found(out, &trial.found)?;
    push(out, "\n")
}

/// How many of these leave a case in doubt.
#[tactic(auto, unfolding(crate::specs::Texts::doubt_count))]
fn count_doubts(trials: &[Trial]) -> usize
    ensures { result ≡ doubt_count trials.now }
{
    trials
        .iter()
        .filter(|trial| has_doubt(&trial.found))
        .count()
}

/// How many of these leave a mismatch.
#[tactic(auto, unfolding(crate::specs::Texts::mismatch_count))]
fn count_mismatches(trials: &[Trial]) -> usize
    ensures { result ≡ mismatch_count trials.now }
{
    trials
        .iter()
        .filter(|trial| has_mismatch(&trial.found))
        .count()
}

/// Adds a word, a space and a number.
fn push_count(out: &mut Vec<u8>, word: &str, count: usize) -> Result<(), AllocError>
    ensures { OnOk result (out.new.items ≡ out.old.items ++ (word.now ++ number_word count)) }
{
    push(out, word)?;
    push_number_word(out, count as u64)
}

/// The line of the numbers.
#[tactic(auto, unfolding(crate::specs::Texts::totals_text))]
fn push_totals(out: &mut Vec<u8>, trials: &[Trial]) -> Result<(), AllocError>
    ensures { OnOk result (out.new.items ≡ out.old.items ++ totals_text trials.now) }
{
    push_count(out, "points", trials.len())?;
    push_count(out, " in-doubt", count_doubts(trials))?;
    push_count(out, " mismatches", count_mismatches(trials))?;
    push(out, "\n")
}

/// Whether nothing is left of any of them.
pub fn are_clean(trials: &[Trial]) -> bool
    ensures { result ≡ are_clean trials.now }
{
    trials.iter().all(|trial| is_clean(&trial.found))
}

fn push_trials(out: &mut Vec<u8>, trials: &[Trial]) -> Result<(), AllocError>
    ensures { OnOk result (out.new.items ≡ out.old.items ++ flat_map trial_text trials.now) }
{
    for trial in trials {
        push_trial(out, trial)?;
    }
    Ok(())
}

/// The line of the refused event, if one was refused.
fn push_refusal(alloc: Global, out: &mut Vec<u8>, refusal: Refusal) -> Result<(), AllocError>
    requires { IsNumberedRefusal refusal }
    ensures { OnOk result (out.new.items ≡ out.old.items ++ refusal_text refusal) }
{
    match refusal {
        None => Ok(()),
        Some((made, refusal)) => push_refused(alloc, out, made as u64 + 1, refusal.number()),
    }
}

/// The line of what is left without any crash, where something is.
#[tactic(auto, unfolding(crate::specs::Texts::alone_text))]
fn push_alone(out: &mut Vec<u8>, alone: &CrashEnd) -> Result<(), AllocError>
    ensures { OnOk result (out.new.items ≡ out.old.items ++ alone_text alone.now) }
{
    if is_clean(alone) {
        return Ok(());
    }
    push(out, "no crash:")?;
    push_found(out, alone)?;
    push(out, "\n")
}

/// What is left without any crash, a line for each crash that leaves more, the numbers, and which event was
/// refused, if one was.
pub fn text_of(
    alloc: Global,
    alone: &CrashEnd,
    trials: &[Trial],
    refusal: Refusal,
) -> Result<Vec<u8>, AllocError>
    requires { IsNumberedRefusal refusal }
    ensures { IfOk result (λ text. text.items ≡ crashes_text alone.now trials.now refusal) }
{
    let mut out = Vec::new(alloc);
    push_alone(&mut out, alone)?;
    push_trials(&mut out, trials)?;
    push_totals(&mut out, trials)?;
    push_refusal(alloc, &mut out, refusal)?;
    Ok(out)
}
