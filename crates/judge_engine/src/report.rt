//! The report of a judged transcript.

ghost use Rattle.std.specs.Prelude.{◌≡◌, ◌++◌, ◌∷◌, ◌-◌, List, ℕ, [], IfOk, OnOk, codes, map, slice_index_or};
ghost use Rattle.std.specs.Fmt.{decimal};
ghost use Rattle.judge_engine.specs.Reports.{IsBetween, IsFaultsText, TellsFaults, conforms_text, count_text, fault_lines, line_of, reasons_text};

use crate::admitted::push;
use crate::judging::{Extent, JudgeFault};
use crate::rule::rule_of;
use crate::sorts::{count, sort_of};
use judge_script::Transcript;
use std::alloc::{AllocError, Global};
use trace_lines::push_number;

/// The line of a number, counted from 1: empty, if there is none.
fn line_of<'a>(lines: &[&'a str], number: usize) -> &'a str
    ensures { result.now ≡ slice_index_or (map (λ s. s.now) lines.now) (number - 1) [] }
{
    match lines.get(number.saturating_sub(1)) {
        None => "",
        Some(line) => line,
    }
}

/// The number of the line of an event: 0, if there is none.
fn number_of(transcript: &Transcript, index: usize) -> usize
    ensures { result ≡ line_of transcript.now index }
{
    match transcript.lines.get(index) {
        None => 0,
        Some(number) => *number,
    }
}

/// Adds the line with which the report of a fault begins.
fn push_head(out: &mut Vec<u8>, number: usize, line: &str) -> Result<(), AllocError>
    ensures { OnOk result (out.new.items ≡ out.old.items
        ++ (codes "fault " ++ decimal number ++ codes ": " ++ line.now ++ 10 ∷ [])) }
{
    push(out, "fault ")?;
    push_number(out, number as u64)?;
    push(out, ": ")?;
    push(out, line)?;
    push(out, "\n")
}

/// The rule of an event: none, if there is no such event.
fn rule_at(transcript: &Transcript, index: usize) -> &'static str {
    match transcript.events.get(index) {
        None => "",
        Some(event) => rule_of(event.call),
    }
}

/// Adds how thread and branch are at a fault, what is admitted, and the rule.
fn push_reasons(out: &mut Vec<u8>, fault: &JudgeFault, rule: &str) -> Result<(), AllocError>
    ensures { OnOk result (out.new.items ≡ out.old.items ++ reasons_text fault.now rule.now) }
{
    push(out, "  state: ")?;
    out.extend_from_slice(&fault.standing)?;
    push(out, "\n  admitted: ")?;
    out.extend_from_slice(&fault.admitted)?;
    push(out, "\n  rule: ")?;
    push(out, rule)?;
    push(out, "\n")
}

/// Adds a fault.
fn push_fault(
    out: &mut Vec<u8>,
    transcript: &Transcript,
    lines: &[&str],
    fault: &JudgeFault,
) -> Result<(), AllocError>
    ensures { OnOk result ((rule : List ℕ) × (out.new.items ≡ out.old.items
        ++ fault_lines (map (λ s. s.now) lines.now) transcript.now fault.now rule)) }
{
    let number = number_of(transcript, fault.index);
    push_head(out, number, line_of(lines, number))?;
    push_reasons(out, fault, rule_at(transcript, fault.index))
}

/// The lines of faults.
fn faults_text(
    alloc: Global,
    transcript: &Transcript,
    lines: &[&str],
    faults: &[JudgeFault],
) -> Result<Vec<u8>, AllocError>
    ensures { IfOk result (λ text.
        TellsFaults (map (λ s. s.now) lines.now) transcript.now faults.now text.items) }
{
    let mut out = Vec::new(alloc);
    for fault in faults {
        push_fault(&mut out, transcript, lines, fault)?;
    }
    Ok(out)
}

/// How often each sort of fault was found, a line for each.
fn all_sorts(
    alloc: Global,
    transcript: &Transcript,
    lines: &[&str],
    faults: &[JudgeFault],
) -> Result<Vec<u8>, AllocError> {
    let mut sorts = Vec::new(alloc);
    for fault in faults {
        let line = line_of(lines, number_of(transcript, fault.index));
        count(&mut sorts, sort_of(alloc, line, fault)?)?;
    }
    let mut out = Vec::new(alloc);
    for sort in &sorts {
        push(&mut out, "sort ")?;
        push_number(&mut out, sort.count)?;
        push(&mut out, ": ")?;
        out.extend_from_slice(&sort.name)?;
        push(&mut out, "\n")?;
    }
    Ok(out)
}

/// What is told after the faults: how often each sort was found, if all are told.
fn sorts_text(
    alloc: Global,
    extent: Extent,
    transcript: &Transcript,
    lines: &[&str],
    faults: &[JudgeFault],
) -> Result<Vec<u8>, AllocError>
    ensures { IfOk result (λ text. IsBetween extent text.items) }
{
    match extent {
        Extent::First => Ok(Vec::new(alloc)),
        Extent::All => all_sorts(alloc, transcript, lines, faults),
    }
}

/// Adds how many faults there are, of how many calls.
fn push_count(out: &mut Vec<u8>, faults: usize, calls: usize) -> Result<(), AllocError>
    ensures { OnOk result (out.new.items ≡ out.old.items ++ count_text faults calls) }
{
    push(out, "faults ")?;
    push_number(out, faults as u64)?;
    push(out, " of ")?;
    push_number(out, calls as u64)?;
    push(out, " calls\n")
}

/// The report of a transcript that conforms.
pub(crate) fn conforms(alloc: Global, transcript: &Transcript) -> Result<Vec<u8>, AllocError>
    ensures { IfOk result (λ text. text.items ≡ conforms_text transcript.now) }
{
    let mut out = Vec::new(alloc);
    push(&mut out, "conforms ")?;
    push_number(&mut out, transcript.events.len() as u64)?;
    push(&mut out, " calls\n")?;
    Ok(out)
}

/// The report of faults: the first alone, or all.
pub(crate) fn faulty(
    alloc: Global,
    extent: Extent,
    transcript: &Transcript,
    lines: &[&str],
    faults: &[JudgeFault],
) -> Result<Vec<u8>, AllocError>
    ensures { IfOk result (λ text.
        IsFaultsText extent (map (λ s. s.now) lines.now) transcript.now faults.now text.items) }
{
    let mut out = faults_text(alloc, transcript, lines, faults)?;
    let sorts = sorts_text(alloc, extent, transcript, lines, faults)?;
    out.extend_from_slice(&sorts)?;
    push_count(&mut out, faults.len(), transcript.events.len())?;
    Ok(out)
}
