//! The engine of `rstar judge`.

ghost use Rattle.std.specs.Prelude.{◌≡◌, ℕ, List, IfOk, IfErr};
ghost use Rattle.std.specs.Io.KnownBytes.{Appends, Keeps};
ghost use Rattle.std.specs.Str.{IsUtf8};
ghost use Rattle.report_io.specs.Streams.{IsInput, WritesFront};
ghost use Rattle.judge_script.specs.Transcripts.{IsTranscript};
ghost use Rattle.judge_engine.specs.declared.run.JudgeStatus.{JudgeStatus as AnyEnding};
ghost use Rattle.judge_engine.specs.Reports.{IsRefusal, IsReport, ending_number, refusal_text};

use crate::judging::{Extent, faults};
use crate::report::{conforms, faulty};
use judge_rules::JudgeError;
use judge_script::{Transcript, transcript_of};
use report_io::{Failure, read_all, write_all};
use script_words::lines_of;
use std::alloc::{AllocError, Global};
use std::io::{Read, Write};
use std::str;
use trace_lines::{push, push_number};

/// How a run of the judge ended.
#[derive(Clone, Copy, PartialEq, Eq)]
pub enum JudgeStatus {
    /// The transcript is that of a legal history.
    Conforms,
    /// It was refused.
    Refused,
    /// It has a fault.
    Faulty,
}

impl JudgeStatus {
    /// The exit status.
    pub fn number(self) -> u8
        ensures { result ≡ ending_number self }
    {
        match self {
            JudgeStatus::Conforms => 0,
            JudgeStatus::Refused => 1,
            JudgeStatus::Faulty => 3,
        }
    }
}

/// Why a transcript is refused.
#[derive(Clone, Copy, PartialEq, Eq)]
enum Refusal {
    /// A line of nothing.
    Line(usize),
    /// It is no UTF-8.
    Utf8,
    /// More states are possible than can be gone through.
    TooMany,
}

/// The line of a refused transcript.
fn refused(alloc: Global, refusal: Refusal) -> Result<(Vec<u8>, JudgeStatus), AllocError>
    ensures text { IfOk result (λ r. r.0.items ≡ refusal_text refusal) }
    ensures ending { IfOk result (λ r. r.1 ≡ JudgeStatus.Refused) }
{
    let mut out = Vec::new(alloc);
    match refusal {
        Refusal::Utf8 => push(&mut out, "error 4\n")?,
        Refusal::TooMany => push(&mut out, "error 5\n")?,
        Refusal::Line(number) => {
            push(&mut out, "error 3 ")?;
            push_number(&mut out, number as u64)?;
            push(&mut out, "\n")?;
        }
    }
    Ok((out, JudgeStatus::Refused))
}

/// The verdict of a transcript.
fn verdict(
    alloc: Global,
    extent: Extent,
    transcript: &Transcript,
    text: &str,
) -> Result<(Vec<u8>, JudgeStatus), AllocError>
    requires text { IsUtf8 text.now }
    requires read { IsTranscript text.now transcript.now }
    ensures { IfOk result (λ r. IsReport extent r.1 text.now r.0.items) }
{
    let lines = lines_of(alloc, text)?;
    match faults(alloc, extent, transcript) {
        Err(JudgeError::Memory) => Err(AllocError),
        Err(JudgeError::TooMany) => refused(alloc, Refusal::TooMany),
        Ok(found) => {
            if found.is_empty() {
                Ok((conforms(alloc, transcript)?, JudgeStatus::Conforms))
            } else {
                let out = faulty(alloc, extent, transcript, &lines, &found)?;
                Ok((out, JudgeStatus::Faulty))
            }
        }
    }
}

/// The answer to an input.
fn report(alloc: Global, extent: Extent, input: &[u8]) -> Result<(Vec<u8>, JudgeStatus), AllocError>
    ensures { IfOk result (λ r. IsReport extent r.1 input.now r.0.items) }
{
    let Ok(text) = str::from_utf8(input) else {
        return refused(alloc, Refusal::Utf8);
    };
    match transcript_of(alloc, text)? {
        Ok(transcript) => verdict(alloc, extent, &transcript, text),
        Err(number) => refused(alloc, Refusal::Line(number)),
    }
}

/// Reads a transcript, judges it, and writes the verdict; or one line that says why the transcript is
/// refused. After a failed read, or where memory is refused, nothing was written; after a failed write, a
/// beginning of the text.
pub fn run_judge<R: Read, W: Write>(
    alloc: Global,
    extent: Extent,
    reader: &mut R,
    writer: &mut W,
) -> Result<JudgeStatus, Failure>
    ensures written { IfOk result (λ ending. (input : List ℕ) × (text : List ℕ)
        × IsInput (R.remaining reader.old) input × IsReport extent ending input text
        × Appends (W.contents writer.old) (W.contents writer.new) text) }
    ensures cut { IfErr result (λ e. e ≡ Failure.Write → (input : List ℕ)
        × (text : List ℕ) × (ending : AnyEnding)
        × IsInput (R.remaining reader.old) input × IsReport extent ending input text
        × WritesFront (W.contents writer.old) (W.contents writer.new) text) }
    ensures unread { IfErr result (λ e. e ≡ Failure.Read
        → Keeps (W.contents writer.old) (W.contents writer.new)) }
    ensures memory { IfErr result (λ e. e ≡ Failure.Memory
        → Keeps (W.contents writer.old) (W.contents writer.new)) }
{
    let input = read_all(alloc, reader)?;
    let (text, ending) = report(alloc, extent, &input)?;
    match write_all(writer, &text) {
        Ok(()) => Ok(ending),
        Err(failure) => Err(failure),
    }
}
