//! The text of the records that stay in a trim.

ghost use Rattle.std.specs.Prelude.{◌≡◌, ◌≤◌, ◌++◌, [], true, IfNone, IfOk, IfSome, OnOk, if◌then◌else◌, length, map};
ghost use Rattle.log_text.specs.Forms.{header};
ghost use Rattle.log_text.specs.Made.{frame_record};
ghost use Rattle.log_text.specs.Payloads.{records_text};
ghost use Rattle.log_rules.specs.trim.Trims.{front_of_trim, last_opened};
ghost use Rattle.log_rules.specs.trim.Tables.{lives_of, picked};
ghost use Rattle.log_text.specs.Marks.{opens};
ghost use Rattle.log_records.specs.Sights.{AreRecords};
ghost use Rattle.log_records.specs.Texts.{is_whole, records_in};
ghost use Rattle.log_records.specs.Trimming.{BeginsWith, Holds, Spells, opened_count};

use crate::log::push_frames;
use log_rules::trim::Lives;
use log_text::{Frame, LogForm, LogFormat, TrimMark, first_frame};
use std::alloc::{AllocError, Global};

/// Records that stay: their frames, and how many they are.
#[derive(Drop)]
struct Staying {
    frames: Vec<u8>,
    count: usize,
}

/// A log of what stays in a trim: all its bytes, and how many records they are.
#[derive(Drop)]
pub(crate) struct TrimmedText {
    pub(crate) text: Vec<u8>,
    pub(crate) count: usize,
}

/// The first frame of bytes that are whole records, the mark of its record, and the bytes after it.
fn frame_at(form: LogForm, bytes: &[u8]) -> Option<(&[u8], TrimMark, &[u8])>
    requires { is_whole form 0 bytes.now ≡ true }
    ensures some { IfSome result (λ r. BeginsWith form bytes.now r.0.now r.1 r.2.now) }
    ensures none { IfNone result (records_in form 0 bytes.now ≡ []) }
{
    match first_frame(form.format, bytes) {
        Some((kind, payload, rest)) => {
            let (frame, _) = bytes.split_at(bytes.len() - rest.len());
            Some((frame, TrimMark::in_frame(kind, payload), rest))
        }
        None => None,
    }
}

/// The frame of the last Opened, with one more record of this mark and frame.
fn last_opened<'a>(opened: &'a [u8], mark: &TrimMark, frame: &'a [u8]) -> &'a [u8]
    ensures { result.now ≡ (if opens mark.now.deed then frame.now else opened.now) }
{
    if mark.is_opened() { frame } else { opened }
}

/// The frame of the last Opened, and what the records say of each name. No bytes if there is no Opened.
fn read_marks<'a>(
    alloc: Global,
    form: LogForm,
    bytes: &'a [u8],
) -> Result<(&'a [u8], Lives), AllocError>
    requires { is_whole form 0 bytes.now ≡ true }
    ensures opened { IfOk result (λ r. Holds form r.0.now (last_opened (records_in form 0 bytes.now))) }
    ensures lives { IfOk result (λ r. r.1 ≡ lives_of (records_in form 0 bytes.now)) }
{
    let mut opened: &'a [u8] = &[];
    let mut lives = Lives::new(alloc);
    let mut place = 0;
    let mut rest = bytes;
    while let Some((frame, mark, after)) = frame_at(form, rest) {
        opened = last_opened(opened, &mark, frame);
        lives.note(place, &mark)?;
        place += 1;
        rest = after;
    }
    Ok((opened, lives))
}

/// Adds a frame that is to be kept.
fn keep_frame(keeps: bool, frames: &mut Vec<u8>, frame: &[u8]) -> Result<(), AllocError>
    ensures { OnOk result (frames.new.items ≡ frames.old.items ++ (if keeps then frame.now else [])) }
{
    if keeps {
        frames.extend_from_slice(frame)?;
    }
    Ok(())
}

/// How many records a frame adds that is to be kept.
fn one_if(keeps: bool) -> usize
    ensures { result ≡ (if keeps then 1 else 0) }
{
    if keeps { 1 } else { 0 }
}

/// The records that stay, of those in these bytes.
fn kept_frames(
    alloc: Global,
    form: LogForm,
    bytes: &[u8],
    lives: &Lives,
) -> Result<Staying, AllocError>
    requires { is_whole form 0 bytes.now ≡ true }
    ensures held { IfOk result (λ kept. Holds form kept.frames.items
        (picked lives.now 0 (records_in form 0 bytes.now))) }
    ensures count { IfOk result (λ kept. kept.count
        ≡ length (picked lives.now 0 (records_in form 0 bytes.now))) }
    ensures few { IfOk result (λ kept. kept.count ≤ length bytes.now) }
{
    let mut frames = Vec::new(alloc);
    let mut count = 0;
    let mut place = 0;
    let mut rest = bytes;
    while let Some((frame, mark, after)) = frame_at(form, rest) {
        let keeps = lives.keeps(place, &mark);
        keep_frame(keeps, &mut frames, frame)?;
        count += one_if(keeps);
        place += 1;
        rest = after;
    }
    Ok(Staying { frames, count })
}

/// A text of the header, the frame of the last Opened, and the frames that stay.
fn front_text(
    alloc: Global,
    format: LogFormat,
    opened: &[u8],
    frames: &[u8],
) -> Result<Vec<u8>, AllocError>
    ensures { IfOk result (λ text. text.items ≡ (header format ++ opened.now) ++ frames.now) }
{
    let mut text = Vec::from_slice(alloc, &format.header())?;
    text.extend_from_slice(opened)?;
    text.extend_from_slice(frames)?;
    Ok(text)
}

/// How many records the frame of the last Opened is.
fn opened_count(opened: &[u8]) -> usize
    ensures { result ≡ opened_count opened.now }
{
    if opened.is_empty() { 0 } else { 1 }
}

/// A log of what stays of the records in these bytes, and of these records after it.
pub(crate) fn trimmed_text(
    alloc: Global,
    form: LogForm,
    bytes: &[u8],
    behind: &[Frame],
) -> Result<TrimmedText, AllocError>
    requires second { form.format ≡ LogFormat.Second }
    requires records { AreRecords form.kind (map frame_record behind.now) }
    requires whole { is_whole form 0 bytes.now ≡ true }
    ensures text { IfOk result (λ log. Spells form log.text.items
        (front_of_trim (records_in form 0 bytes.now) ++ map frame_record behind.now)) }
    ensures count { IfOk result (λ log. log.count
        ≡ length (front_of_trim (records_in form 0 bytes.now) ++ map frame_record behind.now)) }
{
    let (opened, lives) = read_marks(alloc, form, bytes)?;
    let kept = kept_frames(alloc, form, bytes, &lives)?;
    let mut text = front_text(alloc, form.format, opened, &kept.frames)?;
    push_frames(&mut text, form, behind)?;
    Ok(TrimmedText {
        text,
        count: opened_count(opened) + kept.count + behind.len(),
    })
}
