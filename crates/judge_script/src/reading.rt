//! A whole transcript.

ghost use Rattle.std.specs.Prelude.{◌≡◌, ◌<◌, ℕ, ◌++◌, ◌∷◌, IfNone, IfOk, IfSome, MatchResult, OnOk, length, map};
ghost use Rattle.judge_script.specs.declared.answers.SaidAnswer.{SaidAnswer as AnySaid};
ghost use Rattle.judge_script.specs.declared.asking.TranscriptCall.{TranscriptCall as AnyAsked};
ghost use Rattle.judge_script.specs.Numbers.{AreParted, Grows, IsLineEvent, SpellsNoEvent, table_of};
ghost use Rattle.judge_script.specs.Transcripts.{AreTranscript, IsBadLine, IsFirstBadLine, IsNoLine, IsTranscript};

use crate::answers::{SaidAnswer, said_in};
use crate::asking::{TranscriptCall, asked_in};
use crate::header::{PLAIN, ruled};
use crate::names::Names;
use crate::numbering::number_event;
use crate::words::{is_blank, words_of};
use judge_rules::{HistoryEvent, Rules};
use script_words::lines_of;
use std::alloc::{AllocError, Global};

/// A transcript: by what the manager is judged, its calls and answers, the number of each one's line, and the
/// names.
#[derive(Drop)]
pub struct Transcript<'a> {
    pub rules: Rules,
    pub events: Vec<HistoryEvent>,
    pub lines: Vec<usize>,
    pub names: Names<'a>,
}

/// The call and the answer that words spell, with `->` between them at this place: None, if they spell none.
fn parted_at<'a>(
    alloc: Global,
    words: &[&'a str],
    place: usize,
) -> Result<Option<(TranscriptCall<'a>, SaidAnswer<'a>)>, AllocError>
    requires { place < length words.now }
    ensures found { IfOk result (λ read. IfSome read
        (λ p. AreParted (map (λ s. s.now) words.now) place p.0 p.1)) }
    ensures none { IfOk result (λ read. IfNone read ((asked : AnyAsked) (said : AnySaid)
        → AreParted (map (λ s. s.now) words.now) place asked said → ⊥)) }
{
    if words[place] != "->" {
        return Ok(None);
    }
    let Some(asked) = asked_in(&words[..place]) else {
        return Ok(None);
    };
    match said_in(alloc, &words[place + 1..])? {
        None => Ok(None),
        Some(said) => Ok(Some((asked, said))),
    }
}

/// The call and the answer that words spell: None, if they spell none. A key may be `->`, too.
fn parts_of<'a>(
    alloc: Global,
    words: &[&'a str],
) -> Result<Option<(TranscriptCall<'a>, SaidAnswer<'a>)>, AllocError>
    ensures found { IfOk result (λ read. IfSome read (λ p. (place : ℕ) × (place < length words.now)
        × AreParted (map (λ s. s.now) words.now) place p.0 p.1)) }
    ensures none { IfOk result (λ read. IfNone read ((place : ℕ) (asked : AnyAsked) (said : AnySaid)
        → place < length words.now → AreParted (map (λ s. s.now) words.now) place asked said → ⊥)) }
{
    for place in 0..words.len() {
        if let Some(parts) = parted_at(alloc, words, place)? {
            return Ok(Some(parts));
        }
    }
    Ok(None)
}

/// Reads the line of a call and its answer: None, if it is none.
fn event_of<'a>(
    alloc: Global,
    names: &mut Names<'a>,
    words: &[&'a str],
) -> Result<Option<HistoryEvent>, AllocError>
    ensures event { IfOk result (λ read. IfSome read (λ event.
        IsLineEvent (table_of names.new) (map (λ s. s.now) words.now) event)) }
    ensures grows { OnOk result (Grows (table_of names.old) (table_of names.new)) }
    ensures none { IfOk result (λ read. IfNone read (SpellsNoEvent (map (λ s. s.now) words.now))) }
{
    match parts_of(alloc, words)? {
        None => Ok(None),
        Some((asked, said)) => Ok(Some(number_event(alloc, names, &asked, &said)?)),
    }
}

impl<'a> Transcript<'a> {
    ghost use Rattle.std.specs.Prelude.{◌+◌, List, ℕ, [], Some, None, true, false};
    ghost use Rattle.judge_script.specs.Headers.{ruled};
    ghost use Rattle.judge_script.specs.Words.{is_blank};

    /// A transcript of no line.
    fn new(alloc: Global) -> Result<Transcript<'a>, AllocError>
        ensures { IfOk result (λ transcript. AreTranscript [] transcript) }
    {
        Ok(Transcript {
            rules: PLAIN,
            events: Vec::new(alloc),
            lines: Vec::new(alloc),
            names: Names::new(alloc)?,
        })
    }

    /// What the words of a line say of the manager, together with what was said: None, if they say nothing,
    /// or an event came already.
    fn ruled(&self, words: &[&str]) -> Option<Rules>
        ensures found { IfSome result (λ rules. (length self.now.events.items ≡ 0)
            × (ruled self.now.rules (map (λ s. s.now) words.now) ≡ Some rules)) }
        ensures none { IfNone result (length self.now.events.items ≡ 0
            → ruled self.now.rules (map (λ s. s.now) words.now) ≡ None) }
    {
        if self.events.is_empty() {
            ruled(self.rules, words)
        } else {
            None
        }
    }

    /// Adds a line of this number: false, if it asks for nothing.
    fn add(&mut self, alloc: Global, line: &'a str, number: usize) -> Result<bool, AllocError>
        ensures added { IfOk result (λ added. added ≡ true → (ls : List (List ℕ)) → is_blank line.now ≡ false
            → number ≡ length ls + 1 → AreTranscript ls self.old
            → AreTranscript (ls ++ line.now ∷ []) self.new) }
        ensures bad { IfOk result (λ added. added ≡ false → IsNoLine self.old line.now) }
    {
        let words = words_of(alloc, line)?;
        if let Some(rules) = self.ruled(&words) {
            self.rules = rules;
            return Ok(true);
        }
        match event_of(alloc, &mut self.names, &words)? {
            None => Ok(false),
            Some(event) => {
                self.lines.push(number)?;
                self.events.push(event)?;
                Ok(true)
            }
        }
    }
}

/// The transcript of these lines, or the number of the first line of nothing, counted from 1.
fn transcript_in<'a>(
    alloc: Global,
    lines: &[&'a str],
) -> Result<Result<Transcript<'a>, usize>, AllocError>
    ensures { IfOk result (λ read. MatchResult read (AreTranscript (map (λ s. s.now) lines.now))
        (IsFirstBadLine (map (λ s. s.now) lines.now))) }
{
    let mut transcript = Transcript::new(alloc)?;
    for (i, line) in lines.iter().enumerate() {
        if is_blank(line) {
            continue;
        }
        if !transcript.add(alloc, line, i + 1)? {
            return Ok(Err(i + 1));
        }
    }
    Ok(Ok(transcript))
}

/// The transcript of a text, or the number of the first line of nothing, counted from 1.
pub fn transcript_of(alloc: Global, text: &str) -> Result<Result<Transcript<'_>, usize>, AllocError>
    ensures { IfOk result (λ read. MatchResult read (IsTranscript text.now) (IsBadLine text.now)) }
{
    let lines = lines_of(alloc, text)?;
    transcript_in(alloc, &lines)
}
