//! The lines of a script.

ghost use Rattle.std.specs.Prelude.{◌≡◌, ◌+◌, ◌<◌, ◌≤◌, ◌^◌, IfOk, IfErr, MatchOption, List, ℕ, Some, None, Ok, length, map, slice_get};
ghost use Rattle.std.specs.Str.Lines.{lines as lines_in, lines_of_parts};
ghost use Rattle.tree_script.specs.Rules.{pieces, is_rule, around_rule};
ghost use Rattle.trace_lines.specs.Trace.{lines_text};
ghost use Rattle.tree_script.specs.Inputs.{Asks, IsLineError, asked_by};

use crate::event::event_of;
use crate::script::{ScriptError, ScriptFault};
use protocol::{Event, ProcessId};
use script_words::says_nothing;
use spellings::word::cut;
use std::alloc::Global;
use std::marker::Model;

/// Whether a line that ends in a line feed is just three dashes.
fn is_rule(line: &str) -> bool
    ensures { result ≡ is_rule line.now }
{
    line == "---" || line == "---\r"
}

/// The text before the first line that is just three dashes, how many lines it has, and the text after that
/// line.
pub fn around(text: &str) -> Option<(&str, u64, &str)>
    ensures { MatchOption result (around_rule (pieces text.now) ≡ None) (λ r.
        (fronts : List (List ℕ)) × (behind : List (List ℕ))
        × (around_rule (pieces text.now) ≡ Some (fronts, behind))
        × (r.0.now ≡ lines_text fronts) × (r.1 ≡ length fronts) × (lines_in r.2.now ≡ lines_of_parts behind)
        × (length r.0.now + length r.2.now + 3 ≤ length text.now)) }
{
    let mut rest = text;
    let mut number = 0;
    while let Some((line, more)) = cut(rest, '\n') {
        if is_rule(line) {
            return Some((&text[..text.len() - rest.len()], number, more));
        }
        rest = more;
        number += 1;
    }
    if rest == "---" {
        Some((&text[..text.len() - rest.len()], number, ""))
    } else {
        None
    }
}

/// The lines of a script after the line of three dashes.
#[derive(Drop)]
pub struct Lines<'a> {
    /// The root of the script's tree.
    root: ProcessId,
    /// How many lines of the script are before them.
    before: u64,
    lines: Vec<&'a str>,
}

impl<'a> Model for Lines<'a> {
    ghost use Rattle.std.specs.Prelude.{◌+◌, ◌<◌, ◌^◌, length, map};
    ghost use Rattle.tree_script.specs.Inputs.{LinesState};

    ghost Value = { LinesState };

    ghost view = { λ l. record {
      root = l.root;
      before = l.before;
      lines = map (λ s. s.now) l.lines.items;
    } };

    ghost invariant = { λ l. l.before + length l.lines.items < 2 ^ 64 };
}

impl<'a> Lines<'a> {
    /// These lines, after N of a script over a tree with this root.
    pub fn new(root: ProcessId, before: u64, lines: Vec<&'a str>) -> Lines<'a>
        requires { before + length lines.items < 2 ^ 64 }
        ensures root { result.root ≡ root }
        ensures before { result.before ≡ before }
        ensures lines { result.lines ≡ map (λ s. s.now) lines.entry.items }
    {
        Lines {
            root,
            before,
            lines,
        }
    }

    /// How many lines there are.
    pub fn len(&self) -> usize
        ensures { result ≡ length self.now.lines }
    {
        self.lines.len()
    }

    /// The event that the line at this place asks for, from 0; None if it is empty or begins with `#`, and
    /// where there are not N. Line, with its number in the script: it is not an event.
    pub fn event(&self, alloc: Global, place: usize) -> Result<Option<Event>, ScriptError>
        ensures { Asks self.now.root (self.now.before + place + 1)
            (slice_get self.now.lines place) result }
    {
        let Some(line) = self.lines.get(place) else {
            return Ok(None);
        };
        if says_nothing(line) {
            return Ok(None);
        }
        match event_of(alloc, self.root, line) {
            Err(_) => Err(ScriptError::Memory),
            Ok(None) => {
                let number = self.before + place as u64 + 1;
                Err(ScriptError::Fault(ScriptFault::Line(number)))
            }
            Ok(event) => Ok(event),
        }
    }

    /// What all of them ask for, in order; or the fault Line of the first that is not an event.
    pub fn events(&self, alloc: Global) -> Result<Vec<Event>, ScriptError>
        ensures ok { IfOk result (λ events. asked_by self.now ≡ Ok events.items) }
        ensures err { IfErr result (λ error. IsLineError error (asked_by self.now)) }
    {
        let mut events = Vec::new(alloc);
        for place in 0..self.len() {
            match self.event(alloc, place) {
                Err(error) => return Err(error),
                Ok(None) => continue,
                Ok(Some(event)) => events.push(event)?,
            }
        }
        Ok(events)
    }
}
