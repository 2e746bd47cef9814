//! What a handle keeps: a node, its last answer, and the calls of its log's file that this waits for.

ghost use Rattle.std.specs.Prelude.{◌≡◌, IfErr, IfOk, [], false, length, true};
ghost use Rattle.node_engine.specs.Answers.{state_of};
ghost use Rattle.node_answers.specs.Texts.{ok_text};
ghost use Rattle.script_words.specs.Steps.{same};
ghost use Rattle.node_lines.specs.Asked.{end_word};
ghost use Rattle.linked_node.specs.Numbers.{IsAnswerNumber};
ghost use Rattle.linked_node.specs.Turns.{Answered, Closed, Ends, Fills, HasEnded, HasNotEnded, Passed, Shown, TellsBy, Turned, Unanswered, told_of};

use crate::numbers::{CALLS, DONE, ENDED, NO_CALL, WAITS, failure_number};
use file_calls::{CalledFile, Calls};
use log_file::FileStore;
use node_answers::obeyed_text;
use node_engine::{Nobody, NodeFailure, Serving, run_node};
use node_lines::asks_end;
use protocol::{Reaction, Sequence};
use std::alloc::Global;
use std::mem;

/// A node over a file whose calls somebody else makes.
pub type FileNode = Serving<FileStore<CalledFile>>;

/// How far a node is.
#[derive(Drop)]
pub enum KeptLife {
    /// It answers lines.
    Serves(Box<FileNode>),
    /// It no longer answers a line, for this reason.
    Failed(NodeFailure),
    /// A line asked it to end, and it has.
    Ended,
}

/// A node with its last answer.
pub struct Kept {
    pub life: KeptLife,
    pub answer: Vec<u8>,
    pub calls: Calls,
}

// For the proof: what is let go by hand is proved here alone, and not again by each crate above.
impl Drop for Kept {
    fn drop(self) {
        let Kept {
            life: _,
            answer: _,
            calls: _,
        } = self;
    }
}

/// Why a step failed. No call of the file is made within a step, and what is written goes to memory: so what
/// failed of either is memory.
fn told_of(failure: NodeFailure) -> NodeFailure
    ensures { result ≡ told_of failure }
{
    match failure {
        NodeFailure::Device | NodeFailure::Write => NodeFailure::Memory,
        other => other,
    }
}

/// Makes the answer to a line that does not ask the node to end. Err: by which number there is none.
fn step(life: &mut KeptLife, line: &[u8]) -> Result<Vec<u8>, u32>
    ensures ok { IfOk result (λ text. Answered line.now life.old life.new text.items) }
    ensures err { IfErr result (Unanswered line.now life.old life.new) }
{
    let failure = match life {
        KeptLife::Serves(node) => match node.answer(line) {
            Ok(text) => return Ok(text),
            Err(failure) => failure,
        },
        KeptLife::Failed(failure) => return Err(failure_number(*failure)),
        KeptLife::Ended => return Err(ENDED),
    };
    let why = told_of(failure);
    *life = KeptLife::Failed(why);
    Err(failure_number(why))
}

/// A reaction with nothing in it.
fn nothing(alloc: Global) -> Reaction
    ensures { result.messages ≡ [] }
{
    Reaction {
        begun: None,
        written: Sequence::new(alloc),
        told: None,
        messages: Sequence::new(alloc),
        kept: None,
    }
}

/// Closes a store, in which all that stands is forced.
fn closed(mut store: FileStore<CalledFile>) -> Result<(), NodeFailure>
    ensures ok { IfOk result (λ _. Closed store) }
    ensures err { IfErr result (λ e. e ≡ NodeFailure.Device) }
{
    match store.close() {
        Ok(()) => Ok(()),
        Err(_) => Err(NodeFailure::Device),
    }
}

/// Ends a node in order: all that is in its log is forced, and its file is closed.
fn ended(alloc: Global, node: FileNode) -> Result<(), NodeFailure>
    ensures { IfOk result (λ _. Ends (state_of node)) }
{
    let mut written = Vec::new(alloc);
    let opening = nothing(alloc);
    match run_node(
        alloc,
        node,
        &opening,
        &mut "".as_bytes(),
        &mut written,
        &mut Nobody,
    ) {
        Ok(store) => closed(store),
        Err(failure) => Err(failure),
    }
}

/// Ends a node in order, and gives the answer to the line that asked for it.
fn end_node(alloc: Global, node: FileNode) -> Result<Vec<u8>, NodeFailure>
    ensures { IfOk result (λ text. (text.items ≡ ok_text) × Ends (state_of node)) }
{
    match obeyed_text(alloc) {
        Ok(text) => match ended(alloc, node) {
            Ok(()) => Ok(text),
            Err(failure) => Err(failure),
        },
        Err(_) => {
            let_go(node);
            Err(NodeFailure::Memory)
        }
    }
}

// For the proof: one function drops a node, so that what its drop means is proved once, and not at each way
// out.
/// Drops a node.
fn let_go(_node: FileNode) {}

/// Ends a node in order. Err: by which number it has not.
fn end(alloc: Global, life: &mut KeptLife) -> Result<Vec<u8>, u32>
    ensures ok { IfOk result (λ text. (text.items ≡ ok_text) × HasEnded life.old life.new) }
    ensures err { IfErr result (HasNotEnded life.old life.new) }
{
    let failure = match mem::replace(life, KeptLife::Ended) {
        KeptLife::Serves(node) => match end_node(alloc, Box::into_inner(node)) {
            Ok(text) => return Ok(text),
            Err(failure) => told_of(failure),
        },
        KeptLife::Failed(failure) => failure,
        KeptLife::Ended => return Err(ENDED),
    };
    *life = KeptLife::Failed(failure);
    Err(failure_number(failure))
}

/// Copies a text to the front of a room, and gives its size. If it is longer nothing is copied.
pub fn copy_into(text: &[u8], room: &mut [u8]) -> usize
    ensures size { result ≡ length text.now }
    ensures copied { Fills text.now room.old room.new }
{
    let size = text.len();
    if size <= room.len() {
        let (front, _) = room.split_at_mut(size);
        front.copy_from_slice(text);
    }
    size
}

// For the proof: who calls this drops no node, so that what the drop of one means is proved in this crate
// alone.
/// Releases a node with its memory.
pub fn release(_kept: Box<Kept>) {}

impl Kept {
    /// Whether the answer waits for calls of the file.
    fn said(&self) -> u32
        ensures { IsAnswerNumber result }
    {
        if self.calls.len() == 0 { DONE } else { CALLS }
    }

    /// There is no answer; what was asked of the file is no longer asked.
    fn forget(&mut self)
        ensures answer { self.new.answer.items ≡ [] }
        ensures life { self.new.life ≡ self.old.life }
    {
        self.calls.clear();
        self.answer.clear();
    }

    /// Keeps what a line was answered by, or by which number it was not.
    fn keep(&mut self, made: Result<Vec<u8>, u32>) -> u32
        ensures life { self.new.life ≡ self.old.life }
        ensures ok { IfOk made (λ text. (self.new.answer.items ≡ text.items) × IsAnswerNumber result) }
        ensures err { IfErr made (λ number. (self.new.answer.items ≡ []) × (result ≡ number)) }
    {
        match made {
            Ok(text) => {
                self.answer = text;
                self.said()
            }
            Err(number) => {
                self.forget();
                number
            }
        }
    }

    /// Makes the answer to a line that does not ask the node to end.
    fn answer_line(&mut self, line: &[u8]) -> u32
        requires { same line.now end_word ≡ false }
        ensures { Turned line.now self.old self.new result }
    {
        let made = step(&mut self.life, line);
        self.keep(made)
    }

    /// Ends the node in order, and answers as it does.
    fn answer_end(&mut self, alloc: Global, line: &[u8]) -> u32
        requires { same line.now end_word ≡ true }
        ensures { Turned line.now self.old self.new result }
    {
        let made = end(alloc, &mut self.life);
        self.keep(made)
    }

    /// Makes the answer to a line.
    pub fn turn(&mut self, alloc: Global, line: &[u8]) -> u32
        ensures { Turned line.now self.old self.new result }
    {
        if self.calls.len() > 0 {
            WAITS
        } else if asks_end(line) {
            self.answer_end(alloc, line)
        } else {
            self.answer_line(line)
        }
    }

    /// Shows the last answer, which is told by this number: 0, and it is copied to the front of a room, if it
    /// fits. Gives its size.
    pub fn show(&self, status: u32, room: &mut [u8]) -> usize
        ensures { Shown status self.now.answer.items room.old room.new result }
    {
        if status == DONE {
            copy_into(&self.answer, room)
        } else {
            0
        }
    }

    /// The number by which the last answer is told.
    pub fn status(&self) -> u32
        ensures { TellsBy self.now.life result }
    {
        match &self.life {
            KeptLife::Failed(failure) => failure_number(*failure),
            KeptLife::Serves(_) | KeptLife::Ended => self.said(),
        }
    }

    /// The call of the file that was to be made next was made (is_made is not 0), or it failed: then the node
    /// no longer answers a line.
    pub fn pass(&mut self, is_made: u32) -> u32
        ensures { Passed is_made self.old self.new result }
    {
        if self.calls.len() == 0 {
            return NO_CALL;
        }
        if is_made != 0 {
            self.calls.pass();
            return DONE;
        }
        self.life = KeptLife::Failed(NodeFailure::Device);
        self.forget();
        failure_number(NodeFailure::Device)
    }
}
