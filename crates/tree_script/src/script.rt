//! A whole script.

ghost use Rattle.std.specs.Prelude.{◌≡◌, ◌≢◌, ℕ, IfOk, IfErr};
ghost use Rattle.protocol.specs.Trees.{root_of};
ghost use Rattle.tree_script.specs.Inputs.{script_fault_number, IsTreeFront, IsOpenScript, IsScript, IsScriptError};

use crate::front::read_front;
use crate::lines::Lines;
use protocol::{Event, Tree, TreeError};
use script_words::count_asked;
use std::alloc::{AllocError, AllocFailed, Global};
use thiserror::Error;

/// The most lines of a script that ask for an event.
pub const MOST_EVENTS: usize = 100_000;

/// What is wrong with a script. Each is judged over the whole input before the next.
#[derive(Clone, Copy, Debug, PartialEq, Eq, Error)]
pub enum ScriptFault {
    /// The bytes are not UTF-8.
    #[error("the script is not UTF-8")]
    Utf8,
    /// The text before the first line `---` is the TOML text of no tree, or there is no such line.
    #[error("the tree text cannot be read")]
    TreeText,
    /// The processes of the tree text are no tree.
    #[error("the processes are not a tree: {0}")]
    Tree(TreeError),
    /// More than 100,000 lines ask for an event.
    #[error("the script has more than 100000 event lines")]
    TooLong,
    /// The line of this number, counted from the input's first from 1 on, asks for no event; those before it
    /// do.
    #[error("line {0} is not an event")]
    Line(u64),
}

impl ScriptFault {
    /// The number that is printed, 1 to 5.
    pub fn number(self) -> u8
        ensures { result ≡ script_fault_number self }
    {
        match self {
            ScriptFault::TreeText => 1,
            ScriptFault::Tree(_) => 2,
            ScriptFault::Line(_) => 3,
            ScriptFault::Utf8 => 4,
            ScriptFault::TooLong => 5,
        }
    }
}

/// Why a script could not be read.
#[derive(Clone, Copy, Debug, PartialEq, Eq, Error)]
pub enum ScriptError {
    #[error("out of memory")]
    Memory,
    #[error("{0}")]
    Fault(ScriptFault),
}

impl From<AllocError> for ScriptError {
    ghost use Rattle.std.specs.Prelude.{◌≡◌};
    ghost use Rattle.tree_script.specs.declared.script.ScriptError.TheVariants.{Memory};

    ghost from_gives = { λ _ e. e ≡ Memory };

    fn from(_e: AllocError) -> ScriptError {
        ScriptError::Memory
    }
}

impl<T: Drop> From<AllocFailed<T>> for ScriptError {
    ghost use Rattle.std.specs.Prelude.{◌≡◌};
    ghost use Rattle.tree_script.specs.declared.script.ScriptError.TheVariants.{Memory};

    ghost from_gives = { λ _ e. e ≡ Memory };

    fn from(_e: AllocFailed<T>) -> ScriptError {
        ScriptError::Memory
    }
}

/// The tree of a script and its lines, which are read one after another: the tree's text, a line `---`, and
/// a line for each event. Empty lines and lines that begin with `#` are skipped. The faults are Utf8,
/// TreeText, Tree and TooLong.
pub fn open<'a>(alloc: Global, bytes: &'a [u8]) -> Result<(Tree, Lines<'a>), ScriptError>
    ensures ok { IfOk result (λ (tree, lines). IsOpenScript bytes.now tree lines) }
    ensures front { IfOk result (λ (tree, lines). IsTreeFront bytes.now tree lines.before lines.lines
        × (lines.root ≡ root_of tree)) }
    ensures err { IfErr result (λ error. IsScriptError bytes.now error) }
    ensures no_line { IfErr result (λ error. (n : ℕ) → error ≢ ScriptError.Fault (ScriptFault.Line n)) }
{
    let front = match read_front(alloc, bytes) {
        Ok(front) => front,
        Err(error) => return Err(error),
    };
    if count_asked(&front.lines) > MOST_EVENTS {
        return Err(ScriptError::Fault(ScriptFault::TooLong));
    }
    let root = front.tree.root();
    Ok((front.tree, Lines::new(root, front.rule, front.lines)))
}

/// The tree and the events of a script, all of its lines read. The faults are those of `open`, and Line.
pub fn read(alloc: Global, bytes: &[u8]) -> Result<(Tree, Vec<Event>), ScriptError>
    ensures ok { IfOk result (λ (tree, events). IsScript bytes.now tree events.items) }
    ensures err { IfErr result (λ error. IsScriptError bytes.now error) }
{
    let (tree, lines) = match open(alloc, bytes) {
        Ok(opened) => opened,
        Err(error) => return Err(error),
    };
    match lines.events(alloc) {
        Ok(events) => Ok((tree, events)),
        Err(error) => Err(error),
    }
}
