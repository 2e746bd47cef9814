//! What is before the lines of an input: the text of a tree, and the line of three dashes.

ghost use Rattle.std.specs.Prelude.{◌+◌, ◌<◌, ◌^◌, IfOk, IfErr, length, map};
ghost use Rattle.tree_script.specs.Inputs.{IsTreeFront, IsFrontError};

use crate::document::{DocumentError, read_tree};
use crate::lines::around;
use crate::script::{ScriptError, ScriptFault};
use protocol::Tree;
use script_words::lines_of;
use std::alloc::Global;
use std::str;

/// An input cut at its first line of three dashes.
#[derive(Drop)]
pub struct Front<'a> {
    /// The tree whose text is before that line.
    pub tree: Tree,
    /// The number of that line, counted from the input's first from 1 on.
    pub rule: u64,
    /// The lines after it.
    pub lines: Vec<&'a str>,
}

/// Reads the tree's text and cuts the lines after it. The faults are Utf8, TreeText and Tree, each judged
/// over the whole input before the next.
pub fn read_front<'a>(alloc: Global, bytes: &'a [u8]) -> Result<Front<'a>, ScriptError>
    ensures ok { IfOk result (λ front. IsTreeFront bytes.now front.tree front.rule
        (map (λ s. s.now) front.lines.items)) }
    ensures few { IfOk result (λ front. front.rule + length front.lines.items < 2 ^ 64) }
    ensures err { IfErr result (λ error. IsFrontError bytes.now error) }
{
    let Ok(text) = str::from_utf8(bytes) else {
        return Err(ScriptError::Fault(ScriptFault::Utf8));
    };
    let Some((document, before, behind)) = around(text) else {
        return Err(ScriptError::Fault(ScriptFault::TreeText));
    };
    let tree = match read_tree(alloc, document) {
        Ok(tree) => tree,
        Err(DocumentError::Memory) => return Err(ScriptError::Memory),
        Err(DocumentError::TreeText) => return Err(ScriptError::Fault(ScriptFault::TreeText)),
    };
    if let Err(cause) = tree.check() {
        return Err(ScriptError::Fault(ScriptFault::Tree(cause)));
    }
    let lines = lines_of(alloc, behind)?;
    Ok(Front {
        tree,
        rule: before + 1,
        lines,
    })
}
