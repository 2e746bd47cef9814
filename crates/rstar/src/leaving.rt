//! `rstar tree --data`.

use left_data::data_text;
use report_io::{Failure, read_all, write_all};
use std::alloc::Global;
use std::io::{Read, Write};
use tree_engine::{TreeOutput, run_tree};

/// Runs a tree script, writes its trace, and after it the data that its managers hold then; and answers the
/// exit status. Of a script that is refused nothing more is written than its line.
pub(crate) fn perform<R: Read, W: Write>(
    alloc: Global,
    reader: &mut R,
    writer: &mut W,
) -> Result<u8, Failure> {
    let input = read_all(alloc, reader)?;
    let status = run_tree(alloc, TreeOutput::Trace, &mut input.as_slice(), writer)?;
    if let Some(text) = data_text(alloc, &input)? {
        write_all(writer, &text)?;
    }
    Ok(status.number())
}
