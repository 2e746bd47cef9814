//! `rstar tree --events`.

use crate::source::{self, Source};
use clap::ArgMatches;
use event_trace::event_trace;
use report_io::{Failure, read_all, write_all};
use std::alloc::Global;
use std::io::{Read, Write};
use tree_engine::{TreeOutput, run_tree};

/// What these words name as the input, if no picture is asked for: the word after `--events` is the file, if
/// there is one, and no other word may name it then.
pub(crate) fn source_of<'a>(matches: &ArgMatches<'a>) -> Result<Source<'a>, &'a str> {
    match (matches.get_str("events"), source::source_of(matches)) {
        (None, named) => Ok(named),
        (Some(path), Source::Standard) => Ok(Source::File(path)),
        (Some(word), Source::File(_)) => Err(word),
    }
}

/// Runs a tree script, writes its trace with the number of its event before each line, and answers the exit
/// status. Of a script that is refused its line is written, as without the numbers.
pub(crate) fn perform<R: Read, W: Write>(
    alloc: Global,
    reader: &mut R,
    writer: &mut W,
) -> Result<u8, Failure> {
    let input = read_all(alloc, reader)?;
    let Some((text, status)) = event_trace(alloc, &input)? else {
        let status = run_tree(alloc, TreeOutput::Trace, &mut input.as_slice(), writer)?;
        return Ok(status.number());
    };
    write_all(writer, &text)?;
    Ok(status.number())
}
