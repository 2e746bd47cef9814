//! `rstar audit`, with and without the number of cases in doubt.

use audit_engine::{Detail, run_audit};
use clap::ArgMatches;
use doubt_count::{count_doubts, status_by};
use report_io::{Failure, read_all, write_all};
use std::alloc::Global;
use std::io::{Read, Write};

/// Whether the cases in doubt are counted.
#[derive(Clone, Copy, PartialEq, Eq)]
enum Doubts {
    Uncounted,
    Counted,
}

/// What is asked of an audit.
#[derive(Clone, Copy, PartialEq, Eq)]
pub(crate) struct Audit {
    detail: Detail,
    doubts: Doubts,
}

/// What these words ask of an audit.
pub(crate) fn asked(matches: &ArgMatches) -> Audit {
    Audit {
        detail: if matches.get_flag("explain") {
            Detail::Explained
        } else {
            Detail::Lines
        },
        doubts: if matches.get_flag("in-doubt") {
            Doubts::Counted
        } else {
            Doubts::Uncounted
        },
    }
}

/// Audits the logs of an input, and answers the exit status.
pub(crate) fn perform_audit<R: Read, W: Write>(
    alloc: Global,
    audit: Audit,
    reader: &mut R,
    writer: &mut W,
) -> Result<u8, Failure> {
    if audit.doubts == Doubts::Uncounted {
        return Ok(run_audit(alloc, audit.detail, reader, writer)?.number());
    }
    let input = read_all(alloc, reader)?;
    let audited = run_audit(alloc, audit.detail, &mut input.as_slice(), writer)?.number();
    let Some(count) = count_doubts(alloc, &input)? else {
        return Ok(audited);
    };
    let line = format!(in alloc; "in-doubt {count}\n")?;
    write_all(writer, line.as_bytes())?;
    Ok(status_by(audited, count))
}
