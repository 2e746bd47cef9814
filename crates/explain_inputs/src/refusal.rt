//! Why an input was refused, in lines.

ghost use Rattle.std.specs.Prelude.{◌≡◌, ◌++◌, OnOk, string_bytes};
ghost use Rattle.explain_inputs.specs.Texts.{line_text};

use crate::document::table_fault;
use crate::logs::{LogFault, lines_fault};
use crate::opening::opening_fault;
use crate::place::{line_at, line_of_byte};
use crate::processes::process_fault;
use explain_lines::{Script, finding_of};
use protocol::TreeError;
use reopen_script::leading;
use script_words::{count_asked, lines_of};
use std::alloc::{AllocError, Global};
use std::str;
use toml::Table;
use tree_script::{Front, ScriptFault, read_front};

/// Adds what is wrong with a line by its form, and what is wanted there.
fn push_finding(
    alloc: Global,
    out: &mut String,
    script: Script,
    line: &str,
) -> Result<bool, AllocError> {
    let Some(finding) = finding_of(alloc, script, line)? else {
        return Ok(false);
    };
    let fault = finding.fault;
    let wanted = finding.wanted;
    writeln!(out, "{fault}")?;
    writeln!(out, "wanted: {wanted}")?;
    if let Some(part) = finding.part {
        let name = part.name();
        let meaning = part.meaning();
        writeln!(out, "{name} is {meaning}")?;
    }
    Ok(true)
}

/// Adds the line of this number, cut at 80 characters.
pub fn push_line(out: &mut String, number: u64, line: &str) -> Result<(), AllocError>
    ensures { OnOk result (string_bytes out.new ≡ string_bytes out.old ++ line_text number line.now) }
{
    writeln!(out, "line {number}: {line:.80}")
}

/// The text before the first of these lines that is just three dashes.
fn document_of(alloc: Global, lines: &[&str]) -> Result<Option<String>, AllocError> {
    let mut document = String::new(alloc);
    for line in lines {
        if *line == "---" {
            return Ok(Some(document));
        }
        document.push_str(line)?;
        document.push('\n')?;
    }
    Ok(None)
}

/// Adds which key or value of a table is at fault.
fn push_table_fault(out: &mut String, table: &Table) -> Result<(), AllocError> {
    let Some(fault) = table_fault(table) else {
        return Ok(());
    };
    let wanted = fault.wanted();
    writeln!(out, "{fault}")?;
    writeln!(out, "wanted: {wanted}")
}

/// Adds which process of a table is at fault, where they are no tree for this cause.
fn push_process_fault(
    alloc: Global,
    out: &mut String,
    table: &Table,
    cause: TreeError,
) -> Result<(), AllocError> {
    match process_fault(alloc, table, cause)? {
        None => Ok(()),
        Some(fault) => writeln!(out, "{fault}"),
    }
}

/// Adds what is wrong with the text of a tree; with its processes, where a cause is given.
fn push_document(
    alloc: Global,
    out: &mut String,
    document: &str,
    cause: Option<TreeError>,
) -> Result<(), AllocError> {
    match toml::table_from_str(alloc, document) {
        Ok(table) => match cause {
            None => push_table_fault(out, &table),
            Some(cause) => push_process_fault(alloc, out, &table, cause),
        },
        Err(error) if error.is_memory() => Err(AllocError),
        Err(error) => {
            let number = match error.span() {
                Some(span) => line_of_byte(document.as_bytes(), span.start),
                None => 1,
            };
            if let Some(line) = line_at(alloc, document, number)? {
                push_line(out, number, line)?;
            }
            let message = error.message();
            writeln!(out, "{message}")?;
            writeln!(out, "wanted: TOML, as `rstar tree --help` shows it")
        }
    }
}

/// Adds what is wrong with the beginning of an input.
fn push_front(
    alloc: Global,
    out: &mut String,
    text: &str,
    cause: Option<TreeError>,
) -> Result<(), AllocError> {
    let lines = lines_of(alloc, text)?;
    match document_of(alloc, &lines)? {
        Some(document) => push_document(alloc, out, &document, cause),
        None => {
            let fault = opening_fault(&lines);
            writeln!(out, "{fault}")?;
            writeln!(
                out,
                "wanted: the processes as TOML, a line ---, and the lines after it"
            )
        }
    }
}

/// Adds which bytes are not UTF-8.
pub fn push_bytes(out: &mut String, input: &[u8]) -> Result<(), AllocError> {
    let Err(error) = str::from_utf8(input) else {
        return Ok(());
    };
    let place = error.valid_up_to();
    let line = line_of_byte(input, place);
    writeln!(
        out,
        "line {line}: no character begins at byte {place} of the input, counted from 0"
    )
}

/// Adds what is wrong with a line of a script of events or of logs.
pub fn push_line_fault(
    alloc: Global,
    out: &mut String,
    script: Script,
    input: &[u8],
    number: u64,
) -> Result<(), AllocError> {
    let Ok(text) = str::from_utf8(input) else {
        return Ok(());
    };
    let Some(line) = line_at(alloc, text, number)? else {
        return Ok(());
    };
    push_line(out, number, line)?;
    if push_finding(alloc, out, script, line)? || script != Script::Logs {
        return Ok(());
    }
    match read_front(alloc, input) {
        Ok(front) => push_log_fault(out, lines_fault(alloc, &front.tree, &front.lines)?),
        Err(_) => Ok(()),
    }
}

/// Adds which log is at fault, if one is.
fn push_log_fault(out: &mut String, fault: Option<LogFault>) -> Result<(), AllocError> {
    match fault {
        None => Ok(()),
        Some(fault) => writeln!(out, "{fault}"),
    }
}

/// Adds why a script of events, or logs, were refused.
pub fn push_fault(
    alloc: Global,
    out: &mut String,
    script: Script,
    input: &[u8],
    fault: ScriptFault,
) -> Result<(), AllocError> {
    writeln!(out, "rstar: {fault}")?;
    let text = match str::from_utf8(input) {
        Ok(text) => text,
        Err(_) => "",
    };
    match fault {
        ScriptFault::Utf8 => push_bytes(out, input),
        ScriptFault::TreeText => push_front(alloc, out, text, None),
        ScriptFault::Tree(cause) => push_front(alloc, out, text, Some(cause)),
        ScriptFault::Line(number) => push_line_fault(alloc, out, script, input, number),
        ScriptFault::TooLong => writeln!(out, "wanted: at most 100,000 lines; split the script"),
    }
}

/// How a line of a script is read that may begin its events with logs.
#[derive(Clone, Copy)]
struct Reading {
    /// What the line is one of.
    script: Script,
    /// The log at fault, where the line may be told for it.
    fault: Option<LogFault>,
}

/// How the line of this number is read, where what is before the lines of the input is sound.
fn reading_of(alloc: Global, front: &Front, number: u64) -> Result<Reading, AllocError> {
    let count = leading(&front.lines);
    let (ahead, _) = front.lines.split_at(count);
    let last = front.rule.saturating_add(count as u64);
    let script = if number <= last {
        Script::Logs
    } else {
        Script::Tree
    };
    let fault = if count_asked(ahead) > 0 && number <= last.saturating_add(1) {
        lines_fault(alloc, &front.tree, ahead)?
    } else {
        None
    };
    Ok(Reading { script, fault })
}

/// Adds what is wrong with a line of a script that may begin its events with logs.
fn push_reopened_line(
    alloc: Global,
    out: &mut String,
    input: &[u8],
    number: u64,
) -> Result<(), AllocError> {
    let (Ok(text), Ok(front)) = (str::from_utf8(input), read_front(alloc, input)) else {
        return Ok(());
    };
    let Some(line) = line_at(alloc, text, number)? else {
        return Ok(());
    };
    push_line(out, number, line)?;
    let reading = reading_of(alloc, &front, number)?;
    if reading.script == Script::Tree && reading.fault.is_some() {
        return push_log_fault(out, reading.fault);
    }
    if push_finding(alloc, out, reading.script, line)? {
        return Ok(());
    }
    push_log_fault(out, reading.fault)
}

/// Adds why a script of events was refused that may begin its events with logs.
pub fn push_reopened_fault(
    alloc: Global,
    out: &mut String,
    input: &[u8],
    fault: ScriptFault,
) -> Result<(), AllocError> {
    match fault {
        ScriptFault::Line(number) => {
            writeln!(out, "rstar: {fault}")?;
            push_reopened_line(alloc, out, input, number)
        }
        _ => push_fault(alloc, out, Script::Tree, input, fault),
    }
}
