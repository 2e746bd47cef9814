//! Rows of names that are resolved by logs. A row's input is a line `FORM TRUST NAME`, the names, one a line,
//! an empty line, and the logs.

use report_io::Failure;
use resolve_engine::{AnswerForm, Database, ResolveInput, Trust, run_resolve};
use std::alloc::Global;
use std::str;

/// The form of this word.
fn form_of(word: &str) -> Option<AnswerForm> {
    match word {
        "lines" => Some(AnswerForm::Lines),
        "explained" => Some(AnswerForm::Explained),
        "postgresql" => Some(AnswerForm::Sql(Database::PostgreSql)),
        "mariadb" => Some(AnswerForm::Sql(Database::MariaDb)),
        _ => None,
    }
}

/// What the first line asks for.
fn asked_by(line: &str) -> Option<ResolveInput<'_>> {
    let (form, rest) = line.split_once(' ')?;
    let (trust, name) = rest.split_once(' ')?;
    Some(ResolveInput {
        name: if name == "-" { None } else { Some(name) },
        trust: if trust == "complete" {
            Trust::Complete
        } else {
            Trust::Parts
        },
        form: form_of(form)?,
    })
}

/// Resolves the names of an input: the exit status, and what it writes. No status where it fails.
pub fn resolved(alloc: Global, input: &[u8], out: &mut Vec<u8>) -> Option<u8> {
    let text = str::from_utf8(input).ok()?;
    let (first, rest) = text.split_once('\n')?;
    let (names, logs) = rest.split_once("\n\n")?;
    let asked = asked_by(first)?;
    let mut names = names.as_bytes();
    let ended: Result<_, Failure> = run_resolve(alloc, &asked, logs.as_bytes(), &mut names, out);
    Some(ended.ok()?.number())
}
