//! The command `rstar resolve`.

use crate::files::{End, failed, refused, status_of};
use crate::{flag, logs, subcommand, tell};
use clap::{Arg, ArgAction, ArgMatches, Command};
use report_io::Failure;
use resolve_engine::{AnswerForm, Database, ResolveInput, Trust, run_resolve};
use std::alloc::{AllocError, Global};
use std::{fs, io};

/// What it is asked for.
#[derive(Drop)]
pub struct ResolveWords<'a> {
    logs: Option<&'a str>,
    files: Option<Vec<&'a str>>,
    name: Option<&'a str>,
    database: Option<&'a str>,
    is_complete: bool,
    is_explained: bool,
}

/// What `rstar resolve --help` says below its usage.
const HELP: &str = "\
In: the names of prepared branches, one a line, as they come out of a database:
  a1.1@2.1.1                  a case, as rstar prints it
  bank:a1.1@2.1.1             PostgreSQL, gid of pg_prepared_xacts; bank is the tree's --name
  4003:HEX:HEX                an XID, as 'rstar xa' prints it
  X'HEX',X'HEX',4003          MariaDB, the data of XA RECOVER FORMAT='SQL'
  4003_BASE64_BASE64          PostgreSQL, a gid of its JDBC driver
The logs are a text, as 'rstar tree --logs' and 'rstar log --file .. --logs' write it, or the files of
nodes. Those of some processes may be missing: a leaf over a database has none.

Out: a line for each name, in order:
  NAME commit, NAME rollback  how its transaction ended
  NAME heuristic-commit       an operator decided it so; likewise heuristic-rollback
  NAME wait                   the logs do not say it yet
  NAME unknown PROCESS        the log of this process is wanted, or has no promise of it
  NAME foreign                it is no branch of this tree
An answer that rests on what is not in a log, as that a transaction was never decided, is given with
--complete alone, by which the caller says that these are the logs as they stand and that their
processes do not run; without it the word is 'wait', and what stands in the logs counts, be they
copies, old or cut. With --explain, after each line which log says so. With --sql, in place of the
lines the statement that ends the branch, and the reason as its comment; a comment alone where
nothing is to be done now. 'damaged P PLACE' alone where a log is damaged, 'error ..' where the logs are
refused. The status is 3 where a name has to wait or is unknown.

Examples: psql -Atc 'SELECT gid FROM pg_prepared_xacts' | rstar resolve --name bank --logs bank.logs
          rstar resolve --file tree.toml 1 1.log 2 2.log --complete --explain < names";

/// An option with a value, and what help says of it.
fn option<'a>(alloc: Global, name: &'a str, value: &'a str, help: &'a str) -> Arg<'a> {
    Arg::new(alloc, name)
        .long(name)
        .value_name(value)
        .help(help)
        .action(ArgAction::Set)
}

/// Its words.
pub(crate) fn words<'a>(alloc: Global) -> Result<Command<'a>, AllocError> {
    subcommand(
        alloc,
        "resolve",
        "Says how to end prepared branches that were left over, by the logs of their tree",
        HELP,
    )
    .arg(option(alloc, "logs", "FILE", "The file of a tree and its logs").conflicts_with("file")?)?
    .arg(logs::file(alloc))?
    .arg(option(
        alloc,
        "name",
        "NAME",
        "The name of the tree, with which the names of its branches in databases begin",
    ))?
    .arg(flag(
        alloc,
        "complete",
        "These are the logs as they are, and their processes do not run",
    ))?
    .arg(flag(
        alloc,
        "explain",
        "Names the log that says so, for each answer",
    ))?
    .arg(option(
        alloc,
        "sql",
        "DATABASE",
        "Writes statements, of postgresql or mariadb, in place of answers",
    )
    .conflicts_with("explain")?)
}

/// What these words ask for.
pub(crate) fn asked<'a>(
    alloc: Global,
    matches: &ArgMatches<'a>,
) -> Result<ResolveWords<'a>, AllocError> {
    Ok(ResolveWords {
        logs: matches.get_str("logs"),
        files: logs::words_of(alloc, matches)?,
        name: matches.get_str("name"),
        database: matches.get_str("sql"),
        is_complete: matches.get_flag("complete"),
        is_explained: matches.get_flag("explain"),
    })
}

/// How the answers are written.
fn form_of(alloc: Global, words: &ResolveWords<'_>) -> Result<AnswerForm, End> {
    match words.database {
        None if words.is_explained => Ok(AnswerForm::Explained),
        None => Ok(AnswerForm::Lines),
        Some("postgresql") => Ok(AnswerForm::Sql(Database::PostgreSql)),
        Some("mariadb") => Ok(AnswerForm::Sql(Database::MariaDb)),
        Some(other) => Err(refused(format!(in alloc;
            "{other} is not a database that it knows: postgresql or mariadb"
        ))),
    }
}

/// The text of the logs.
fn logs_in(rt: &HostRuntime, words: &ResolveWords<'_>) -> Result<Vec<u8>, End> {
    let alloc = rt.alloc();
    if let Some(files) = &words.files {
        return logs::some_input_of(rt, files);
    }
    let Some(path) = words.logs else {
        return Err(refused(format!(in alloc;
            "no logs are given: --logs FILE, or --file TREE P LOG .."
        )));
    };
    match fs::read(rt, path) {
        Ok(text) => Ok(text),
        Err(error) => Err(failed(format!(in alloc; "{path}: {error}"))),
    }
}

/// Answers the names on standard input: the exit status.
fn resolved(rt: &HostRuntime, words: &ResolveWords<'_>) -> Result<u8, End> {
    let alloc = rt.alloc();
    let form = form_of(alloc, words)?;
    let text = logs_in(rt, words)?;
    let asked = ResolveInput {
        name: words.name,
        trust: if words.is_complete {
            Trust::Complete
        } else {
            Trust::Parts
        },
        form,
    };
    match run_resolve(alloc, &asked, &text, &mut rt.reader(), &mut io::writer(rt)) {
        Ok(ending) => Ok(ending.number()),
        Err(failure) => Err(failed(told(alloc, failure))),
    }
}

/// Why it could not go on.
fn told(alloc: Global, failure: Failure) -> Result<String, AllocError> {
    format!(in alloc; "{failure}")
}

/// Runs it: the exit status. Why it ended early stands on standard error.
pub(crate) fn run(rt: &HostRuntime, words: ResolveWords<'_>) -> u8 {
    match resolved(rt, &words) {
        Ok(status) => status,
        Err(end) => status_of(rt, "resolve", Err(end)),
    }
}
