//! The statement that ends a branch, with the reason as its comment.

ghost use Rattle.std.specs.Prelude.{◌≡◌, ◌++◌, OnOk, Option};
ghost use Rattle.std.specs.List.{flat_map};
ghost use Rattle.branch_names.specs.Forms.{IsXidOf};
ghost use Rattle.xa_xid.specs.Xids.{XidParts};
ghost use Rattle.resolve_engine.specs.Sql.{bytes_text, comment_text, commits as commits_by, mariadb_text, postgresql_text, quoted_byte, sql_text, statement_by, statement_text, string_text, verb_text};

use crate::answer::{AnswerWord, BranchAnswer};
use crate::asked::Database;
use crate::lines::{push_answer, push_reason};
use branch_names::xid_in;
use std::alloc::{AllocError, Global};
use trace_lines::{push, push_number};
use xa_xid::Xid;

/// Whether a branch is to be committed or rolled back; None, if neither is to be done now.
fn is_commit(word: AnswerWord) -> Option<bool>
    ensures { result ≡ commits_by word }
{
    match word {
        AnswerWord::Commit => Some(true),
        AnswerWord::Rollback => Some(false),
        AnswerWord::HeuristicCommit
        | AnswerWord::HeuristicRollback
        | AnswerWord::Wait
        | AnswerWord::Unknown(_)
        | AnswerWord::Foreign => None,
    }
}

/// A byte in a string of SQL: a quote is there twice.
fn push_byte(out: &mut Vec<u8>, byte: u8) -> Result<(), AllocError>
    ensures { OnOk result (out.new.items ≡ out.old.items ++ quoted_byte byte) }
{
    if byte == b'\'' {
        return push(out, "''");
    }
    out.push(byte)?;
    Ok(())
}

/// The bytes of a string of SQL.
fn push_quoted(out: &mut Vec<u8>, bytes: &[u8]) -> Result<(), AllocError>
    ensures { OnOk result (out.new.items ≡ out.old.items ++ flat_map quoted_byte bytes.now) }
{
    for byte in bytes {
        push_byte(out, *byte)?;
    }
    Ok(())
}

/// A text as a string of SQL: in quotes, each quote in it twice.
fn push_string(out: &mut Vec<u8>, text: &str) -> Result<(), AllocError>
    ensures { OnOk result (out.new.items ≡ out.old.items ++ string_text text.now) }
{
    push(out, "'")?;
    push_quoted(out, text.as_bytes())?;
    push(out, "'")
}

/// Bytes as a string of SQL in hexadecimal.
fn push_bytes(alloc: Global, out: &mut Vec<u8>, bytes: &[u8]) -> Result<(), AllocError>
    ensures { OnOk result (out.new.items ≡ out.old.items ++ bytes_text bytes.now) }
{
    let digits = hex::encode_upper(alloc, bytes)?;
    push(out, "X'")?;
    push(out, &digits)?;
    push(out, "'")
}

/// The statement of PostgreSQL.
fn push_postgresql(out: &mut Vec<u8>, name: &str, commits: bool) -> Result<(), AllocError>
    ensures { OnOk result (out.new.items ≡ out.old.items ++ postgresql_text name.now commits) }
{
    if commits {
        push(out, "COMMIT PREPARED ")?;
    } else {
        push(out, "ROLLBACK PREPARED ")?;
    }
    push_string(out, name)
}

/// The verb of MariaDB.
fn verb(commits: bool) -> &'static str
    ensures { result.now ≡ verb_text commits }
{
    if commits {
        "XA COMMIT "
    } else {
        "XA ROLLBACK "
    }
}

/// The statement of MariaDB.
fn push_mariadb(
    alloc: Global,
    out: &mut Vec<u8>,
    xid: &Xid,
    commits: bool,
) -> Result<(), AllocError>
    ensures { OnOk result (out.new.items ≡ out.old.items ++ mariadb_text xid.now commits) }
{
    let (format, gtrid, bqual) = xid.parts();
    push(out, verb(commits))?;
    push_bytes(alloc, out, gtrid)?;
    push(out, ",")?;
    push_bytes(alloc, out, bqual)?;
    push(out, ",")?;
    push_number(out, u64::from(format.unsigned_abs()))
}

/// The statement for a name by the XID that it is, if the database has one for it, and what ends it.
fn push_statement(
    alloc: Global,
    out: &mut Vec<u8>,
    database: Database,
    name: &str,
    xid: Option<Xid>,
    commits: bool,
) -> Result<(), AllocError>
    ensures { OnOk result (out.new.items ≡ out.old.items ++ statement_by database name.now xid commits) }
{
    match (database, xid) {
        (Database::PostgreSql, _) => push_postgresql(out, name, commits)?,
        (Database::MariaDb, None) => return Ok(()),
        (Database::MariaDb, Some(xid)) => push_mariadb(alloc, out, &xid, commits)?,
    }
    push(out, "; ")
}

/// The statement for an answer, if there is one to be made now, and what ends it.
fn push_ending(
    alloc: Global,
    out: &mut Vec<u8>,
    database: Database,
    name: &str,
    xid: Option<Xid>,
    word: AnswerWord,
) -> Result<(), AllocError>
    ensures { OnOk result (out.new.items
        ≡ out.old.items ++ statement_text database name.now xid (commits_by word)) }
{
    match is_commit(word) {
        None => Ok(()),
        Some(commits) => push_statement(alloc, out, database, name, xid, commits),
    }
}

/// The comment of an answer: the answer, and the reason.
fn push_comment(out: &mut Vec<u8>, name: &str, answer: &BranchAnswer) -> Result<(), AllocError>
    ensures { OnOk result (out.new.items ≡ out.old.items ++ comment_text name.now answer.now) }
{
    push(out, "-- ")?;
    push_answer(out, name, answer.word)?;
    push(out, ": ")?;
    push_reason(out, answer)?;
    push(out, "\n")
}

/// The line of an answer to a name that is this XID, if it is one.
fn push_written(
    alloc: Global,
    out: &mut Vec<u8>,
    database: Database,
    name: &str,
    xid: Option<Xid>,
    answer: &BranchAnswer,
) -> Result<(), AllocError>
    ensures { OnOk result (out.new.items
        ≡ out.old.items ++ sql_text database name.now xid answer.now) }
{
    push_ending(alloc, out, database, name, xid, answer.word)?;
    push_comment(out, name, answer)
}

/// The line of an answer: its statement and the reason as a comment; or a comment alone, if nothing is to be
/// done now.
pub fn push_sql(
    alloc: Global,
    out: &mut Vec<u8>,
    database: Database,
    name: &str,
    answer: &BranchAnswer,
) -> Result<(), AllocError>
    ensures { OnOk result ((xid : Option XidParts) × IsXidOf name.now xid
        × (out.new.items ≡ out.old.items ++ sql_text database name.now xid answer.now)) }
{
    let xid = xid_in(alloc, name)?;
    push_written(alloc, out, database, name, xid, answer)
}
