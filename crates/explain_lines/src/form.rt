//! The lines of each script, by their first word.

use crate::part::LinePart;

/// What an input is.
#[derive(Clone, Copy, Debug, PartialEq, Eq)]
pub enum Script {
    /// A tree, and events.
    Tree,
    /// Requests.
    Xa,
    /// A tree, and logs.
    Logs,
}

/// How a line is made that begins with some word.
#[derive(Clone, Copy)]
pub struct LineForm {
    /// The line in the words of the help.
    pub shown: &'static str,
    /// What is after its first word.
    pub parts: &'static [LinePart],
    /// How many of them, the last ones, may be left out.
    pub optional: usize,
}

/// A form of which nothing may be left out.
fn whole(shown: &'static str, parts: &'static [LinePart]) -> Option<LineForm> {
    Some(LineForm {
        shown,
        parts,
        optional: 0,
    })
}

/// A form whose last part may be left out.
fn shortened(shown: &'static str, parts: &'static [LinePart]) -> Option<LineForm> {
    Some(LineForm {
        shown,
        parts,
        optional: 1,
    })
}

/// The line of an event that begins with this word.
fn event_by(word: &str) -> Option<LineForm> {
    match word {
        "begin" => whole("begin pa|pc", &[LinePart::Presumption]),
        "join" => whole("join CASE CHILD", &[LinePart::Case, LinePart::Child]),
        "commit" => whole("commit TXN", &[LinePart::Txn]),
        "abort" => whole("abort TXN", &[LinePart::Txn]),
        "deliver" => whole("deliver N", &[LinePart::Message]),
        "settle" => whole("settle", &[]),
        "ask" => whole("ask CASE", &[LinePart::Case]),
        "restart" => shortened("restart P [K]", &[LinePart::Process, LinePart::Kept]),
        "trim" => whole("trim P", &[LinePart::Process]),
        "heur" => whole(
            "heur CASE commit|rollback",
            &[LinePart::Case, LinePart::Decision],
        ),
        "forget" => whole("forget CASE", &[LinePart::Case]),
        _ => None,
    }
}

/// The line of a work, by its verb.
fn work_by(verb: &str) -> Option<LineForm> {
    match verb {
        "put" => whole(
            "work CASE CHILD put KEY VALUE",
            &[
                LinePart::Case,
                LinePart::Child,
                LinePart::Verb,
                LinePart::Key,
                LinePart::Value,
            ],
        ),
        "get" => whole(
            "work CASE CHILD get KEY",
            &[
                LinePart::Case,
                LinePart::Child,
                LinePart::Verb,
                LinePart::Key,
            ],
        ),
        "del" => whole(
            "work CASE CHILD del KEY",
            &[
                LinePart::Case,
                LinePart::Child,
                LinePart::Verb,
                LinePart::Key,
            ],
        ),
        _ => whole(
            "work CASE CHILD put KEY VALUE, work CASE CHILD get KEY, work CASE CHILD del KEY",
            &[LinePart::Case, LinePart::Child, LinePart::Verb],
        ),
    }
}

/// The line of a call on a branch.
fn call(shown: &'static str) -> Option<LineForm> {
    whole(shown, &[LinePart::Thread, LinePart::Xid, LinePart::Flags])
}

/// The line of a request that begins with this word.
fn request_by(word: &str) -> Option<LineForm> {
    match word {
        "open" => shortened("open FLAGS [INFO]", &[LinePart::Flags, LinePart::Info]),
        "close" => whole("close FLAGS", &[LinePart::Flags]),
        "start" => call("start TH XID FLAGS"),
        "end" => call("end TH XID FLAGS"),
        "prepare" => call("prepare TH XID FLAGS"),
        "commit" => call("commit TH XID FLAGS"),
        "rollback" => call("rollback TH XID FLAGS"),
        "forget" => call("forget TH XID FLAGS"),
        "recover" => whole(
            "recover TH COUNT FLAGS",
            &[LinePart::Thread, LinePart::Count, LinePart::Flags],
        ),
        "get" => whole("get TH KEY", &[LinePart::Thread, LinePart::Key]),
        "put" => whole(
            "put TH KEY VALUE",
            &[LinePart::Thread, LinePart::Key, LinePart::Value],
        ),
        "del" => whole("del TH KEY", &[LinePart::Thread, LinePart::Key]),
        "heur" => whole(
            "heur XID commit|rollback",
            &[LinePart::Xid, LinePart::Decision],
        ),
        "restart" => shortened("restart [K]", &[LinePart::Kept]),
        "trim" => whole("trim", &[]),
        _ => None,
    }
}

impl Script {
    /// The words with which its lines begin.
    pub fn words(self) -> &'static [&'static str] {
        match self {
            Script::Tree => &[
                "begin", "join", "work", "commit", "abort", "deliver", "settle", "ask", "restart",
                "trim", "heur", "forget",
            ],
            Script::Xa => &[
                "open", "close", "start", "end", "prepare", "commit", "rollback", "forget",
                "recover", "get", "put", "del", "heur", "restart", "trim",
            ],
            Script::Logs => &["log"],
        }
    }

    /// Those words in a sentence.
    pub fn word_list(self) -> &'static str {
        match self {
            Script::Tree => {
                "begin, join, work, commit, abort, deliver, settle, ask, restart, trim, heur or forget"
            }
            Script::Xa => {
                "open, close, start, end, prepare, commit, rollback, forget, recover, get, put, del, \
                 heur, restart or trim"
            }
            Script::Logs => "log P HEX",
        }
    }

    /// What a line of it is.
    pub fn line(self) -> &'static str {
        match self {
            Script::Tree => "event",
            Script::Xa => "request",
            Script::Logs => "line of a log",
        }
    }

    /// What it is, and which commands read it.
    pub fn what(self) -> &'static str {
        match self {
            Script::Tree => "a tree script, for `rstar tree` and `rstar crash`",
            Script::Xa => "an XA script, for `rstar xa`",
            Script::Logs => "logs, for `rstar log` and `rstar audit`",
        }
    }

    /// The form of its line that begins with this word and has this verb, if there is one.
    pub fn form(self, word: &str, verb: &str) -> Option<LineForm> {
        match self {
            Script::Tree if word == "work" => work_by(verb),
            Script::Tree => event_by(word),
            Script::Xa => request_by(word),
            Script::Logs if word == "log" => shortened(
                "log P HEX",
                &[LinePart::Process, LinePart::Bytes],
            ),
            Script::Logs => None,
        }
    }
}

/// The one script whose lines begin with this word, or whose first line is it.
pub fn script_by(word: &str) -> Option<Script> {
    match word {
        "[[process]]" | "begin" | "join" | "work" | "abort" | "deliver" | "settle" | "ask" => {
            Some(Script::Tree)
        }
        "open"
        | "close"
        | "start"
        | "end"
        | "prepare"
        | "rollback"
        | "recover"
        | "get"
        | "put"
        | "del" => Some(Script::Xa),
        "log" => Some(Script::Logs),
        _ => None,
    }
}
