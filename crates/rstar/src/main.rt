//! Floor: engines and program.
//!
//! The program `rstar`: the command line, and standard input and output of the engines; and, as a law, that
//! what `rstar audit` says of the logs which `rstar tree --logs` leaves is true.
#![tactic(auto)]

mod auditing;
mod expanding;
mod explainer;
mod files;
mod judging;
mod law;
mod leaving;
mod logs;
mod migration;
mod node;
mod numbering;
mod picturing;
mod pump;
mod resolving;
mod running;
mod source;

use crate::auditing::{Audit, perform_audit};
use crate::expanding::{Vocabulary, expanded};
use crate::running::RunWords;
use audit_engine::run_log;
use clap::error::ErrorKind;
use clap::{Arg, ArgAction, ArgMatches, Command, Error, value_parser};
use crash_engine::run_crash;
use explain_events::{Script, failure_text, notes_text, plain_refusal_text, refusal_text};
use judging::JudgeWords;
use migrate_engine::run_migrate;
use migration::FileWords;
use node::NodeWords;
use picture_parts::PicturePart;
use picturing::{Drawn, NoPart};
use report_io::{read_all, write_all};
use resolving::ResolveWords;
use source::{Source, bytes_in, source_of, tell_refused, tell_waiting};
use std::alloc::{AllocError, Global};
use std::io;
use std::io::{IsTerminal, Read};
use std::process::ExitCode;
use std::sync::Wait;
use std::thread::Threads;
use std::time::Clock;
use tree_engine::{Failure, Status, TreeOutput, run_tree};
use xa_engine::run_xa;

/// What a command line asks for.
#[derive(Clone, Copy, PartialEq, Eq)]
enum Request {
    /// The events of a tree script, and what is written of them.
    Tree(TreeOutput),
    /// The events of a tree script, its trace, and the data that it leaves.
    Data,
    /// The events of a tree script, and its trace with the number of its event before each line.
    Events,
    /// The events of a tree script, and a picture of its run, or of a part of it.
    Picture(Option<PicturePart>),
    /// The events of a tree script, on processes that run at the same time.
    Run(RunWords),
    /// The calls of an XA script.
    Xa,
    /// What the logs of a tree hold.
    Log,
    /// How the cases of a tree stand and end by its logs, and how much is written of that.
    Audit(Audit),
    /// The logs of a tree, by the second format.
    Migrate,
    /// What each crash of a tree script ends with.
    Crash,
}

/// Whether a refusal is explained on standard error.
#[derive(Clone, Copy, PartialEq, Eq)]
enum Told {
    Silent,
    Explained,
}

/// What was read of a command line.
#[derive(Drop)]
enum CommandLine<'a> {
    Request(Request, Told, Vocabulary, Source<'a>),
    /// A script with words for messages, as the script of specified events that it comes to.
    Expand(Told, Source<'a>),
    /// A process of a tree, as a program of its own.
    Node(NodeWords<'a>),
    /// The log of a process in a file, by the second format.
    MigrateFile(FileWords<'a>),
    /// The verdict on what an XA resource manager answered.
    Judge(JudgeWords<'a>),
    /// What is to be done with prepared branches.
    Resolve(ResolveWords<'a>),
    /// What a request for logs asks of those in files, and whether only their text is written.
    Files(Request, Told, Vec<&'a str>, bool),
    /// A part of a run that no word names.
    NoPart(NoPart<'a>),
    Memory,
}

/// What `rstar --version` says after the name: its own version, that of the reaction table, and that of logs.
const VERSION: &str = "0.1.0, protocol 2, format of logs 2";

/// What `rstar --help` says after its subcommands.
const EXAMPLES: &str = "\
Examples:
  rstar tree examples/commit.tree
  rstar tree --logs < examples/commit.tree
  rstar run < examples/commit.tree
  rstar xa < examples/migrate.xa
  rstar log < examples/commit.logs
  rstar audit < examples/commit.logs
  rstar migrate < examples/commit.logs
  rstar crash < examples/commit.tree
  rstar expand < examples/names.words
  rstar resolve --logs examples/commit.logs < names
  rstar judge --plan 1 100 | rstar xa
  rstar node tree.toml 1 1.log --new

Exit status: 0 the script was run to its end, 1 it was refused, 2 an event was refused,
3 an audit found a mismatch, or a run of crash ends with one or a case in doubt, 4 reading,
writing or memory failed, or the device of a log, or numbers are used up, 5 audit --in-doubt
found no mismatch, but a case in doubt.";

/// What `rstar tree --help` says below its usage.
const TREE_HELP: &str = "\
Where it refuses, --explain tells on standard error what is wrong, and what is wanted there.

In: the processes as TOML, a line ---, and an event a line:
  begin pa|pc                          a transaction, under Presumed Abort or Presumed Commit
  join CASE CHILD                      the case's process invites a child of it
  work CASE CHILD put KEY VALUE        gives it an operation (also: get KEY, del KEY)
  commit TXN, abort TXN                what the application asks
  deliver N                            message N, of those that were sent; again, if it came before
  settle                               all that were not delivered, at most 10,000 of them
  ask CASE                             a case in doubt asks its parent
  restart P [K]                        process P crashes and comes back; K bytes of its log are
                                       kept after those that are forced (without K: all)
  trim P                               the log of process P
  heur CASE commit|rollback            an operator decides a manager's case in doubt
  forget CASE                          and lets it go; at the root: clears what its End reports
TXN is as a1.1, CASE as a1.1 or a1.1@2.1.1, KEY and VALUE are visible ASCII characters, up to
64 and 256. Empty lines and lines that begin with # are skipped. The events may begin with a
line 'log P HEX' for the log of each process, as --logs writes them, whole or cut as by a crash:
then each process restarts over its log, in the order of the tree, and messages begin at 1.

Out: a line for each log record, message and word to the application, 'trim P N' where N
records remain, and 'end'; 'refused N E' where event N is refused, 'error ..' where the script
is (docs/ERRORS.md), 'damaged P PLACE' if a log that it begins with is. With --counts,
after that, a line for each process: how many records it wrote in its steps, how many of them
forced, and how many messages it sent, in all and by kind; and 'counts all ..', the sums. The
first Opened of a process over an empty log does not count. With --logs, where no event is
refused: the processes, a line ---, and a line 'log P HEX' for the log of each process, as
'rstar log' and 'rstar audit' read them. With --picture, in place of the trace: one SVG file,
time downward, a line for each process, an arrow for each delivery, a mark for each record; a
refused event is its last row. A picture has room for 40 processes and 2,000 events. With --case
TXN it has the steps of one transaction, with --events A-B those of the events A to B, counted as
--events counts them; of such a part events and messages are numbered from 1. With --data, after the trace, a line 'data P KEY VALUE' for each key that a
manager holds then, keys rising. With --events the number of its event stands before each line:
0 before the lines of the opening, none before the last line.

Examples: rstar tree < examples/commit.tree
          rstar tree < examples/crash.tree
          rstar tree --counts < examples/commit.tree
          rstar tree --picture < examples/commit.tree > commit.svg
          rstar tree --picture --case a1.1 < examples/hotel.tree > hotel.svg
          rstar tree --logs < examples/commit.tree | rstar log";

/// What `rstar xa --help` says below its usage.
const XA_HELP: &str = "\
Where it refuses, --explain tells on standard error what is wrong, and what is wanted there.

In: a request a line, of one resource manager:
  open FLAGS [INFO], close FLAGS
  start|end|prepare|commit|rollback|forget TH XID FLAGS
  recover TH COUNT FLAGS
  get TH KEY, put TH KEY VALUE, del TH KEY    in the branch that the thread is active in
  heur XID commit|rollback                    an operator decides a prepared branch
  restart [K]                                 it crashes and comes back; K bytes of its log are
                                              kept after those that are forced (without K: all)
  trim                                        its log
TH is a number, XID as 7:01:02 (format, global name and branch's name, both in hexadecimal),
FLAGS are XA's names, joined by +, as TMJOIN or TMNOFLAGS. INFO is 1 to 32 letters; opened by
'nomigrate', the manager lets no thread resume what another suspended. KEY and VALUE are visible
ASCII characters, up to 64 and 256. Empty lines and lines that begin with # are skipped.

Out: a line for each request, and 'end': a code by its name in XA, '= VALUE', '= none', 'done',
'refused N', 'boot N', 'trim N', of recover the number of branches and their names; 'error ..'
where the script is refused (docs/ERRORS.md).

Examples: rstar xa < examples/migrate.xa
          rstar xa < examples/prepared.xa";

/// What `rstar log --help` says below its usage.
const LOG_HELP: &str = "\
Where it refuses, --explain tells on standard error what is wrong, and what is wanted there.

In: the processes as TOML, a line ---, and a line 'log P HEX' for the log of each process, of
either format. Out: for each process 'log P' and a line for each record: the place of its first
byte, its kind, its name, and what it carries; 'torn N' after the last if N bytes are a torn
tail. 'damaged P PLACE' alone where a log is damaged, 'error ..' where the input is refused.

With --file nothing is read on standard input: TREE is a file with the processes, and then come the
number of each process and the file of its log, as 'rstar node' has it. They are read as they are,
also while the nodes run, and nothing is written to them. With --logs too, their text is written, as
'rstar tree --logs' has it and this command reads it.

Examples: rstar log < examples/commit.logs
          rstar log --file tree.toml 1 1.log 2 2.log";

/// What `rstar audit --help` says below its usage.
const AUDIT_HELP: &str = "\
In: as 'rstar log' reads it, and 'rstar tree --logs' writes it. Out: a line for each case
that a log still tells of, process by process: 'CASE OWN OUTCOME'. OWN is how the case stands
by the records of its own process: commit, abort, collecting, in-doubt, heur-commit or
heur-rollback. OUTCOME is how its transaction ends if every process restarts now: the case's
own decision or what it was told, or else what its parent's log says, or else what is presumed;
one that is not decided yet counts as aborted. ' mismatch' stands after it if an operator
decided otherwise; after a root's line ' reported T ..' and ' unreported T ..' where the end of
its case reports these tickets as decided against the outcome, or as no longer known, until it is
forgotten. The last line is 'mismatches N'; the status is 3 where N is above 0. 'damaged P PLACE'
alone where a log is damaged, 'error ..' where the input is refused. With --explain, after each
line that is in-doubt, shows a mismatch or reports tickets: who asks whom about it, or who
reported it, a line a step, or what it was told; and what to do. With --file the logs are read in
files, as 'rstar log --help' has it.

Examples: rstar audit < examples/commit.logs
          rstar audit --explain < examples/operator.logs
          rstar tree --logs < examples/commit.tree | rstar audit
          rstar audit --file tree.toml 1 1.log 2 2.log";

/// What `rstar crash --help` says below its usage.
const CRASH_HELP: &str = "\
Where it refuses, --explain tells on standard error what is wrong, and what is wanted there.

In: a tree script, as 'rstar tree' reads it, with logs ahead of its events or without. After
each of its events, and within a settle after each delivery, each process crashes in a run of
its own, once with each number of its unforced records kept, from none to all. Then messages are delivered as by settle, every case
that its log shows in doubt asks its parent, messages are delivered again, and the logs are
audited. Out: first 'no crash:' and what
all events leave without one, where they leave something: 'in-doubt CASE ..', 'mismatch CASE
..', or both. Then a line for each crash that leaves more than that: 'event N restart P K:' and
likewise the cases that it adds; it is the run of the first N events and 'restart P K'. Within
a settle it is 'event N delivery D restart P K:', after the first D deliveries of event N.
'refused N E' would stand there, too, were there such a crash; none was found. The last line is
'points N in-doubt D mismatches M': N crashes were tried, D of them add a case in doubt, and M
a mismatch. 'refused N E' stands after it if event N of the script is refused, and
'error ..' alone where the script is. The status is 2 where an event is refused, else 3 where
the script or a crash leaves something. Standard error has a line for each percent of the
events. Each crash runs its script anew, so the time goes with the square of the number of
events and deliveries.

Examples: rstar crash < examples/commit.tree
          rstar crash < examples/operator.tree";

/// What `rstar node --help` says below its usage.
const NODE_HELP: &str = "\
TREE is a file with the processes as TOML, ME the number of one of them, LOG the file of its
log; with --new it is made, and without it a log that is missing is not begun anew. One process
has a log at a time. A log of the first format is migrated first ('rstar migrate --help'). Where
it does not start, standard error tells why; with --explain also what is wrong with each line
that it refuses. With --words a refusal has a word after its number, as 'refused 5 closed', and
'error' one, no-line or no-text. --name says how the names of the tree's branches in databases
begin, for 'resolve'.

Beside the lines of the input, and without an 'ok', so that each 'ok' answers one of them:
  --ask SECONDS    each case in doubt is asked about again, as by 'ask CASE', each time this many
                   seconds have passed; what is written of it are its messages
  --trim-at BYTES  the log is trimmed after an answer, if its file is longer; of what a trim took
                   'outcome' is 'unknown'. If much is left, not before it has doubled
  --joined         before the 'ok' to a JOINED that is accepted a line 'joined CASE CHILD
                   TXN@TICKET': CASE is the case that JOINED names, the last word the child's.
                   Numbers of messages may be left out then

In, a line each, answered in order, each before the next is read:
  begin pa|pc, join, work, commit, abort, ask, heur, forget    as 'rstar tree --help' has them
  N F->T MESSAGE                       a message to this process, as another node wrote it; N is
                                       passed over
  trim                                 the log
  doubt                                a line 'doubt CASE' for each case in doubt here, in the order
                                       of their promises, and 'decided CASE commit|abort' for each
                                       that an operator decided and that waits to be told
  outcome TXN                          at the root: 'outcome TXN committed', 'aborted', 'open' or
                                       'unknown', as far as the log tells; 'unknown' is one that
                                       wrote no record, or that a trim took: who is in doubt of
                                       it is answered abort by a..., commit by c...
  again CASE                           the decision of the case once more, to each child that owes
                                       an acknowledgement of it: one may have been lost. Nothing
                                       is recorded; refused 9, if the case waits for none
  resolve NAME                         what is to be done with a prepared branch of this name, as
                                       'rstar resolve' reads names: 'resolve NAME commit',
                                       'rollback', 'heuristic-commit', 'heuristic-rollback',
                                       'wait', 'unknown PROCESS' or 'foreign'. It goes by this
                                       process's log alone; what is not in it counts at the root,
                                       of a transaction that is not under way
  status                               'status boot B records N unforced N bytes N in-doubt N
                                       decided N' of the log
  log                                  what the log holds, as 'rstar log' has it
  data                                 a line 'data KEY VALUE' for each key of a manager, both in
                                       hexadecimal
  help                                 a line for each kind of line that a node knows
  end                                  all that stands is forced, and it ends; nothing after it is read
Out: what the process did, as a trace has it, and then 'ok'; 'refused E' (docs/ERRORS.md; 9 what
is for another process, or from one that may not send it); 'error' where the line is the line of
nothing, or has more than 4,096 bytes before its line feed. What an answer rests on is on the disk
before it is written. Whoever carries the messages reads '->T' and may lose, repeat and reorder
them, and may not alter one or invent one. At the end of the input all that stands is forced, and
the status is 0. A signal that ends it forces nothing: the next start goes on from what was forced.
Where the device or memory fails it ends at once, with no answer to the line, and goes on
when it is started again.

Examples: rstar node tree.toml 1 1.log --new
          rstar node tree.toml 1 1.log";

/// A flag of this name, and what help says of it.
fn flag<'a>(alloc: Global, name: &'a str, help: &'a str) -> Arg<'a> {
    Arg::new(alloc, name)
        .long(name)
        .help(help)
        .action(ArgAction::SetTrue)
}

/// A subcommand of this name: what the program's help says of it, and what its own says below its usage.
fn subcommand<'a>(alloc: Global, name: &'a str, about: &'a str, help: &'a str) -> Command<'a> {
    Command::new(alloc, name).about(about).after_help(help)
}

/// The flag `--explain` of the subcommands that refuse without a word.
fn explain<'a>(alloc: Global) -> Arg<'a> {
    flag(
        alloc,
        "explain",
        "Says on standard error what is wrong with a refused input or event, and why",
    )
}

/// A subcommand of this name that explains what it refuses.
fn explaining<'a>(
    alloc: Global,
    name: &'a str,
    about: &'a str,
    help: &'a str,
) -> Result<Command<'a>, AllocError> {
    subcommand(alloc, name, about, help).arg(explain(alloc))
}

/// The flag `--counts` of `rstar tree`, which `--logs` excludes.
fn counts<'a>(alloc: Global) -> Result<Arg<'a>, AllocError> {
    flag(
        alloc,
        "counts",
        "Writes after the trace what each process wrote and sent, counted",
    )
    .conflicts_with("logs")
}

/// The flag `--picture` of `rstar tree`, which `--logs` and `--counts` exclude.
fn picture<'a>(alloc: Global) -> Result<Arg<'a>, AllocError> {
    flag(
        alloc,
        "picture",
        "Writes a picture of the run in place of the trace, as one SVG file",
    )
    .conflicts_with("logs")?
    .conflicts_with("counts")
}

/// The flag `--data` of `rstar tree`, which `--logs`, `--counts` and `--picture` exclude.
fn data<'a>(alloc: Global) -> Result<Arg<'a>, AllocError> {
    flag(
        alloc,
        "data",
        "Writes after the trace the keys and values that the managers hold then",
    )
    .conflicts_with("logs")?
    .conflicts_with("counts")?
    .conflicts_with("picture")
}

/// The flag `--events` of `rstar tree`, which excludes the others; with `--picture` it takes the numbers of
/// two events.
fn events<'a>(alloc: Global) -> Result<Arg<'a>, AllocError> {
    Arg::new(alloc, "events")
        .long("events")
        .value_name("A-B")
        .num_args(0..=1)
        .help(
            "Writes the number of its event before each line; with --picture draws the events A to B",
        )
        .action(ArgAction::Set)
        .conflicts_with("logs")?
        .conflicts_with("counts")?
        .conflicts_with("data")
}

/// The words of `rstar tree`.
fn tree<'a>(alloc: Global) -> Result<Command<'a>, AllocError> {
    explaining(
        alloc,
        "tree",
        "Runs a transaction script on a tree of processes, and writes the trace",
        TREE_HELP,
    )?
    .arg(flag(
        alloc,
        "logs",
        "Writes the tree and the logs it leaves, as 'rstar log' reads them",
    ))?
    .arg(counts(alloc)?)?
    .arg(picture(alloc)?)?
    .arg(data(alloc)?)?
    .arg(events(alloc)?)?
    .arg(picturing::case(alloc)?)?
    .arg(expanding::flag(alloc))?
    .arg(source::word(alloc))
}

/// The words of `rstar log`.
fn log<'a>(alloc: Global) -> Result<Command<'a>, AllocError> {
    explaining(
        alloc,
        "log",
        "Prints what the logs of a tree hold, one record a line",
        LOG_HELP,
    )?
    .arg(flag(
        alloc,
        "logs",
        "Writes the text of the logs in files, as 'rstar log' reads it",
    )
    .requires_arg("file")?)?
    .arg(logs::file(alloc))
}

/// The words of `rstar audit`.
fn audit<'a>(alloc: Global) -> Result<Command<'a>, AllocError> {
    subcommand(
        alloc,
        "audit",
        "Reports the state and the outcome of each case of a tree, and which an operator decided against its outcome",
        AUDIT_HELP,
    )
    .arg(flag(
        alloc,
        "explain",
        "Says of each case in doubt and each mismatch what decided it, and what to do; or what is wrong with a refused input",
    ))?
    .arg(flag(
        alloc,
        "in-doubt",
        "Writes last how many cases are in doubt; the status is 5 if one is, and no line shows a mismatch",
    ))?
    .arg(logs::file(alloc))
}

/// A word that has to be there, and what help says of it.
fn word<'a>(alloc: Global, name: &'a str, help: &'a str) -> Arg<'a> {
    Arg::new(alloc, name)
        .help(help)
        .required(true)
        .action(ArgAction::Set)
}

/// The words of `rstar node`.
fn node_grammar<'a>(alloc: Global) -> Result<Command<'a>, AllocError> {
    subcommand(
        alloc,
        "node",
        "Runs one process of a tree over a log in a file: lines in, lines out",
        NODE_HELP,
    )
    .arg(word(alloc, "TREE", "The file of the processes"))?
    .arg(word(alloc, "ME", "The number of the process"))?
    .arg(word(alloc, "LOG", "The file of its log"))?
    .arg(flag(alloc, "new", "Makes the log, which must not be there yet"))?
    .arg(flag(
        alloc,
        "explain",
        "Says on standard error what is wrong with each line that is refused",
    ))?
    .arg(flag(
        alloc,
        "words",
        "Says a word after the number of a refusal, and after 'error'",
    ))?
    .arg(flag(
        alloc,
        "joined",
        "Says a line 'joined CASE CHILD TXN@TICKET' when a child has joined a case",
    ))?
    .arg(
        Arg::new(alloc, "name")
            .long("name")
            .value_name("NAME")
            .help("The name of the tree, with which the names of its branches in databases begin")
            .action(ArgAction::Set),
    )?
    .arg(
        Arg::new(alloc, "ask")
            .long("ask")
            .value_name("SECONDS")
            .help("Asks again about what is in doubt, each time this many seconds have passed")
            .value_parser(value_parser!(u64).range(1..=MOST_SECONDS)),
    )?
    .arg(
        Arg::new(alloc, "trim-at")
            .long("trim-at")
            .value_name("BYTES")
            .help("Trims the log after an answer, if its file is longer than this")
            .value_parser(value_parser!(u64).range(1..)),
    )
}

/// `--ask` waits at most a day.
const MOST_SECONDS: i64 = 86_400;

/// The words after the program's name, and what help says of them.
fn grammar<'a>(alloc: Global) -> Result<Command<'a>, AllocError> {
    subcommand(
        alloc,
        "rstar",
        "Distributed transactions by the R* commit protocol. Scripts come on standard input, or in a file.",
        EXAMPLES,
    )
    .version(VERSION)
    .subcommand_required(true)
    .subcommand(tree(alloc)?)?
    .subcommand(running::words(alloc)?)?
    .subcommand(explaining(
        alloc,
        "xa",
        "Makes the calls of an XA script on a key store with a log, and writes the answers",
        XA_HELP,
    )?
    .arg(source::word(alloc))?)?
    .subcommand(log(alloc)?)?
    .subcommand(audit(alloc)?)?
    .subcommand(migration::words(alloc)?)?
    .subcommand(resolving::words(alloc)?)?
    .subcommand(judging::words(alloc)?)?
    .subcommand(
        explaining(
            alloc,
            "crash",
            "Crashes each process in turn after each event of a script, and lists what stays in doubt",
            CRASH_HELP,
        )?
        .arg(expanding::flag(alloc))?
        .arg(source::word(alloc))?,
    )?
    .subcommand(expanding::words(alloc)?)?
    .subcommand(node_grammar(alloc)?)
}

/// What is written of a tree script.
fn tree_request(matches: &ArgMatches) -> Request {
    if matches.get_flag("logs") {
        Request::Tree(TreeOutput::Logs)
    } else if matches.get_flag("counts") {
        Request::Tree(TreeOutput::Counts)
    } else if matches.get_flag("data") {
        Request::Data
    } else if matches.contains_id("events") {
        Request::Events
    } else {
        Request::Tree(TreeOutput::Trace)
    }
}

/// What these words of `rstar tree` ask for.
fn tree_asked<'a>(matches: &ArgMatches<'a>) -> CommandLine<'a> {
    let (told, words) = (told_of(matches), expanding::asked(matches));
    if matches.get_flag("picture") {
        return match picturing::part_of(matches) {
            Ok(part) => CommandLine::Request(
                Request::Picture(part),
                told,
                words,
                source_of(matches),
            ),
            Err(word) => CommandLine::NoPart(word),
        };
    }
    match numbering::source_of(matches) {
        Ok(source) => CommandLine::Request(tree_request(matches), told, words, source),
        Err(word) => CommandLine::NoPart(NoPart::Events(word)),
    }
}

/// Whether a refusal is explained.
fn told_of(matches: &ArgMatches) -> Told {
    if matches.get_flag("explain") {
        Told::Explained
    } else {
        Told::Silent
    }
}

/// The words of `rstar node`, each of which has to be there.
fn node_of<'a>(matches: &ArgMatches<'a>) -> Option<NodeWords<'a>> {
    Some(NodeWords {
        tree: matches.get_str("TREE")?,
        me: matches.get_str("ME")?,
        log: matches.get_str("LOG")?,
        is_new: matches.get_flag("new"),
        is_explained: matches.get_flag("explain"),
        has_words: matches.get_flag("words"),
        name: matches.get_str("name"),
        ask: matches.get_one::<u64>("ask"),
        trim_at: matches.get_one::<u64>("trim-at"),
        tells_joined: matches.get_flag("joined"),
    })
}

/// What a request for logs asks of: those in files, if there is `--file`, or those of its input.
fn logs_asked<'a>(
    alloc: Global,
    matches: &ArgMatches<'a>,
    request: Request,
    told: Told,
    is_text: bool,
) -> Result<CommandLine<'a>, AllocError> {
    Ok(match logs::words_of(alloc, matches)? {
        Some(words) => CommandLine::Files(request, told, words, is_text),
        None => CommandLine::Request(request, told, Vocabulary::Specified, Source::Standard),
    })
}

/// What these words ask for, the program's name first.
fn read_words<'a>(alloc: Global, words: &'a [String]) -> Result<CommandLine<'a>, Error> {
    let matches = grammar(alloc)?.try_get_matches_from(words)?;
    match matches.subcommand() {
        Some((name, found)) => Ok(match name {
            "tree" => tree_asked(found),
            "expand" => CommandLine::Expand(told_of(found), source_of(found)),
            "run" => CommandLine::Request(
                Request::Run(running::asked(found)),
                told_of(found),
                Vocabulary::Specified,
                source_of(found),
            ),
            "log" => {
                let is_text = found.get_flag("logs");
                logs_asked(alloc, found, Request::Log, told_of(found), is_text)?
            }
            "audit" => {
                let request = Request::Audit(auditing::asked(found));
                logs_asked(alloc, found, request, told_of(found), false)?
            }
            "migrate" => match migration::file_of(found) {
                Some(words) => CommandLine::MigrateFile(words),
                None => CommandLine::Request(
                    Request::Migrate,
                    told_of(found),
                    Vocabulary::Specified,
                    Source::Standard,
                ),
            },
            "judge" => CommandLine::Judge(judging::asked(found)),
            "resolve" => CommandLine::Resolve(resolving::asked(alloc, found)?),
            "crash" => CommandLine::Request(
                Request::Crash,
                told_of(found),
                expanding::asked(found),
                source_of(found),
            ),
            "node" => match node_of(found) {
                Some(words) => CommandLine::Node(words),
                None => CommandLine::Memory,
            },
            _ => CommandLine::Request(
                Request::Xa,
                told_of(found),
                Vocabulary::Specified,
                source_of(found),
            ),
        }),
        None => Ok(CommandLine::Memory),
    }
}

/// The exit status of a run that ended so.
fn number(ended: Result<Status, Failure>) -> Result<u8, Failure> {
    match ended {
        Ok(status) => Ok(status.number()),
        Err(failure) => Err(failure),
    }
}

/// Runs what was asked on this input: how it ended, or why it could not go on.
fn run<R: Read, T: Threads + Wait + Sync>(
    rt: &HostRuntime,
    threads: &T,
    request: Request,
    reader: &mut R,
) -> Result<Drawn, Failure> {
    let mut writer = io::writer(rt);
    let alloc = rt.alloc();
    let status = match request {
        Request::Picture(part) => return picturing::perform(rt, part, reader),
        Request::Tree(output) => number(run_tree(alloc, output, reader, &mut writer)),
        Request::Data => leaving::perform(alloc, reader, &mut writer),
        Request::Events => numbering::perform(alloc, reader, &mut writer),
        Request::Run(run) => number(running::start(alloc, threads, run, reader, &mut writer)),
        Request::Xa => number(run_xa(alloc, reader, &mut writer)),
        Request::Log => number(run_log(alloc, reader, &mut writer)),
        Request::Migrate => number(run_migrate(alloc, reader, &mut writer)),
        Request::Audit(audit) => perform_audit(alloc, audit, reader, &mut writer),
        Request::Crash => match run_crash(alloc, reader, &mut writer, &mut rt.stderr()) {
            Ok(ending) => Ok(ending.number()),
            Err(failure) => Err(failure),
        },
    };
    Ok(Drawn::Ended(status?))
}

/// The exit status of a run that ended so.
fn status_by(ended: Result<u8, Failure>) -> u8 {
    match ended {
        Ok(number) => number,
        Err(
            Failure::Read | Failure::Memory | Failure::Device | Failure::Exhausted | Failure::Write,
        ) => 4,
    }
}

/// What is read for a request.
fn script_of(request: Request) -> Script {
    match request {
        Request::Tree(_)
        | Request::Data
        | Request::Events
        | Request::Picture(_)
        | Request::Run(_)
        | Request::Crash => Script::Tree,
        Request::Xa => Script::Xa,
        Request::Log | Request::Audit(_) | Request::Migrate => Script::Logs,
    }
}

/// Why what was asked refused this input, or an event of it. `rstar run` takes no logs ahead of events.
fn why(alloc: Global, request: Request, input: &[u8]) -> Result<String, Failure> {
    match request {
        Request::Run(_) => plain_refusal_text(alloc, input),
        _ => refusal_text(alloc, script_of(request), input),
    }
}

/// Writes a text, if there is one, to standard error, as far as it takes it.
fn tell(rt: &HostRuntime, text: Option<String>) {
    if let Some(text) = text {
        let _ = write_all(&mut rt.stderr(), text.as_bytes());
    }
}

/// Runs what was asked on this input, tells on standard error why it was refused, if that is to be told, and
/// answers the exit status.
fn run_on<T: Threads + Wait + Sync>(
    rt: &HostRuntime,
    threads: &T,
    request: Request,
    told: Told,
    input: &[u8],
) -> Result<u8, Failure> {
    let mut reader = input;
    let Drawn::Ended(status) = run(rt, threads, request, &mut reader)? else {
        return Ok(1);
    };
    if status == 0 || status == 2 {
        tell_notes(rt, request, told, input);
    }
    match status {
        1 | 2 if told == Told::Explained => tell(rt, why(rt.alloc(), request, input).ok()),
        1 | 2 => tell_refused(rt),
        _ => {}
    }
    Ok(status)
}

/// The bytes of the longest script of whose run something is noted if no explanation is asked for, since the
/// run is made once more for that.
const MOST_NOTED: usize = 1 << 16;

/// Tells on standard error what is to be noted of the run of a tree script.
fn tell_notes(rt: &HostRuntime, request: Request, told: Told, input: &[u8]) {
    if told == Told::Silent && input.len() > MOST_NOTED {
        return;
    }
    if let Request::Tree(_) | Request::Data | Request::Events | Request::Picture(_) = request {
        tell(
            rt,
            notes_text(rt.alloc(), input, told == Told::Explained).ok(),
        );
    }
}

/// Runs what was asked on this input, tells on standard error why it was refused or could not go on, and
/// answers the exit status.
fn explained<R: Read, T: Threads + Wait + Sync>(
    rt: &HostRuntime,
    threads: &T,
    request: Request,
    told: Told,
    reader: &mut R,
) -> Result<u8, Failure> {
    let input = read_all(rt.alloc(), reader)?;
    run_on(rt, threads, request, told, &input)
}

/// Runs a request for logs on those in files, and answers the exit status.
fn perform_files<T: Threads + Wait + Sync>(
    rt: &HostRuntime,
    threads: &T,
    request: Request,
    told: Told,
    words: &[&str],
    is_text: bool,
) -> u8 {
    let input = match logs::input_of(rt, words) {
        Ok(input) => input,
        Err(end) => return files::status_of(rt, name_of(request), Err(end)),
    };
    let ended = if is_text {
        write_all(&mut io::writer(rt), &input).map(|_| 0)
    } else {
        run_on(rt, threads, request, told, &input)
    };
    status_by(ended)
}

/// The name of a request for logs.
fn name_of(request: Request) -> &'static str {
    if request == Request::Log {
        "log"
    } else {
        "audit"
    }
}

/// Runs what was asked on this input, and answers the exit status.
fn run_silent<R: Read, T: Threads + Wait + Sync>(
    rt: &HostRuntime,
    threads: &T,
    request: Request,
    reader: &mut R,
) -> Result<u8, Failure> {
    match run(rt, threads, request, reader)? {
        Drawn::Ended(status) => Ok(status),
        Drawn::Refused => Ok(1),
    }
}

/// Runs what was asked on this input, tells what is to be told of it, and answers the exit status.
fn perform_on<R: Read, T: Threads + Wait + Sync>(
    rt: &HostRuntime,
    threads: &T,
    request: Request,
    told: Told,
    reader: &mut R,
) -> u8 {
    if told == Told::Silent && !rt.stderr().is_terminal() {
        return status_by(run_silent(rt, threads, request, reader));
    }
    let ended = explained(rt, threads, request, told, reader);
    if let Err(failure) = ended {
        if told == Told::Explained {
            tell(rt, failure_text(rt.alloc(), failure).ok());
        }
    }
    status_by(ended)
}

/// Runs what was asked on a reader, and answers the exit status.
fn perform_by<R: Read, T: Threads + Wait + Sync>(
    rt: &HostRuntime,
    threads: &T,
    request: Request,
    told: Told,
    words: Vocabulary,
    reader: &mut R,
) -> u8 {
    match words {
        Vocabulary::Specified => perform_on(rt, threads, request, told, reader),
        Vocabulary::Named => match expanded(rt, told == Told::Explained, reader) {
            Ok(text) => perform_on(rt, threads, request, told, &mut text.as_slice()),
            Err(status) => status,
        },
    }
}

/// Runs what was asked, and answers the exit status.
fn perform<T: Threads + Wait + Sync>(
    rt: &HostRuntime,
    threads: &T,
    request: Request,
    told: Told,
    words: Vocabulary,
    source: Source<'_>,
) -> u8 {
    match source {
        Source::Standard => {
            tell_waiting(rt);
            perform_by(rt, threads, request, told, words, &mut rt.reader())
        }
        Source::File(path) => match bytes_in(rt, path) {
            Some(bytes) => { perform_by(rt, threads, request, told, words, &mut bytes.as_slice()) }
            None => 4,
        },
    }
}

/// Reads the command line and runs it.
fn status_of<T: Threads + Wait + Sync + Clock + Copy + Drop + Send + 'static>(
    rt: &HostRuntime,
    threads: &T,
) -> u8 {
    let alloc = rt.alloc();
    let args = match std::env::args(rt) {
        Ok(args) => args,
        Err(error) if error.kind() == io::ErrorKind::OutOfMemory => return 4,
        Err(_) => {
            let told = eprintln!(rt; "error: invalid UTF-8 was detected in one or more arguments");
            return if told.is_ok() { 1 } else { 4 };
        }
    };
    let words: Result<Vec<String>, _> = args.collect(alloc);
    let Ok(words) = words else {
        return 4;
    };
    match read_words(alloc, words.as_slice()) {
        Ok(CommandLine::Request(request, told, words, source)) => {
            perform(rt, threads, request, told, words, source)
        }
        Ok(CommandLine::Expand(told, source)) => expanding::run(
            rt,
            told == Told::Explained,
            source,
        ),
        Ok(CommandLine::Node(words)) => node::run(rt, *threads, words),
        Ok(CommandLine::MigrateFile(words)) => migration::run(rt, words),
        Ok(CommandLine::Resolve(words)) => resolving::run(rt, words),
        Ok(CommandLine::Judge(words)) => judging::run(rt, words),
        Ok(CommandLine::Files(request, told, words, is_text)) => {
            perform_files(rt, threads, request, told, &words, is_text)
        }
        Ok(CommandLine::NoPart(word)) => {
            picturing::tell_no_part(rt, word);
            1
        }
        Ok(CommandLine::Memory) => 4,
        Err(error) => {
            if error.kind() == ErrorKind::OutOfMemory {
                return 4;
            }
            let status = if error.exit_code() == 0 { 0 } else { 1 };
            if error.print(rt).is_err() {
                return 4;
            }
            status
        }
    }
}

fn main(rt: HostRuntime) -> ExitCode {
    ExitCode::from(status_of(&rt, &rt))
}
