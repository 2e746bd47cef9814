//! Several callers at the same time.

ghost use Rattle.std.specs.Prelude.{◌≡◌};
ghost use Rattle.cluster_tree.specs.Opening.{SeatsTree};

use crate::opening::{close, length, tree};
use cluster_process::{Open, Pass};
use cluster_ties::seats::{Opened, Seats};
use cluster_tree::{Cluster, seats};
use cluster_turns::ClosedJournal;
use protocol::{Act, Event, JournalEntry, Presumption, Tree, Txn};
use std::alloc::Global;
use std::marker::Brand;
use std::sync::{Mutex, Wait};
use std::thread;
use std::thread::Threads;

/// N times each caller begins a transaction.
const TIMES: u64 = 100;

/// What a caller was answered: its number, the place of the entry, from 1, and the transaction.
type Answer = (u64, usize, Txn);

/// A caller begins a transaction.
fn begin<N: Seats, R: Wait>(rt: &R, cluster: &Cluster<N>, pass: &mut Pass<N>) -> Option<Answer> {
    let begin = Event::Act(Act::Begin(Presumption::PresumeAbort));
    let (number, begun) = cluster.post(rt, begin, pass, &Open).ok()?;
    Some((pass.caller(), number, begun?))
}

/// A caller begins transactions, and notes what it was answered.
fn begin_all<N: Seats, R: Wait>(
    rt: &R,
    cluster: &Cluster<N>,
    pass: &mut Pass<N>,
    answers: &Mutex<Vec<Answer>>,
) {
    for _ in 0..TIMES {
        if let Some(answer) = begin(rt, cluster, pass) {
            let _ = answers.lock(rt).push(answer);
        }
    }
}

/// The entry at this place, from 0, with its caller's number.
fn entry_at(journal: &ClosedJournal, place: usize) -> Option<&(u64, JournalEntry)> {
    let mut rest = place;
    for turn in journal.turns() {
        if let Some(found) = turn.get(rest) {
            return Some(found);
        }
        rest = rest.saturating_sub(turn.len());
    }
    None
}

/// Whether the entry at the answered place is the caller's, and began the transaction.
fn is_there(journal: &ClosedJournal, answer: &Answer) -> bool {
    let (caller, number, txn) = answer;
    match entry_at(journal, number.saturating_sub(1)) {
        None => false,
        Some((by, entry)) => by == caller && entry.reaction.begun == Some(*txn),
    }
}

/// Notes that a place, from 1, was answered. Whether it is one of the journal's, and was not answered before.
fn is_first(answered: &mut [bool], number: usize) -> bool {
    match answered.get_mut(number.saturating_sub(1)) {
        None => false,
        Some(was) => {
            let first = !*was;
            *was = true;
            first
        }
    }
}

/// Whether the journal has one entry for each answer, at the place that was answered, and no two answers
/// share one.
fn are_answered(alloc: Global, journal: &ClosedJournal, answers: &[Answer]) -> Option<bool> {
    let entries = length(journal);
    let mut answered = Vec::new(alloc);
    for _ in 0..entries {
        answered.push(false).ok()?;
    }
    let mut holds = entries as u64 == 4 * TIMES && answers.len() == entries;
    for answer in answers {
        holds = holds && is_there(journal, answer) && is_first(&mut answered, answer.1);
    }
    Some(holds)
}

/// Four callers begin transactions at the same time: each that was answered is in the journal, at its place.
fn begin_at_once<N: Seats + Send + Sync, R: Threads + Wait + Sync>(
    rt: &R,
    alloc: Global,
    tree: Tree,
    opened: Opened,
) -> Option<bool>
    requires seats { SeatsTree N.table N.tree tree opened.ties.shared.table_id opened.ties.shared.key.items }
    requires callers { 4 ≡ N.callers }
{
    let Ok((cluster, mut passes)) = Cluster::<N>::new(alloc, tree, opened, 4) else {
        return None;
    };
    let answers = Mutex::new(Vec::new(alloc));
    thread::for_each_mut(
        rt,
        passes.as_mut_slice(),
        4,
        &|_place, pass: &mut Pass<N>| { begin_all(rt, &cluster, pass, &answers) },
    );
    let (journal, _) = close(cluster, passes.as_mut_slice())?;
    let answers = answers.into_inner();
    are_answered(alloc, &journal, &answers)
}

/// Whether each answered call is in the journal.
pub fn ok_is_in_the_journal<R: Threads + Wait + Sync>(rt: &R, alloc: Global) -> Option<bool> {
    let tree = tree(alloc, 2)?;
    let opened = seats(alloc, &tree).ok()?;
    begin_at_once::<Brand, R>(rt, alloc, tree, opened)
}
