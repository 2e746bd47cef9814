//! A flood: deliveries of any message that was sent, in any order and again and again, with restarts between
//! them. What the headline promises is looked up in the journal by this test itself.

use audit_tree::audit;
use log_store::MemoryStore;
use protocol::{
    Act, Case, Conclusion, Envelope, Event, Happening, Input, Message, Outcome, ProcessId,
    RecordKind, ShownRecord, Subject, Told, Tree, Txn,
};
use std::alloc::{AllocError, Global};
use tree_script::read;
use tree_world::{World, copied_tree, logs_left};

type Running = World<MemoryStore>;

/// A root with three managers, and eight transactions in which each has written.
const FLAT: &str = "[[process]]\nid = 1\nkind = \"coordinator\"\n\
     [[process]]\nid = 2\nkind = \"manager\"\nparent = 1\n\
     [[process]]\nid = 3\nkind = \"manager\"\nparent = 1\n\
     [[process]]\nid = 4\nkind = \"manager\"\nparent = 1\n---\n";

/// Three levels: below the root a coordinator with two managers, and one with one, and a manager.
const CASCADE: &str = "[[process]]\nid = 1\nkind = \"coordinator\"\n\
     [[process]]\nid = 2\nkind = \"coordinator\"\nparent = 1\n\
     [[process]]\nid = 3\nkind = \"coordinator\"\nparent = 1\n\
     [[process]]\nid = 4\nkind = \"manager\"\nparent = 2\n\
     [[process]]\nid = 5\nkind = \"manager\"\nparent = 2\n\
     [[process]]\nid = 6\nkind = \"manager\"\nparent = 3\n\
     [[process]]\nid = 7\nkind = \"manager\"\nparent = 1\n---\n";

/// How many transactions there are, one half under each presumption.
const TXNS: u64 = 8;

/// The letter of a transaction's presumption, as names spell it.
fn letter(sequence: u64) -> &'static str {
    if sequence % 2 == 1 { "a" } else { "c" }
}

/// The lines that begin the transactions.
fn push_begins(script: &mut String) -> Result<(), AllocError> {
    for sequence in 1..=TXNS {
        script.push_str("begin p")?;
        script.push_str(letter(sequence))?;
        script.push_str("\n")?;
    }
    Ok(())
}

/// A line for each transaction: a process of it, which is the root where it has no ticket, invites a child,
/// or gives it a write.
fn push_each(
    alloc: Global,
    script: &mut String,
    verb: &str,
    owner: Option<u32>,
    child: u32,
) -> Result<(), AllocError> {
    for sequence in 1..=TXNS {
        let txn = letter(sequence);
        let line = match owner {
            None => format!(in alloc; "{verb} {txn}1.{sequence} {child}"),
            Some(owner) => {
                format!(in alloc; "{verb} {txn}1.{sequence}@{owner}.1.{sequence} {child}")
            }
        };
        script.push_str(line?.as_str())?;
        if verb == "work" {
            script.push_str(format!(in alloc; " put k{sequence} v")?.as_str())?;
        }
        script.push_str("\n")?;
    }
    Ok(())
}

/// Each of these pairs of a parent and a child, the root's without a number, in all transactions; and then
/// all is delivered.
fn push_pairs(
    alloc: Global,
    script: &mut String,
    verb: &str,
    pairs: &[(Option<u32>, u32)],
) -> Result<(), AllocError> {
    for pair in pairs {
        let (owner, child) = *pair;
        push_each(alloc, script, verb, owner, child)?;
    }
    script.push_str("settle\n")
}

/// The script of a flat tree up to where all have written.
fn flat_script(alloc: Global) -> Result<String, AllocError> {
    let mut script = String::from_str(alloc, FLAT)?;
    push_begins(&mut script)?;
    let pairs = [(None, 2), (None, 3), (None, 4)];
    push_pairs(alloc, &mut script, "join", &pairs)?;
    push_pairs(alloc, &mut script, "work", &pairs)?;
    Ok(script)
}

/// Likewise of a cascade.
fn cascade_script(alloc: Global) -> Result<String, AllocError> {
    let mut script = String::from_str(alloc, CASCADE)?;
    push_begins(&mut script)?;
    let above = [(None, 2), (None, 3), (None, 7)];
    let below = [(Some(2), 4), (Some(2), 5), (Some(3), 6)];
    push_pairs(alloc, &mut script, "join", &above)?;
    push_pairs(alloc, &mut script, "join", &below)?;
    push_pairs(alloc, &mut script, "work", &[(None, 7)])?;
    push_pairs(alloc, &mut script, "work", &below)?;
    Ok(script)
}

/// A series of numbers that is the same each time (Knuth's MMIX).
#[derive(Drop)]
struct Series(u64);

impl Series {
    /// The next number below a bound; 0, where the bound is 0.
    fn below(&mut self, bound: u64) -> u64 {
        self.0 = self
            .0
            .wrapping_mul(6_364_136_223_846_793_005)
            .wrapping_add(1_442_695_040_888_963_407);
        (self.0 >> 33).checked_rem(bound).unwrap_or(0)
    }
}

/// A restart of one of the tree's processes, which keeps all of its unforced records or none.
fn any_restart(series: &mut Series, tree: &Tree) -> Option<Event> {
    let place = series.below(tree.entries().len() as u64) as usize;
    let entry = tree.entries().get(place)?;
    let keep = if series.below(2) == 0 { Some(0) } else { None };
    Some(Event::Restart(entry.id, keep))
}

/// How many deliveries there are, how often a process restarts between them, and how often a transaction is
/// to be committed.
const DELIVERIES: u64 = 10_000;

const RESTART_EACH: u64 = 100;

const COMMIT_EACH: u64 = 5;

/// One delivery out of as many is of the next message in order of sending, so that the transactions go on;
/// the others are of any message.
const IN_ORDER_EACH: u64 = 2;

/// The transaction of this number.
fn txn_of(world: &Running, sequence: u64) -> Option<Txn> {
    let mut begun = 0u64;
    for place in 0..world.made() {
        if let Some(txn) = world.shown(place)?.begun {
            begun = begun.saturating_add(1);
            if begun == sequence {
                return Some(txn);
            }
        }
    }
    None
}

/// How many messages were sent in the steps from this place of the journal on.
fn sent_from(world: &Running, place: usize) -> Option<u64> {
    let mut sent = 0u64;
    for place in place..world.made() {
        sent = sent.saturating_add(world.shown(place)?.messages.len() as u64);
    }
    Some(sent)
}

/// Delivers any messages, and restarts a process now and then. A commit that comes too late is refused.
fn flood(world: &mut Running, tree: &Tree, seed: u64) -> Option<()> {
    let mut series = Series(seed);
    let (mut wanted, mut counted) = (0u64, world.made());
    let mut sent = sent_from(world, 0)?;
    let mut next = sent.saturating_add(1);
    for number in 1..=DELIVERIES {
        if number % COMMIT_EACH == 0 && wanted < TXNS {
            wanted = wanted.saturating_add(1);
            let txn = txn_of(world, wanted)?;
            let _ = world.apply(Event::Act(Act::Commit(txn)));
        }
        if number % RESTART_EACH == 0 {
            world.apply(any_restart(&mut series, tree)?).ok()?;
        }
        sent = sent.saturating_add(sent_from(world, counted)?);
        counted = world.made();
        if number % IN_ORDER_EACH == 0 && next <= sent {
            world.apply(Event::Deliver(next)).ok()?;
            next = next.saturating_add(1);
        } else {
            let message = series.below(sent).saturating_add(1);
            world.apply(Event::Deliver(message)).ok()?;
        }
    }
    Some(())
}

/// The question for a case in doubt.
fn ask_all(world: &mut Running, cases: &[Case]) -> Option<()> {
    for case in cases {
        world.apply(Event::Act(Act::Ask(*case))).ok()?;
    }
    Some(())
}

/// The cases of managers and coordinators that are prepared and know no outcome, by the journal.
fn in_doubt(alloc: Global, world: &Running) -> Option<Vec<Case>> {
    let mut doubts: Vec<Case> = Vec::new(alloc);
    for place in 0..world.made() {
        note_doubts(&mut doubts, world.shown(place)?.written)?;
    }
    Some(doubts)
}

/// Notes which cases are in doubt after these records.
fn note_doubts(doubts: &mut Vec<Case>, written: &[ShownRecord]) -> Option<()> {
    for logged in written {
        let Subject::Case(case) = logged.subject else {
            continue;
        };
        match logged.kind {
            RecordKind::Prepare | RecordKind::Prepared if !doubts.contains(&case) => {
                doubts.push(case).ok()?;
            }
            kind if outcome_of(kind).is_some() => {
                if let Some(place) = doubts.iter().position(|doubt| *doubt == case) {
                    let _ = doubts.remove(place);
                }
            }
            _ => {}
        }
    }
    Some(())
}

/// The outcome that a record of this kind says its case has.
fn outcome_of(kind: RecordKind) -> Option<Outcome> {
    match kind {
        RecordKind::Commit | RecordKind::Committed => Some(Outcome::Committed),
        RecordKind::Abort | RecordKind::RolledBack => Some(Outcome::Aborted),
        _ => None,
    }
}

/// Delivers all that was not delivered: one settle delivers at most 10,000 messages.
fn settle(world: &mut Running) -> Option<()> {
    for _ in 0..TXNS {
        world.apply(Event::Settle).ok()?;
    }
    Some(())
}

/// Every process restarts, all is delivered, who is in doubt asks, and all is delivered.
fn calm(alloc: Global, world: &mut Running, tree: &Tree) -> Option<()> {
    for entry in tree.entries() {
        world.apply(Event::Restart(entry.id, None)).ok()?;
    }
    settle(world)?;
    let doubts = in_doubt(alloc, world)?;
    ask_all(world, &doubts)?;
    settle(world)
}

/// What the root told of a transaction; one that it told nothing of is aborted.
#[derive(Clone, Copy)]
struct Fate {
    txn: Txn,
    outcome: Outcome,
}

/// The fates of the transactions that were begun, in order.
fn fates(alloc: Global, world: &Running) -> Option<Vec<Fate>> {
    let mut fates: Vec<Fate> = Vec::new(alloc);
    for place in 0..world.made() {
        let step = world.shown(place)?;
        if let Some(txn) = step.begun {
            let outcome = Outcome::Aborted;
            fates.push(Fate { txn, outcome }).ok()?;
        }
        if let Some(told) = step.told {
            note_told(fates.as_mut_slice(), told);
        }
    }
    Some(fates)
}

/// Notes what the root told of a transaction.
fn note_told(fates: &mut [Fate], told: Told) {
    if told.conclusion == Conclusion::Committed {
        for fate in fates.iter_mut() {
            if fate.txn == told.txn {
                fate.outcome = Outcome::Committed;
            }
        }
    }
}

/// Whether a case has this outcome, by its transaction's fate.
fn is_fate(fates: &[Fate], case: Case, outcome: Outcome) -> bool {
    fates
        .iter()
        .any(|fate| fate.txn == case.txn && fate.outcome == outcome)
}

/// Whether these records say no other outcomes than the fates.
fn records_agree(fates: &[Fate], written: &[ShownRecord]) -> bool {
    written.iter().all(|logged| match (logged.subject, outcome_of(logged.kind)) {
        (Subject::Case(case), Some(outcome)) => is_fate(fates, case, outcome),
        _ => true,
    })
}

/// Whether each case that these messages tell to commit has voted for that.
fn told_have_voted(voted: &[Case], messages: &[Envelope]) -> bool {
    messages.iter().all(|envelope| match envelope.message {
        Message::Commit(case) => voted.contains(&case),
        _ => true,
    })
}

/// Notes who votes for commit in these messages: YES, or that it changed nothing.
fn note_votes(voted: &mut Vec<Case>, messages: &[Envelope]) -> Option<()> {
    for envelope in messages {
        match envelope.message {
            Message::Yes(case) | Message::Read(case) if !voted.contains(&case) => {
                voted.push(case).ok()?;
            }
            _ => {}
        }
    }
    Some(())
}

/// The case that an answer reaches with its outcome, where a step is the delivery of one.
fn answer_at(world: &Running, place: usize) -> Option<(Case, Outcome)> {
    match world.entry(place).ok()??.step.happening {
        Happening::Input(Input::Message(_, Message::Commit(case))) => {
            Some((case, Outcome::Committed))
        }
        Happening::Input(Input::Message(_, Message::Abort(case))) => Some((case, Outcome::Aborted)),
        _ => None,
    }
}

/// Whether an answer that finds its case in doubt tells its fate.
fn is_true(fates: &[Fate], doubts: &[Case], answer: Option<(Case, Outcome)>) -> bool {
    match answer {
        Some((case, outcome)) if doubts.contains(&case) => is_fate(fates, case, outcome),
        _ => true,
    }
}

/// Whether no two records say different outcomes of a transaction, commit is told to those alone who voted
/// for it, and each answer that finds its case in doubt tells the outcome.
fn is_sound(alloc: Global, world: &Running, fates: &[Fate]) -> Option<bool> {
    let mut voted: Vec<Case> = Vec::new(alloc);
    let mut doubts: Vec<Case> = Vec::new(alloc);
    for place in 0..world.made() {
        let step = world.shown(place)?;
        let keeps = is_true(fates, &doubts, answer_at(world, place))
            && records_agree(fates, step.written)
            && told_have_voted(&voted, step.messages);
        if !keeps {
            return Some(false);
        }
        note_votes(&mut voted, step.messages)?;
        note_doubts(&mut doubts, step.written)?;
    }
    Some(true)
}

/// Whether the audit of the logs finds no mismatch.
fn audits_clean(alloc: Global, world: &Running, tree: &Tree) -> Option<bool> {
    tree.check().ok()?;
    let logs = logs_left(alloc, world).ok()?;
    Some(audit(alloc, tree, &logs).ok()?.mismatches == 0)
}

/// Floods an open tree, calms it, and looks up the promises. How many transactions are committed; None, if a
/// promise is broken.
fn commits_of(
    alloc: Global,
    world: &mut Running,
    tree: &Tree,
    events: &[Event],
    seed: u64,
) -> Option<usize> {
    world.run(events).ok()?;
    flood(world, tree, seed)?;
    calm(alloc, world, tree)?;
    let fates = fates(alloc, world)?;
    if !is_sound(alloc, world, &fates)? || !audits_clean(alloc, world, tree)? {
        return None;
    }
    Some(count_committed(&fates))
}

/// How many of these transactions are committed.
fn count_committed(fates: &[Fate]) -> usize {
    fates
        .iter()
        .filter(|fate| fate.outcome == Outcome::Committed)
        .count()
}

/// How many transactions a flood of the tree of a script commits; None, if a promise is broken.
fn commits_of_flood(alloc: Global, script: &str, seed: u64) -> Option<usize> {
    let (tree, events) = read(alloc, script.as_bytes()).ok()?;
    let copy = copied_tree(alloc, tree.entries()).ok()?;
    copy.check().ok()?;
    let mut world = World::new(alloc, copy).ok()?;
    let commits = commits_of(alloc, &mut world, &tree, &events, seed);
    world.close();
    commits
}

/// A flood of a flat tree and one of a cascade of three levels: each keeps the promises, and something is
/// committed.
pub(crate) fn floods_keep_the_promises(alloc: Global) -> Option<bool> {
    let (flat, cascade) = (flat_script(alloc).ok()?, cascade_script(alloc).ok()?);
    let commits = commits_of_flood(alloc, flat.as_str(), 1)?.saturating_add(commits_of_flood(
        alloc,
        cascade.as_str(),
        2,
    )?);
    Some(commits > 0)
}
