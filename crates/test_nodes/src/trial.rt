//! A tree of nodes in memory, whose nodes end and start again.

use crate::chance::Chance;
use crate::lines;
use crate::net::{Mail, Net};
use audit_engine::{AuditStatus, Detail, run_audit};
use log_script::{ProcessLog, logs_text};
use log_store::MemoryStore;
use node_engine::{Serving, start};
use protocol::{ProcessId, Reaction, Sequence, Tree};
use spellings::word::cut;
use std::alloc::Global;
use std::{mem, str};
use tree_script::read_tree;

const TREE: &str = "\
[[process]]
id = 1
kind = \"coordinator\"
[[process]]
id = 2
kind = \"coordinator\"
parent = 1
[[process]]
id = 3
kind = \"manager\"
parent = 2
[[process]]
id = 4
kind = \"manager\"
parent = 1
";

const ROOT: ProcessId = ProcessId(1);

const MIDDLE: ProcessId = ProcessId(2);

const BELOW: ProcessId = ProcessId(3);

const LEAF: ProcessId = ProcessId(4);

const TXNS: u64 = 16;

type Node = Serving<MemoryStore>;

#[derive(Drop)]
struct Trial {
    alloc: Global,
    tree: Tree,
    nodes: Vec<Node>,
    net: Net,
    chance: Chance,
    ends: u64,
}

/// Lets a node go. One function does it: what letting go of one means is proved once, and not at each way
/// out.
fn let_go(_node: Node) {}

/// A node of the tree over a log of these bytes, and what it did as it opened.
fn started(alloc: Global, tree: &Tree, place: usize, log: Vec<u8>) -> Option<(Node, Reaction)> {
    let entry = tree.entries().get(place)?;
    start(alloc, tree, entry, MemoryStore::from_bytes(log)).ok()
}

/// What a crash leaves of a node's log: of the bytes of its unforced records some.
fn left_of(alloc: Global, node: &Node, chance: &mut Chance) -> Option<Vec<u8>> {
    let mut log = node.node().log_text().ok()?;
    let mut unforced = 0usize;
    for size in node.node().unforced_sizes(alloc).ok()?.iter() {
        unforced = unforced.saturating_add(usize::try_from(*size).ok()?);
    }
    let lost = chance.below(unforced.saturating_add(1));
    let keep = log.len().saturating_sub(lost);
    log.truncate(keep);
    Some(log)
}

/// The first of these words.
fn first_word(words: &str) -> &str {
    match cut(words, ' ') {
        Some((first, _)) => first,
        None => words,
    }
}

impl Trial {
    /// What a node wrote.
    fn note(&mut self, text: &[u8]) -> Option<()> {
        for line in str::from_utf8(text).ok()?.lines() {
            self.net.note(line)?;
        }
        Some(())
    }

    fn place_of(&self, process: ProcessId) -> Option<usize> {
        self.tree
            .entries()
            .iter()
            .position(|entry| entry.id == process)
    }

    /// A node is asked a line. Gives what it answers.
    fn ask(&mut self, process: ProcessId, line: &str) -> Option<Vec<u8>> {
        let place = self.place_of(process)?;
        let node = self.nodes.get_mut(place)?;
        let text = node.answer(line.as_bytes()).ok()?;
        self.note(&text)?;
        Some(text)
    }

    fn deliver(&mut self, mail: &Mail) -> Option<()> {
        self.ask(mail.to, mail.line.as_str())?;
        Some(())
    }

    /// What the node at this place did as it opened.
    fn note_opening(&mut self, place: usize, opening: &Reaction) -> Option<()> {
        let node = self.nodes.get_mut(place)?;
        let text = node.show(opening).ok()?;
        self.note(&text)
    }

    /// A node is put after the others. False: there is no memory for it, and it is released.
    fn seat(&mut self, node: Node) -> bool {
        match self.nodes.push(node) {
            Ok(()) => true,
            Err(refused) => {
                let_go(refused.value);
                false
            }
        }
    }

    /// The node of this place of the tree is started over a log without bytes.
    fn open_at(&mut self, place: usize) -> Option<()> {
        let (node, opening) = started(self.alloc, &self.tree, place, Vec::new(self.alloc))?;
        if self.seat(node) {
            self.note_opening(place, &opening)
        } else {
            None
        }
    }

    /// Each node of the tree is started.
    fn open(&mut self) -> Option<()> {
        for place in 0..self.tree.entries().len() {
            self.open_at(place)?;
        }
        Some(())
    }

    /// What a crash leaves of the log at this place.
    fn left_at(&mut self, place: usize) -> Option<Vec<u8>> {
        let node = self.nodes.get(place)?;
        left_of(self.alloc, node, &mut self.chance)
    }

    /// A node takes the place of another, which is let go.
    fn replace(&mut self, place: usize, node: Node) {
        match self.nodes.get_mut(place) {
            Some(old) => let_go(mem::replace(old, node)),
            None => let_go(node),
        }
    }

    /// A node ends, and another starts over what a crash leaves of its log.
    fn end(&mut self, process: ProcessId) -> Option<()> {
        let place = self.place_of(process)?;
        let log = self.left_at(place)?;
        let (node, opening) = started(self.alloc, &self.tree, place, log)?;
        self.replace(place, node);
        self.ends = self.ends.saturating_add(1);
        self.note_opening(place, &opening)
    }

    /// Delivers the messages on their way that have this word.
    fn deliver_all(&mut self, word: &str) -> Option<()> {
        for _ in 0..1000 {
            match self.net.take(word) {
                None => return Some(()),
                Some(mail) => self.deliver(&mail)?,
            }
        }
        None
    }

    /// A parent's case invites a child, which joins.
    fn join(&mut self, parent: ProcessId, case: &str, child: ProcessId) -> Option<()> {
        let number = child.0;
        let line = format!(in self.alloc; "join {case} {number}").ok()?;
        self.ask(parent, line.as_str())?;
        self.deliver_all("JOIN")?;
        self.deliver_all("JOINED")
    }

    /// Messages come, some of them, and nodes end in between.
    fn pass_on(&mut self, count: usize) -> Option<()> {
        for _ in 0..count {
            let Some(mail) = self.net.pick(&mut self.chance) else {
                return Some(());
            };
            if self.chance.one_in(20) {
                self.net.lost = self.net.lost.saturating_add(1);
                continue;
            }
            if self.chance.one_in(12) {
                self.end(mail.to)?;
            }
            self.deliver(&mail)?;
        }
        Some(())
    }

    /// A case is sent a work.
    fn work(&mut self, parent: ProcessId, case: &str, child: ProcessId) -> Option<()> {
        let number = child.0;
        let line = format!(in self.alloc; "work {case} {number} put {case} done").ok()?;
        self.ask(parent, line.as_str())?;
        self.deliver_all("WORK")
    }

    fn transaction(&mut self) -> Option<()> {
        let begin = if self.chance.one_in(2) {
            "begin pa"
        } else {
            "begin pc"
        };
        self.ask(ROOT, begin)?;
        let txn = String::from_str(self.alloc, self.net.begun.last()?.as_str()).ok()?;
        self.join(ROOT, txn.as_str(), MIDDLE)?;
        self.join(ROOT, txn.as_str(), LEAF)?;
        if let Some(case) = self.net.case_at(txn.as_str(), MIDDLE) {
            self.join(MIDDLE, case.as_str(), BELOW)?;
            self.work(MIDDLE, case.as_str(), BELOW)?;
        }
        self.work(ROOT, txn.as_str(), LEAF)?;
        let word = if self.chance.one_in(8) {
            "abort"
        } else {
            "commit"
        };
        let line = format!(in self.alloc; "{word} {txn}").ok()?;
        self.ask(ROOT, line.as_str())?;
        let count = self.chance.below(24);
        self.pass_on(count)?;
        if self.chance.one_in(3) {
            let place = self.chance.below(self.tree.entries().len());
            let process = self.tree.entries().get(place)?.id;
            self.ask(process, "trim")?;
            self.end(process)?;
        }
        Some(())
    }

    /// All messages come.
    fn settle(&mut self) -> Option<()> {
        for _ in 0..10_000 {
            if self.net.mail.is_empty() {
                return Some(());
            }
            let mail = self.net.mail.remove(0);
            self.deliver(&mail)?;
        }
        None
    }

    /// Each case in doubt at this place asks.
    fn ask_doubts(&mut self, place: usize) -> Option<()> {
        let process = self.tree.entries().get(place)?.id;
        let doubts = self.ask(process, "doubt")?;
        for line in str::from_utf8(&doubts).ok()?.lines() {
            if let Some(("doubt", case)) = cut(line, ' ') {
                let asking = format!(in self.alloc; "ask {case}").ok()?;
                self.ask(process, asking.as_str())?;
            }
        }
        Some(())
    }

    /// Nothing is lost any more: what is undecided is given up, and each case in doubt asks.
    fn finish(&mut self) -> Option<()> {
        self.settle()?;
        for place in 0..self.net.begun.len() {
            let txn = self.net.begun.get(place)?;
            let line = format!(in self.alloc; "abort {txn}").ok()?;
            self.ask(ROOT, line.as_str())?;
        }
        for _ in 0..8 {
            self.settle()?;
            for place in 0..self.tree.entries().len() {
                self.ask_doubts(place)?;
            }
        }
        self.settle()
    }

    /// What an audit of the logs says, where it finds no mismatch.
    fn audit(&self) -> Option<Vec<u8>> {
        let mut logs = Vec::new(self.alloc);
        for (entry, node) in self.tree.entries().iter().zip(self.nodes.iter()) {
            let bytes = Sequence::from_vec(node.node().log_text().ok()?);
            logs.push(ProcessLog {
                process: entry.id,
                bytes,
            })
            .ok()?;
        }
        let input = logs_text(self.alloc, self.tree.entries(), &logs).ok()?;
        let mut out = Vec::new(self.alloc);
        match run_audit(self.alloc, Detail::Lines, &mut input.as_slice(), &mut out) {
            Ok(AuditStatus::Agrees) => Some(out),
            _ => None,
        }
    }

    /// Whether what was told of a transaction, if anything, is what the audit says of this case of it.
    fn agrees(&self, case: &str, outcome: &str) -> bool {
        let txn = match cut(case, '@') {
            None => case,
            Some((txn, _)) => txn,
        };
        let other = if outcome == "commit" {
            "aborted"
        } else {
            "committed"
        };
        for told in self.net.told.iter() {
            if cut(told.as_str(), ' ') == Some((txn, other)) {
                return false;
            }
        }
        true
    }

    /// How many cases committed and aborted by an audit; None, if one is in doubt, or was told otherwise.
    fn count(&self) -> Option<(u64, u64)> {
        let audit = self.audit()?;
        let mut commits = 0u64;
        let mut aborts = 0u64;
        for line in str::from_utf8(&audit).ok()?.lines() {
            let (case, rest) = cut(line, ' ')?;
            if let Some((own, found)) = cut(rest, ' ') {
                let outcome = first_word(found);
                if own == "in-doubt" || !self.agrees(case, outcome) {
                    return None;
                }
                if outcome == "commit" {
                    commits = commits.saturating_add(1);
                } else {
                    aborts = aborts.saturating_add(1);
                }
            }
        }
        Some((commits, aborts))
    }

    fn run(&mut self) -> Option<String> {
        self.open()?;
        for _ in 0..TXNS {
            self.transaction()?;
        }
        self.finish()?;
        let (commits, aborts) = self.count()?;
        let told = self.net.told.len();
        let ends = self.ends;
        let lost = self.net.lost;
        let repeated = self.net.repeated;
        let found = format!(in self.alloc;
            "{commits} cases committed, {aborts} aborted, none in doubt"
        );
        let found = found.ok()?;
        format!(in self.alloc;
            "{told} told, {ends} ends, {lost} lost, {repeated} repeated; {found}"
        ).ok()
    }
}

/// Says what does not hold of lines of the nodes of the tree, or that all does.
pub fn run_lines(alloc: Global) -> &'static str {
    match read_tree(alloc, TREE) {
        Ok(tree) => lines::run(alloc, &tree),
        Err(_) => "the tree is not read",
    }
}

/// Runs a tree of nodes, and says what it came to; None if it goes wrong.
pub fn run(alloc: Global, seed: u64) -> Option<String> {
    let tree = read_tree(alloc, TREE).ok()?;
    tree.check().ok()?;
    let root = tree.root();
    let mut trial = Trial {
        alloc,
        tree,
        nodes: Vec::new(alloc),
        net: Net::new(alloc, root),
        chance: Chance::new(seed),
        ends: 0,
    };
    trial.run()
}
