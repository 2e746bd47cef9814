//! A node: what it makes of a line.

ghost use Rattle.std.specs.Prelude.{◌≡◌, ◌++◌, IfErr, IfOk, OnErr, OnOk, option_map, string_bytes};
ghost use Rattle.protocol.specs.declared.events.StepError.TheVariants.{NoSuch};
ghost use Rattle.branch_names.specs.Cases.{IsPlaced};
ghost use Rattle.protocol.specs.Names.{root_case, same_process};
ghost use Rattle.protocol.specs.Plays.{process_of_act};
ghost use Rattle.protocol.specs.Trees.{root_of};
ghost use Rattle.tree_process.specs.Nodes.{core_of, data_of};
ghost use Rattle.process_state.specs.Inputs.{input_of};
ghost use Rattle.process_state.specs.States.{form_of};
ghost use Rattle.node_engine.specs.Answers.{AnswersAsked, AnswersAgain, AnswersFor, AnswersIf, AnswersInput, AnswersLine, AnswersTrim, FindsInLog, IsRefusal, IsUnrefused, IsUnshown, Resolves, Shows, NodeTakes, TakesAgain, TakesFor, TakesIf, TakesInput, TakesLine, TakesTrim, TellsLog, TellsName, TellsOutcome, TellsStatus, doubt_text, hears, is_root, owed_at, opened, records_at, resends, speaks, state_of};
ghost use Rattle.node_engine.specs.Branches.{trust_of};
ghost use Rattle.node_engine.specs.DataTexts.{TellsData};
ghost use Rattle.protocol_words.specs.Variants.{ActInput, MessageInput};
ghost use Rattle.log_outcomes.specs.News.{news_in};
ghost use Rattle.node_answers.specs.Texts.{news_text, ok_text, refused_text};

use crate::again::owed_again;
use crate::branches::{found_in, name_text, trust_by};
use crate::data::{answer, pairs_in};
use crate::failure::NodeFailure;
use branch_names::{Naming, case_named};
use log_outcomes::{boot_of, decisions_of, doubts_of, news_of};
use log_store::LogStore;
use log_text::LogForm;
use node_answers::{
    Manner, NodeStatus, Nothing, doubt_text, error_text, help_text, log_text, obeyed_text,
    outcome_text, refused_text, shown_text, status_text, trimmed_text,
};
use node_lines::{NodeLine, asked_of, may_speak};
use process_state::InputRef;
use protocol::{
    Act, Bytes, Case, Envelope, Envelopes, Kind, ProcessId, Reaction, Sequence, Standing,
    StepError, Ticket, Tree, Txn,
};
use resolve_engine::{BranchAnswer, Trust};
use std::alloc::Global;
use std::str;
use tree_process::Process;

/// A process of a tree that answers lines. Its messages are numbered from 1, from where it opened.
#[derive(Drop)]
pub struct Serving<L: LogStore> {
    pub(crate) alloc: Global,
    pub(crate) tree: Tree,
    pub(crate) me: ProcessId,
    pub(crate) node: Process<L>,
    pub(crate) sent: u64,
    pub(crate) manner: Manner,
    /// The name of the tree, as the names of its branches in databases begin.
    pub(crate) name: Option<String>,
}

/// The answer to what is refused. After a failed device, or without memory, there is none.
fn refusal(alloc: Global, manner: Manner, error: StepError) -> Result<Vec<u8>, NodeFailure>
    ensures text { IfOk result (λ text. text.items ≡ refused_text manner error) }
    ensures refusal { OnOk result (IsRefusal error) }
    ensures err { IfErr result (IsUnrefused error) }
{
    match error {
        StepError::Memory => Err(NodeFailure::Memory),
        StepError::Device => Err(NodeFailure::Device),
        _ => Ok(refused_text(alloc, manner, error)?),
    }
}

/// The form of the log of a process.
fn form_of<L: LogStore>(node: &Process<L>) -> LogForm
    ensures { result ≡ form_of (core_of node.now).place }
{
    match node {
        Process::Coordinator(coordinator) => LogForm::of(coordinator.me(), Kind::Coordinator),
        Process::Manager(manager) => LogForm::of(manager.me(), Kind::Manager),
    }
}

/// What is shown of messages that are sent once more: the messages alone.
fn repeated(alloc: Global, messages: Envelopes) -> Reaction
    ensures { result ≡ resends messages }
{
    Reaction {
        begun: None,
        written: Sequence::new(alloc),
        told: None,
        messages,
        kept: None,
    }
}

impl<L: LogStore> Serving<L> {
    /// The process `me` of this tree, which has sent nothing yet, says numbers alone and knows no name of the
    /// tree.
    pub fn new(alloc: Global, tree: Tree, me: ProcessId, node: Process<L>) -> Self
        ensures { state_of result ≡ opened tree me node }
    {
        Serving {
            alloc,
            tree,
            me,
            node,
            sent: 0,
            manner: Manner::Numbers,
            name: None,
        }
    }

    /// That node, which says so much of what it refuses, in a tree of this name, if it has one.
    pub fn speaking(mut self, manner: Manner, name: Option<String>) -> Self
        ensures { state_of result ≡ speaks (state_of self) manner (option_map string_bytes name) }
    {
        self.manner = manner;
        self.name = name;
        self
    }

    /// The process.
    pub fn node(&self) -> &Process<L>
        ensures core { core_of result.now ≡ (state_of self.now).core }
        ensures holdings { data_of result.now ≡ (state_of self.now).holdings }
    {
        &self.node
    }

    /// The lines of a reaction that was made. Exhausted: with its messages 2^64 or more were sent.
    pub fn show(&mut self, reaction: &Reaction) -> Result<Vec<u8>, NodeFailure>
        ensures ok { IfOk result (λ text. Shows (state_of self.old) (state_of self.new)
            reaction.now text.items) }
        ensures err { OnErr result (state_of self.new ≡ state_of self.old) }
        ensures why { IfErr result (IsUnshown self.old.sent reaction.now) }
    {
        let count = reaction.messages.as_slice().len() as u64;
        let Some(sent) = self.sent.checked_add(count) else {
            return Err(NodeFailure::Exhausted);
        };
        let text = shown_text(self.alloc, self.me, self.sent, reaction)?;
        self.sent = sent;
        Ok(text)
    }

    /// The answer to an input.
    fn make(&mut self, input: InputRef<'_>) -> Result<Vec<u8>, NodeFailure>
        ensures ok { IfOk result (λ text.
            AnswersInput (state_of self.old) (state_of self.new) (input_of input.entry) text.items) }
        ensures err { IfErr result (TakesInput (state_of self.old) (state_of self.new)
            (input_of input.entry)) }
    {
        match self.node.handle(input) {
            Ok(reaction) => self.show(&reaction),
            Err(error) => refusal(self.alloc, self.manner, error),
        }
    }

    /// Whether it is this process.
    #[tactic(auto, unfolding(protocol::specs::Names::same_process))]
    fn is(&self, process: ProcessId) -> bool
        ensures { result ≡ same_process process self.now.me }
    {
        process == self.me
    }

    /// The answer to an act, which is refused where it is another process's.
    fn act(&mut self, act: &Act) -> Result<Vec<u8>, NodeFailure>
        ensures ok { IfOk result (λ text.
            AnswersFor (process_of_act (root_of self.old.tree) act.now) (state_of self.old) (state_of self.new)
            (ActInput act.now) text.items) }
        ensures err { IfErr result (TakesFor (process_of_act (root_of self.old.tree) act.now)
            (state_of self.old) (state_of self.new) (ActInput act.now)) }
    {
        if self.is(act.process(self.tree.root())) {
            self.make(InputRef::Act(act))
        } else {
            refusal(self.alloc, self.manner, StepError::NoSuch)
        }
    }

    /// Whether a message is for this process, and from one that may send it.
    fn hears(&self, envelope: &Envelope) -> bool
        ensures { result ≡ hears (state_of self.now) envelope.now }
    {
        self.is(envelope.to) && may_speak(&self.tree, envelope)
    }

    /// The answer to a message with its number, which is refused where it is for another process, or from one
    /// that may not send it.
    fn hear(&mut self, number: u64, envelope: &Envelope) -> Result<Vec<u8>, NodeFailure>
        ensures ok { IfOk result (λ text. AnswersIf (hears (state_of self.old) envelope.now)
            (state_of self.old) (state_of self.new) (MessageInput number envelope.now.message) text.items) }
        ensures err { IfErr result (TakesIf (hears (state_of self.old) envelope.now)
            (state_of self.old) (state_of self.new) (MessageInput number envelope.now.message)) }
    {
        if self.hears(envelope) {
            self.make(InputRef::Message(number, &envelope.message))
        } else {
            refusal(self.alloc, self.manner, StepError::NoSuch)
        }
    }

    /// The answer to a trim.
    #[tactic(auto, using(crate::proofs::Answering::trim_refused_ok, crate::proofs::Answering::trim_refused_err))]
    fn trim(&mut self) -> Result<Vec<u8>, NodeFailure>
        ensures ok { IfOk result (λ text. AnswersTrim (state_of self.old) (state_of self.new) text.items) }
        ensures err { IfErr result (TakesTrim (state_of self.old) (state_of self.new)) }
    {
        match self.node.trim_sound() {
            Ok(remain) => Ok(trimmed_text(self.alloc, self.me, remain)?),
            Err(error) => refusal(self.alloc, self.manner, error),
        }
    }

    /// A line for each case in doubt, and for each that an operator decided and that waits to be told.
    fn doubt(&self) -> Result<Vec<u8>, NodeFailure>
        ensures ok { IfOk result (λ text. text.items ≡ doubt_text (state_of self.now)) }
        ensures err { IfErr result (λ e. e ≡ NodeFailure.Memory) }
    {
        let records = self.node.records()?;
        let cases = doubts_of(self.alloc, &records)?;
        let decisions = decisions_of(self.alloc, &records)?;
        Ok(doubt_text(self.alloc, &cases, &decisions)?)
    }

    /// How the log stands.
    fn status(&self) -> Result<Vec<u8>, NodeFailure>
        ensures ok { IfOk result (λ text. TellsStatus (state_of self.now) text.items) }
        ensures err { IfErr result (λ e. e ≡ NodeFailure.Memory) }
    {
        let records = self.node.records()?;
        let log = self.node.log_text()?;
        let unforced = self.node.unforced_sizes(self.alloc)?;
        let doubts = doubts_of(self.alloc, &records)?;
        let decisions = decisions_of(self.alloc, &records)?;
        let status = NodeStatus {
            boot: boot_of(&records),
            records: records.len() as u64,
            unforced: unforced.len() as u64,
            bytes: log.len() as u64,
            doubts: doubts.len() as u64,
            decided: decisions.len() as u64,
        };
        Ok(status_text(self.alloc, &status)?)
    }

    /// What the log holds, line by line.
    fn log(&self) -> Result<Vec<u8>, NodeFailure>
        ensures ok { IfOk result (λ text. TellsLog (state_of self.now) text.items) }
        ensures err { IfErr result (λ e. e ≡ NodeFailure.Memory) }
    {
        let log = self.node.log_text()?;
        Ok(log_text(self.alloc, form_of(&self.node), &log)?)
    }

    /// The data of a manager; a coordinator has none.
    fn data(&self) -> Result<Vec<u8>, NodeFailure>
        ensures ok { IfOk result (λ text. TellsData (state_of self.now).manner
            (records_at (state_of self.now)) text.items) }
        ensures err { IfErr result (λ e. e ≡ NodeFailure.Memory) }
    {
        let records = self.node.records()?;
        let pairs = pairs_in(self.alloc, records)?;
        Ok(answer(self.alloc, self.manner, &pairs)?)
    }

    /// Who owes an acknowledgement of a case's decision, by what stands.
    fn owing(&self, case: &Case) -> &[Ticket]
        ensures { result.now ≡ ((state_of self.now).core.view_of case.now).owed }
    {
        match &self.node {
            Process::Coordinator(coordinator) => coordinator.owed(case),
            Process::Manager(_) => &[],
        }
    }

    /// What is to be sent once more of a case.
    fn owed(&self, case: &Case) -> Result<Option<Envelopes>, NodeFailure>
        ensures ok { IfOk result (λ owed. owed ≡ owed_at (state_of self.now) case.now) }
        ensures err { IfErr result (λ e. e ≡ NodeFailure.Memory) }
    {
        let records = self.node.records()?;
        let parent = self.tree.parent(self.me);
        let owed = self.owing(case);
        Ok(owed_again(
            self.alloc, self.me, parent, &self.tree, &records, owed, case,
        )?)
    }

    /// The answer to a line that asks for a decision once more: its messages, under the next numbers; nothing
    /// is recorded. Refused, if the case is not this process's or waits for no acknowledgement: there is no
    /// such message.
    fn again(&mut self, case: &Case) -> Result<Vec<u8>, NodeFailure>
        ensures ok { IfOk result (λ text. AnswersAgain (owed_at (state_of self.old) case.now)
            (state_of self.old) (state_of self.new) text.items) }
        ensures err { IfErr result (TakesAgain (owed_at (state_of self.old) case.now)
            (state_of self.old) (state_of self.new)) }
    {
        match self.owed(case)? {
            None => self.refuse(),
            Some(messages) => self.show(&repeated(self.alloc, messages)),
        }
    }

    /// The line of how a transaction of this process ended.
    fn tell_own(&self, txn: &Txn) -> Result<Vec<u8>, NodeFailure>
        ensures ok { IfOk result (λ text. text.items
            ≡ news_text txn.now (news_in (records_at (state_of self.now)) txn.now) ++ ok_text) }
        ensures err { IfErr result (λ e. e ≡ NodeFailure.Memory) }
    {
        let records = self.node.records()?;
        let news = news_of(&records, txn);
        Ok(outcome_text(self.alloc, *txn, news)?)
    }

    /// Whether the process has no parent: it is the root of each transaction.
    fn is_root(&self) -> bool
        ensures { result ≡ is_root (state_of self.now) }
    {
        self.tree.parent(self.me).is_none()
    }

    /// The refusal of what another process is to be asked.
    fn refuse(&self) -> Result<Vec<u8>, NodeFailure>
        ensures ok { IfOk result (λ text. text.items ≡ refused_text (state_of self.now).manner NoSuch) }
        ensures err { IfErr result (λ e. e ≡ NodeFailure.Memory) }
    {
        Ok(refused_text(self.alloc, self.manner, StepError::NoSuch)?)
    }

    /// The line of how a transaction ended, which is refused where this is not its root.
    fn tell(&self, txn: &Txn) -> Result<Vec<u8>, NodeFailure>
        ensures ok { IfOk result (λ text. TellsOutcome (is_root (state_of self.now)) txn.now
            (state_of self.now) (state_of self.now) text.items) }
        ensures err { IfErr result (λ e. e ≡ NodeFailure.Memory) }
    {
        if self.is_root() {
            self.tell_own(txn)
        } else {
            self.refuse()
        }
    }

    /// Where the root's case of a transaction stands here; Unknown, if it is not live.
    fn standing(&self, txn: Txn) -> Standing
        ensures { result ≡ ((state_of self.now).core.view_of (root_case txn)).standing }
    {
        match &self.node {
            Process::Coordinator(coordinator) => coordinator.standing(&Case { txn, ticket: None }),
            Process::Manager(_) => Standing::Unknown,
        }
    }

    /// How far the log counts of what a name is of.
    fn trust(&self, naming: Naming) -> Trust
        ensures { result ≡ trust_of (is_root (state_of self.now)) (state_of self.now).core naming }
    {
        match naming {
            Naming::Case(case) => trust_by(
                self.is_root() && case.ticket.is_some(),
                self.standing(case.txn),
            ),
            Naming::OtherTree | Naming::Foreign => Trust::Parts,
        }
    }

    /// The name of the tree.
    fn tree_name(&self) -> Option<&str>
        ensures { option_map (λ s. s.now) result ≡ (state_of self.now).name }
    {
        match &self.name {
            None => None,
            Some(name) => Some(name.as_str()),
        }
    }

    /// The answer to what a name is of; None, if the log does not read.
    #[tactic(auto, using(crate::proofs::Resolving::found_at))]
    fn found(&self, naming: Naming) -> Result<Option<BranchAnswer>, NodeFailure>
        requires { IsPlaced self.now.tree naming }
        ensures ok { IfOk result (FindsInLog (state_of self.now) naming) }
        ensures err { IfErr result (λ e. e ≡ NodeFailure.Memory) }
    {
        let log = self.node.log_text()?;
        let trust = self.trust(naming);
        Ok(found_in(self.alloc, &self.tree, self.me, log, trust, naming)?)
    }

    /// What is to be done with a branch of this name.
    #[tactic(auto, using(crate::proofs::Resolving::resolved_at))]
    fn resolve_text(&self, name: &str) -> Result<Vec<u8>, NodeFailure>
        ensures ok { IfOk result (λ text. Resolves (state_of self.now) name.now text.items) }
        ensures err { IfErr result (λ e. e ≡ NodeFailure.Memory) }
    {
        let naming = case_named(self.alloc, &self.tree, self.tree_name(), name)?;
        let answer = self.found(naming)?;
        Ok(name_text(self.alloc, self.manner, name, &answer)?)
    }

    /// What is to be done with a branch of this name, by the node's own log: what is there counts; at the
    /// root, of a branch below it whose transaction is not under way, also that nothing does. Refused, if the
    /// log does not read.
    #[tactic(auto, using(crate::proofs::Resolving::text_so, crate::proofs::Resolving::no_text_at))]
    fn resolve(&self, name: &Bytes) -> Result<Vec<u8>, NodeFailure>
        ensures ok { IfOk result (λ text. TellsName (state_of self.now) name.now text.items) }
        ensures err { IfErr result (λ e. e ≡ NodeFailure.Memory) }
    {
        match str::from_utf8(name.as_slice()) {
            Ok(name) => self.resolve_text(name),
            Err(_) => Ok(error_text(self.alloc, self.manner, Nothing::NoText)?),
        }
    }

    /// The answer to what was asked.
    fn answer_asked(&mut self, asked: &NodeLine) -> Result<Vec<u8>, NodeFailure>
        ensures ok { IfOk result (λ text.
            AnswersAsked asked.now (state_of self.old) (state_of self.new) text.items) }
        ensures err { IfErr result (NodeTakes asked.now (state_of self.old) (state_of self.new)) }
    {
        match asked {
            NodeLine::Nothing => Ok(Vec::new(self.alloc)),
            NodeLine::Act(act) => self.act(act),
            NodeLine::Message(number, envelope) => self.hear(*number, envelope),
            NodeLine::Trim => self.trim(),
            NodeLine::Doubt => self.doubt(),
            NodeLine::Outcome(txn) => self.tell(txn),
            NodeLine::Again(case) => self.again(case),
            NodeLine::Resolve(name) => self.resolve(name),
            NodeLine::Status => self.status(),
            NodeLine::Log => self.log(),
            NodeLine::Data => self.data(),
            NodeLine::Help => Ok(help_text(self.alloc)?),
            NodeLine::End => Ok(obeyed_text(self.alloc)?),
            NodeLine::Unknown => Ok(error_text(self.alloc, self.manner, Nothing::NoLine)?),
            NodeLine::NoText => Ok(error_text(self.alloc, self.manner, Nothing::NoText)?),
        }
    }

    /// The answer to a line of text.
    fn answer_text(&mut self, line: &str) -> Result<Vec<u8>, NodeFailure>
        ensures ok { IfOk result (λ text.
            AnswersLine line.now (state_of self.old) (state_of self.new) text.items) }
        ensures err { IfErr result (TakesLine line.now (state_of self.old) (state_of self.new)) }
    {
        let asked = asked_of(self.alloc, self.tree.root(), line)?;
        self.answer_asked(&asked)
    }

    /// The answer to a line, without its end. One that is no text asks nothing.
    pub fn answer(&mut self, line: &[u8]) -> Result<Vec<u8>, NodeFailure>
        ensures ok { IfOk result (λ text.
            AnswersLine line.now (state_of self.old) (state_of self.new) text.items) }
        ensures err { IfErr result (TakesLine line.now (state_of self.old) (state_of self.new)) }
    {
        match str::from_utf8(line) {
            Ok(line) => self.answer_text(line),
            Err(_) => Ok(error_text(self.alloc, self.manner, Nothing::NoText)?),
        }
    }
}
