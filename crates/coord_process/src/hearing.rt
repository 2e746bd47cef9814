//! Which turn an input meets: the messages.

ghost use Rattle.std.specs.Prelude.{◌≡◌, false, true};
ghost use Rattle.protocol_words.specs.Types.{AnyInput};
ghost use Rattle.protocol_words.specs.input;
ghost use Rattle.process_state.specs.Turns.{Takes, ack_turn, cascaded_turn, child_says, child_turn, inquiry_turn, joined_turn, message_turn, no_answer, vote_turn};
ghost use Rattle.coord_cases.specs.Cases.{ticket_in};
ghost use Rattle.coord_rows.specs.Asks.{is_for_any};
ghost use Rattle.coord_process.specs.Meets.{Hears, HearsFrom, HearsOf, May, RetiresAs, is_of_child, meant, met};
ghost use Rattle.coord_process.specs.States.{place_of, state};

use crate::coordinator::Coordinator;
use crate::turn::Met;
use coord_rows::CaseInput;
use log_store::LogStore;
use protocol::{Case, Finding, Message, Outcome, ProcessId, Ticket, Txn, Vote};

impl<L: LogStore> Coordinator<L> {
    /// Which turn a message meets. One that is not for this coordinator, or comes where nothing waits for
    /// it, does nothing.
    pub(crate) fn hear<'a>(&self, number: u64, message: &'a Message) -> Met<'a>
        requires { self.now.log.sight.failed ≡ false }
        ensures { Hears self.now (input.Message number message.now) (λ found. message_turn
            (place_of self.now).role (state self.now) no_answer found message.now) result }
    {
        match self.parent {
            None => self.hear_child(number, message),
            Some(parent) => self.hear_parent(number, parent, message),
        }
    }

    /// The messages of the parent; any other is a child's.
    fn hear_parent<'a>(&self, number: u64, parent: ProcessId, message: &'a Message) -> Met<'a>
        requires { self.now.log.sight.failed ≡ false }
        ensures { Hears self.now (input.Message number message.now)
            (λ found. cascaded_turn (state self.now) parent found message.now) result }
    {
        match message {
            Message::Join(case) => self.hear_join(parent, *case),
            Message::Prepare(case, _) => self.hear_case(*case, CaseInput::Prepare),
            Message::Commit(case) => self.hear_case(*case, CaseInput::Commits),
            Message::Abort(case) => self.hear_case(*case, CaseInput::Aborts),
            _ => self.hear_child(number, message),
        }
    }

    /// JOIN: the parent's case gets its active ticket again, else a fresh one.
    fn hear_join(&self, parent: ProcessId, case: Case) -> Met<'static>
        ensures is { joined_turn (state self.now) parent case
            (ticket_in self.now.slots case) ≡ meant self.now result }
        ensures may { (i : AnyInput) → May self.now i result }
    {
        match self.ticket_for(&case) {
            Some(ticket) => Met::Repeats(parent, case, ticket),
            None => Met::Issues(parent, case),
        }
    }

    /// What is asked of a case, whether it is live or not.
    fn hear_case(&self, case: Case, asked: CaseInput<'static>) -> Met<'static>
        requires any { is_for_any asked ≡ true }
        requires up { self.now.log.sight.failed ≡ false }
        ensures is { meant self.now result ≡ Takes case (met self.now case asked.entry) }
        ensures may { (i : AnyInput) → RetiresAs i asked.entry case → May self.now i result }
    {
        match self.find(&case) {
            None => Met::Answers(case, asked),
            Some((key, _)) => Met::Takes(key, case, asked),
        }
    }

    /// The messages of children.
    fn hear_child<'a>(&self, number: u64, message: &'a Message) -> Met<'a>
        requires { self.now.log.sight.failed ≡ false }
        ensures { Hears self.now (input.Message number message.now)
            (λ found. child_says (state self.now) found message.now) result }
    {
        match message {
            Message::Joined(case, ticket) => self.hear_case(*case, CaseInput::Joined(*ticket)),
            Message::Yes(case) => self.hear_vote(*case, Vote::Yes),
            Message::No(case) => self.hear_vote(*case, Vote::No),
            Message::Read(case) => self.hear_vote(*case, Vote::Read),
            Message::Ack(case, outcome, findings) => {
                self.hear_ack(*case, *outcome, findings.as_slice())
            }
            Message::Inquire(case) => self.hear_inquiry(*case),
            _ => Met::Nothing,
        }
    }

    /// A child's vote.
    fn hear_vote(&self, case: Case, vote: Vote) -> Met<'static>
        requires { self.now.log.sight.failed ≡ false }
        ensures { HearsFrom self.now case (λ found. child_turn case
            (λ t. vote_turn (state self.now) vote t found)) result }
    {
        match case.ticket {
            None => Met::Nothing,
            Some(ticket) => {
                self.hear_of(
                    case.txn,
                    ticket,
                    CaseInput::Vote(ticket, vote),
                    Met::Nothing,
                )
            }
        }
    }

    /// A child's acknowledgement, with what was found at and below it.
    fn hear_ack<'a>(&self, case: Case, outcome: Outcome, findings: &'a [Finding]) -> Met<'a>
        requires { self.now.log.sight.failed ≡ false }
        ensures { HearsFrom self.now case (λ found. child_turn case
            (λ t. ack_turn (state self.now) outcome findings.now t found)) result }
    {
        match case.ticket {
            None => Met::Nothing,
            Some(ticket) => {
                let asked = CaseInput::Ack(ticket, outcome, findings);
                self.hear_of(case.txn, ticket, asked, Met::Nothing)
            }
        }
    }

    /// A child's inquiry; where no live case has its ticket, it gets what is presumed.
    fn hear_inquiry(&self, case: Case) -> Met<'static>
        requires { self.now.log.sight.failed ≡ false }
        ensures { HearsFrom self.now case (λ found. child_turn case
            (λ t. inquiry_turn (state self.now) case.txn t found)) result }
    {
        match case.ticket {
            None => Met::Nothing,
            Some(ticket) => {
                let presumes = Met::Presumes(case.txn, ticket);
                self.hear_of(case.txn, ticket, CaseInput::Inquire(ticket), presumes)
            }
        }
    }

    /// What is asked of the live case that has the child's ticket; if there is none, the other turn.
    fn hear_of<'a>(
        &self,
        txn: Txn,
        ticket: Ticket,
        asked: CaseInput<'a>,
        otherwise: Met<'a>,
    ) -> Met<'a>
        requires child { is_of_child asked ≡ true }
        requires any { (i : AnyInput) → May self.now i otherwise }
        requires up { self.now.log.sight.failed ≡ false }
        ensures { HearsOf self.now txn ticket asked.entry otherwise.entry result }
    {
        match self.child(&txn, &ticket) {
            None => otherwise,
            Some((key, case)) => Met::Takes(key, case, asked),
        }
    }
}
