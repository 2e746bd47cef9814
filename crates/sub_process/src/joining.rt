//! JOIN: the active ticket of that case of the parent again, else a fresh one.

ghost use Rattle.std.specs.Prelude.{◌≡◌, false, None, IfErr, IfOk, OnErr};
ghost use Rattle.protocol.specs.Names.{child_case};
ghost use Rattle.protocol_words.specs.message;
ghost use Rattle.process_state.specs.States.{HasNumbers};
ghost use Rattle.process_state.specs.Turns.{next_ticket};
ghost use Rattle.sub_branches.specs.Tables.{IsBranchTable, ticket_in};
ghost use Rattle.sub_process.specs.Subordinates.{Hears, IsNamed, Joins, KeepsProcess, NotHeard, core_of, seen};

use crate::subordinate::Subordinate;
use log_text::name_xid;
use protocol::{BranchName, Case, Message, ProcessId, Reaction, StepError, Ticket, Txn};
use resource_manager::ResourceManager;
use std::alloc::AllocError;
use sub_work::{begin, reply, silence};
use xa_xid::Xid;

/// The XID by which the manager knows the case of a ticket below this parent.
fn child_xid(parent: ProcessId, txn: Txn, ticket: Ticket) -> Xid
    ensures { IsNamed parent (child_case txn ticket) result }
{
    let ticket = Some(ticket);
    name_xid(Some(parent), BranchName::Case(Case { txn, ticket }))
}

impl<M: ResourceManager> Subordinate<M> {
    /// The ticket that is given next.
    fn next_ticket(&self) -> Ticket
        requires { HasNumbers (core_of (seen M.sight self.now)) }
        ensures { result ≡ next_ticket (core_of (seen M.sight self.now)) }
    {
        Ticket {
            child: self.me,
            boot: self.manager.boot(),
            number: self.given + 1,
        }
    }

    /// The manager starts the branch of the fresh ticket, and its case is live. False: the manager refused
    /// it. Then, and for want of memory, nothing changed.
    fn start(&mut self, case: Case, ticket: Ticket) -> Result<bool, AllocError>
        requires up { (M.sight self.old.manager).log.failed ≡ false }
        requires numbers { HasNumbers (core_of (seen M.sight self.old)) }
        requires fresh { ticket ≡ next_ticket (core_of (seen M.sight self.old)) }
        requires ungiven { ticket_in self.old.table case ≡ None }
        requires kept { IsBranchTable self.old.table }
        ensures ok { IfOk result (Joins (seen M.sight self.old) (seen M.sight self.new) case) }
        ensures err { OnErr result (KeepsProcess (seen M.sight self.old) (seen M.sight self.new)) }
    {
        let xid = child_xid(self.parent, case.txn, ticket);
        let key = self.branches.open(case, ticket, xid)?;
        match begin(&mut self.manager, &xid) {
            Ok(true) => {
                self.given = ticket.number;
                Ok(true)
            }
            Ok(false) => {
                self.branches.remove(key);
                Ok(false)
            }
            Err(error) => {
                self.branches.remove(key);
                Err(error)
            }
        }
    }

    /// A fresh ticket for the parent's case; where the manager does not start its branch, nothing is said.
    fn issue(&mut self, case: Case) -> Result<Reaction, StepError>
        requires up { (M.sight self.old.manager).log.failed ≡ false }
        requires numbers { HasNumbers (core_of (seen M.sight self.old)) }
        requires ungiven { ticket_in self.old.table case ≡ None }
        requires kept { IsBranchTable self.old.table }
        ensures ok { IfOk result (Hears (seen M.sight self.old) (seen M.sight self.new) (message.Join case)) }
        ensures err { IfErr result (NotHeard (seen M.sight self.old)
            (seen M.sight self.new) (message.Join case)) }
    {
        let ticket = self.next_ticket();
        let joined = reply(
            self.alloc,
            self.me,
            self.parent,
            Message::Joined(case, ticket),
        )?;
        if self.start(case, ticket)? {
            Ok(joined)
        } else {
            Ok(silence(self.alloc))
        }
    }

    /// JOIN: the ticket that is active for the parent's case again, else a fresh one, whose branch the
    /// manager starts.
    pub fn join(&mut self, case: Case) -> Result<Reaction, StepError>
        requires up { (M.sight self.old.manager).log.failed ≡ false }
        requires numbers { HasNumbers (core_of (seen M.sight self.old)) }
        ensures ok { IfOk result (Hears (seen M.sight self.old) (seen M.sight self.new) (message.Join case)) }
        ensures err { IfErr result (NotHeard (seen M.sight self.old)
            (seen M.sight self.new) (message.Join case)) }
    {
        match self.branches.ticket_for(&case) {
            Some(ticket) => {
                let message = Message::Joined(case, ticket);
                Ok(reply(self.alloc, self.me, self.parent, message)?)
            }
            None => self.issue(case),
        }
    }
}
