//! A live case of a coordinator.

ghost use Rattle.std.specs.Prelude.{◌≡◌, ◌+◌, ◌<◌, ◌^◌, ◌++◌, ◌∷◌, ◌||◌, [], false, true, None, Some, IfOk, IfSome, IsTrue, OnOk, OnErr, map};
ghost use Rattle.protocol.specs.Memory.{all_voted, has_child, is_counted, ticket_of_child, undecided_of, works_of, yes_of};
ghost use Rattle.protocol.specs.Records.{in_list, none_of};
ghost use Rattle.protocol.specs.CoordinatorRows.{awaits, other_tickets, post, prepares};
ghost use Rattle.protocol.specs.Standings.{unknown_view};
ghost use Rattle.coord_case.specs.Lives.{Uncounts, meant};
ghost use Rattle.protocol.specs.Names.{child_case, root_case};
ghost use Rattle.protocol.specs.SameViews.{SameView, open_view};

use crate::child::Child;
use crate::lists::{
    Children, all_are, has_child, in_list, is_alone, is_awaited, is_known, none_of, set_vote,
    set_works, strike, ticket_of, tickets_of, undecided_of, vote_of, works_sent, yes_in_vote,
    yes_of,
};
use protocol::{
    Case, Envelope, Envelopes, Finding, Message, ProcessId, Sequence, Standing, Ticket, Txn, Vote,
};
use smallvec::SmallVec;
use std::alloc::{AllocError, Global};
use std::marker::Model;

/// Where a live case stands: its accepted children, how many of them have not voted and how many voted YES,
/// the tickets that its promise and its other records name, those that owe an acknowledgement, and what those
/// found that were counted.
#[derive(Drop)]
pub struct Live {
    standing: Standing,
    children: Children,
    missing: usize,
    yes: usize,
    promised: Vec<Ticket>,
    named: Vec<Ticket>,
    owed: Vec<Ticket>,
    found: Vec<Finding>,
}

impl Model for Live {
    ghost use Rattle.protocol.specs.Standings.{CoordinatorView};

    ghost Value = { CoordinatorView };

    ghost use Rattle.coord_case.specs.Lives.{AreCounted, meant};

    ghost view = { λ l. meant l.standing l.children.items l.promised.items l.named.items l.owed.items
        l.found.items };

    ghost invariant = { λ l. AreCounted l.children.items l.missing l.yes };
}

/// PREPARE to the child, with the number of its works.
fn prepare_message(me: ProcessId, txn: Txn, child: &Child) -> Envelope
    ensures { result ≡ post me child.now.ticket.child
        (Message.Prepare (child_case txn child.now.ticket) child.now.works) }
{
    let case = Case {
        txn,
        ticket: Some(child.ticket),
    };
    Envelope {
        from: me,
        to: child.ticket.child,
        message: Message::Prepare(case, child.works),
    }
}

/// PREPARE to each of the children.
fn prepare_each(
    alloc: Global,
    me: ProcessId,
    txn: Txn,
    children: &[Child],
) -> Result<Envelopes, AllocError>
    ensures { IfOk result (λ messages. messages
        ≡ map (λ c. post me c.ticket.child (Message.Prepare (child_case txn c.ticket) c.works))
        children.now) }
{
    let mut messages = Vec::new(alloc);
    for child in children {
        messages.push(prepare_message(me, txn, child))?;
    }
    Ok(Sequence::from_vec(messages))
}

impl Live {
    /// A case that takes children and work, and has none. It takes no memory.
    pub fn open(alloc: Global) -> Live
        ensures { result ≡ open_view }
    {
        Live {
            standing: Standing::Active,
            children: SmallVec::new(alloc),
            missing: 0,
            yes: 0,
            promised: Vec::new(alloc),
            named: Vec::new(alloc),
            owed: Vec::new(alloc),
            found: Vec::new(alloc),
        }
    }

    /// A case as its records leave it, of which nothing was heard: where it stands, the tickets that its
    /// promise names, those that any of its records names, and those that owe an acknowledgement.
    pub fn restored(
        alloc: Global,
        standing: Standing,
        promised: &[Ticket],
        named: &[Ticket],
        owed: &[Ticket],
    ) -> Result<Live, AllocError>
        ensures { IfOk result (λ live. live ≡ meant standing [] promised.now named.now owed.now []) }
    {
        Ok(Live {
            standing,
            children: SmallVec::new(alloc),
            missing: 0,
            yes: 0,
            promised: Vec::from_slice(alloc, promised)?,
            named: Vec::from_slice(alloc, named)?,
            owed: Vec::from_slice(alloc, owed)?,
            found: Vec::new(alloc),
        })
    }

    /// Where it stands.
    pub fn standing(&self) -> Standing
        ensures { result ≡ self.now.standing }
    {
        self.standing
    }

    /// Whether it is forgotten: it is Unknown, and nothing is left of it.
    pub fn is_forgotten(&self) -> bool
        ensures gone { IsTrue result → self.now ≡ unknown_view }
        ensures live { self.now ≡ unknown_view → IsTrue result }
    {
        self.standing == Standing::Unknown
            && self.children.is_empty()
            && self.promised.is_empty()
            && self.named.is_empty()
            && self.owed.is_empty()
            && self.found.is_empty()
    }

    /// Whether it has accepted the ticket, or a record of it names the ticket.
    pub fn knows(&self, ticket: &Ticket) -> bool
        ensures { result ≡ (in_list self.now.accepted ticket.now || in_list self.now.named ticket.now) }
    {
        is_known(self.children.as_slice(), &self.named, ticket)
    }

    /// Whether a child of the process is accepted.
    pub fn has_child(&self, child: ProcessId) -> bool
        ensures { result ≡ has_child self.now.accepted child }
    {
        has_child(self.children.as_slice(), child)
    }

    /// The ticket of an accepted child of the process.
    pub fn child_ticket(&self, child: ProcessId) -> Option<Ticket>
        ensures { result ≡ ticket_of_child self.now.accepted child }
    {
        ticket_of(self.children.as_slice(), child)
    }

    /// Whether nobody is accepted.
    pub fn is_alone(&self) -> bool
        ensures { result ≡ none_of self.now.accepted }
    {
        is_alone(self.children.as_slice())
    }

    /// The accepted tickets, in order of acceptance.
    pub fn tickets(&self, alloc: Global) -> Result<Vec<Ticket>, AllocError>
        ensures { IfOk result (λ v. v.items ≡ self.now.accepted) }
    {
        tickets_of(alloc, self.children.as_slice())
    }

    /// A child is accepted. Memory: nothing changed.
    pub fn accept(&mut self, ticket: Ticket) -> Result<(), AllocError>
        requires { has_child self.old.accepted ticket.child ≡ false }
        ensures ok { OnOk result
            (self.new ≡ record self.old { accepted = self.old.accepted ++ ticket ∷ [] }) }
        ensures err { OnErr result (self.new ≡ self.old) }
    {
        self.children.reserve(1)?;
        self.children.push_reserved(Child {
            ticket,
            works: 0,
            vote: None,
        });
        // `len` is called for what bounds the counts, here and below, which the proof cites.
        let _children = self.children.len();
        self.missing += 1;
        Ok(())
    }

    /// How many works were sent to the ticket.
    pub fn works_sent(&self, ticket: &Ticket) -> u64
        ensures { result ≡ works_of self.now.works ticket.now }
    {
        works_sent(self.children.as_slice(), ticket)
    }

    /// One work more is sent to the accepted ticket; N were sent to it before.
    pub fn add_work(&mut self, ticket: &Ticket, sent: u64)
        requires accepted { in_list self.old.accepted ticket.now ≡ true }
        requires sent { sent ≡ works_of self.old.works ticket.now }
        requires below { sent + 1 < 2 ^ 64 }
        ensures { SameView self.new (record self.old { works = self.old.works ++ ticket.now ∷ [] }) }
    {
        set_works(&mut self.children, ticket, sent + 1);
    }

    /// PREPARE from this process to the child of each accepted ticket, with the number of works sent to it.
    pub fn prepares(&self, alloc: Global, me: ProcessId, txn: Txn) -> Result<Envelopes, AllocError>
        ensures { IfOk result (λ messages. messages
            ≡ prepares (record { me = me; parent = None; own = root_case txn }) self.now) }
    {
        prepare_each(alloc, me, txn, self.children.as_slice())
    }

    /// It collects votes. It takes no memory.
    pub fn collect(&mut self)
        ensures { self.new ≡ record self.old { standing = Standing.Collecting } }
    {
        self.standing = Standing::Collecting;
    }

    /// It collects votes after a record that names these. Memory: nothing changed.
    pub fn collect_named(&mut self, tickets: &[Ticket]) -> Result<(), AllocError>
        ensures ok { OnOk result (self.new ≡ record self.old {
          standing = Standing.Collecting;
          named = self.old.named ++ tickets.now;
        }) }
        ensures err { OnErr result (self.new ≡ self.old) }
    {
        self.named.extend_from_slice(tickets)?;
        self.standing = Standing::Collecting;
        Ok(())
    }

    /// Whether a vote of the ticket counts: it is accepted, and has not voted.
    pub fn is_counted(&self, ticket: &Ticket) -> bool
        ensures { result ≡ is_counted self.now.accepted self.now.votes ticket.now }
    {
        is_awaited(self.children.as_slice(), ticket)
    }

    /// The first vote of a ticket.
    pub fn count_vote(&mut self, ticket: &Ticket, vote: Vote)
        requires { is_counted self.old.accepted self.old.votes ticket.now ≡ true }
        ensures { SameView self.new (record self.old { votes = self.old.votes ++ (ticket.now, vote) ∷ [] }) }
    {
        set_vote(&mut self.children, ticket, Some(vote));
        let _children = self.children.len();
        self.missing -= 1;
        self.yes += yes_in_vote(vote);
    }

    /// The vote of a ticket is taken back.
    pub fn uncount_vote(&mut self, ticket: &Ticket)
        ensures { Uncounts ticket.now self.old self.new }
    {
        match vote_of(self.children.as_slice(), ticket) {
            None => {}
            Some(vote) => {
                set_vote(&mut self.children, ticket, None);
                let _children = self.children.len();
                self.missing += 1;
                self.yes -= yes_in_vote(vote);
            }
        }
    }

    /// Whether each child has voted.
    pub fn all_voted(&self) -> bool
        ensures { result ≡ all_voted self.now.accepted self.now.votes }
    {
        self.missing == 0
    }

    /// Whether nobody voted YES.
    pub fn none_voted_yes(&self) -> bool
        ensures { result ≡ none_of (yes_of self.now.accepted self.now.votes) }
    {
        self.yes == 0
    }

    /// The tickets that voted YES, in order of acceptance.
    pub fn yes(&self, alloc: Global) -> Result<Vec<Ticket>, AllocError>
        ensures { IfOk result (λ v. v.items ≡ yes_of self.now.accepted self.now.votes) }
    {
        yes_of(alloc, self.children.as_slice())
    }

    /// The tickets that voted neither NO nor READ, in order of acceptance.
    pub fn undecided(&self, alloc: Global) -> Result<Vec<Ticket>, AllocError>
        ensures { IfOk result (λ v. v.items ≡ undecided_of self.now.accepted self.now.votes) }
    {
        undecided_of(alloc, self.children.as_slice())
    }

    /// It promised, and these tickets are to be told the outcome. Memory: nothing changed.
    pub fn promise(&mut self, alloc: Global, tickets: &[Ticket]) -> Result<(), AllocError>
        ensures ok { OnOk result (self.new ≡ record self.old {
          standing = Standing.Prepared;
          promised = self.old.promised ++ tickets.now;
          named = self.old.named ++ tickets.now;
        }) }
        ensures err { OnErr result (self.new ≡ self.old) }
    {
        let mut promised = Vec::from_slice(alloc, &self.promised)?;
        promised.extend_from_slice(tickets)?;
        self.named.extend_from_slice(tickets)?;
        self.promised = promised;
        self.standing = Standing::Prepared;
        Ok(())
    }

    /// The tickets that its promise names.
    pub fn promised(&self) -> &[Ticket]
        ensures { result.now ≡ self.now.promised }
    {
        &self.promised
    }

    /// The tickets that owe an acknowledgement.
    pub fn owed(&self) -> &[Ticket]
        ensures { result.now ≡ self.now.owed }
    {
        &self.owed
    }

    /// Whether the ticket owes an acknowledgement.
    pub fn owes(&self, ticket: &Ticket) -> bool
        ensures { result ≡ in_list self.now.owed ticket.now }
    {
        in_list(&self.owed, ticket)
    }

    /// Whether no other ticket owes an acknowledgement.
    pub fn owes_no_other(&self, ticket: &Ticket) -> bool
        ensures { result ≡ none_of (other_tickets ticket.now self.now.owed) }
    {
        all_are(&self.owed, ticket)
    }

    /// The ticket has acknowledged, with these findings. Memory: nothing changed.
    pub fn acknowledge(&mut self, ticket: &Ticket, findings: &[Finding]) -> Result<(), AllocError>
        ensures ok { OnOk result (self.new ≡ record self.old {
          owed = other_tickets ticket.now self.old.owed;
          found = self.old.found ++ findings.now;
        }) }
        ensures err { OnErr result (self.new ≡ self.old) }
    {
        self.found.extend_from_slice(findings)?;
        strike(&mut self.owed, *ticket);
        Ok(())
    }

    /// What the acknowledgements found that were counted, and these findings after it.
    pub fn found_with(
        &self,
        alloc: Global,
        findings: &[Finding],
    ) -> Result<Vec<Finding>, AllocError>
        ensures { IfOk result (λ found. found.items ≡ self.now.found ++ findings.now) }
    {
        let mut found = Vec::from_slice(alloc, &self.found)?;
        found.extend_from_slice(findings)?;
        Ok(found)
    }

    /// The decided case waits for these acknowledgements; if there are none it is forgotten. Memory:
    /// nothing changed.
    pub fn awaits(&mut self, standing: Standing, tickets: Vec<Ticket>) -> Result<(), AllocError>
        ensures ok { OnOk result (self.new ≡ awaits standing tickets.items self.old) }
        ensures err { OnErr result (self.new ≡ self.old) }
    {
        if none_of(&tickets) {
            self.forget();
            return Ok(());
        }
        self.named.extend_from_slice(&tickets)?;
        self.standing = standing;
        self.owed = tickets;
        Ok(())
    }

    /// It is forgotten. It takes no memory.
    pub fn forget(&mut self)
        ensures { self.new ≡ unknown_view }
    {
        self.standing = Standing::Unknown;
        self.children.clear();
        self.missing = 0;
        self.yes = 0;
        self.promised.clear();
        self.named.clear();
        self.owed.clear();
        self.found.clear();
    }
}
