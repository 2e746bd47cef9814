//! A step as the journal keeps it.

ghost use Rattle.std.specs.Prelude.{◌≡◌, ◌++◌, ◌<◌, length};
ghost use Rattle.std.specs.Vec.{vec_capacity, vec_len};
ghost use Rattle.tree_journal.specs.Steps.{act_by, aside_by, asides_by, cause_by, is_bare, process_of};

use protocol::{Act, Envelopes, Happening, Input, ProcessId, Sequence, ShownRecord, Told, Txn};

/// Which process made a step, and why: what happened, where an act and a message are named and not held. The
/// process lies in the padding after the tag, so it takes no room of its own.
#[derive(Clone, Copy)]
pub enum Cause {
    /// The act at this place of the journal's acts, from 0.
    Act { process: ProcessId, place: usize },
    /// The message with this number, from 1.
    Message { process: ProcessId, number: u64 },
    /// A restart that kept N records after the forced front.
    Restart { process: ProcessId, kept: u64 },
    /// A trim of the log.
    Trim { process: ProcessId },
}

impl Cause {
    /// The process that made the step.
    pub(crate) fn process(self) -> ProcessId
        ensures { result ≡ process_of self }
    {
        match self {
            Cause::Act { process, .. } => process,
            Cause::Message { process, .. } => process,
            Cause::Restart { process, .. } => process,
            Cause::Trim { process } => process,
        }
    }
}

/// What few reactions have, so that it stands apart from the steps.
#[derive(Clone, Copy)]
pub struct Aside {
    /// The transaction that was begun, if one was.
    pub begun: Option<Txn>,
    /// What was told to the application, if anything was.
    pub told: Option<Told>,
    /// How many records a trim kept, if it was one.
    pub kept: Option<u64>,
}

/// Where the records and the messages of a step end, and those of the next one start.
#[derive(Clone, Copy)]
pub struct Ends {
    /// The end of its records, in the list of all records.
    pub written: usize,
    /// The end of its messages, in the list of all messages.
    pub messages: usize,
}

/// What is kept of a step. Its records and its messages start where those of the step before it end.
#[derive(Clone, Copy)]
pub struct ShortStep {
    /// Which process made it, and why.
    pub cause: Cause,
    /// Where its records and its messages end.
    pub ends: Ends,
    /// The number of what else its reaction has, from 1; 0, where it has nothing else.
    pub aside: usize,
}

// A long run keeps hundreds of thousands of them.
const _: () = prove!(size_of::<ShortStep>() == 40);

/// The last step, which has its records and its messages until there is room for them in the lists.
#[derive(Drop)]
pub struct LastStep {
    /// Which process made it, and why.
    pub cause: Cause,
    /// The records that it wrote, in order.
    pub written: Sequence<ShownRecord>,
    /// The messages that it sent, in order.
    pub messages: Envelopes,
    /// The number of what else its reaction has, from 1; 0, where it has nothing else.
    pub aside: usize,
}

/// Keeps an act, where it was one: the cause of what happened at this process. There has to be room for an
/// act.
pub(crate) fn keep_act(acts: &mut Vec<Act>, process: ProcessId, happening: Happening) -> Cause
    requires { vec_len acts.old < vec_capacity acts.old }
    ensures cause { result ≡ cause_by (length acts.old.items) process happening }
    ensures acts { acts.new.items ≡ acts.old.items ++ act_by happening }
{
    match happening {
        Happening::Input(Input::Act(act)) => {
            let place = acts.len();
            acts.push_reserved(act);
            Cause::Act { process, place }
        }
        Happening::Input(Input::Message(number, _)) => Cause::Message { process, number },
        Happening::Restart(kept) => Cause::Restart { process, kept },
        Happening::Trim => Cause::Trim { process },
    }
}

/// Whether a reaction has nothing of what few have.
fn is_bare(aside: &Aside) -> bool
    ensures { result ≡ is_bare aside.now.begun aside.now.told aside.now.kept }
{
    aside.begun.is_none() && aside.told.is_none() && aside.kept.is_none()
}

/// Keeps what few reactions have, where any of it is there: its number, or 0. There has to be room for it.
pub(crate) fn keep_aside(asides: &mut Vec<Aside>, aside: Aside) -> usize
    requires { vec_len asides.old < vec_capacity asides.old }
    ensures number { result ≡ aside_by (length asides.old.items) aside }
    ensures asides { asides.new.items ≡ asides.old.items ++ asides_by aside }
{
    if is_bare(&aside) {
        return 0;
    }
    asides.push_reserved(aside);
    asides.len()
}
