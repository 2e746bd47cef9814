//! PREPARE: the branch votes.

ghost use Rattle.std.specs.Prelude.{◌≡◌, ◌<◌, [], false, IfErr, IfOk};
ghost use Rattle.std.specs.Vec.{vec_capacity, vec_len};
ghost use Rattle.protocol_words.specs.message;
ghost use Rattle.protocol_words.specs.Types.{AnyCase};
ghost use Rattle.protocol.specs.CoordinatorRows.{post};
ghost use Rattle.sub_process.specs.Subordinates.{Hears, IsAt, NotHeard, active, says, seen};

use crate::subordinate::Subordinate;
use protocol::{
    Case, Envelope, Message, ProcessId, Reaction, RecordKind, Sequence, ShownRecord, StepError,
    Vote,
};
use resource_manager::ResourceManager;
use std::alloc::Global;
use sub_work::{logged, promise, silence};
use xa_xid::Xid;

/// A reaction with these records and one message, for which there is room. It takes no memory.
fn says(
    alloc: Global,
    written: Sequence<ShownRecord>,
    mut room: Vec<Envelope>,
    from: ProcessId,
    to: ProcessId,
    message: Message,
) -> Reaction
    requires empty { room.items ≡ [] }
    requires room { vec_len room < vec_capacity room }
    ensures { result ≡ says written (post from to message) }
{
    room.push(Envelope { from, to, message }).unwrap();
    Reaction {
        written,
        messages: Sequence::from_vec(room),
        ..silence(alloc)
    }
}

impl<M: ResourceManager> Subordinate<M> {
    /// All works of the branch are done, and none was refused: it promises, or has only read.
    pub(crate) fn vote_with(
        &mut self,
        key: usize,
        case: Case,
        works: u64,
        xid: &Xid,
    ) -> Result<Reaction, StepError>
        requires up { (M.sight self.old.manager).log.failed ≡ false }
        requires at { (g : AnyCase) × IsAt self.old.table key case (active xid.now g works false) }
        ensures ok { IfOk result (Hears (seen M.sight self.old) (seen M.sight self.new)
            (message.Prepare case works)) }
        ensures err { IfErr result (NotHeard (seen M.sight self.old) (seen M.sight self.new)
            (message.Prepare case works)) }
    {
        let room = Vec::with_capacity(self.alloc, 1)?;
        let written = logged(self.alloc, RecordKind::Prepared, case, true)?;
        let vote = match promise(&mut self.manager, xid) {
            Ok(vote) => vote,
            Err(error) => return Err(error),
        };
        match vote {
            Vote::Read => {
                self.branches.remove(key);
                let none = Sequence::new(self.alloc);
                let read = Message::Read(case);
                Ok(says(self.alloc, none, room, self.me, self.parent, read))
            }
            _ => {
                self.branches.promise(key);
                let yes = Message::Yes(case);
                Ok(says(self.alloc, written, room, self.me, self.parent, yes))
            }
        }
    }
}
