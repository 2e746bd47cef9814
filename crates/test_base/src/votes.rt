//! How a subordinate votes, over a key store and over another manager.

use crate::players::{CHILD, ROOT, bytes, child_case, parent_case, put};
use kv_manager::KvManager;
use log_store::MemoryStore;
use log_text::name_xid;
use process_state::InputRef;
use protocol::{BranchName, Message, Op, Reaction, StepError, Tree, Vote};
use resource_manager::ResourceManager;
use std::alloc::{AllocError, Global};
use std::test::Fail;
use sub_process::Subordinate;
use test_manager::RefusingManager;
use xa_xid::Xid;

/// The child below the root, over an empty key store.
fn opened(alloc: Global) -> Result<Subordinate<KvManager<MemoryStore>>, AllocError> {
    match KvManager::create(alloc, MemoryStore::new(alloc), CHILD) {
        Ok(manager) => {
            let tree = Tree::from_vec(Vec::new(alloc));
            Ok(Subordinate::open(alloc, CHILD, ROOT, tree, manager))
        }
        Err(_) => Err(AllocError),
    }
}

/// The child below the root, over an empty key store that was told to refuse these branches.
fn told(
    alloc: Global,
    refused: Vec<Xid>,
) -> Result<Subordinate<RefusingManager<KvManager<MemoryStore>>>, AllocError> {
    match KvManager::create(alloc, MemoryStore::new(alloc), CHILD) {
        Ok(manager) => {
            let tree = Tree::from_vec(Vec::new(alloc));
            let manager = RefusingManager::new(manager, refused);
            Ok(Subordinate::open(alloc, CHILD, ROOT, tree, manager))
        }
        Err(_) => Err(AllocError),
    }
}

/// The vote that a process gives, if that is all it sends.
fn vote_in(reaction: &Reaction) -> Option<Vote> {
    match reaction.messages.as_slice() {
        [envelope] => match &envelope.message {
            Message::Yes(_) => Some(Vote::Yes),
            Message::No(_) => Some(Vote::No),
            Message::Read(_) => Some(Vote::Read),
            _ => None,
        },
        _ => None,
    }
}

// These say nothing of the process that they leave, and are for any manager, so that the proof of a test
// stays short.

fn heard<M: ResourceManager>(
    player: &mut Subordinate<M>,
    message: Message,
) -> Result<Option<Vote>, Fail> {
    if !player.has_numbers() {
        return Err(Fail::from("a message that can be heard"));
    }
    match player.step(InputRef::Message(1, &message)) {
        Ok(reaction) => Ok(vote_in(&reaction)),
        Err(_) => Err(Fail::from("a message that is heard")),
    }
}

/// What a process with one work votes.
fn vote<M: ResourceManager + Drop>(
    mut player: Subordinate<M>,
    op: Op,
) -> Result<Option<Vote>, Fail> {
    heard(&mut player, Message::Join(parent_case()))?;
    heard(&mut player, Message::Work(child_case(), 1, op))?;
    heard(&mut player, Message::Prepare(child_case(), 1))
}

/// Why a process with one work refuses to prepare, if it does.
fn refusal<M: ResourceManager + Drop>(
    mut player: Subordinate<M>,
    op: Op,
) -> Result<Option<StepError>, Fail> {
    heard(&mut player, Message::Join(parent_case()))?;
    heard(&mut player, Message::Work(child_case(), 1, op))?;
    if !player.has_numbers() {
        return Err(Fail::from("a message that can be heard"));
    }
    match player.step(InputRef::Message(1, &Message::Prepare(child_case(), 1))) {
        Ok(_) => Ok(None),
        Err(error) => Ok(Some(error)),
    }
}

fn voted(alloc: Global, op: Op) -> Result<Option<Vote>, Fail> {
    vote(opened(alloc)?, op)
}

/// The branch of the child's case.
fn branch() -> Xid {
    name_xid(Some(ROOT), BranchName::Case(child_case()))
}

fn told_vote(alloc: Global, op: Op) -> Result<Option<Vote>, Fail> {
    vote(told(alloc, Vec::new(alloc))?, op)
}

fn told_refusal(alloc: Global, op: Op) -> Result<Option<StepError>, Fail> {
    let mut refused = Vec::new(alloc);
    refused.push(branch())?;
    refusal(told(alloc, refused)?, op)
}

/// A branch that wrote votes YES, one that read votes READ, and one whose work was refused votes NO.
#[test]
fn votes_follow_the_work(rt: HostRuntime) -> Result<(), Fail> {
    let alloc = rt.alloc();
    let wrote = voted(alloc, put(alloc)?)?;
    assert!(rt; matches!(wrote, Some(Vote::Yes)));
    let read = voted(alloc, Op::Get(bytes(alloc, b"x")?))?;
    assert!(rt; matches!(read, Some(Vote::Read)));
    let refused = voted(alloc, Op::Get(bytes(alloc, b"")?))?;
    assert!(rt; matches!(refused, Some(Vote::No)));
    Ok(())
}

/// A process obeys another manager, too: it refuses to prepare what the manager was told to refuse, and votes
/// YES where it was told nothing.
#[test]
fn another_manager_is_obeyed(rt: HostRuntime) -> Result<(), Fail> {
    let alloc = rt.alloc();
    let refused = told_refusal(alloc, put(alloc)?)?;
    assert!(rt; matches!(refused, Some(StepError::Exhausted)));
    let free = told_vote(alloc, put(alloc)?)?;
    assert!(rt; matches!(free, Some(Vote::Yes)));
    Ok(())
}
