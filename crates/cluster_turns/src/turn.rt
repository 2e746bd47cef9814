//! Room for the entries of a turn, and the turn that comes of it.

ghost use Rattle.std.specs.Prelude.{◌≡◌, ◌+◌, ◌<◌, ◌≤◌, ◌++◌, [], ◌∷◌, IfOk, IsTrue, length};
ghost use Rattle.cluster_turns.specs.Turns.{LinksTurn};

use protocol::JournalEntry;
use std::alloc::{AllocError, Global};
use std::collections::LinkedList;
use std::marker::Model;
use std::sync::Wait;

/// The entries of a turn, each with its caller's number.
pub type Entries = Vec<(u64, JournalEntry)>;

/// Room for the entries of a turn, and those that were made. To a contract it is these, and for how many more
/// there is room.
#[derive(Drop)]
pub struct Room {
    entries: Entries,
    /// The node by which they will be linked. It has no entries yet.
    node: LinkedList<Entries>,
}

impl Model for Room {
    ghost use Rattle.std.specs.Prelude.{◌≡◌, ◌-◌, length};
    ghost use Rattle.std.specs.Vec.{vec_capacity, vec_len};
    ghost use Rattle.cluster_turns.specs.Turns.{RoomState};

    ghost Value = { RoomState };

    ghost view = { λ r. record {
      entries = r.entries.items;
      more = vec_capacity r.entries - vec_len r.entries;
    } };

    ghost invariant = { λ r. length r.node ≡ 1 };
}

impl Room {
    /// Room for N entries. Memory: the growth was refused.
    pub fn new(alloc: Global, entries: usize) -> Result<Room, AllocError>
        ensures { IfOk result (λ r. r ≡ record { entries = []; more = entries }) }
    {
        let mut node = LinkedList::new(alloc);
        if node.push_back(Vec::new(alloc)).is_err() {
            return Err(AllocError);
        }
        let entries = Vec::with_capacity(alloc, entries)?;
        Ok(Room { entries, node })
    }

    /// Makes room for N entries more, made to measure. Whether there was memory for it; else the room is as
    /// before.
    pub fn widen(&mut self, more: usize) -> bool
        ensures entries { self.new.entries ≡ self.old.entries }
        ensures more { self.old.more ≤ self.new.more }
        ensures widened { IsTrue result → more ≤ self.new.more }
    {
        self.entries.reserve_exact(more).is_ok()
    }

    /// An entry more, with its caller's number, where there is room for it. It takes no memory.
    pub fn push(&mut self, caller: u64, entry: JournalEntry)
        requires { 0 < self.old.more }
        ensures entries { self.new.entries ≡ self.old.entries ++ (caller, entry) ∷ [] }
        ensures more { self.new.more + 1 ≡ self.old.more }
    {
        self.entries.push_reserved((caller, entry));
    }
}

/// A turn: entries that were made one after another, in room that was taken before. To a contract it is their
/// list.
#[derive(Drop)]
pub struct Turn {
    room: Room,
}

impl Model for Turn {
    ghost use Rattle.std.specs.Prelude.{ℕ, List};
    ghost use Rattle.protocol_words.specs.Types.{AnyEntry};

    ghost Value = { List (ℕ × AnyEntry) };

    ghost view = { λ t. t.room.entries };
}

impl Turn {
    /// The turn that was made in this room.
    pub fn new(room: Room) -> Turn
        ensures { result ≡ room.entries }
    {
        Turn { room }
    }

    /// Its entries.
    pub fn entries(&self) -> &[(u64, JournalEntry)]
        ensures { result.now ≡ self.now }
    {
        self.room.entries.as_slice()
    }

    /// Links the turn after others. It takes no memory. No journal has as many turns as would fail here.
    pub fn link<R: Wait>(self, rt: &R, turns: &mut LinkedList<Entries>)
        ensures { LinksTurn turns.old turns.new self }
    {
        let Turn { room } = self;
        let Room { entries, node } = room;
        append(rt, turns, &mut filled(entries, node));
    }
}

/// These entries, in this node.
fn filled(entries: Entries, node: LinkedList<Entries>) -> LinkedList<Entries>
    requires { length node ≡ 1 }
    ensures { result ≡ entries ∷ [] }
{
    let mut filled = node;
    if let Some(place) = filled.front_mut() {
        *place = entries;
    }
    filled
}

/// Links turns after others. It takes no memory. No journal has as many turns as would fail here.
fn append<R: Wait>(rt: &R, turns: &mut LinkedList<Entries>, more: &mut LinkedList<Entries>)
    ensures { turns.new ≡ turns.old ++ more.old }
{
    if turns.append(more).is_err() {
        for _ in rt.forever() {}
        unreachable!()
    }
}
