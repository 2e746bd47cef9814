//! A step that is marked.

ghost use Rattle.std.specs.Prelude.{◌≡◌, ◌<◌, []};

use cluster_turns::Room;
use protocol::JournalEntry;

/// What a process wants to do, as an entry that shows nothing yet; how many bytes after its forced front it
/// keeps, where that is a restart; and room for the entry that comes of it, and for more of the same turn.
#[derive(Drop)]
pub struct MarkedStep {
    pub(crate) wanted: JournalEntry,
    pub(crate) keep: usize,
    pub(crate) room: Room,
    ghost unused: { room.entries ≡ [] },
    ghost roomy: { 0 < room.more },
}
