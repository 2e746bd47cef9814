//! What a store asks of the file in which its bytes stand.

ghost use Rattle.std.specs.Prelude.{ℕ, List, ◌++◌, OnOk, ⊤};

use std::io;

/// A file that grows at its end, and that another can take the place of. No clause can say what the operating
/// system does: so the members say what was asked for and answered Ok, and a type over memory says by them
/// which bytes it then holds.
pub trait LogFile: Drop {
    /// From the one to the other these bytes were written after N.
    ghost writes: { Self → Self → ℕ → List ℕ → Type 0 } = { λ _ _ _ _. ⊤ };

    /// From the one to the other what was written became safe.
    ghost syncs: { Self → Self → Type 0 } = { λ _ _. ⊤ };

    /// From the one to the other a file of these bytes alone, all of them safe, took its place.
    ghost replaces: { Self → Self → List ℕ → Type 0 } = { λ _ _ _. ⊤ };

    /// Writes these bytes, one after the other, after N of the file. Ok: a read returns them. Err:
    /// any of them may be there.
    fn write(&mut self, place: u64, head: &[u8], more: &[u8]) -> io::Result<()>
        ensures { OnOk result (writes self.old self.new place (head.now ++ more.now)) };

    /// Ok: what was written is on the disk. Err: nothing is known of what was written since the last Ok, now
    /// or ever, but by a file written again.
    fn sync(&mut self) -> io::Result<()>
        ensures { OnOk result (syncs self.old self.new) };

    /// Ok: a file of these bytes alone has the name, and both are on the disk. Err: the old file has the
    /// name, or that one.
    fn replace(&mut self, head: &[u8], more: &[u8]) -> io::Result<()>
        ensures { OnOk result (replaces self.old self.new (head.now ++ more.now)) };
}
