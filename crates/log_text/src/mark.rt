//! What a trim must know of a record, without its bytes.

ghost use Rattle.std.specs.Prelude.{◌≡◌, Some};
ghost use Rattle.log_text.specs.Marks.{deed_in, mark_of, nameless, opens};
ghost use Rattle.log_text.specs.Reading.{read_record};
ghost use Rattle.log_text.specs.declared.form.LogForm.{LogForm};
ghost use Rattle.protocol.specs.declared.records.LogRecord.{LogRecord};

use xa_xid::Xid;

/// What a record does to what is said of its name.
#[derive(Clone, Copy, PartialEq, Eq)]
pub enum MarkDeed {
    /// An Opened; it has no name.
    Opens,
    /// Nothing: a base or a pair, which have no name.
    Nothing,
    /// The case waits, unless it was decided: Collecting, Prepare.
    Begins,
    /// A decision that names nobody who owes an acknowledgement.
    Settles,
    /// A decision that names somebody who owes an acknowledgement.
    Owes,
    /// The branch promised: Prepared.
    Prepares,
    /// The branch, decided by an operator, waits to be forgotten.
    Waits,
    /// It is over.
    Ends,
    /// It is over, and what was found of it is reported.
    Reports,
    /// Nothing is reported any more.
    Clears,
}

/// What a trim must know of a record: the name that it has in the log, and what it does to what is said of
/// it.
#[derive(Clone, Copy)]
pub struct TrimMark {
    /// The name, as the log writes it; Opened, Base and Pair have none.
    pub name: Option<Xid>,
    /// What the record does.
    pub deed: MarkDeed,
}

/// What a record of this kind does that has no name; none, if a record of this kind has one.
fn nameless(kind: u8) -> Option<MarkDeed>
    ensures { result ≡ nameless kind }
{
    match kind {
        0x01 => Some(MarkDeed::Opens),
        0x19 | 0x1a => Some(MarkDeed::Nothing),
        _ => None,
    }
}

/// What a record of this kind does, by the bytes after its name.
fn deed_in(kind: u8, rest: &[u8]) -> MarkDeed
    ensures { result ≡ deed_in kind rest.now }
{
    match (kind, rest) {
        (0x02 | 0x03, _) => MarkDeed::Begins,
        (0x04 | 0x05, [0, ..]) => MarkDeed::Settles,
        (0x04 | 0x05, _) => MarkDeed::Owes,
        (0x07, _) => MarkDeed::Reports,
        (0x08, _) => MarkDeed::Clears,
        (0x11, _) => MarkDeed::Prepares,
        (0x15 | 0x16 | 0x17, _) => MarkDeed::Waits,
        _ => MarkDeed::Ends,
    }
}

impl TrimMark {
    /// The mark of the record that a frame of this kind and payload reads as, if it reads as one. Of the
    /// payload only the name is read, and whether a decision names anybody. It takes no memory.
    pub fn in_frame(kind: u8, payload: &[u8]) -> TrimMark
        ensures { (f : LogForm) (l : LogRecord) → read_record f kind payload.now ≡ Some l
            → result ≡ mark_of l }
    {
        if let Some(deed) = nameless(kind) {
            return TrimMark { name: None, deed };
        }
        match Xid::front(payload) {
            Ok((xid, size)) => {
                let (_, rest) = payload.split_at(size);
                TrimMark {
                    name: Some(xid),
                    deed: deed_in(kind, rest),
                }
            }
            // No record has such a payload.
            Err(_) => TrimMark {
                name: None,
                deed: MarkDeed::Nothing,
            },
        }
    }

    /// Whether the record is an Opened.
    pub fn is_opened(&self) -> bool
        ensures { result ≡ opens self.now.deed }
    {
        matches!(self.deed, MarkDeed::Opens)
    }
}
