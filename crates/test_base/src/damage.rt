//! The log of a root that committed one transaction of two children: with each byte set to each value, and
//! cut at each byte.

ghost use Rattle.std.specs.Prelude.{◌<◌};

use log_records::{LogOpenError, RecLog};
use log_store::MemoryStore;
use protocol::{Kind, ProcessId};
use std::alloc::Global;
use std::test::Fail;

/// Opened, Commit with two children that owe an acknowledgement, End.
pub(crate) const COMMITTED: [u8; 126] = *b"RLOG\x02\
    \x01\x00\x00\x00\x0d\x00\x00\x00\x00\x00\x00\x00\x01\x00\x00\x00\x01\x00\
    \x04\x00\x00\x00\x43\x00\x00\x0f\xa1\x14\x00\x00\x00\x00\x01\x00\x00\x00\x00\x00\x00\x00\x01\
    \x00\x00\x00\x00\x00\x00\x00\x01\
    \x02\x00\x00\x00\x02\x00\x00\x00\x00\x00\x00\x00\x01\x00\x00\x00\x00\x00\x00\x00\x01\
    \x00\x00\x00\x03\x00\x00\x00\x00\x00\x00\x00\x01\x00\x00\x00\x00\x00\x00\x00\x01\
    \x06\x00\x00\x00\x1a\x00\x00\x0f\xa1\x14\x00\x00\x00\x00\x01\x00\x00\x00\x00\x00\x00\x00\x01\
    \x00\x00\x00\x00\x00\x00\x00\x01";

/// Where its frames begin.
const FRAMES: [usize; 3] = [5, 23, 95];

/// What opening a text gives: the number of its records, the place of its damage, or that it is of the first
/// format.
#[derive(Clone, Copy, PartialEq, Eq)]
enum Answer {
    Records(usize),
    Damaged(usize),
    OldFormat,
}

/// Whose log it is.
const ROOT: ProcessId = ProcessId(1);

fn answer_to(alloc: Global, text: &[u8]) -> Option<Answer> {
    let bytes = Vec::from_slice(alloc, text).ok()?;
    match RecLog::open(
        alloc,
        MemoryStore::from_bytes(bytes),
        ROOT,
        Kind::Coordinator,
    ) {
        Ok(log) => Some(Answer::Records(log.records(alloc).ok()?.len())),
        Err((LogOpenError::Damaged(place), _store)) => Some(Answer::Damaged(place)),
        Err((LogOpenError::OldFormat, _store)) => Some(Answer::OldFormat),
        Err(_) => None,
    }
}

/// The text with one byte set to a value.
fn with_byte(place: usize, value: u8) -> [u8; 126]
    requires { place < 126 }
{
    let mut text = COMMITTED;
    text[place] = value;
    text
}

/// Whether the text with one byte set to a value is damaged at a place.
fn is_damaged(alloc: Global, place: usize, value: u8, at: usize) -> bool
    requires { place < 126 }
{
    answer_to(alloc, &with_byte(place, value)) == Some(Answer::Damaged(at))
}

#[test]
fn pinned_damage(rt: HostRuntime) {
    let alloc = rt.alloc();
    assert!(rt; is_damaged(alloc, 0, 0x53, 0));
    assert!(rt; is_damaged(alloc, 5, 0x02, 5));
    assert!(rt; is_damaged(alloc, 21, 0x02, 5));
    assert!(rt; is_damaged(alloc, 22, 0x01, 5));
    assert!(rt; is_damaged(alloc, 23, 0x7f, 23));
    assert!(rt; is_damaged(alloc, 27, 0x42, 23));
    assert!(rt; is_damaged(alloc, 27, 0x44, 23));
    let mut long = with_byte(26, 0xff);
    long[27] = 0xff;
    assert!(rt; answer_to(alloc, &long) == Some(Answer::Records(1)));
}

/// Whether a text with one byte set to a value is answered as it must: the header's damage is at 0, but for
/// the first format's number, any other at a frame's first byte up to that place.
fn is_answered(alloc: Global, place: usize, value: u8) -> bool
    requires { place < 126 }
{
    let same = COMMITTED[place] == value;
    match answer_to(alloc, &with_byte(place, value)) {
        Some(Answer::Records(count)) if same => count == 3,
        Some(Answer::Records(count)) => place >= 5 && count <= 3,
        Some(Answer::Damaged(0)) => !same && place < 5,
        Some(Answer::Damaged(at)) => !same && at <= place && FRAMES.contains(&at),
        Some(Answer::OldFormat) => place == 4 && value == 1,
        None => false,
    }
}

#[test]
fn each_byte_set_to_each_value(rt: HostRuntime) {
    for place in 0..126 {
        for value in 0..=255 {
            assert!(rt; is_answered(rt.alloc(), place, value), "{place} {value}");
        }
    }
}

/// Cut at each byte: the records of the whole frames are left, and a torn tail is gone.
#[test]
fn cut_at_each_byte(rt: HostRuntime) {
    for size in 0..=126 {
        let count = if size < 23 {
            0
        } else if size < 95 {
            1
        } else if size < 126 {
            2
        } else {
            3
        };
        assert!(rt; answer_to(rt.alloc(), &COMMITTED[..size]) == Some(Answer::Records(count)));
    }
}
