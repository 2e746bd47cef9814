//! A block.

ghost use Rattle.std.specs.Prelude.{◌≡◌, ◌+◌, ◌<◌, ◌≤◌, ◌^◌, ◌++◌, length, option_map};
ghost use Rattle.file_blocks.specs.Blocks.{
  first_block,
  has_head,
  head_text,
  is_damaged,
  is_head,
  label,
  number_in,
  number_text,
  seal,
  whole_block,
};

use byteorder::{BigEndian, ByteOrder};
use sha2::{Digest, Sha256};

/// How many bytes are before a block's own.
pub const HEAD: usize = 72;

/// One after the other, these bytes fill what is to be written.
pub(crate) fn join(out: &mut [u8], front: &[u8], back: &[u8])
    requires { length out.old ≡ length front.now + length back.now }
    ensures { out.new ≡ front.now ++ back.now }
{
    let (first, second) = out.split_at_mut(front.len());
    first.copy_from_slice(front);
    second.copy_from_slice(back);
}

/// A number in eight bytes, the highest first.
#[tactic(auto, unfolding(crate::specs::Blocks::number_text))]
pub(crate) fn number_text(number: u64) -> [u8; 8]
    ensures { result ≡ number_text number }
{
    number.to_be_bytes()
}

/// The number in the first eight bytes.
#[tactic(auto, unfolding(crate::specs::Blocks::number_in))]
pub(crate) fn number_in(bytes: &[u8]) -> u64
    requires { 8 ≤ length bytes.now }
    ensures { result ≡ number_in bytes.now }
{
    BigEndian::read_u64(bytes)
}

/// How many bytes these are, and their digest.
#[tactic(auto, unfolding(crate::specs::Blocks::label))]
fn label_of(payload: &[u8]) -> [u8; 40]
    ensures { result ≡ label payload.now }
{
    let size = number_text(payload.len() as u64);
    let digest = Sha256::digest(payload);
    let mut label = [0; 40];
    join(&mut label, &size, &digest);
    label
}

/// The digest of a label at this place of the file with this number.
#[tactic(auto, unfolding(crate::specs::Blocks::seal))]
fn seal_of(number: u64, place: u64, label: &[u8]) -> [u8; 32]
    requires { length label.now ≡ 40 }
    ensures { result ≡ seal number place label.now }
{
    let number = number_text(number);
    let place = number_text(place);
    let mut at = [0; 16];
    join(&mut at, &number, &place);
    let mut text = [0; 56];
    join(&mut text, &at, label);
    Sha256::digest(&text)
}

/// What is before a block of these bytes, at this place of the file with this number.
pub fn head_of(number: u64, place: u64, payload: &[u8]) -> [u8; 72]
    ensures { result ≡ head_text number place payload.now }
{
    let label = label_of(payload);
    let seal = seal_of(number, place, &label);
    let mut head = [0; 72];
    join(&mut head, &label, &seal);
    head
}

/// The block whose head is this and which has N of these bytes: its bytes, and those after it.
fn whole_block<'a>(
    number: u64,
    place: u64,
    head: &[u8],
    size: u64,
    rest: &'a [u8],
) -> Option<(&'a [u8], &'a [u8])>
    ensures { option_map (λ p. (p.0.now, p.1.now)) result
        ≡ whole_block number place head.now size rest.now }
{
    if (rest.len() as u64) < size {
        return None;
    }
    let (payload, behind) = rest.split_at(size as usize);
    if head_of(number, place, payload).as_slice() == head {
        Some((payload, behind))
    } else {
        None
    }
}

/// The block with which these bytes begin at this place of the file with this number: its bytes, and those
/// after it. None if it is not whole. It takes no memory.
pub fn first_block(number: u64, place: u64, bytes: &[u8]) -> Option<(&[u8], &[u8])>
    ensures { option_map (λ p. (p.0.now, p.1.now)) result ≡ first_block number place bytes.now }
{
    if bytes.len() < HEAD {
        return None;
    }
    let (head, rest) = bytes.split_at(HEAD);
    whole_block(number, place, head, number_in(head), rest)
}

/// Whether these bytes begin with the head of a block of this file at this place.
fn is_head(number: u64, place: u64, bytes: &[u8]) -> bool
    ensures { result ≡ is_head number place bytes.now }
{
    if bytes.len() < HEAD {
        return false;
    }
    let (label, rest) = bytes.split_at(40);
    let seal = seal_of(number, place, label);
    let (there, _) = rest.split_at(32);
    seal.as_slice() == there
}

/// Whether such a head stands somewhere in these bytes, the first of which is at this place.
pub fn has_head(number: u64, place: u64, bytes: &[u8]) -> bool
    requires { place + length bytes.now < 2 ^ 64 }
    ensures { result ≡ has_head number place bytes.now }
{
    for i in 0..bytes.len() {
        let (_, rest) = bytes.split_at(i);
        if is_head(number, place + i as u64, rest) {
            return true;
        }
    }
    false
}

/// Whether what is after the last whole block, at this place, is more than what a cut of power leaves of
/// a write: a head of this file is after a block that is broken.
pub fn is_damaged(number: u64, place: u64, tail: &[u8]) -> bool
    requires { place + length tail.now < 2 ^ 64 }
    ensures { result ≡ is_damaged number place tail.now }
{
    if !is_head(number, place, tail) {
        return has_head(number, place, tail);
    }
    let (head, rest) = tail.split_at(HEAD);
    let size = number_in(head);
    if (rest.len() as u64) < size {
        return false;
    }
    let (_, behind) = rest.split_at(size as usize);
    has_head(number, place + (HEAD as u64 + size), behind)
}
