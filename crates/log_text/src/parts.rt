//! The parts of payloads, as they are read from the front.

ghost use Rattle.std.specs.Prelude.{◌≡◌, option_map, IfOk, IfErr, None, Some, OnErr};
ghost use Rattle.log_text.specs.Parts.{all_of, front_of, key_at, left_at, piece_at, reports_of, ticket_at, tickets_at, tickets_of, value_at, write_at, writes_of};

use crate::records::ReadFault;
use byteorder::{BigEndian, ByteOrder};
use protocol::{Bytes, NUMBERS, ProcessId, Reports, Sequence, Ticket, Tickets, Write, Writes};
use std::alloc::{AllocError, Global};

/// The ticket at the front, and the bytes after it.
#[tactic(auto, unfolding(crate::specs::Parts::ticket_at))]
fn ticket_at(bytes: &[u8]) -> Option<(Ticket, &[u8])>
    ensures { option_map (λ p. (p.0, p.1.now)) result ≡ ticket_at bytes.now }
{
    if bytes.len() < 20 {
        return None;
    }
    let ticket = Ticket {
        child: ProcessId(BigEndian::read_u32(bytes)),
        boot: BigEndian::read_u64(&bytes[4..]),
        number: BigEndian::read_u64(&bytes[12..]),
    };
    if ticket.boot < NUMBERS && ticket.number < NUMBERS {
        Some((ticket, &bytes[20..]))
    } else {
        None
    }
}

/// N tickets at the front, and the bytes after them.
fn tickets_front(alloc: Global, count: u8, bytes: &[u8]) -> Result<(Tickets, &[u8]), ReadFault>
    ensures ok { IfOk result (λ p. front_of ticket_at count bytes.now ≡ Some (p.0, p.1.now)) }
    ensures err { IfErr result (λ e. e ≡ ReadFault.Malformed → front_of ticket_at count bytes.now ≡ None) }
{
    let mut tickets = Vec::new(alloc);
    let mut rest = bytes;
    for _ in 0..count {
        let Some((ticket, behind)) = ticket_at(rest) else {
            return Err(ReadFault::Malformed);
        };
        tickets.push(ticket)?;
        rest = behind;
    }
    Ok((Sequence::from_vec(tickets), rest))
}

/// Tickets at the front after their number, and the bytes after them.
fn tickets_at(alloc: Global, bytes: &[u8]) -> Result<(Tickets, &[u8]), ReadFault>
    ensures ok { IfOk result (λ p. tickets_at bytes.now ≡ Some (p.0, p.1.now)) }
    ensures err { IfErr result (λ e. e ≡ ReadFault.Malformed → tickets_at bytes.now ≡ None) }
{
    match bytes {
        [count, rest @ ..] => tickets_front(alloc, *count, rest),
        [] => Err(ReadFault::Malformed),
    }
}

/// Tickets after their number, with nothing after them.
pub fn tickets_of(alloc: Global, bytes: &[u8]) -> Result<Tickets, ReadFault>
    ensures ok { IfOk result (λ tickets. tickets_of bytes.now ≡ Some tickets) }
    ensures err { IfErr result (λ e. e ≡ ReadFault.Malformed → tickets_of bytes.now ≡ None) }
{
    let (tickets, rest) = tickets_at(alloc, bytes)?;
    if rest.is_empty() {
        Ok(tickets)
    } else {
        Err(ReadFault::Malformed)
    }
}

/// What an End reports: the mixed tickets and the unreported ones, with nothing after them.
pub fn reports_of(alloc: Global, bytes: &[u8]) -> Result<Reports, ReadFault>
    ensures ok { IfOk result (λ reports. reports_of bytes.now ≡ Some reports) }
    ensures err { IfErr result (λ e. e ≡ ReadFault.Malformed → reports_of bytes.now ≡ None) }
{
    let (mixed, rest) = tickets_at(alloc, bytes)?;
    let unreported = tickets_of(alloc, rest)?;
    Ok(Reports { mixed, unreported })
}

/// The first N bytes, where there are as many, and the bytes after them.
fn piece_at(least: usize, most: usize, size: usize, rest: &[u8]) -> Option<(&[u8], &[u8])>
    ensures { option_map (λ p. (p.0.now, p.1.now)) result ≡ piece_at least most size rest.now }
{
    if least <= size && size <= most && size <= rest.len() {
        Some(rest.split_at(size))
    } else {
        None
    }
}

/// The key at the front, after its length, and the bytes after it.
pub fn key_at(bytes: &[u8]) -> Option<(&[u8], &[u8])>
    ensures { option_map (λ p. (p.0.now, p.1.now)) result ≡ key_at bytes.now }
{
    match bytes {
        [size, rest @ ..] => piece_at(1, 64, usize::from(*size), rest),
        [] => None,
    }
}

/// The value at the front, after its length, and the bytes after it.
pub fn value_at(bytes: &[u8]) -> Option<(&[u8], &[u8])>
    ensures { option_map (λ p. (p.0.now, p.1.now)) result ≡ value_at bytes.now }
{
    match bytes {
        [high, low, rest @ ..] => {
            piece_at(0, 256, usize::from(*high) * 256 + usize::from(*low), rest)
        }
        _ => None,
    }
}

/// The bytes, as keys and values hold them.
pub fn bytes_of(alloc: Global, bytes: &[u8]) -> Result<Bytes, AllocError>
    ensures { IfOk result (λ copy. copy ≡ bytes.now) }
{
    Bytes::from_slice(alloc, bytes)
}

/// What a write leaves at its key: nothing, or the value.
fn left_at<'a>(alloc: Global, key: &[u8], bytes: &'a [u8]) -> Result<(Write, &'a [u8]), ReadFault>
    ensures ok { IfOk result (λ p. left_at key.now bytes.now ≡ Some (p.0, p.1.now)) }
    ensures err { IfErr result (λ e. e ≡ ReadFault.Malformed → left_at key.now bytes.now ≡ None) }
{
    match bytes {
        [0, rest @ ..] => {
            let key = bytes_of(alloc, key)?;
            Ok((Write { key, value: None }, rest))
        }
        [1, rest @ ..] => {
            let Some((value, rest)) = value_at(rest) else {
                return Err(ReadFault::Malformed);
            };
            let key = bytes_of(alloc, key)?;
            let value = Some(bytes_of(alloc, value)?);
            Ok((Write { key, value }, rest))
        }
        _ => Err(ReadFault::Malformed),
    }
}

/// The write at the front, and the bytes after it.
#[tactic(auto, unfolding(crate::specs::Parts::write_at))]
fn write_at(alloc: Global, bytes: &[u8]) -> Result<(Write, &[u8]), ReadFault>
    ensures ok { IfOk result (λ p. write_at bytes.now ≡ Some (p.0, p.1.now)) }
    ensures err { IfErr result (λ e. e ≡ ReadFault.Malformed → write_at bytes.now ≡ None) }
{
    let Some((key, rest)) = key_at(bytes) else {
        return Err(ReadFault::Malformed);
    };
    left_at(alloc, key, rest)
}

/// N writes, with nothing after them.
fn writes_in(alloc: Global, count: u8, bytes: &[u8]) -> Result<Writes, ReadFault>
    ensures ok { IfOk result (λ writes. all_of write_at count bytes.now ≡ Some writes) }
    ensures err { IfErr result (λ e. e ≡ ReadFault.Malformed → all_of write_at count bytes.now ≡ None) }
{
    let mut writes = Vec::new(alloc);
    let mut rest = bytes;
    for _ in 0..count {
        let (write, behind) = write_at(alloc, rest)?;
        writes.push(write)?;
        rest = behind;
    }
    if rest.is_empty() {
        Ok(Sequence::from_vec(writes))
    } else {
        Err(ReadFault::Malformed)
    }
}

/// Writes after their number, with nothing after them.
pub fn writes_of(alloc: Global, bytes: &[u8]) -> Result<Writes, ReadFault>
    ensures ok { IfOk result (λ writes. writes_of bytes.now ≡ Some writes) }
    ensures err { IfErr result (λ e. e ≡ ReadFault.Malformed → writes_of bytes.now ≡ None) }
{
    match bytes {
        [count, rest @ ..] if *count >= 1 && *count <= 64 => writes_in(alloc, *count, rest),
        _ => Err(ReadFault::Malformed),
    }
}
