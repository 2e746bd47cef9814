//! The numbers of names.

ghost use Rattle.std.specs.Prelude.{◌≡◌, IfOk, OnOk, IfNone, IfSome, map, ℕ};
ghost use Rattle.judge_script.specs.Numbers.{AreApartNames, ArePlaces, HasMore, IsPlace, IsSort};

use crate::asking::NONE;
use judge_rules::XidSort;
use std::alloc::{AllocError, Global};
use xa_xid::Xid;

/// The XIDs of a transcript, and its keys and values, each once. A name's number is its place.
#[derive(Drop)]
pub struct Names<'a> {
    pub xids: Vec<Xid>,
    pub words: Vec<&'a str>,
}

/// Where an XID is among these.
fn place_of_xid(xids: &[Xid], xid: &Xid) -> Option<usize>
    ensures found { IfSome result (λ i. IsPlace xids.now i xid.now) }
    ensures none { IfNone result ((i : ℕ) → IsPlace xids.now i xid.now → ⊥) }
{
    for (i, other) in xids.iter().enumerate() {
        if other == xid {
            return Some(i);
        }
    }
    None
}

/// Where a word is among these.
fn place_of_word(words: &[&str], word: &str) -> Option<usize>
    ensures found { IfSome result (λ i. IsPlace (map (λ s. s.now) words.now) i word.now) }
    ensures none { IfNone result ((i : ℕ) → IsPlace (map (λ s. s.now) words.now) i word.now → ⊥) }
{
    for (i, other) in words.iter().enumerate() {
        if *other == word {
            return Some(i);
        }
    }
    None
}

/// What an XID is, apart from which.
pub(crate) fn sort_of(xid: &Xid) -> XidSort
    ensures { IsSort xid.now result }
{
    if xid.is_null() {
        return XidSort::Null;
    }
    let (_, _, bqual) = xid.parts();
    if bqual.is_empty() {
        XidSort::Bare
    } else {
        XidSort::Full
    }
}

/// The number of an XID, which is new where it is not known. More than 2^32 are refused like memory.
pub(crate) fn number_xid(xids: &mut Vec<Xid>, xid: Xid) -> Result<u32, AllocError>
    ensures placed { IfOk result (λ k. IsPlace xids.new.items k xid) }
    ensures more { OnOk result (HasMore xids.old.items xids.new.items) }
    ensures apart { OnOk result (AreApartNames xids.old.items → AreApartNames xids.new.items) }
{
    match place_of_xid(xids, &xid) {
        Some(place) => number_at(place),
        None => {
            let number = number_at(xids.len())?;
            xids.push(xid)?;
            Ok(number)
        }
    }
}

/// A place as a number.
fn number_at(place: usize) -> Result<u32, AllocError>
    ensures { IfOk result (λ number. number ≡ place) }
{
    if place < 1 << 32 {
        Ok(place as u32)
    } else {
        Err(AllocError)
    }
}

/// The number of a key or a value, which is new where it is not known. More than 2^32 are refused like
/// memory.
pub(crate) fn number_word<'a>(words: &mut Vec<&'a str>, word: &'a str) -> Result<u32, AllocError>
    ensures placed { IfOk result (λ k. IsPlace (map (λ s. s.now) words.new.items) k word.now) }
    ensures more { OnOk result (HasMore (map (λ s. s.now) words.old.items)
        (map (λ s. s.now) words.new.items)) }
    ensures apart { OnOk result (AreApartNames (map (λ s. s.now) words.old.items)
        → AreApartNames (map (λ s. s.now) words.new.items)) }
{
    match place_of_word(words, word) {
        Some(place) => number_at(place),
        None => {
            let number = number_at(words.len())?;
            words.push(word)?;
            Ok(number)
        }
    }
}

/// The numbers of XIDs.
pub(crate) fn number_xids(
    alloc: Global,
    xids: &mut Vec<Xid>,
    named: &[Xid],
) -> Result<Vec<u32>, AllocError>
    ensures placed { IfOk result (λ v. ArePlaces xids.new.items v.items named.now) }
    ensures more { OnOk result (HasMore xids.old.items xids.new.items) }
    ensures apart { OnOk result (AreApartNames xids.old.items → AreApartNames xids.new.items) }
{
    let mut numbers = Vec::new(alloc);
    for xid in named {
        numbers.push(number_xid(xids, *xid)?)?;
    }
    Ok(numbers)
}

impl<'a> Names<'a> {
    ghost use Rattle.std.specs.Prelude.{codes};
    ghost use Rattle.judge_script.specs.Numbers.{AreApartNames, IsPlace, table_of};

    /// No names but that of no value, whose number is 0.
    pub(crate) fn new(alloc: Global) -> Result<Names<'a>, AllocError>
        ensures zero { IfOk result (λ names. IsPlace (table_of names).words 0 (codes "none")) }
        ensures xids { IfOk result (λ names. AreApartNames (table_of names).xids) }
        ensures words { IfOk result (λ names. AreApartNames (table_of names).words) }
    {
        let mut words = Vec::new(alloc);
        words.push(NONE)?;
        Ok(Names {
            xids: Vec::new(alloc),
            words,
        })
    }
}
