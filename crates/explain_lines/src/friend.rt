//! Words of other systems for what a grammar has another word for.

ghost use Rattle.std.specs.Prelude.{Contains, IfSome, map};

use crate::near::{first_near, nearest};

/// Words that are in other systems for a word of a grammar, each with that word.
const FRIENDS: &[(&str, &str)] = &[
    ("crash", "restart"),
    ("kill", "restart"),
    ("reboot", "restart"),
    ("rollback", "abort"),
    ("abort", "rollback"),
    ("prepare", "commit"),
    ("read", "get"),
    ("select", "get"),
    ("write", "put"),
    ("set", "put"),
    ("insert", "put"),
    ("update", "put"),
    ("delete", "del"),
    ("remove", "del"),
    ("run", "settle"),
    ("send", "deliver"),
    ("receive", "deliver"),
    ("inquire", "ask"),
];

/// The word of these that another system's word stands for, if it is one of those.
pub(crate) fn friend_of(word: &str, words: &[&'static str]) -> Option<&'static str>
    ensures { IfSome result (λ meant. Contains (map (λ s. s.now) words.now) meant.now) }
{
    for (friend, meant) in FRIENDS {
        if *friend == word {
            let found = first_near(0, meant, words);
            if found.is_some() {
                return found;
            }
        }
    }
    None
}

/// The word of these that was meant by one that is none of them: what it stands for in another system, or
/// else the nearest.
pub(crate) fn meant_by(word: &str, words: &[&'static str]) -> Option<&'static str>
    ensures { IfSome result (λ meant. Contains (map (λ s. s.now) words.now) meant.now) }
{
    match friend_of(word, words) {
        Some(meant) => Some(meant),
        None => nearest(word, words),
    }
}
