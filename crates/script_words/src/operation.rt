//! Operations on data, in the words of a script.

ghost use Rattle.std.specs.Prelude.{◌≡◌, IfOk, option_map};
ghost use Rattle.std.specs.List.{list_all};
ghost use Rattle.script_words.specs.Operations.{
  is_visible,
  is_visible_word,
  key_at,
  value_at,
  put_at,
  get_at,
  delete_at,
  op_by,
  op_at,
  op_view,
};

use protocol::{Bytes, Op};
use spellings::word::cut;
use std::alloc::{AllocError, Global};

/// An operation on data whose key and value lie in the script.
#[derive(Clone, Copy)]
pub enum Task<'a> {
    Put(&'a str, &'a str),
    Get(&'a str),
    Delete(&'a str),
}

impl Task<'_> {
    /// The operation, its texts copied.
    pub fn copied(&self, alloc: Global) -> Result<Op, AllocError>
        ensures { IfOk result (λ op. op ≡ op_view self.now) }
    {
        match self {
            Task::Put(key, value) => Ok(Op::Put(bytes_of(alloc, key)?, bytes_of(alloc, value)?)),
            Task::Get(key) => Ok(Op::Get(bytes_of(alloc, key)?)),
            Task::Delete(key) => Ok(Op::Delete(bytes_of(alloc, key)?)),
        }
    }
}

/// The operation that these words spell: `put KEY VALUE`, `get KEY` or `del KEY`. A key is 1 to 64 bytes
/// from `!` to `~`, a value 1 to 256. None: they spell no operation.
#[tactic(auto, unfolding(crate::specs::Operations::op_at))]
pub fn task_of(words: &str) -> Option<Task<'_>>
    ensures { option_map op_view result ≡ op_at words.now }
{
    let (verb, rest) = cut(words, ' ')?;
    task_by(verb, rest)
}

/// The operation of a verb and what is after it. None: there is no such operation.
pub fn task_by<'a>(verb: &str, rest: &'a str) -> Option<Task<'a>>
    ensures { option_map op_view result ≡ op_by verb.now rest.now }
{
    match verb {
        "put" => put_of(rest),
        "get" => get_of(rest),
        "del" => delete_of(rest),
        _ => None,
    }
}

fn get_of(key: &str) -> Option<Task<'_>>
    ensures { option_map op_view result ≡ get_at key.now }
{
    Some(Task::Get(key_of(key)?))
}

fn delete_of(key: &str) -> Option<Task<'_>>
    ensures { option_map op_view result ≡ delete_at key.now }
{
    Some(Task::Delete(key_of(key)?))
}

#[tactic(auto, unfolding(crate::specs::Operations::put_at))]
fn put_of(rest: &str) -> Option<Task<'_>>
    ensures { option_map op_view result ≡ put_at rest.now }
{
    let (key, value) = cut(rest, ' ')?;
    let key = key_of(key)?;
    let value = value_of(value)?;
    Some(Task::Put(key, value))
}

/// A word that is a key.
fn key_of(word: &str) -> Option<&str>
    ensures { option_map (λ key. key.now) result ≡ key_at word.now }
{
    if is_word(word, 64) { Some(word) } else { None }
}

/// A word that is a value.
fn value_of(word: &str) -> Option<&str>
    ensures { option_map (λ value. value.now) result ≡ value_at word.now }
{
    if is_word(word, 256) { Some(word) } else { None }
}

/// Whether a word is 1 to N bytes from `!` to `~`.
fn is_word(word: &str, most: usize) -> bool
    ensures { result ≡ is_visible_word most word.now }
{
    !word.is_empty() && word.len() <= most && are_visible(word.as_bytes())
}

fn are_visible(word: &[u8]) -> bool
    ensures { result ≡ list_all is_visible word.now }
{
    word.iter().all(|b| b'!' <= *b && *b <= b'~')
}

fn bytes_of(alloc: Global, text: &str) -> Result<Bytes, AllocError>
    ensures { IfOk result (λ bytes. bytes ≡ text.now) }
{
    Bytes::from_slice(alloc, text.as_bytes())
}
