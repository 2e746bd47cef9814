//! Parts of a list.

ghost use Rattle.std.specs.Prelude.{◌≡◌, ◌+◌, ◌≤◌, ◌++◌, length, option_map};
ghost use Rattle.std.specs.Vec.{vec_capacity, vec_len};
ghost use Rattle.tree_journal.specs.Spans.{part_in};

use protocol::Sequence;

/// Where values are in a list: from one place, counted from 0, up to another.
#[derive(Clone, Copy)]
pub struct Span {
    pub start: usize,
    pub end: usize,
}

/// The values that are there; None, if the list has no such part.
pub(crate) fn part_of<T>(list: &[T], span: Span) -> Option<&[T]>
    ensures { option_map (λ part. part.now) result ≡ part_in list.now span.start span.end }
{
    list.get(span.start..span.end)
}

/// Adds these values to a list, which has to have room for them.
pub(crate) fn keep_all<T: Drop>(list: &mut Vec<T>, values: Sequence<T>)
    requires { vec_len list.old + length values ≤ vec_capacity list.old }
    ensures { list.new.items ≡ list.old.items ++ values }
{
    let mut values = values.into_vec();
    list.append(&mut values).unwrap();
}
