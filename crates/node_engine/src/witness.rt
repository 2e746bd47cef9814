//! Who sees what a node answers, beside the writer.

/// Sees each line of a node's input, without its end, with the answer to it, once that was written.
pub trait Witness {
    fn see(&mut self, line: &[u8], answer: &[u8]);
}

/// A witness that does nothing.
#[derive(Clone, Copy, Debug)]
pub struct Nobody;

impl Witness for Nobody {
    fn see(&mut self, _line: &[u8], _answer: &[u8]) {}
}
