//! A call that a store asks of its file.

/// A call that a store asks of its file.
#[derive(Drop)]
pub enum FileCall {
    /// These bytes are to be written at this place of the file.
    Write(u64, Vec<u8>),
    /// What was written is to be on the disk.
    Sync,
    /// A file of these bytes alone is to take the place of the file, and to be on the disk with its name.
    Replace(Vec<u8>),
}

/// Which call it is.
#[derive(Clone, Copy, PartialEq, Eq)]
pub enum CallKind {
    Write,
    Sync,
    Replace,
}
