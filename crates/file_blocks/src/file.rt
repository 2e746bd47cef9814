//! A log's file: a head, and blocks.

ghost use Rattle.std.specs.Prelude.{◌≡◌, ◌+◌, ◌++◌, ◌∷◌, [], IfErr, IfOk, length};
ghost use Rattle.file_blocks.specs.Files.{Holds, IsDamaged, file_head, file_number, file_text};

use crate::block::{first_block, head_of, is_damaged, join, number_in, number_text};
use sha2::{Digest, Sha256};
use std::alloc::{AllocError, Global};
use thiserror::Error;

/// How many bytes are before a file's blocks.
pub const FILE_HEAD: usize = 48;

/// What a file begins with.
const TITLE: [u8; 8] = *b"RSTARLOG";

/// What is in a log's file.
#[derive(Drop)]
pub struct FileText {
    /// The file's number.
    pub number: u64,
    /// The bytes of its blocks.
    pub bytes: Vec<u8>,
}

/// Why the bytes of a file were not read.
#[derive(Clone, Copy, Debug, PartialEq, Eq, Error)]
pub enum FileReadFault {
    /// There was no memory.
    #[error("no memory")]
    Memory,
    /// They are no file of a log, or a block that was safe is broken: the first one, or one before another.
    #[error("the file is damaged")]
    Damaged,
}

impl From<AllocError> for FileReadFault {
    ghost use Rattle.std.specs.Prelude.{◌≡◌};
    ghost use Rattle.file_blocks.specs.declared.file.FileReadFault.TheVariants.{Memory};

    ghost from_gives = { λ _ e. e ≡ Memory };

    fn from(_error: AllocError) -> FileReadFault {
        FileReadFault::Memory
    }
}

/// What the file with this number begins with.
#[tactic(auto, unfolding(crate::specs::Files::title, crate::specs::Files::file_head))]
pub fn file_head(number: u64) -> [u8; 48]
    ensures { result ≡ file_head number }
{
    let number = number_text(number);
    let mut title = [0; 16];
    join(&mut title, &TITLE, &number);
    let digest = Sha256::digest(&title);
    let mut head = [0; 48];
    join(&mut head, &title, &digest);
    head
}

/// What is before the bytes of a file's only block, in the file with this number.
pub fn file_start(number: u64, payload: &[u8]) -> [u8; 120]
    ensures { result ++ payload.now ≡ file_text number (payload.now ∷ []) }
{
    let title = file_head(number);
    let head = head_of(number, FILE_HEAD as u64, payload);
    let mut start = [0; 120];
    join(&mut start, &title, &head);
    start
}

/// The number of the file that begins with these bytes. None if they are no file's.
pub fn file_number(bytes: &[u8]) -> Option<u64>
    ensures { result ≡ file_number bytes.now }
{
    if bytes.len() < FILE_HEAD {
        return None;
    }
    let number = number_in(&bytes[8..]);
    if file_head(number).as_slice() == &bytes[..FILE_HEAD] {
        Some(number)
    } else {
        None
    }
}

/// What is in a file of these bytes: up to the first block that is not whole, which a cut of power may have
/// left. Damaged: it is no file of a log; or its first block is not whole, which was on the disk before the
/// file had its name; or another block was begun after one that is not whole.
pub fn read_file(alloc: Global, bytes: &[u8]) -> Result<FileText, FileReadFault>
    ensures ok { IfOk result (λ found. Holds bytes.now found.number found.bytes.items) }
    ensures err { IfErr result (λ e. e ≡ FileReadFault.Damaged
        → IsDamaged bytes.now (file_number bytes.now)) }
{
    let Some(number) = file_number(bytes) else {
        return Err(FileReadFault::Damaged);
    };
    let (_, blocks) = bytes.split_at(FILE_HEAD);
    let Some((first, mut rest)) = first_block(number, FILE_HEAD as u64, blocks) else {
        return Err(FileReadFault::Damaged);
    };
    let mut held = Vec::with_capacity(alloc, blocks.len())?;
    held.extend_from_slice(first)?;
    while let Some((payload, after)) = first_block(
        number,
        (bytes.len() - rest.len()) as u64,
        rest,
    ) {
        held.extend_from_slice(payload)?;
        rest = after;
    }
    if is_damaged(number, (bytes.len() - rest.len()) as u64, rest) {
        return Err(FileReadFault::Damaged);
    }
    Ok(FileText {
        number,
        bytes: held,
    })
}
