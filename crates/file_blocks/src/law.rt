//! Laws of blocks. The functions do nothing: each one's contract is a law.

ghost use Rattle.file_blocks.specs.Laws.{
  BlocksGoBehind,
  BlocksReadBack,
  BrokenBlocksAreTold,
  CutBlocksAreTails,
  FilesKeepWhatWasForced,
  FilesReadOneWay,
  ReadBlocksAreWritten,
};

/// A block that was written reads as its bytes, whatever is after it, and what reads as a block was
/// written as one.
pub fn blocks_read_back()
    ensures back { BlocksReadBack }
    ensures written { ReadBlocksAreWritten }
{}

/// A file reads as the blocks that were written to it, and as no others.
pub fn files_read_one_way()
    ensures { FilesReadOneWay }
{}

/// What is left of a block that was cut off anywhere is a tail: no block, and no damage.
pub fn cut_blocks_are_tails()
    ensures { CutBlocksAreTails }
{}

/// A block that is broken is damage where the head of another is after it: so an empty block at the end tells
/// of each block before it.
pub fn broken_blocks_are_told()
    ensures { BrokenBlocksAreTold }
{}

/// A file with one block more is that block after it.
pub fn blocks_go_behind()
    ensures { BlocksGoBehind }
{}

/// What a crash leaves of a file, while a block was being written to it, is read as what was on the disk, or
/// as that and the block.
pub fn files_keep_what_was_forced()
    ensures { FilesKeepWhatWasForced }
{}
