//! The sizes of blocks of bytes. Used by the reader, the output and the tools.

ghost use Rattle.std.specs.Prelude.{◌≡◌};

/// The size of a block of bytes, which a reader or an output buffers. A reader reads no more at once; an output writes
/// whole blocks, and half a block or more as it is if nothing is buffered.
pub const BLOCK: usize = 8192;

/// The count of bytes after a block. So a vector of `PAD` bytes can be loaded or stored at any index of the block.
pub const PAD: usize = 64;

/// The size of a block and the bytes after it.
pub const PADDED: usize = BLOCK + PAD;

/// A block, and the bytes after it.
pub type PaddedBlock = [u8; PADDED];

/// States the size of a block, which other clauses name. The call does nothing.
pub fn size_of_a_block()
    ensures { BLOCK ≡ 8192 }
{}
