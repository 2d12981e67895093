//! Scratch buffers for reading components.

use pr_pieces::ShortWords;
use std::alloc::Global;

/// Scratch buffers of a frame: room for the bytes of the longest component and the eight bytes after them, the
/// tables of short codewords, and the allocator of blocks and values.
#[derive(Drop)]
pub(crate) struct Scratch {
    /// The bytes of a component.
    pub piece: [u8; 65_543],
    /// The tables.
    pub words: ShortWords,
    /// The allocator of blocks and values.
    pub alloc: Global,
}

/// Scratch buffers without contents.
pub(crate) fn new_scratch(alloc: Global) -> Scratch {
    Scratch {
        piece: [0; 65_543],
        words: ShortWords::new(),
        alloc,
    }
}
