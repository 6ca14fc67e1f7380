//! What a connection reads into.

ghost use Rattle.std.specs.Prelude.{◌≡◌, [], false, IfOk};

use http_wire::HeadReader;
use std::alloc::{AllocError, Global};

/// What a connection reads into: its heads, and the pieces of files that it sends.
#[derive(Drop)]
pub(crate) struct Buffers {
    /// The reader of heads.
    pub reader: HeadReader,
    /// The room for a piece of a file: so many bytes as the largest one has that was to be sent so far.
    pub piece: Vec<u8>,
}

/// Takes what heads are read into. Room for a piece is taken where a file is to be sent.
pub(crate) fn new_buffers(alloc: Global) -> Result<Buffers, AllocError>
    ensures { IfOk result (λ buffers. buffers.reader
        ≡ record { all = []; held = []; over = false }) }
{
    Ok(Buffers {
        reader: HeadReader::new(alloc)?,
        piece: Vec::new(alloc),
    })
}
