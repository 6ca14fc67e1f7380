//! How much room a list of source paths may take.

/// How many bytes the texts of a list may take, 256 MiB: each text's bytes count three times, since
/// the bytes of a row are made beside the list, and a store writes them once more, and [`TEXT_ROOM`]
/// more. A file of some hundred kilobytes can name far more.
pub const SOURCES_LIMIT: u64 = 0x1000_0000;

/// How many bytes are reckoned for a text beside its own: what holds it takes so much.
pub const TEXT_ROOM: u64 = 64;
