//! Vector code of the tools, on 16 or 64 bytes at a time. Nothing here uses a reader, an output or a tool.
//!
//! - `byte_set` tests 16 bytes for membership in a set.
//! - `shift` maps 16 bytes at a time by any `ByteMap`; `table` is the one for a table of 256 images.
//! - `replace` replaces line terminators by the bytes of a cycle.
//! - `compare` compares two slices, or their first bytes.
//! - `compress` moves the selected bytes of a vector to the front; `filter` chooses which bytes these are.
pub(crate) mod byte_set;
pub(crate) mod compare;
pub(crate) mod compress;
pub(crate) mod filter;
pub(crate) mod replace;
pub(crate) mod shift;
pub(crate) mod table;
