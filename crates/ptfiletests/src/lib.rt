//! Tests of runs over files under names, which `NamedFiles` has in memory, and over streams, which `KnownStreams` has.
#![tactic(auto)]

mod known_streams;
mod named_files;
#[cfg(test)]
mod runs;
#[cfg(test)]
mod streams;
