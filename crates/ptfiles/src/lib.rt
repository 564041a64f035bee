//! From the words of a command, and files under names, to a report: opens the files that the words name, runs the
//! command over them, and writes its output where the words say. The files are any that implement `Files`: those of the
//! system in `ptext`, and bytes in memory in tests. `run_streams` does so over the numbered streams of a `Host`.
#![tactic(auto)]

mod bytes;
mod calls;
mod failures;
mod files;
mod ghost_bytes;
mod output;
mod report;
mod shell;
mod streams;
mod words;

pub use bytes::Bytes;
pub use calls::Calls;
pub use files::Files;
pub use ghost_bytes::GhostBytes;
pub use report::FilesReport;
pub use shell::run_over_files;
pub use streams::{GivenRun, Host, StreamsReport, run_given_streams, run_streams};
pub use words::words_of;
