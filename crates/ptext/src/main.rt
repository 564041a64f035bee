//! The program: `ptext TOOL WORDS...` over the standard streams and real files. `main` reads the words of the
//! command line, calls `perform`, and exits with its status. Before that, standard descriptors that are closed are
//! occupied.
#![tactic(auto)]

mod descriptors;
mod perform;
mod system;

use descriptors::occupy_closed_descriptors;
use perform::{perform, report_closed_stream, report_no_memory, report_not_utf8};
use ptlines::{FromRead, FromWrite};
use ptrun::Report;
use std::alloc::{AllocError, Allocator};
use std::process::ExitCode;
use std::{env, io};

fn main(rt: HostRuntime) -> ExitCode {
    let has_streams = occupy_closed_descriptors(&rt);
    let standard = FromRead::new(rt.stdin());
    let out = FromWrite::new(rt.stdout());
    let messages = FromWrite::new(rt.stderr());
    if !has_streams {
        return ExitCode::from(report_closed_stream(out, messages).status);
    }
    let report = match command_words(&rt) {
        Ok(args) => match as_strs(rt.alloc(), &args) {
            Ok(words) => perform(&rt, rt.alloc(), &words, standard, out, messages),
            Err(_) => report_no_memory(out, messages),
        },
        Err(error) if error.kind() == io::ErrorKind::InvalidData => report_not_utf8(out, messages),
        Err(_) => report_no_memory(out, messages),
    };
    ExitCode::from(report.status)
}

// Returns the words after the program's own name.
fn command_words(rt: &HostRuntime) -> io::Result<Vec<String>> {
    Ok(env::args(rt)?.skip(1).collect(rt.alloc())?)
}

// Borrows each word as a `&str`.
fn as_strs<A: Allocator + Copy>(alloc: A, args: &[String]) -> Result<Vec<&str, A>, AllocError> {
    let mut words = Vec::new(alloc);
    for arg in args {
        words.push(arg.as_str())?;
    }
    Ok(words)
}
