//! The standard descriptors that are closed when the program begins. `main` occupies them before it opens anything: a
//! file gets the least descriptor that is free, and would be mistaken for a standard stream.

use crate::system::{open_file, reading};
use std::fs::{File, OpenOptions};
use std::os::fd::{AsFd, IntoRawFd};

// The error of a call on a descriptor that is closed.
const EBADF: i32 = 9;

/// Occupies the standard descriptors that are closed, so that a use of such a stream fails. Returns whether none is
/// closed any more.
pub fn occupy_closed_descriptors(rt: &HostRuntime) -> bool {
    for _ in 0..3 {
        let Some(file) = open_unusable(rt) else {
            return !is_any_closed(rt);
        };
        // Each lesser descriptor is in use.
        if file.into_raw_fd() > 2 {
            break;
        }
    }
    true
}

// Opens a directory, which can be neither read nor written. If none may be opened, it is the null device, and not for
// what the standard stream with the least free descriptor does: an empty input, or output that is lost, is no failure.
fn open_unusable(rt: &HostRuntime) -> Option<File> {
    let options = reading();
    let null_device = || {
        let is_input = is_closed(rt.stdin());
        let mut options = OpenOptions::new();
        let options = options.write(is_input).read(!is_input);
        open_file(rt, options, "/dev/null")
    };
    open_file(rt, &options, "/")
        .or_else(|| open_file(rt, &options, "."))
        .or_else(null_device)
}

fn is_any_closed(rt: &HostRuntime) -> bool {
    is_closed(rt.stdin()) || is_closed(rt.stdout()) || is_closed(rt.stderr())
}

// Another descriptor of the same stream can be had only if it is open. (That there are too many is another error.)
fn is_closed<F: AsFd + Drop>(stream: F) -> bool {
    match stream.as_fd().try_clone_to_owned() {
        Ok(_) => false,
        Err(error) => error.raw_os_error() == Some(EBADF),
    }
}
