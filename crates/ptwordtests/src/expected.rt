//! Tests a command line of any tool against what is expected of it (`Expected`): one function parses the words,
//! and others compare the command. A function that owns values drops them at each of its exits, and each exit
//! costs a proof.

use crate::asserts::{assert_for, assert_same};
use crate::join_words::{Join, check_join};
use crate::tr_words::{Tr, check_tr};
use crate::words::{Cut, Paste, check_cut, check_paste};
use ptlangs::jobs::{CommJob, UniqJob};
use ptopts::{Command, Input};
use std::alloc::Global;
use std::process::Abort;
use std::test::Fail;

/// A command line, and the command that is expected.
pub type Example = (&'static [&'static str], Expected);

/// The command that is expected, or a part of it.
#[derive(Clone, Copy)]
pub enum Expected {
    /// A command with these files and this job.
    Of(Files, Job),
    /// A command with this number of inputs.
    Inputs(usize),
    /// A command with this line terminator and this order of lines.
    Lines { zero: bool, descending: bool },
}

/// The inputs of a command in order, the names of its files, and its output.
#[derive(Clone, Copy)]
pub struct Files {
    pub order: &'static [Input],
    pub names: &'static [&'static str],
    pub output: Option<&'static str>,
}

/// The job of a command.
#[derive(Clone, Copy)]
pub enum Job {
    Cut(&'static Cut),
    Paste(&'static Paste),
    Uniq(UniqJob),
    Comm(CommJob),
    Join(&'static Join),
    Tr(&'static Tr),
}

/// Parses the words, and compares the command.
pub fn expect_command(
    rt: &impl Abort,
    alloc: Global,
    words: &[&str],
    expected: &Expected,
) -> Result<(), Fail> {
    let command = Command::read(alloc, words)?;
    check_command(rt, &command, words, expected);
    Ok(())
}

fn check_command(rt: &impl Abort, command: &Command, words: &[&str], expected: &Expected) {
    match expected {
        Expected::Of(files, job) => {
            assert_same(rt, &command.inputs().order.as_slice(), &files.order);
            assert_same(rt, &command.names(), &files.names);
            assert_same(rt, &command.output(), &files.output);
            check_job(rt, command, job);
        }
        Expected::Inputs(count) => assert_same(rt, &command.inputs().order.len(), count),
        Expected::Lines { zero, descending } => {
            assert_for(
                rt,
                &words,
                terminator_and_order(command) == (*zero, *descending),
            );
        }
    }
}

/// Fails the test unless the command has this job.
fn check_job(rt: &impl Abort, command: &Command, job: &Job) {
    match (command, job) {
        (Command::Cut(job, _), Job::Cut(row)) => check_cut(rt, job, row),
        (Command::Paste(job, _), Job::Paste(row)) => check_paste(rt, job, row),
        (Command::Uniq(job, _), Job::Uniq(wanted)) => assert_same(rt, job, wanted),
        (Command::Comm(job, _), Job::Comm(wanted)) => assert_same(rt, job, wanted),
        (Command::Join(job, _), Job::Join(row)) => check_join(rt, job, row),
        (Command::Tr(plan, _), Job::Tr(row)) => check_tr(rt, plan, row),
        _ => assert!(rt; false),
    }
}

fn terminator_and_order(command: &Command) -> (bool, bool) {
    match command {
        Command::Cut(job, _) => (job.zero, false),
        Command::Paste(job, _) => (job.zero, false),
        Command::Uniq(job, _) => (job.zero, false),
        Command::Comm(job, _) => (job.zero, job.descending),
        Command::Join(job, _) => (job.zero, job.descending),
        Command::Tr(_, _) => (false, false),
    }
}
