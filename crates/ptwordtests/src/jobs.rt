//! A test of the default jobs of `paste`, `uniq`, `comm` and `join`, and of the one of `paste` if memory runs out.

use crate::asserts::assert_same;
use ptfakes::FailingAlloc;
use ptlangs::jobs::{CommJob, JoinJob, PasteJob, Show, UniqJob};
use std::process::Abort;
use std::test::Fail;

fn check_paste_default(rt: &impl Abort, job: &PasteJob) {
    assert_same(rt, &(job.serial, job.zero), &(false, false));
    assert_same(rt, &job.delims.at(1), &Some(b'\t'));
}

fn check_join_default(rt: &impl Abort, job: &JoinJob) {
    assert_same(rt, &(job.pairs, job.sep), &(true, None));
    assert_same(rt, &(job.unpaired, job.field), &([false, false], [1, 1]));
    assert_same(rt, &(job.empty.len(), job.list.is_none()), &(0, true));
    assert_same(rt, &(job.zero, job.descending), &(false, false));
}

const UNIQ: UniqJob = UniqJob {
    show: Show::All,
    fields: 0,
    chars: 0,
    zero: false,
};

const COMM: CommJob = CommJob {
    hide: [false, false, false],
    zero: false,
    descending: false,
};

#[test]
fn default_jobs(rt: HostRuntime) -> Result<(), Fail> {
    assert_same(&rt, &UniqJob::default(), &UNIQ);
    assert_same(&rt, &CommJob::default(), &COMM);
    check_join_default(&rt, &JoinJob::new(rt.alloc()));
    check_paste_default(&rt, &PasteJob::new(rt.alloc())?);
    // The job of `paste` has a list, whose allocation fails.
    let alloc = FailingAlloc::after(rt.alloc(), 0);
    assert!(rt; PasteJob::new(&alloc).is_err());
    Ok(())
}
