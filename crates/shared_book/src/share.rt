ghost use Rattle.std.specs.Prelude.{◌≡◌, ◌<◌, ◌≤◌, false};
ghost use Rattle.obligation_tree.specs.Claims.{most_workers};

use crate::run::Run;
use std::sync::ledger;

/// One worker's part of a run: its number, from 1, how many entries it has written, whether it has
/// offered a step since it asked for its job, and whether it may leave: the run was over when it asked last,
/// or it has noted that it wanted memory. There is one for each worker.
#[derive(Drop)]
pub struct Share<R: Run> {
    pub(crate) worker: u32,
    pub(crate) count: u64,
    pub(crate) has_offered: bool,
    pub(crate) may_leave: bool,
    pub(crate) token: ledger::Share<R>,
    pub ghost first: { 0 < worker },
    pub ghost last: { worker ≤ R.workers },
    pub ghost most: { R.workers ≤ most_workers },
    pub ghost counted: { token.amount ≡ count },
    pub ghost one_part: { token.parts ≡ 1 },
}

impl<R: Run> Share<R> {
    /// The share of a worker that has written and offered nothing.
    pub(crate) fn new(worker: u32, token: ledger::Share<R>) -> Share<R>
        requires first { 0 < worker }
        requires last { worker ≤ R.workers }
        requires most { R.workers ≤ most_workers }
        requires amount { token.amount ≡ 0 }
        requires parts { token.parts ≡ 1 }
        ensures worker { result.worker ≡ worker }
        ensures count { result.count ≡ 0 }
        ensures offered { result.has_offered ≡ false }
        ensures left { result.may_leave ≡ false }
    {
        Share {
            worker,
            count: 0,
            has_offered: false,
            may_leave: false,
            token,
        }
    }

    /// The token that stands for the count.
    pub(crate) fn into_token(self) -> ledger::Share<R>
        ensures amount { result.amount ≡ self.count }
        ensures parts { result.parts ≡ 1 }
    {
        let Share { token, .. } = self;
        token
    }

    /// The worker's number, from 1 to the number of workers.
    pub fn worker(&self) -> u32
        ensures is { result ≡ self.now.worker }
        ensures first { 0 < result }
        ensures last { result ≤ R.workers }
    {
        self.worker
    }

    /// How many entries of the journal are this worker's.
    pub fn count(&self) -> u64
        ensures { result ≡ self.now.count }
    {
        self.count
    }
}
