//! The shares of a run that is over, put together.

ghost use Rattle.std.specs.Prelude.{◌≡◌, ◌<◌, map, sum, vec_len};

use crate::run::Run;
use crate::share::Share;
use std::sync::ledger;

/// The tokens of all shares as one.
pub(crate) fn gather<R: Run>(shares: Vec<Share<R>>) -> ledger::Share<R>
    requires { 0 < vec_len shares }
    ensures parts { result.parts ≡ vec_len shares }
    ensures amount { result.amount ≡ sum (map (λ share. share.count) shares.items) }
{
    let mut shares = shares;
    let mut all = shares.pop().unwrap().into_token();
    while let Some(share) = shares.pop() {
        all.merge(share.into_token());
    }
    all
}
