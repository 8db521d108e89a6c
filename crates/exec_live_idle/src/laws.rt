//! The transitions by which the plays describe the steps are what calls of `exec_words`' `PureIdle`
//! do: each law makes one call. A claim is a withdrawal, and the exchange of the count an addition.

ghost use Rattle.std.specs.Prelude.{◌≡◌, ◌+◌, ◌^◌, ◌<◌, ◌↔◌, IsOk, IfOk, OnOk, IfErr, OnErr, Some, IsSome};
ghost use Rattle.exec_words.specs.Idle.{is_in, lowest_of};
ghost use Rattle.exec_live_idle.specs.Words.{publish, withdraw, add, subtract};

use exec_words::idle::{PureIdle, WorkerSet};

/// A publication sets the worker's bit, and nothing else. The caller must name a number below 64.
pub fn a_publication(idle: &mut PureIdle, worker: usize)
    requires { worker < 64 }
    ensures { idle.new ≡ publish worker idle.old }
{
    idle.publish(worker);
}

/// A withdrawal clears the worker's bit, and answers whether it was there. The caller must name a
/// number below 64.
pub fn a_withdrawal(idle: &mut PureIdle, worker: usize) -> bool
    requires { worker < 64 }
    ensures found { result ≡ is_in idle.old.published worker }
    ensures withdrawn { idle.new ≡ withdraw worker idle.old }
{
    idle.withdraw(worker)
}

/// A claim withdraws the lowest worker. Err with the set that was found where it isn't the one that
/// was seen, and nothing changes then. The caller must have seen a worker.
pub fn a_claim(idle: &mut PureIdle, seen: &WorkerSet) -> Result<usize, WorkerSet>
    requires { IsSome (lowest_of seen.now.has) }
    ensures same { IsOk result ↔ (idle.old.published ≡ seen.now.has) }
    ensures lowest { IfOk result (λ worker. lowest_of idle.old.published ≡ Some worker) }
    ensures claimed { IfOk result (λ worker. idle.new ≡ withdraw worker idle.old) }
    ensures found { IfErr result (λ set. set.has ≡ idle.old.published) }
    ensures kept { OnErr result (idle.new ≡ idle.old) }
{
    idle.claim_exchange(seen)
}

/// An addition leaves one count more. The caller must have room for it in the count's word.
pub fn an_addition(idle: &mut PureIdle)
    requires { idle.old.count + 1 < 2 ^ 64 }
    ensures { idle.new ≡ add idle.old }
{
    idle.add();
}

/// A subtraction leaves one count fewer, and answers how many there were. The caller must have a
/// count to return.
pub fn a_subtraction(idle: &mut PureIdle) -> usize
    requires { 0 < idle.old.count }
    ensures found { result ≡ idle.old.count }
    ensures subtracted { idle.new ≡ subtract idle.old }
{
    idle.subtract()
}

/// The exchange of the count 0 to 1 adds one. Err with the count that was found where it isn't 0, and
/// nothing changes then.
pub fn an_exchange(idle: &mut PureIdle) -> Result<(), usize>
    ensures none { IsOk result ↔ (idle.old.count ≡ 0) }
    ensures added { OnOk result (idle.new ≡ add idle.old) }
    ensures found { IfErr result (λ count. count ≡ idle.old.count) }
    ensures kept { OnErr result (idle.new ≡ idle.old) }
{
    idle.count_exchange()
}
