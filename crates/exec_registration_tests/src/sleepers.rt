//! Registrations of sleepers, and syncs whose outcome alone is sent. What has to come of each call is what the rules of
//! registrations say, but for one that says so.

use crate::desk::{Desk, name};
use crate::found::{demand, holds, same};
use exec_base::error::{Cause, Error};
use exec_base::one_shot::OneShot;
use exec_base::task_no::TaskNo;
use exec_opens::opens::{Opens, WaiterKey};
use exec_registration::operation::Started;
use exec_registration::registration::Registration;
use exec_request::open_record::OpenRecord;
use exec_ring::store::Store;
use exec_time::timers::TimerId;
use exec_waiters::waiter_id::WaiterId;
use std::alloc::Global;
use std::process::Abort;

/// Whether a poll of a sleeper answered that its moment hasn't come.
fn is_waiting(told: &Result<Option<()>, Error>) -> bool {
    matches!(told, Ok(None))
}

/// Whether a poll of a sleeper answered that its moment came.
fn has_woken(told: &Result<Option<()>, Error>) -> bool {
    matches!(told, Ok(Some(())))
}

/// Worker 0 gets a sleeper of task 1 that wakes at 5 ns, and a registration of it.
fn sleeper(rt: &impl Abort, alloc: Global, ours: &mut Desk) -> Registration<TimerId> {
    let id = ours.insert_sleeper(alloc, 5, 1).expect(rt, "no sleeper");
    Registration::new(0, id)
}

#[test]
fn a_sleeper_is_waited_for_like_a_request(rt: HostRuntime) {
    let (alloc, mut answer) = (rt.alloc(), OneShot::new());
    let mut store = Store::new(alloc);
    let mut ours = Desk::new(alloc, 0, &mut store).expect(&rt, "no worker");
    let mut sleep = sleeper(&rt, alloc, &mut ours);
    let waits = ours.wait(&rt, alloc, &mut sleep, 2, &mut answer);
    holds(&rt, 0, is_waiting(&waits));
    ours.wake_sleepers(&rt, alloc, 5);
    same(&rt, 1, &ours.wakes(), &[TaskNo(2)].as_slice());
    let over = ours.wait(&rt, alloc, &mut sleep, 2, &mut answer);
    holds(&rt, 2, has_woken(&over));
    ours.release_sleeper_away(sleep);
    drop(ours);
    drop(store);
}

#[test]
fn a_sleeper_is_heard_of_elsewhere(rt: HostRuntime) {
    let (alloc, mut answer) = (rt.alloc(), OneShot::new());
    let mut store = Store::new(alloc);
    let mut ours = Desk::new(alloc, 0, &mut store).expect(&rt, "no worker");
    let mut theirs = Desk::new(alloc, 1, &mut store).expect(&rt, "no worker");
    let mut sleep = sleeper(&rt, alloc, &mut ours);
    let asks = theirs.wait(&rt, alloc, &mut sleep, 2, &mut answer);
    holds(&rt, 0, is_waiting(&asks));
    let forward = theirs.take_forward().expect(&rt, "no forward");
    ours.apply(&rt, alloc, forward);
    ours.wake_sleepers(&rt, alloc, 5);
    same(&rt, 1, &ours.wakes(), &[].as_slice());
    let told = ours.take_completion().expect(&rt, "no outcome");
    same(&rt, 2, &(told.sender, told.result), &(9, Ok(())));
    same(&rt, 3, &answer.send(told.result), &Ok(()));
    let hears = theirs.wait(&rt, alloc, &mut sleep, 2, &mut answer);
    holds(&rt, 4, has_woken(&hears));
    theirs.release_sleeper(&rt, alloc, sleep);
    holds(&rt, 5, theirs.is_unasked());
    drop(theirs);
    drop(ours);
    drop(store);
}

#[test]
fn a_sleeper_that_is_let_go_is_gone(rt: HostRuntime) {
    let alloc = rt.alloc();
    let mut store = Store::new(alloc);
    let mut ours = Desk::new(alloc, 0, &mut store).expect(&rt, "no worker");
    let here = sleeper(&rt, alloc, &mut ours);
    let away = sleeper(&rt, alloc, &mut ours);
    ours.release_sleeper(&rt, alloc, here);
    same(&rt, 0, &ours.sleepers(), &1);
    holds(&rt, 1, ours.is_unasked());
    ours.release_sleeper_away(away);
    same(&rt, 2, &ours.sleepers(), &1);
    let sent = ours.take_cancel();
    ours.apply_cancel(&rt, alloc, sent);
    same(&rt, 3, &ours.sleepers(), &0);
    same(&rt, 4, &ours.wakes(), &[].as_slice());
    drop(ours);
    drop(store);
}

/// Worker 0 with open 0.
#[derive(Drop)]
struct Syncing {
    ours: Desk,
    opens: Opens,
    store: Store,
}

impl Syncing {
    fn new(rt: &impl Abort, alloc: Global) -> Self {
        let mut store = Store::new(alloc);
        let ours = Desk::new(alloc, 0, &mut store).expect(rt, "no worker");
        let opens = Opens::new(alloc, 1).expect(rt, "no memory");
        Syncing { ours, opens, store }
    }

    /// A plain write of the open begins.
    fn write(&mut self) {
        self.opens.begin_write(Some(0));
    }

    /// The open keeps this failure.
    fn poison(&mut self, error: Error) {
        let mut account = OpenRecord::new();
        account.poison(error);
        self.opens.set_account(Some(0), Some(account));
    }

    /// A sync begins so, of which the caller saw so many writes.
    fn begins(&mut self, rt: &impl Abort, alloc: Global, at: usize, seen: u64, so: Started) {
        let begun = self
            .ours
            .begin_sync(alloc, seen, &mut self.opens, &mut self.store);
        same(rt, at, &begun, &Some(so));
    }

    /// A sync joins the line of the open.
    fn join(&mut self, rt: &impl Abort, id: WaiterId) {
        demand(rt, self.opens.has_place(0), "no place");
        self.opens.join(0, WaiterKey { worker: 0, id });
    }

    /// It gets the permit, and its operation fails with error number 5.
    fn fail(&mut self, rt: &impl Abort, alloc: Global) {
        self.ours.grant_first(rt, alloc, &mut self.opens);
        self.ours
            .fail_first(rt, alloc, &mut self.opens, &mut self.store);
    }

    /// Its outcome is sent by sender 5, and is this.
    fn tells(&mut self, rt: &impl Abort, at: usize, ended: Result<(), Error>) {
        let told = self.ours.take_completion().expect(rt, "no outcome");
        same(rt, at, &told.sender, &5);
        hears(rt, at, told.result, ended);
    }
}

/// What is sent to a one-shot comes there, and is this.
fn hears(rt: &impl Abort, at: usize, sent: Result<(), Error>, ended: Result<(), Error>) {
    let mut answer = OneShot::new();
    same(rt, at, &answer.send(sent), &Ok(()));
    same(rt, at, &answer.poll(), &Ok(Some(ended)));
}

#[test]
fn a_sync_of_a_clean_open_is_over_at_once(rt: HostRuntime) {
    let alloc = rt.alloc();
    let mut syncing = Syncing::new(&rt, alloc);
    // the worked example that was asked for
    syncing.begins(&rt, alloc, 0, 0, Started::Over(Ok(())));
    syncing.poison(Error::WriteFailed);
    let failed = Started::Over(Err(Error::WriteFailed));
    syncing.begins(&rt, alloc, 1, 0, failed);
    holds(&rt, 2, syncing.ours.is_empty());
    drop(syncing);
}

#[test]
fn a_sync_of_a_dirty_open_sends_its_outcome(rt: HostRuntime) {
    let alloc = rt.alloc();
    let mut syncing = Syncing::new(&rt, alloc);
    let id = name(0, 0);
    syncing.write();
    syncing.begins(&rt, alloc, 0, 1, Started::UnderWay(id));
    syncing.join(&rt, id);
    syncing.fail(&rt, alloc);
    syncing.tells(&rt, 1, Err(Error::Io(Cause::Code(5))));
    syncing.write();
    syncing.ours.close();
    let kept = Err(Error::BlobSyncFailed(0, Cause::Code(5)));
    syncing.begins(&rt, alloc, 2, 2, Started::Over(kept));
    drop(syncing);
}
