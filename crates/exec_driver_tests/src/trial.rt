//! What plays a table of steps: two workers that share an open and a store.

use crate::asks::{Ask, Seen, is_seen, request};
use crate::found::{
    demand, holds, same, same_answer, same_bytes, same_count, same_counts, same_key, same_moment,
    same_name, same_number, same_reaped,
};
use crate::steps::{Lent, Look, Sign, Step, Turn, Wait};
use crate::worker::Worker;
use exec_base::error::Error;
use exec_driver::driver::Reaped;
use exec_opens::opens::Opens;
use exec_outcomes::outcome::OpResult;
use exec_request::connect::SockAddr;
use exec_request::open_record::OpenRecord;
use exec_request::output::RetiredResources;
use exec_ring::store::Store;
use exec_waiters::deferred::Deferred;
use exec_waiters::waiter_id::WaiterId;
use std::alloc::Global;
use std::mem;
use std::process::Abort;

/// Two workers that share an open and a store. The first goes on until a step says that the other does.
#[derive(Drop)]
pub struct Trial {
    ours: Worker,
    other: Worker,
    opens: Opens,
    store: Store,
}

/// Plays these steps on fresh workers over rings of so many entries. It fails where memory is wanting.
pub fn play(rt: &impl Abort, alloc: Global, size: usize, steps: &[Step]) {
    let mut trial = Trial::new(rt, alloc, size);
    trial.play(rt, alloc, steps);
    drop(trial);
}

impl Trial {
    /// Workers over rings of so many entries, with open 0.
    fn new(rt: &impl Abort, alloc: Global, size: usize) -> Self {
        let mut store = Store::new(alloc);
        let ours = Worker::new(alloc, size, &mut store).expect(rt, "no worker");
        let other = Worker::new(alloc, size, &mut store).expect(rt, "no worker");
        let opens = Opens::new(alloc, 1).expect(rt, "no memory");
        Trial {
            ours,
            other,
            opens,
            store,
        }
    }

    /// Plays these steps one after another. What comes of one has to be what the step says.
    fn play(&mut self, rt: &impl Abort, alloc: Global, steps: &[Step]) {
        for (at, step) in steps.iter().enumerate() {
            self.take(rt, alloc, at, *step);
        }
    }

    fn take(&mut self, rt: &impl Abort, alloc: Global, at: usize, step: Step) {
        match step {
            Step::Swap => mem::swap(&mut self.ours, &mut self.other),
            Step::Wait(wait) => self.wait(rt, alloc, at, wait),
            Step::Turn(turn) => self.turn(rt, alloc, at, turn),
            Step::Look(look) => self.look(rt, at, look),
            Step::Lent(lent) => self.lent(rt, alloc, at, lent),
        }
    }

    fn wait(&mut self, rt: &impl Abort, alloc: Global, at: usize, wait: Wait) {
        let (ours, opens) = (&mut self.ours, &mut self.opens);
        match wait {
            Wait::Admit(ask, id) => {
                same_name(rt, at, self.admit(rt, alloc, ask), Some(id));
            }
            Wait::Join(worker, id) => ours.join(rt, worker, id, opens),
            Wait::Observe(id, task, seen) => {
                holds(rt, at, sees(rt, ours, id, task, seen));
            }
            Wait::SetWaker(id, task, before) => {
                same(rt, at, &ours.set_waker(rt, id, task), &before);
            }
            Wait::Forward(id, sender) => ours.forward(rt, alloc, id, sender),
            Wait::Orphan(id) => ours.orphan(rt, alloc, id),
            Wait::Close(id) => same_name(rt, at, ours.close(rt, alloc), id),
            Wait::LetGo(socket, address) => let_go(rt, at, ours, socket, address),
        }
    }

    fn admit(&mut self, rt: &impl Abort, alloc: Global, ask: Ask) -> Option<WaiterId> {
        let request = request(rt, alloc, ask);
        self.ours
            .admit(alloc, request, &mut self.opens, &mut self.store)
    }

    fn turn(&mut self, rt: &impl Abort, alloc: Global, at: usize, turn: Turn) {
        let (ours, opens) = (&mut self.ours, &mut self.opens);
        match turn {
            Turn::Serve(when, answer) => {
                same_answer(rt, at, ours.serve(rt, alloc, when, opens), answer);
            }
            Turn::Advance(now) => ours.advance(rt, now),
            Turn::Expire(id) => same_name(rt, at, ours.expire(rt, alloc), id),
            Turn::Enrol(now, enrolled) => same(rt, at, &ours.enrol(rt, alloc, now), &enrolled),
            Turn::Grant(file, granted) => {
                same(rt, at, &ours.grant(rt, alloc, file, opens), &granted);
            }
            Turn::Reap(reaped) => same_reaped(rt, at, ours.reap(rt, alloc, opens), reaped),
            Turn::Over(id, given, ended) => {
                let over = over(id, given, ended);
                same_reaped(rt, at, ours.reap(rt, alloc, opens), Some(over));
            }
            turn => self.ring(rt, at, turn),
        }
    }

    fn ring(&mut self, rt: &impl Abort, at: usize, turn: Turn) {
        let ours = &mut self.ours;
        match turn {
            Turn::Stage(id) => same_name(rt, at, ours.stage(rt, &self.opens), id),
            Turn::StageCancel(id) => same_name(rt, at, ours.stage_cancel(rt), id),
            Turn::StageWakePoll(staged) => same_answer(rt, at, ours.stage_wake_poll(), staged),
            Turn::Enter(entered) => same(rt, at, &ours.enter(), &entered),
            Turn::Busy => ours.busy(),
            Turn::Land(id, given, landed) => {
                same(rt, at, &ours.land(rt, id, given, &mut self.store), &landed);
            }
            Turn::Park(calm, waits) => same_answer(rt, at, ours.park(rt, calm), waits),
            Turn::WakeLast => ours.wake_last(),
            _ => holds(rt, at, false),
        }
    }

    fn look(&self, rt: &impl Abort, at: usize, look: Look) {
        let (ours, driver) = (&self.ours, self.ours.driver());
        match look {
            Look::Is(sign, is) => same_answer(rt, at, self.is(sign), is),
            Look::Seen(id, may) => {
                same_answer(rt, at, driver.may_be_seen(id), may);
                same_answer(rt, at, driver.is_observed_here(id), may);
            }
            Look::FirstObserved(id) => same_name(rt, at, driver.first_observed(), id),
            Look::MaySleep(now, deadline, may) => {
                same_answer(rt, at, driver.may_sleep(now, deadline), may);
            }
            Look::Len(len) => same_count(rt, at, driver.len(), len),
            Look::RingSize(size) => same_count(rt, at, driver.ring_size(), size),
            Look::Counts(counts) => same_counts(rt, at, ours.counts(), counts),
            Look::NextDeadline(moment) => same_moment(rt, at, ours.next_deadline(rt), moment),
            Look::NextGate(from, file) => same_number(rt, at, driver.next_gate(from), file),
            Look::Last(worker) => same_number(rt, at, ours.last(), worker),
            Look::Refused(count) => {
                same_count(rt, at, ours.deferred().results.len(), count);
                holds(rt, at, is_refused(ours.deferred()));
            }
            Look::UserData(id, data) => same(rt, at, &id.user_data(), &data),
        }
    }

    fn is(&self, sign: Sign) -> bool {
        let driver = self.ours.driver();
        match sign {
            Sign::Empty => driver.is_empty(),
            Sign::Pending => driver.has_pending_submissions(),
            Sign::MustEnter => self.ours.must_enter(),
            Sign::Enrolments => driver.has_enrolments(),
            Sign::Due => driver.has_due(),
            Sign::Cancels => driver.has_cancels(),
            Sign::MayStage => driver.may_stage(),
            Sign::Full => driver.is_full(),
            Sign::NeedsWakePoll => driver.needs_wake_poll(),
            Sign::Completion => driver.has_completion(),
        }
    }

    fn lent(&mut self, rt: &impl Abort, alloc: Global, at: usize, lent: Lent) {
        let (opens, store) = (&mut self.opens, &mut self.store);
        match lent {
            Lent::BeginWrite(file) => opens.begin_write(Some(file)),
            Lent::Poison(file, error) => poison(rt, opens, file, error),
            Lent::Holder(file, key) => same_key(rt, at, opens.holder(file), key),
            Lent::Leave(file, key) => same_key(rt, at, opens.leave(file), key),
            Lent::Hinted(file, hinted) => {
                same_answer(rt, at, account(rt, opens, file).hinted(), hinted);
            }
            Lent::Failure(file, failure) => {
                same(rt, at, &account(rt, opens, file).failure(), &failure);
            }
            Lent::Feed(socket, bytes) => feed(rt, alloc, store, socket, bytes),
            Lent::Sent(socket, bytes) => same_bytes(rt, at, store.sent(socket), bytes),
            Lent::Received(socket, bytes) => {
                same_bytes(rt, at, store.received(socket), bytes);
            }
            Lent::Byte(file, place, byte) => {
                same(rt, at, &byte_of(rt, store, file, place), &byte);
            }
        }
    }
}

/// Whether a task finds this.
fn sees(rt: &impl Abort, ours: &mut Worker, id: WaiterId, task: u32, seen: Seen) -> bool {
    let found = ours.observe(rt, id, task);
    let is = is_seen(&found, seen);
    drop(found);
    is
}

/// An operation ended a request so, which gives up no permit.
fn over(id: WaiterId, given: OpResult, ended: Result<(), Error>) -> Reaped {
    Reaped {
        id,
        given,
        ended: Some(ended),
        permit: None,
    }
}

/// Whether the first result that is to be sent on is `Closed`.
fn is_refused(told: &Deferred<u32, u32>) -> bool {
    matches!(told.results.front(), Some(answer) if matches!(&answer.result, Err(Error::Closed)))
}

/// The record of an open that there is.
fn account(rt: &impl Abort, opens: &Opens, file: u32) -> OpenRecord {
    opens.account(Some(file)).expect(rt, "no record")
}

fn poison(rt: &impl Abort, opens: &mut Opens, file: u32, error: Error) {
    let mut account = account(rt, opens, file);
    account.poison(error);
    opens.set_account(Some(file), Some(account));
}

fn feed(rt: &impl Abort, alloc: Global, store: &mut Store, socket: u32, bytes: &[u8]) {
    let fed = store.feed(alloc, socket, bytes);
    demand(rt, fed.is_ok(), "no memory");
}

fn byte_of(rt: &impl Abort, store: &Store, file: u32, place: u64) -> u8 {
    store.file(file).expect(rt, "no file").byte_at(place)
}

/// The socket and the address of a connect.
fn connect_of(resources: &RetiredResources) -> Option<(u32, SockAddr)> {
    match resources {
        RetiredResources::Connect { fd, address } => Some((*fd, *address)),
        _ => None,
    }
}

/// What a connect owned that was let go last is this.
fn let_go(rt: &impl Abort, at: usize, ours: &mut Worker, socket: u32, to: SockAddr) {
    let retired = ours.take_resources().expect(rt, "nothing let go");
    same(rt, at, &connect_of(&retired.resources), &Some((socket, to)));
    drop(retired);
}
