//! A sleep: at its worker, elsewhere, and where its worker closes.

ghost use Rattle.std.specs.Prelude.{◌≡◌, ◌+◌, ◌≤◌, Some, IsTrue, false, vec_len, vec_capacity};
ghost use Rattle.exec_base.specs.Slab.{value_at};
ghost use Rattle.exec_time.specs.{Notes.HasRoom, Sleepers.is_forwarded, declared.{timers.TimerId.TimerId as TimerName, sleep.SleepState.SleepState as state}};

use crate::found::{holds, same};
use exec_base::error::Error;
use exec_base::one_shot::OneShot;
use exec_base::post::Post;
use exec_base::slab::Id;
use exec_base::task_no::TaskNo;
use exec_time::notes::Notes;
use exec_time::sleep::{Here, Sleep, SleepState, TimerMessage};
use exec_time::timers::{TimerId, Timers};
use std::alloc::Global;
use std::process::Abort;
use std::test::Fail;

/// The way to the sleepers' worker: a list that may be closed.
#[derive(Drop)]
struct Inbox {
    messages: Vec<TimerMessage<u32>>,
    closed: bool,
}

impl Post<TimerMessage<u32>> for Inbox {
    ghost closed = { λ inbox. inbox.closed };

    ghost taken = { λ inbox. Some inbox.messages.items };

    ghost has_place = { λ inbox message. vec_len inbox.messages + 1 ≤ vec_capacity inbox.messages };

    fn send(&mut self, message: TimerMessage<u32>) -> Result<(), TimerMessage<u32>> {
        if self.closed {
            return Err(message);
        }
        self.messages.push_reserved(message);
        Ok(())
    }
}

/// A post that is open, with room for one message.
fn open_post(alloc: Global) -> Result<Inbox, Fail> {
    Ok(Inbox {
        messages: Vec::with_capacity(alloc, 1)?,
        closed: false,
    })
}

/// Worker 3 at this moment, and open.
fn home(now: u64) -> Here {
    Here {
        worker: 3,
        now,
        closing: false,
    }
}

/// Another worker at the same moment.
fn away(now: u64) -> Here {
    Here {
        worker: 4,
        ..home(now)
    }
}

/// The same worker, closing.
fn closes(here: Here) -> Here {
    Here {
        closing: true,
        ..here
    }
}

/// Whether a sleep may be polled: its sleeper isn't forwarded but by itself, and the post has room.
fn may_poll(sleep: &Sleep, timers: &Timers<u32>, post: &Inbox) -> bool
    ensures own { IsTrue result → (at : _) (id : TimerName) → sleep.now ≡ state.Registered at id → is_forwarded (value_at timers.now id.0) ≡ false }
    ensures place { IsTrue result → vec_len post.now.messages + 1 ≤ vec_capacity post.now.messages }
{
    let own = match sleep.state() {
        SleepState::Registered(_, id) => !timers.is_forwarded(id),
        _ => true,
    };
    own && post.messages.len() < post.messages.capacity()
}

/// Whether a sleep may be let go: there is room for what is to be told, and for a message.
fn may_release(notes: &Notes<u32>, post: &Inbox) -> bool
    ensures room { IsTrue result → HasRoom notes.now 1 }
    ensures place { IsTrue result → vec_len post.now.messages + 1 ≤ vec_capacity post.now.messages }
{
    notes.wakes.len() < notes.wakes.capacity()
        && notes.completions.len() < notes.completions.capacity()
        && post.messages.len() < post.messages.capacity()
}

/// The first sleeper that a worker makes.
const FIRST: TimerId = TimerId(Id {
    index: 0,
    generation: 0,
});

/// The sleepers of worker 3, what is to be told of them, the way to them, and where a result comes to.
#[derive(Drop)]
struct Bed {
    timers: Timers<u32>,
    notes: Notes<u32>,
    post: Inbox,
    answer: OneShot<Result<(), Error>>,
}

impl Bed {
    /// No sleepers, room for a note of each kind, and a post that is open.
    fn new(alloc: Global) -> Result<Self, Fail> {
        let mut notes = Notes::new(alloc);
        notes.reserve(alloc, 1)?;
        Ok(Bed {
            timers: Timers::new(alloc),
            notes,
            post: open_post(alloc)?,
            answer: OneShot::new(),
        })
    }

    /// Polls a sleep for task 1, with sender 7.
    fn poll(
        &mut self,
        rt: &impl Abort,
        alloc: Global,
        sleep: &mut Sleep,
        here: Here,
    ) -> Result<bool, Error> {
        let (timers, post, answer) = (&mut self.timers, &mut self.post, &mut self.answer);
        let may = may_poll(sleep, timers, post);
        holds!(rt; may);
        sleep.poll(alloc, TaskNo(1), here, timers, 7, post, answer)
    }

    /// A sleep from 5 to 15 that worker 3 has polled at 5.
    fn begun(&mut self, rt: &impl Abort, alloc: Global) -> Sleep {
        let mut sleep = Sleep::new(10, 5);
        let first = self.poll(rt, alloc, &mut sleep, home(5));
        same!(rt; first, Ok(false));
        holds!(rt; matches!(sleep.state(), SleepState::Registered(3, FIRST)));
        sleep
    }

    /// Lets a sleep go at this worker.
    fn release(&mut self, rt: &impl Abort, sleep: Sleep, worker: u32) {
        let may = may_release(&self.notes, &self.post);
        holds!(rt; may);
        sleep.release(worker, &mut self.timers, &mut self.notes, &mut self.post);
    }
}

#[test]
fn a_sleep_is_over_once_its_sleeper_fired(rt: HostRuntime) -> Result<(), Fail> {
    let alloc = rt.alloc();
    let mut bed = Bed::new(alloc)?;
    let mut sleep = bed.begun(&rt, alloc);
    same!(&rt; (bed.timers.len(), bed.timers.next_deadline()), (1, Some(15)));
    bed.notes
        .reserve(alloc, bed.timers.len())
        .expect(&rt, "no memory");
    bed.timers.expire(15, &mut bed.notes);
    same!(&rt; bed.notes.wakes.as_slices().0, [TaskNo(1)].as_slice());
    let last = bed.poll(&rt, alloc, &mut sleep, home(15));
    same!(&rt; last, Ok(true));
    holds!(&rt; matches!(sleep.state(), SleepState::Done));
    bed.release(&rt, sleep, 3);
    Ok(())
}

#[test]
fn a_sleep_that_is_polled_elsewhere_hears_of_its_end(rt: HostRuntime) -> Result<(), Fail> {
    let alloc = rt.alloc();
    let mut bed = Bed::new(alloc)?;
    let mut sleep = bed.begun(&rt, alloc);
    let asks = bed.poll(&rt, alloc, &mut sleep, away(5));
    same!(&rt; asks, Ok(false));
    holds!(&rt; matches!(sleep.state(), SleepState::Forwarded(3, FIRST)));
    holds!(&rt; matches!(
            bed.post.messages.as_slice(),
            [TimerMessage::Forward(FIRST, 7)]
        ));
    bed.post.messages.clear();
    same!(&rt; bed.answer.send(Err(Error::Full)), Ok(()));
    let hears = bed.poll(&rt, alloc, &mut sleep, home(5));
    same!(&rt; hears, Err(Error::Full));
    same!(&rt; bed.post.messages.len(), 0);
    let again = bed.poll(&rt, alloc, &mut sleep, home(5));
    same!(&rt; again, Ok(true));
    bed.release(&rt, sleep, 4);
    same!(&rt; (bed.timers.len(), bed.post.messages.len()), (1, 0));
    Ok(())
}

#[test]
fn a_sleep_that_is_let_go_has_its_sleeper_removed(rt: HostRuntime) -> Result<(), Fail> {
    let alloc = rt.alloc();
    let mut bed = Bed::new(alloc)?;
    let here = bed.begun(&rt, alloc);
    bed.release(&rt, here, 3);
    same!(&rt; (bed.timers.len(), bed.post.messages.len()), (0, 0));
    let waiting = Sleep::new(10, 5);
    bed.release(&rt, waiting, 4);
    same!(&rt; bed.post.messages.len(), 0);
    let mut elsewhere = Sleep::new(10, 5);
    let first = bed.poll(&rt, alloc, &mut elsewhere, home(5));
    same!(&rt; first, Ok(false));
    bed.release(&rt, elsewhere, 4);
    same!(&rt; bed.timers.len(), 1);
    holds!(&rt; matches!(bed.post.messages.as_slice(), [TimerMessage::Cancel(_)]));
    Ok(())
}

#[test]
fn what_closes_ends_a_sleep(rt: HostRuntime) -> Result<(), Fail> {
    let alloc = rt.alloc();
    let mut bed = Bed::new(alloc)?;
    let mut new = Sleep::new(10, 5);
    let refused = bed.poll(&rt, alloc, &mut new, closes(home(5)));
    same!(&rt; refused, Err(Error::Closed));
    same!(&rt; bed.timers.len(), 0);
    bed.release(&rt, new, 3);
    let mut sleep = bed.begun(&rt, alloc);
    bed.post.closed = true;
    let shut = bed.poll(&rt, alloc, &mut sleep, away(5));
    same!(&rt; shut, Err(Error::Closed));
    same!(&rt; bed.post.messages.len(), 0);
    holds!(&rt; matches!(sleep.state(), SleepState::Done));
    bed.release(&rt, sleep, 3);
    Ok(())
}
