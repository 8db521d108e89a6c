//! What a task holds is let go: at once what its last worker has, while the workers of the others are told so by
//! messages, one a step.

ghost use Rattle.std.specs.Prelude.{◌≡◌, true, false};
ghost use Rattle.exec_parts.specs.{Awaits.{LetsGo, MayLetGo}, Ending.{LetsGoAll, LetsGoOf, LetsWaiting, MayLetGoAll, MayLetGoOf, MayLetSleep}, Pooled.{MaySend, Sends}, MailTakes.{MayRemove, RemovesSleeper}};

use crate::parts::held::Held;
use crate::parts::letters::Letters;
use crate::parts::shared::Shared;
use crate::parts::worker::Worker;
use crate::scripted::Scripted;
use crate::signal::mail;
use exec_machine::event::Event;
use exec_machine::state::{MailMessage, Waiting};
use exec_moves::handing::{AfterSend, AfterSignal, InSignal};
use exec_moves::place::Place;

impl Worker {
    /// Nobody holds the request any more. The caller must know that it is this worker's, that somebody holds it, and
    /// that there is room for what may end so.
    pub fn orphan_request<B: Drop>(&mut self, request: usize, shared: &mut Shared<B>)
        requires may { MayLetGo request self.old shared.old }
        ensures lets { LetsGo request self.old self.new shared.old shared.new }
    {
        self.home.driver.lists_requests();
        let record = &mut shared.requests[request];
        self.home.driver.orphan(record.id, &mut self.home.deferred);
        let ended = record.let_go();
        self.names.end_if(ended, request);
    }

    /// Sends a worker a message, and goes on to signal it where that is asked for. A second wake of its root beside one
    /// that it hasn't taken is left out. `Closed` where that worker takes no mail any more, and then nothing is sent. The
    /// caller must know that there is such a worker, and that an open inbox has a place for the message.
    pub fn send<B: Drop>(
        &mut self,
        worker: usize,
        message: MailMessage,
        back: AfterSend,
        shared: &mut Shared<B>,
    ) -> Event
        requires may { MaySend worker message shared.old }
        ensures sends { Sends worker message back self.old self.new shared.old shared.new result }
    {
        let (event, asks) = mail(worker, message, &mut shared.seats[worker]);
        self.place = if asks {
            Place::Signal(InSignal::SetLatch, worker, AfterSignal::Send(back))
        } else {
            self.after_send(back, shared.config.workers)
        };
        event
    }

    /// Lets go of what a task held that is over: at once of what this worker has. What others have is to be told next.
    /// The caller must have told all of what the task before held, and have room for what may end so.
    pub fn let_go_of<B: Scripted + Drop>(&mut self, task: usize, shared: &mut Shared<B>)
        requires may { MayLetGoOf task self.old shared.old }
        ensures lets { LetsGoOf task self.old self.new shared.old shared.new }
    {
        let slot = &mut shared.tasks[task];
        let waiting = slot.waiting();
        let mut requests = slot.take_held();
        let mine = self.index;
        self.let_go_held(&requests, shared);
        requests.retain(|held| held.worker != mine);
        let timer = self.let_go_of_sleeper(waiting, shared);
        self.letters = Letters { requests, timer };
    }

    /// The same, where the task is over; else nothing changes. The caller must have what `let_go_of` asks for where it is.
    pub fn let_go_if<B: Scripted + Drop>(&mut self, over: bool, task: usize, shared: &mut Shared<B>)
        requires may { over ≡ true → MayLetGoOf task self.old shared.old }
        ensures lets { over ≡ true → LetsGoOf task self.old self.new shared.old shared.new }
        ensures same { over ≡ false → self.new ≡ self.old }
        ensures kept { over ≡ false → shared.new ≡ shared.old }
    {
        if over {
            self.let_go_of(task, shared);
        }
    }

    // Lets go of those requests that this worker has of what a task held.
    fn let_go_held<B: Drop>(&mut self, requests: &[Held], shared: &mut Shared<B>)
        requires may { MayLetGoAll requests.now self.old shared.old }
        ensures lets { LetsGoAll requests.now self.old self.new shared.old shared.new }
    {
        for held in requests {
            if held.worker == self.index {
                self.orphan_request(held.number, shared);
            }
        }
    }

    // Lets go of a sleeper that is waited for no more, where this worker has it. Answers one whose worker is to be told.
    fn let_go_of_sleeper<B: Drop>(
        &mut self,
        waiting: Waiting,
        shared: &mut Shared<B>,
    ) -> Option<Held>
        requires may { MayLetSleep waiting self.old shared.old }
        ensures lets { LetsWaiting waiting result self.old self.new shared.old shared.new }
    {
        let Waiting::Timer(number) = waiting else {
            return None;
        };
        let worker = shared.sleepers[number].shown.worker;
        if worker != self.index {
            return Some(Held { number, worker });
        }
        self.remove_sleeper(number, shared);
        None
    }

    /// The sleeper of this number is gone without a wake, since nobody waits for it any more. The caller must know that
    /// it is this worker's, and have room to tell that it is gone.
    pub fn remove_sleeper<B: Drop>(&mut self, timer: usize, shared: &mut Shared<B>)
        requires may { MayRemove timer self.old shared.old }
        ensures removes { RemovesSleeper timer self.old self.new shared.old shared.new }
    {
        let record = &mut shared.sleepers[timer];
        let home = &mut self.home;
        home.timers.cancel(record.id, &mut home.deferred.notes);
        record.remove();
    }
}
