//! A fake pool: plain lists in place of its queues, and a bell that its workers hear.

ghost use Rattle.std.specs.Prelude.{◌≡◌, ◌≤◌, ◌<◌, true, slice_set};

use crate::runs::Queues;
use exec_live_idle::backlog::Backlog;
use exec_live_idle::notify::Rouse;
use exec_live_idle::seat::{Idle, IdleSeat};
use std::alloc::Global;
use std::sync::Wait;

/// Who was woken.
#[derive(Drop)]
pub struct Bell {
    pub workers: usize,
    pub woken: [bool; 64],
    ghost few: { workers ≤ 64 },
}

impl Rouse for Bell {
    ghost workers = { λ b. b.workers };

    ghost wakes = { λ b worker d. d.woken ≡ slice_set b.woken worker true };

    fn wake<R: Wait>(&mut self, rt: &R, worker: usize) {
        self.woken[worker] = true;
    }
}

/// What the worker `own` reaches of its pool.
#[derive(Drop)]
pub struct Pool {
    /// The worker that acts.
    pub own: usize,
    /// Its queues.
    pub queues: Queues,
    /// How many values the steals of this line moved.
    pub moved: usize,
    dry: u64,
    /// Who was woken.
    pub bell: Bell,
}

impl Pool {
    /// Nothing is queued, and there are no run queues yet.
    pub fn new(alloc: Global, workers: usize) -> Self
        requires { workers ≤ 64 }
        ensures { result.bell.workers ≡ workers }
    {
        Pool {
            own: 0,
            queues: Queues::new(alloc),
            moved: 0,
            dry: 0,
            bell: Bell {
                workers,
                woken: [false; 64],
            },
        }
    }

    /// Begins a line.
    pub fn begin(&mut self)
        ensures { self.new.bell.workers ≡ self.old.bell.workers }
    {
        self.bell.woken = [false; 64];
        self.moved = 0;
    }

    /// The first worker from this one on whose run queue can be stolen from.
    fn victim(&self, start: usize) -> Option<usize>
        requires { start < self.now.bell.workers }
    {
        let workers = self.bell.workers;
        for offset in 0..workers {
            let worker = (start + offset) % workers;
            if self.queues.is_open(worker, self.own) {
                return Some(worker);
            }
        }
        None
    }
}

impl Backlog for Pool {
    ghost pool = { λ b. b.bell.workers };

    ghost dry = { λ b. b.dry };

    ghost looks = { λ b found d. d ≡ b };

    ghost peers = { λ b found d. d ≡ b };

    ghost steals = { λ b start moved d. d.bell ≡ b.bell };

    ghost kicks = { λ v b w d. d.dry ≡ b.dry };

    fn workers(&self) -> usize {
        self.bell.workers
    }

    fn has_global<R: Wait>(&mut self, rt: &R, seat: &IdleSeat) -> bool {
        !self.queues.global.is_empty()
    }

    fn has_stealable<R: Wait>(&mut self, rt: &R, seat: &IdleSeat) -> bool {
        for worker in 0..self.bell.workers {
            if self.queues.is_stealable(worker, self.own) {
                return true;
            }
        }
        false
    }

    fn steal<R: Wait>(&mut self, rt: &R, start: usize) -> bool {
        if let Some(victim) = self.victim(start) {
            if let Ok(count) = self.queues.move_half(victim, self.own) {
                self.moved = self.moved.saturating_add(count);
                return true;
            }
        }
        self.dry = self.dry.saturating_add(1);
        false
    }

    fn kick<R: Wait>(&mut self, rt: &R, idle: &Idle, seat: &mut IdleSeat) {
        idle.notify(rt, seat, &mut self.bell);
    }
}
