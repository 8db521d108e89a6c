//! A pool of counters in place of queues, and what wakes its workers.

ghost use Rattle.std.specs.Prelude.{◌≡◌, ◌<◌, ◌≤◌, true, false, nat_lt, slice_set};

use exec_live_idle::backlog::Backlog;
use exec_live_idle::notify::Rouse;
use exec_live_idle::seat::{Idle, IdleSeat};
use std::sync::Wait;

/// Who was woken.
#[derive(Drop)]
pub struct Bell {
    pub workers: usize,
    pub woken: [bool; 64],
    ghost few: { workers ≤ 64 },
}

impl Rouse for Bell {
    ghost workers = { λ b. b.workers };

    ghost wakes = { λ b worker d. d.woken ≡ slice_set b.woken worker true };

    fn wake<R: Wait>(&mut self, rt: &R, worker: usize) {
        self.woken[worker] = true;
    }
}

impl Bell {
    /// Nobody was woken.
    pub fn silence(&mut self)
        ensures { self.new.workers ≡ self.old.workers }
    {
        self.woken = [false; 64];
    }
}

/// What the worker `own` reaches of a pool: how many values each queue holds.
#[derive(Drop)]
pub struct FakePool {
    pub own: usize,
    pub global: usize,
    pub queues: [usize; 64],
    pub dry: u64,
    pub bell: Bell,
}

impl FakePool {
    pub fn new(workers: usize) -> Self
        requires { workers ≤ 64 }
        ensures { result.bell.workers ≡ workers }
    {
        FakePool {
            own: 0,
            global: 0,
            queues: [0; 64],
            dry: 0,
            bell: Bell {
                workers,
                woken: [false; 64],
            },
        }
    }

    /// More values in a worker's queue.
    pub fn put(&mut self, worker: usize, count: usize)
        ensures { self.new.bell ≡ self.old.bell }
    {
        if let Some(queue) = self.queues.get_mut(worker) {
            *queue = queue.saturating_add(count);
        }
    }

    /// Fewer values in a worker's queue.
    pub fn pop(&mut self, worker: usize, count: usize)
        ensures { self.new.bell ≡ self.old.bell }
    {
        if let Some(queue) = self.queues.get_mut(worker) {
            *queue = queue.saturating_sub(count);
        }
    }

    fn is_stealable(&self, worker: usize) -> bool
        requires { worker < 64 }
    {
        worker != self.own && self.queues[worker] >= 2
    }

    /// Half of a queue moves into the worker's own.
    fn take_half(&mut self, from: usize)
        requires { from < 64 }
        ensures { (self.new.bell ≡ self.old.bell) × (self.new.dry ≡ self.old.dry) }
    {
        let half = self.queues[from] / 2;
        self.queues[from] -= half;
        if let Some(own) = self.queues.get_mut(self.own) {
            *own = own.saturating_add(half);
        }
    }
}

impl Backlog for FakePool {
    ghost pool = { λ b. b.bell.workers };

    ghost dry = { λ b. b.dry };

    ghost looks = { λ b found d. (d ≡ b) × (found ≡ nat_lt 0 b.global) };

    ghost peers = { λ b found d. d ≡ b };

    ghost steals = { λ b start moved d. d.bell ≡ b.bell };

    ghost kicks = { λ v b w d. d.queues ≡ b.queues };

    fn workers(&self) -> usize {
        self.bell.workers
    }

    fn has_global<R: Wait>(&mut self, rt: &R, seat: &IdleSeat) -> bool {
        self.global > 0
    }

    fn has_stealable<R: Wait>(&mut self, rt: &R, seat: &IdleSeat) -> bool {
        for worker in 0..self.bell.workers {
            if self.is_stealable(worker) {
                return true;
            }
        }
        false
    }

    fn steal<R: Wait>(&mut self, rt: &R, start: usize) -> bool {
        let workers = self.bell.workers;
        for offset in 0..workers {
            let worker = (start + offset) % workers;
            if self.is_stealable(worker) {
                self.take_half(worker);
                return true;
            }
        }
        self.dry = self.dry.saturating_add(1);
        false
    }

    fn kick<R: Wait>(&mut self, rt: &R, idle: &Idle, seat: &mut IdleSeat) {
        idle.notify(rt, seat, &mut self.bell);
    }
}
