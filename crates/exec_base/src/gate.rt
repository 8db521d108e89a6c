//! A gate that one holds at a time: first come, first served.
//!
//! A gate is open, or held by one, and then others may wait for it. Who enters an open gate holds it. Who enters
//! while another holds it joins the end of the list (`entered`), and holds the gate once all before it have left
//! (`left`). Nobody waits at an open gate: that is the gate's invariant. So at any time there is at most one holder,
//! and the holder alone leaves.
//!
//! Those who wait stand in room that was reserved before, so `enter` takes no memory. Each place that is reserved
//! serves one who waits, and is free again once that one holds the gate.
//!
//! Ports the permit of `commonware_runtime`'s durable requests, an asynchronous mutex there: here the one who leaves
//! is told who is next, and has to tell that one.

ghost use Rattle.std.specs.Prelude.{◌≡◌, ◌≢◌, [], ◌∷◌, None, Some, is_none, ◌+◌, length, slice_get, max, IfNone, OnOk, OnErr};
ghost use Rattle.exec_base.specs.Gate.{entered, left, HasPlace, held_by_three};

use std::alloc::{AllocError, Global};
use std::collections::VecDeque;
use std::marker::Model;

/// A gate that one holds at a time, and the list of those who wait for it.
#[derive(Drop)]
pub struct Gate<T> {
    holder: Option<T>,
    waiting: VecDeque<T>,
    // For how many waiting ones there is room in all.
    room: usize,
}

impl<T> Model for Gate<T> {
    ghost use Rattle.std.specs.Prelude.{◌≡◌, ◌≤◌, [], None};
    ghost use Rattle.std.specs.VecDeque.{deque_capacity};
    ghost use Rattle.exec_base.specs.Gate.{Gate as Line};

    ghost Value = { Line T };

    ghost view = { λ g. record { holder = g.holder; waiting = g.waiting.items; room = g.room } };

    ghost invariant = { λ g. (g.holder ≡ None → g.waiting.items ≡ []) × (g.room ≤ deque_capacity g.waiting) };
}

impl<T: Copy> Gate<T> {
    /// An open gate, without room for waiting ones.
    pub fn new(alloc: Global) -> Self
        ensures { result ≡ record { holder = None; waiting = []; room = 0 } }
    {
        Gate {
            holder: None,
            waiting: VecDeque::new(alloc),
            room: 0,
        }
    }

    /// Makes room for `n` more to wait, beside those who wait already. Room that is there already counts.
    ///
    /// Err where there is no memory, and then the gate stays as it is.
    pub fn reserve(&mut self, _alloc: Global, n: usize) -> Result<(), AllocError>
        ensures room { OnOk result (self.new ≡ record self.old { room = max self.old.room (length self.old.waiting + n) }) }
        ensures kept { OnErr result (self.new ≡ self.old) }
    {
        self.waiting.reserve(n)?;
        self.room = self.room.max(self.waiting.len() + n);
        Ok(())
    }

    /// Answers whether `id` now holds the gate. Where another holds it, `id` joins the end of the list.
    ///
    /// The caller must have reserved room for one more, unless the gate is open.
    pub fn enter(&mut self, id: T) -> bool
        requires { HasPlace self.old }
        ensures answer { result ≡ is_none self.old.holder }
        ensures entered { self.new ≡ entered self.old id }
    {
        if self.holder.is_some() {
            self.waiting.push_back_reserved(id);
            return false;
        }
        self.holder = Some(id);
        true
    }

    /// The holder leaves. Answers the next one, which holds the gate from then on and has to be told so. None where
    /// nobody waits, and the gate is open then.
    pub fn leave(&mut self) -> Option<T>
        ensures next { result ≡ slice_get self.old.waiting 0 }
        ensures left { self.new ≡ left self.old }
    {
        self.holder = self.waiting.pop_front();
        self.holder
    }

    /// Who holds the gate. None where it is open, and then nobody waits.
    pub fn holder(&self) -> Option<T>
        ensures holder { result ≡ self.now.holder }
        ensures open { IfNone result (self.now.waiting ≡ []) }
    {
        self.holder
    }

    /// How many wait for the gate. The holder isn't one of them.
    pub fn waiting(&self) -> usize
        ensures { result ≡ length self.now.waiting }
    {
        self.waiting.len()
    }
}

/// A line of three: the first holds the gate, the others get it in the order in which they came.
pub fn first_come_first_served()
    ensures first { entered (record { holder = None; waiting = []; room = 3 }) 3 ≡ held_by_three }
    ensures second { entered held_by_three 5 ≡ record held_by_three { waiting = 5 ∷ [] } }
    ensures third { entered (record held_by_three { waiting = 5 ∷ [] }) 4 ≡ record held_by_three { waiting = 5 ∷ 4 ∷ [] } }
    ensures next { left (record held_by_three { waiting = 5 ∷ 4 ∷ [] }) ≡ record held_by_three { holder = Some 5; waiting = 4 ∷ [] } }
    ensures last { left held_by_three ≡ record held_by_three { holder = None } }
    ensures not_two { entered held_by_three 5 ≢ record held_by_three { holder = Some 5 } }
{}
