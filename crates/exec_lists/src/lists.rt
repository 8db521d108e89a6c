//! The places of a driver, each a list of the requests in it in order of coming.
//!
//! Who leaves a place is taken out of its list at once, so a list has no name that isn't in its place. What is in a
//! place, and that none is in two, is for the driver to know; here are the lists alone, with room for as many requests
//! as `make_room` was told, so no other call takes memory.

ghost use Rattle.std.specs.{Prelude.{◌≡◌, ◌<◌, ◌≤◌, false, length, max, if◌then◌else◌, OnOk, OnErr}, VecDeque.deque_capacity};
ghost use Rattle.exec_lists.specs.Lists.{no_lists, is_among, has_first, first_of, withdrawn, with_queued, with_gated, with_enrolment, with_due, with_cancel, without_gated, after_queued, after_enrolment, after_due, after_cancel};

use crate::name_list::NameList;
use exec_waiters::waiter_id::WaiterId;
use std::alloc::{AllocError, Global};
use std::collections::VecDeque;
use std::marker::Model;

/// The places of a driver.
#[derive(Drop)]
pub struct Lists {
    // What is to be staged.
    queued: NameList,
    // What waits at a gate.
    gated: NameList,
    // Whose deadline is to be enrolled.
    enrolments: NameList,
    // Whose deadline has come, in the order of the wheel.
    due: NameList,
    // Whose cancel is to be staged, in the order in which they were asked for.
    cancels: NameList,
    // For how many requests there is memory in each.
    room: usize,
}

impl Model for Lists {
    ghost use Rattle.std.specs.Prelude.{◌≤◌};
    ghost use Rattle.std.specs.VecDeque.{deque_capacity};
    ghost use Rattle.exec_lists.specs.Lists.{Lists as Places};

    ghost Value = { Places };

    ghost view = { λ l. record {
      queued = l.queued.names.items;
      gated = l.gated.names.items;
      enrolments = l.enrolments.names.items;
      due = l.due.names.items;
      cancels = l.cancels.names.items;
      room = l.room;
    } };

    ghost invariant = { λ l. (l.room ≤ deque_capacity l.queued.names) × (l.room ≤ deque_capacity l.gated.names) × (l.room ≤ deque_capacity l.enrolments.names) × (l.room ≤ deque_capacity l.due.names) × (l.room ≤ deque_capacity l.cancels.names) };
}

impl Lists {
    /// Empty lists. They take no memory.
    pub fn new(alloc: Global) -> Self
        ensures { result ≡ no_lists }
    {
        Lists {
            queued: NameList::new(alloc),
            gated: NameList::new(alloc),
            enrolments: NameList::new(alloc),
            due: NameList::new(alloc),
            cancels: NameList::new(alloc),
            room: 0,
        }
    }

    /// Makes room for so many requests in all. Err only for want of memory, and then nothing changes.
    pub fn make_room(&mut self, alloc: Global, count: usize) -> Result<(), AllocError>
        ensures ok { OnOk result (self.new ≡ record self.old { room = max self.old.room count }) }
        ensures kept { OnErr result (self.new ≡ self.old) }
    {
        self.queued.make_room(alloc, count)?;
        self.gated.make_room(alloc, count)?;
        self.enrolments.make_room(alloc, count)?;
        self.due.make_room(alloc, count)?;
        self.cancels.make_room(alloc, count)?;
        self.room = self.room.max(count);
        Ok(())
    }

    /// Whether something is to be staged.
    pub fn has_queued(&self) -> bool
        ensures { result ≡ has_first self.now.queued }
    {
        self.queued.has_first()
    }

    /// Whether a deadline is to be enrolled.
    pub fn has_enrolments(&self) -> bool
        ensures { result ≡ has_first self.now.enrolments }
    {
        self.enrolments.has_first()
    }

    /// Whether a deadline has come.
    pub fn has_due(&self) -> bool
        ensures { result ≡ has_first self.now.due }
    {
        self.due.has_first()
    }

    /// Whether a cancel is to be staged.
    pub fn has_cancels(&self) -> bool
        ensures { result ≡ has_first self.now.cancels }
    {
        self.cancels.has_first()
    }

    /// What waits at a gate.
    pub fn gated(&self) -> &VecDeque<WaiterId>
        ensures { result.now.items ≡ self.now.gated }
    {
        self.gated.names()
    }

    /// Whether a request waits at a gate.
    pub fn is_gated(&self, id: WaiterId) -> bool
        ensures { result ≡ is_among id self.now.gated }
    {
        self.gated.has(id)
    }

    /// Takes a request out of every place.
    pub fn withdraw(&mut self, id: WaiterId)
        ensures { self.new ≡ withdrawn id self.old }
    {
        self.queued.take_out(id);
        self.gated.take_out(id);
        self.enrolments.take_out(id);
        self.due.take_out(id);
        self.cancels.take_out(id);
    }

    /// A request is to be staged. The caller must have made room.
    pub fn queue(&mut self, id: WaiterId)
        requires room { length self.old.queued < self.old.room }
        ensures { self.new ≡ with_queued id self.old }
    {
        self.queued.push(id);
    }

    /// A request waits at its gate. The caller must have made room.
    pub fn gate(&mut self, id: WaiterId)
        requires room { length self.old.gated < self.old.room }
        ensures { self.new ≡ with_gated id self.old }
    {
        self.gated.push(id);
    }

    /// A request has its permit, and doesn't wait at its gate any more.
    pub fn ungate(&mut self, id: WaiterId)
        ensures { self.new ≡ without_gated id self.old }
    {
        self.gated.take_out(id);
    }

    /// Puts one that was admitted into its places: its deadline is to be enrolled where it has one, and it is gated or
    /// queued. The caller must have made room.
    pub fn place(&mut self, id: WaiterId, has_deadline: bool, is_gated: bool)
        requires enrolments { length self.old.enrolments < self.old.room }
        requires gated { length self.old.gated < self.old.room }
        requires queued { length self.old.queued < self.old.room }
        ensures { self.new ≡ (if is_gated then with_gated id (if has_deadline then with_enrolment id self.old else self.old) else with_queued id (if has_deadline then with_enrolment id self.old else self.old)) }
    {
        if has_deadline {
            self.enrol(id);
        }
        if is_gated {
            self.gate(id);
        } else {
            self.queue(id);
        }
    }

    /// A deadline is to be enrolled. The caller must have made room.
    pub fn enrol(&mut self, id: WaiterId)
        requires room { length self.old.enrolments < self.old.room }
        ensures { self.new ≡ with_enrolment id self.old }
    {
        self.enrolments.push(id);
    }

    /// A deadline has come, unless that was known. The caller must have made room.
    pub fn fall_due(&mut self, id: WaiterId)
        requires room { is_among id self.old.due ≡ false → length self.old.due < self.old.room }
        ensures { self.new ≡ with_due id self.old }
    {
        if !self.due.has(id) {
            self.due.push(id);
        }
    }

    /// A cancel is to be staged, of one whose deadline needn't be told any more. The caller must have made room.
    pub fn cancel(&mut self, id: WaiterId)
        requires room { length self.old.cancels < self.old.room }
        ensures { self.new ≡ with_cancel id self.old }
    {
        self.due.take_out(id);
        self.cancels.push(id);
    }

    /// Takes out what is to be staged first.
    pub fn next_queued(&mut self) -> Option<WaiterId>
        ensures first { result ≡ first_of self.old.queued }
        ensures rest { self.new ≡ after_queued self.old }
    {
        self.queued.pop()
    }

    /// Takes out whose deadline is to be enrolled first.
    pub fn next_enrolment(&mut self) -> Option<WaiterId>
        ensures first { result ≡ first_of self.old.enrolments }
        ensures rest { self.new ≡ after_enrolment self.old }
    {
        self.enrolments.pop()
    }

    /// Takes out whose deadline came first.
    pub fn next_due(&mut self) -> Option<WaiterId>
        ensures first { result ≡ first_of self.old.due }
        ensures rest { self.new ≡ after_due self.old }
    {
        self.due.pop()
    }

    /// Takes out whose cancel was asked for first.
    pub fn next_cancel(&mut self) -> Option<WaiterId>
        ensures first { result ≡ first_of self.old.cancels }
        ensures rest { self.new ≡ after_cancel self.old }
    {
        self.cancels.pop()
    }
}
