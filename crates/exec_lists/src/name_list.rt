//! Names in order of coming, as each place of a driver has them.
//!
//! Beside the names it is counted for each slot how many of them have it. So of most names it is known without a look
//! at the others that they aren't there. Requests mostly leave a place in the order in which they came, or the newest
//! first: a name at either end that is alone in its slot leaves without a look at the others, and any other by a pass
//! over them. Of a slot without a count nothing is known.

ghost use Rattle.std.specs.{Prelude.{◌≡◌, ◌<◌, ◌≤◌, [], ◌∷◌, ◌++◌, true, false, length, OnOk, IsSome, IfSome}, VecDeque.deque_capacity};
ghost use Rattle.exec_lists.specs.Lists.{without, is_among, is_same, first_of, rest_of, has_first, AreCounted, are_within, in_slot};

use exec_waiters::waiter_id::WaiterId;
use std::alloc::{AllocError, Global};
use std::collections::VecDeque;

/// Names, in order of coming.
#[derive(Drop)]
pub(crate) struct NameList {
    names: VecDeque<WaiterId>,
    // For each slot how many of the names have it.
    counts: Vec<usize>,
    // Whether the slot of each name is counted, so far as is known.
    covered: bool,
    ghost counted: { AreCounted names.items counts.items },
    ghost within: { covered ≡ true → are_within (length counts.items) names.items ≡ true },
}

impl NameList {
    /// No names. They take no memory.
    pub(crate) fn new(alloc: Global) -> Self
        ensures { result.names.items ≡ [] }
    {
        NameList {
            names: VecDeque::new(alloc),
            counts: Vec::new(alloc),
            covered: true,
        }
    }

    /// Makes room for so many names in all, and counts so many slots, unless a name has one that isn't counted.
    pub(crate) fn make_room(&mut self, _alloc: Global, count: usize) -> Result<(), AllocError>
        ensures names { self.new.names.items ≡ self.old.names.items }
        ensures more { deque_capacity self.old.names ≤ deque_capacity self.new.names }
        ensures room { OnOk result (count ≤ deque_capacity self.new.names) }
    {
        self.names.reserve(count.saturating_sub(self.names.len()))?;
        if self.covered && self.counts.len() < count {
            self.counts.resize(count, 0)?;
        }
        Ok(())
    }

    /// The names.
    pub(crate) fn names(&self) -> &VecDeque<WaiterId>
        ensures { result.now.items ≡ self.now.names.items }
    {
        &self.names
    }

    /// Whether there is a name.
    pub(crate) fn has_first(&self) -> bool
        ensures { result ≡ has_first self.now.names.items }
    {
        !self.names.is_empty()
    }

    /// Whether this name may be there, by the count of its slot.
    fn may_have(&self, id: WaiterId) -> bool
        ensures { result ≡ false → is_among id self.now.names.items ≡ false }
    {
        let slot = id.0.index as usize;
        slot >= self.counts.len() || self.counts[slot] > 0
    }

    /// Whether one name at most has the slot of this one, by its count.
    fn is_alone(&self, id: WaiterId) -> bool
        ensures { result ≡ true → in_slot id.0.index self.now.names.items ≤ 1 }
    {
        let slot = id.0.index as usize;
        slot < self.counts.len() && self.counts[slot] <= 1
    }

    /// Whether this name is there.
    pub(crate) fn has(&self, id: WaiterId) -> bool
        ensures { result ≡ is_among id self.now.names.items }
    {
        self.may_have(id) && self.names.iter().any(|other| is_name(other, id))
    }

    /// One more name, at the end. The caller must have made room.
    pub(crate) fn push(&mut self, id: WaiterId)
        requires room { length self.old.names.items < deque_capacity self.old.names }
        ensures names { self.new.names.items ≡ self.old.names.items ++ id ∷ [] }
        ensures capacity { deque_capacity self.new.names ≡ deque_capacity self.old.names }
    {
        self.names.push_back_reserved(id);
        let slot = id.0.index as usize;
        if slot < self.counts.len() {
            self.counts[slot] += 1;
        } else {
            self.covered = false;
        }
    }

    /// Takes out the first name.
    pub(crate) fn pop(&mut self) -> Option<WaiterId>
        ensures first { result ≡ first_of self.old.names.items }
        ensures rest { self.new.names.items ≡ rest_of self.old.names.items }
        ensures capacity { deque_capacity self.new.names ≡ deque_capacity self.old.names }
    {
        let id = self.names.pop_front()?;
        let slot = id.0.index as usize;
        if slot < self.counts.len() {
            self.counts[slot] -= 1;
        }
        Some(id)
    }

    /// Takes a name out, where it is there.
    pub(crate) fn take_out(&mut self, id: WaiterId)
        ensures names { self.new.names.items ≡ without id self.old.names.items }
        ensures capacity { deque_capacity self.new.names ≡ deque_capacity self.old.names }
    {
        if !self.may_have(id) {
            return;
        }
        let alone = self.is_alone(id);
        let before = self.names.len();
        take_out(&mut self.names, id, alone);
        let slot = id.0.index as usize;
        if slot < self.counts.len() {
            self.counts[slot] -= before - self.names.len();
        }
    }
}

/// Takes a name out of a list, where it stands there. If it is known to be alone in its slot and stands at an end, the
/// others aren't looked at.
fn take_out(list: &mut VecDeque<WaiterId>, id: WaiterId, alone: bool)
    requires alone { alone ≡ true → in_slot id.0.index list.old.items ≤ 1 }
    ensures items { list.new.items ≡ without id list.old.items }
    ensures capacity { deque_capacity list.new ≡ deque_capacity list.old }
{
    if alone && is_at_end(list.front(), id) {
        list.pop_front();
    } else if alone && is_at_end(list.back(), id) {
        list.pop_back();
    } else {
        list.retain(|other| !is_name(other, id));
    }
}

/// Whether there is a name at an end, and it is that one.
fn is_at_end(name: Option<&WaiterId>, id: WaiterId) -> bool
    ensures { result ≡ true → IsSome name.entry × IfSome name.entry (λ n. n.now ≡ id) }
{
    match name {
        Some(name) => is_name(name, id),
        None => false,
    }
}

/// Whether a name is that one.
fn is_name(name: &WaiterId, id: WaiterId) -> bool
    ensures { result ≡ is_same name.now id }
{
    name.0.index == id.0.index && name.0.generation == id.0.generation
}
