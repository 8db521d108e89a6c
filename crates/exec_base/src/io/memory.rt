ghost use Rattle.std.specs.{Prelude.{◌≡◌, ◌+◌, ◌-◌, ◌<◌, ◌≤◌, ◌⊎◌, min, [], Some, Contains, length, take, drop, vec_len, vec_capacity, IsErr, IfOk, OnOk, OnErr}, Io.KnownBytes.append_known};
ghost use Rattle.exec_base.specs.{Io.{Takes, CountsFault, one_more}, Plan.IsPlanned};

use super::{Failed, Input, Output, copy_front, raised};
use std::alloc::Global;

/// Which calls of an end are to fail, and how many calls and faults there were.
#[derive(Drop)]
struct Plan {
    failing: Vec<u64>,
    calls: u64,
    faults: u64,
}

impl Plan {
    /// The first call has the number 1.
    fn new(failing: Vec<u64>) -> Self
        ensures planned { result.failing ≡ failing }
        ensures no_calls { result.calls ≡ 0 }
        ensures no_faults { result.faults ≡ 0 }
    {
        Plan {
            failing,
            calls: 0,
            faults: 0,
        }
    }

    /// Counts a call, and fails where it is one of those that are to fail.
    fn call(&mut self) -> Result<(), Failed>
        ensures planned { IsPlanned self.old self.new result }
        ensures never_falls { self.old.faults ≤ self.new.faults }
    {
        self.calls = self.calls.saturating_add(1);
        if self.failing.contains(&self.calls) {
            return Err(self.fault());
        }
        Ok(())
    }

    /// Counts a fault.
    fn fault(&mut self) -> Failed
        ensures rose { self.new ≡ record self.old { faults = one_more self.old.faults } }
        ensures never_falls { self.old.faults ≤ self.new.faults }
    {
        self.faults = raised(self.faults);
        Failed
    }
}

/// A source over bytes in memory that fails at the calls that it was told to fail at.
#[derive(Drop)]
pub struct MemInput {
    bytes: Vec<u8>,
    at: usize,
    most: usize,
    plan: Plan,
    ghost gives_some: { 0 < most },
    ghost in_bytes: { at ≤ vec_len bytes },
}

impl MemInput {
    /// A source that holds `bytes`, of which a call gives `most` at most. The calls whose numbers are in
    /// `failing` fail, where the first call has the number 1. The caller must have a `most` above 0.
    pub fn new(bytes: Vec<u8>, failing: Vec<u64>, most: usize) -> Self
        requires { 0 < most }
        ensures left { ⟦<MemInput as Input>⟧.left result ≡ Some bytes.items }
        ensures no_faults { ⟦<MemInput as Input>⟧.faults result ≡ 0 }
        ensures planned { (result.plan.failing ≡ failing) × (result.plan.calls ≡ 0) }
        ensures short { result.most ≡ most }
    {
        MemInput {
            bytes,
            at: 0,
            most,
            plan: Plan::new(failing),
        }
    }
}

impl Input for MemInput {
    ghost faults = { λ s. s.plan.faults };

    ghost left = { λ s. Some (drop s.at s.bytes.items) };

    fn take(&mut self, buf: &mut [u8]) -> Result<usize, Failed>
        requires { 0 < length buf.old }
        ensures count { self.old.plan.faults ≤ self.new.plan.faults }
        ensures within { IfOk result (λ n. n ≤ length buf.new) }
        ensures told { IfOk result (λ n. Takes (drop self.old.at self.old.bytes.items) n buf.new
            (Some (drop self.new.at self.new.bytes.items))) }
        ensures kept_when_failed { OnErr result
            (drop self.new.at self.new.bytes.items ≡ drop self.old.at self.old.bytes.items) }
        ensures planned { IsPlanned self.old.plan self.new.plan result }
        ensures as_many { IfOk result (λ n.
            n ≡ min (min (vec_len self.old.bytes - self.old.at) (length buf.new)) self.old.most) }
        ensures same_most { self.new.most ≡ self.old.most }
    {
        self.plan.call()?;
        let count = copy_front(&self.bytes[self.at..], buf, self.most);
        self.at += count;
        Ok(count)
    }
}

/// A sink that keeps in memory what it was given and how much of that it has passed on, and fails at the calls
/// that it was told to fail at. A `give` holds all back, and a `flush` passes all on.
#[derive(Drop)]
pub struct MemOutput {
    bytes: Vec<u8>,
    passed: usize,
    most: usize,
    plan: Plan,
    ghost takes_some: { 0 < most },
    ghost was_given: { passed ≤ vec_len bytes },
}

impl MemOutput {
    /// A sink that holds no byte, and takes `most` bytes a call at most. The calls whose numbers are in
    /// `failing` fail, where the first call has the number 1, and a `flush` counts as a `give` does. A call
    /// also fails where there is no memory for what it was given. The caller must have a `most` above 0.
    pub fn new(alloc: Global, failing: Vec<u64>, most: usize) -> Self
        requires { 0 < most }
        ensures empty { ⟦<MemOutput as Output>⟧.given result ≡ Some [] }
        ensures none_passed { ⟦<MemOutput as Output>⟧.passed result ≡ Some [] }
        ensures no_faults { ⟦<MemOutput as Output>⟧.faults result ≡ 0 }
        ensures planned { (result.plan.failing ≡ failing) × (result.plan.calls ≡ 0) }
        ensures short { result.most ≡ most }
    {
        MemOutput {
            bytes: Vec::new(alloc),
            passed: 0,
            most,
            plan: Plan::new(failing),
        }
    }

    /// All bytes that it was given so far.
    pub fn bytes(&self) -> &[u8]
        ensures { ⟦<MemOutput as Output>⟧.given self.now ≡ Some result.now }
    {
        self.bytes.as_slice()
    }

    /// Those of them that it has passed on.
    pub fn passed(&self) -> &[u8]
        ensures { ⟦<MemOutput as Output>⟧.passed self.now ≡ Some result.now }
    {
        &self.bytes[..self.passed]
    }
}

impl Output for MemOutput {
    ghost faults = { λ s. s.plan.faults };

    ghost given = { λ s. Some s.bytes.items };

    ghost passed = { λ s. Some (take s.passed s.bytes.items) };

    fn give(&mut self, piece: &[u8]) -> Result<usize, Failed>
        requires { 0 < length piece.now }
        ensures count { self.old.plan.faults ≤ self.new.plan.faults }
        ensures fault { CountsFault self.old.plan.faults self.new.plan.faults result }
        ensures within { IfOk result (λ n. (0 < n) × (n ≤ length piece.now)) }
        ensures told { IfOk result (λ n.
            Some self.new.bytes.items ≡ append_known (Some self.old.bytes.items) (take n piece.now)) }
        ensures kept_when_failed { OnErr result
            (Some self.new.bytes.items ≡ Some self.old.bytes.items) }
        ensures planned { Contains self.old.plan.failing.items self.new.plan.calls → IsErr result }
        // A call that fails was planned to, or found no room for the piece.
        ensures why { OnErr result (Contains self.old.plan.failing.items self.new.plan.calls
            ⊎ (vec_capacity self.old.bytes < vec_len self.old.bytes + length piece.now)) }
        ensures held_back { Some (take self.new.passed self.new.bytes.items)
            ≡ Some (take self.old.passed self.old.bytes.items) }
        ensures counted { self.new.plan.calls ≡ one_more self.old.plan.calls }
        ensures as_many { IfOk result (λ n. n ≡ min (length piece.now) self.old.most) }
        ensures same_plan { self.new.plan.failing ≡ self.old.plan.failing }
        ensures same_most { self.new.most ≡ self.old.most }
    {
        self.plan.call()?;
        let count = piece.len().min(self.most);
        match self.bytes.extend_from_slice(&piece[..count]) {
            Ok(()) => Ok(count),
            Err(_) => Err(self.plan.fault()),
        }
    }

    fn flush(&mut self) -> Result<(), Failed>
        ensures count { self.old.plan.faults ≤ self.new.plan.faults }
        ensures kept { Some self.new.bytes.items ≡ Some self.old.bytes.items }
        ensures passes { OnOk result (Some (take self.new.passed self.new.bytes.items)
            ≡ Some self.new.bytes.items) }
        ensures passes_none { OnErr result (self.new.passed ≡ self.old.passed) }
        ensures planned { IsPlanned self.old.plan self.new.plan result }
        ensures same_most { self.new.most ≡ self.old.most }
    {
        self.plan.call()?;
        self.passed = self.bytes.len();
        Ok(())
    }
}
