//! Laws of the lines at the gates of opens.

ghost use Rattle.std.specs.Prelude.{◌≡◌, ◌≢◌, ◌<◌, ℕ, Option, Some, None};
ghost use Rattle.exec_driver.specs.Driving.{Driving, request_at};
ghost use Rattle.exec_request.specs.Requests.{gate_of};
ghost use Rattle.exec_waiters.specs.declared.waiter.Waiter.{Waiter};
ghost use Rattle.exec_driver_laws.specs.Sharing.{Call, Gates, IsRun, StandsAt, joined_by, with_lines};
ghost use Rattle.exec_opens.specs.{Opens.{displaced, holder_at, placed, with_named, writing}, declared.opens.WaiterKey.WaiterKey};

/// A place is made in a line, or given up, or a plain write is counted, without more: what `Opens::reserve`,
/// `Opens::release` and `Opens::begin_write` do is a call that any worker may make.
pub fn an_open_is_called_alone<S, F>()
    ensures reserve { (worker : ℕ) (d : Driving S F) (g : Gates) (file : Option ℕ) → Call worker d d g (with_lines g (with_named g.opens file placed)) }
    ensures release { (worker : ℕ) (d : Driving S F) (g : Gates) (file : Option ℕ) → Call worker d d g (with_lines g (with_named g.opens file displaced)) }
    ensures begin_write { (worker : ℕ) (d : Driving S F) (g : Gates) (file : Option ℕ) → Call worker d d g (with_lines g (with_named g.opens file writing)) }
{}

/// Who holds a gate goes on holding it, whatever call a worker makes, while nobody was told to leave it.
pub fn a_holder_holds_until_it_is_told_to_leave<S, F>()
    ensures { (worker : ℕ) (old new : Driving S F) (g g' : Gates) → Call worker old new g g' → (file : ℕ) (key : WaiterKey) → g.leaving file ≡ None → holder_at g.opens file ≡ Some key → holder_at g'.opens file ≡ Some key }
{}

/// Who has joined the line of its open stands there until it is over, whatever calls workers make: it holds the gate or
/// waits for it. So at each moment of a run a durable request that isn't over has yet to join its line, for which its
/// admission made it a place, or stands in it. A call takes nobody out of a line but who was told to leave the gate.
pub fn who_joined_stands_in_line<S, F>()
    ensures stays { (worker : ℕ) (old new : Driving S F) (g g' : Gates) → Call worker old new g g' → ((k : WaiterKey) (gate : ℕ) → g.leaving gate ≡ Some k → holder_at g.opens gate ≡ Some k) →
        (file : ℕ) (key : WaiterKey) → g.leaving file ≢ Some key → StandsAt g.opens file key → StandsAt g'.opens file key }
    ensures stands { (drivers : ℕ → ℕ → Driving S F) (gates : ℕ → Gates) (run : IsRun drivers gates) (k n : ℕ) (key : WaiterKey) (w : Waiter S F) (file : ℕ) → k < n → joined_by (run.next k).call ≡ Some key →
        request_at (drivers n key.worker) key.id ≡ Some w → gate_of w.request ≡ Some file → StandsAt (gates n).opens file key }
{}
