//! A driver over the ring in memory, whose kernel does what it is told.

ghost use Rattle.std.specs.Prelude.{◌≡◌, ◌↔◌, [], Ok, Err, Some, true, IsTrue, OnOk, OnErr, ◌&&◌, if◌then◌else◌};
ghost use Rattle.exec_ring.specs.{Kernels.{may_land, flight_of}, Landings.IsReady};
ghost use Rattle.exec_waiters.specs.{Ids.user_data_of, States.is_flying};
ghost use Rattle.exec_driver.specs.{Driving.{seen, request_at}, Punctual.IsPunctual, Steps.LandsOne};

use super::Driver;
use exec_outcomes::outcome::OpResult;
use exec_ring::landing::Unlawful;
use exec_ring::sim_ring::SimRing;
use exec_ring::store::Store;
use exec_waiters::waiter_id::WaiterId;

impl<S: Drop, F: Drop> Driver<SimRing, S, F> {
    ghost use Rattle.exec_waiters.specs.declared.waiter.Waiter.{Waiter as Asking};

    /// Whether `land` has what it needs: where it would end an operation, the request has its window, and there is room
    /// in the store for its bytes. So it is in the store that its admission was lent.
    pub fn may_land(&self, id: WaiterId, given: OpResult, store: &Store) -> bool
        ensures { IsTrue result ↔ ((w : Asking S F) → request_at (seen self.now) id ≡ Some w → IsTrue (may_land (seen self.now).ring (user_data_of id.0) given) → IsReady (flight_of (seen self.now).ring (user_data_of id.0)) given w.request store.now) }
    {
        self.waiters.may_land(id, given, &self.ring, store)
    }

    /// Ends the operation of a request with this result, and moves its bytes. `Unlawful` where the kernel has no
    /// operation of it, or its window doesn't allow the result; then nothing changes. The caller must lend the store
    /// in which the request's admission made room (`may_land`).
    pub fn land(&mut self, id: WaiterId, given: OpResult, store: &mut Store) -> Result<(), Unlawful>
        requires ready { (w : Asking S F) → request_at (seen self.old) id ≡ Some w → IsTrue (may_land (seen self.old).ring (user_data_of id.0) given) → IsReady (flight_of (seen self.old).ring (user_data_of id.0)) given w.request store.old }
        ensures answer { result ≡ (if is_flying (request_at (seen self.old) id) && may_land (seen self.old).ring (user_data_of id.0) given then Ok tt else Err (record { 0 = user_data_of id.0; 1 = given })) }
        ensures lands { OnOk result ((w : Asking S F) → request_at (seen self.old) id ≡ Some w → LandsOne (seen self.old) (seen self.new) id w given store.old store.new) }
        ensures same { OnErr result (seen self.new ≡ seen self.old) }
        ensures store { OnErr result (store.new ≡ store.old) }
        ensures punctual { IsPunctual (seen self.old) → IsPunctual (seen self.new) }
    {
        if !self.waiters.is_in_flight(id) {
            return Err(Unlawful(id.user_data(), given));
        }
        self.waiters.land(id, given, &mut self.ring, store)
    }

    /// Does nothing; for proofs: nothing ends within an enter of this ring, whose kernel ends an operation when it is
    /// told to.
    pub fn lands_nothing(&self)
        ensures { (seen self.now).landings ≡ [] }
    {
        let _ring = &self.ring;
    }

    /// The next enter takes nothing.
    pub fn busy(&mut self)
        ensures set { seen self.new ≡ record (seen self.old) { ring = record (seen self.old).ring { busy = true } } }
        ensures punctual { IsPunctual (seen self.old) → IsPunctual (seen self.new) }
    {
        self.ring.busy();
    }

    /// The next wake completion ends the wake poll.
    pub fn last(&mut self)
        ensures set { seen self.new ≡ record (seen self.old) { ring = record (seen self.old).ring { last = true } } }
        ensures punctual { IsPunctual (seen self.old) → IsPunctual (seen self.new) }
    {
        self.ring.last();
    }
}
