//! Landings: an operation of the ring in memory ends, and its bytes move.
//!
//! A landing moves exactly the bytes that its result counts, from the start of the operation's window on. A send
//! appends them to what its socket sent; a receive takes them from what the socket was fed, with zeros after its end,
//! and appends them to what the socket received; a read copies them from its file, with zeros where the file has no
//! bytes; a write stores them in its file. A result that is an error number moves none, nor does a sync, a connect or
//! a poll. Nothing here takes memory: `reserve` made the room.

ghost use Rattle.std.specs.Prelude.{◌≡◌, ◌↔◌, IsTrue, OnOk, OnErr, Ok, Err, if◌then◌else◌};
ghost use Rattle.exec_outcomes.specs.Lawful.{is_lawful};
ghost use Rattle.exec_request.specs.Windows.{most_of};
ghost use Rattle.exec_ring.specs.{Kernels.{may_land, landed, flight_of}, Landings.{IsReady, IsReadyFor, Moves, MovesBytes}};

use crate::completion::UserData;
use crate::sim_ring::SimRing;
use crate::store::Store;
use exec_outcomes::outcome::OpResult;
use exec_request::open_record::OpenRecord;
use exec_request::request::Request;
use exec_request::window::{Opcode, Window};
use thiserror::Error;

/// The operation with this user data can't end with this result: the kernel has no such operation, or the result is
/// none that its window allows.
#[derive(Clone, Copy, Debug, PartialEq, Eq, Error)]
#[error("no operation {0} may end with {1}")]
pub struct Unlawful(pub UserData, pub OpResult);

impl SimRing {
    /// Whether `land` may be called so: where it would end an operation, that is the request's, and there is room in
    /// the store for its bytes.
    pub fn may_land(
        &self,
        user_data: UserData,
        given: OpResult,
        store: &Store,
        request: &Request,
    ) -> bool
        ensures { IsTrue result ↔ (IsTrue (may_land self.now user_data given) → IsReady (flight_of self.now user_data) given request.now store.now) }
    {
        match self.allowed(user_data, given) {
            Some(window) => is_ready(window, given, store, request),
            None => true,
        }
    }

    /// Ends the operation with this user data, and moves its bytes between the store and the request whose operation
    /// it is. `Unlawful` where the kernel has no such operation, or where its window doesn't allow the result; then
    /// nothing changes.
    ///
    /// The caller must lend that request, and have made room in the store for the bytes (`may_land`).
    pub fn land(
        &mut self,
        user_data: UserData,
        given: OpResult,
        store: &mut Store,
        request: &mut Request,
    ) -> Result<(), Unlawful>
        requires { IsTrue (may_land self.old user_data given) → IsReady (flight_of self.old user_data) given request.old store.old }
        ensures answer { result ≡ (if may_land self.old user_data given then Ok tt else Err (record { 0 = user_data; 1 = given })) }
        ensures after { self.new ≡ (if may_land self.old user_data given then landed self.old user_data given else self.old) }
        ensures moved { OnOk result (Moves (flight_of self.old user_data) given request.old request.new store.old store.new) }
        ensures request { OnErr result (request.new ≡ request.old) }
        ensures store { OnErr result (store.new ≡ store.old) }
    {
        let Some(window) = self.allowed(user_data, given) else {
            return Err(Unlawful(user_data, given));
        };
        move_counted(window, given, store, request);
        self.end(user_data, given);
        Ok(())
    }
}

/// Whether a window is the request's and ends within 64 bits, and there is room for the bytes that this result counts.
fn is_ready(window: Window, given: OpResult, store: &Store, request: &Request) -> bool
    requires lawful { IsTrue (is_lawful (most_of window) given) }
    ensures { IsTrue result ↔ IsReadyFor window given request.now store.now }
{
    match given {
        OpResult::Count(count) => {
            if request.window(&Some(OpenRecord::new())) != window {
                return false;
            }
            window.offset.checked_add(window.length as u64).is_some()
                && store.has_room(window, count as usize)
        }
        OpResult::Errno(_) => true,
    }
}

/// Moves the bytes of a window that this result counts.
fn move_counted(window: Window, given: OpResult, store: &mut Store, request: &mut Request)
    requires ready { IsReadyFor window given request.old store.old }
    requires lawful { IsTrue (is_lawful (most_of window) given) }
    ensures { MovesBytes window given request.old request.new store.old store.new }
{
    let OpResult::Count(count) = given else {
        return;
    };
    let count = count as usize;
    match window.kind {
        Opcode::Send => store.send(window.target, count, request),
        Opcode::Recv => store.receive(window.target, count, request),
        Opcode::Read => store.read(window.target, window.offset, count, request),
        Opcode::Write => store.write(window.target, window.offset, count, request),
        _ => {}
    }
}
