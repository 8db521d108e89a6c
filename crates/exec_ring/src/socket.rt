//! The bytes of a socket: those that its peer sent, and those that it sent itself.
//!
//! What the peer sent is fed by whoever plays the peer, and received in that order; where no byte is left, a
//! receive that the kernel ends with bytes all the same has zeros. A list of sent or received bytes grows at a
//! landing, within room that was made before.

ghost use Rattle.std.specs.{Prelude.{◌≡◌, ◌+◌, ◌-◌, ◌≤◌, ◌++◌, length, take, drop, true, vec_len, OnOk, OnErr}, Vec.vec_capacity};
ghost use Rattle.exec_bufs.specs.Buffers.{resized};
ghost use Rattle.exec_request.specs.{Windows.{moves_out, moves_in}, Requests.window_by, Bytes.window_bytes};
ghost use Rattle.exec_ring.specs.{Fillings.Fills, Sockets.{nothing_moved, after_send, after_receive}};

use exec_request::request::Request;
use exec_request::window::Opcode;
use std::alloc::{AllocError, Global};
use std::marker::Model;

/// The bytes of a socket.
#[derive(Drop)]
pub struct Socket {
    /// What the peer sent.
    fed: Vec<u8>,
    /// How many of them were received.
    taken: usize,
    /// What it sent.
    sent: Vec<u8>,
    /// What it received.
    received: Vec<u8>,
    /// For how many more bytes there is room in `sent`.
    sent_room: usize,
    /// For how many more bytes there is room in `received`.
    received_room: usize,
}

impl Model for Socket {
    ghost use Rattle.exec_ring.specs.Sockets.{SocketState};

    ghost Value = { SocketState };

    ghost use Rattle.exec_ring.specs.SocketLayout.{socket_in, HasSocketRoom};

    ghost view = { socket_in };

    ghost invariant = { HasSocketRoom };
}

impl Socket {
    ghost use Rattle.exec_ring.specs.Stores.{with_room, without_room};

    /// A socket of which no byte moved, without room for any.
    pub fn new(alloc: Global) -> Socket
        ensures { result ≡ nothing_moved }
    {
        Socket {
            fed: Vec::new(alloc),
            taken: 0,
            sent: Vec::new(alloc),
            received: Vec::new(alloc),
            sent_room: 0,
            received_room: 0,
        }
    }

    /// The peer sends these bytes. An `Err` comes only for want of memory.
    pub(crate) fn feed(&mut self, bytes: &[u8]) -> Result<(), AllocError>
        ensures ok { OnOk result (self.new ≡ record self.old { fed = self.old.fed ++ bytes.now }) }
        ensures err { OnErr result (self.new ≡ self.old) }
    {
        self.fed.extend_from_slice(bytes)
    }

    /// The bytes that it sent.
    pub(crate) fn sent(&self) -> &[u8]
        ensures { result.now ≡ self.now.sent }
    {
        self.sent.as_slice()
    }

    /// The bytes that it received.
    pub(crate) fn received(&self) -> &[u8]
        ensures { result.now ≡ self.now.received }
    {
        self.received.as_slice()
    }

    /// For how many more bytes there is room in what it sent.
    pub(crate) fn sent_room(&self) -> usize
        ensures { result ≡ self.now.sent_room }
    {
        self.sent_room
    }

    /// For how many more bytes there is room in what it received.
    pub(crate) fn received_room(&self) -> usize
        ensures { result ≡ self.now.received_room }
    {
        self.received_room
    }

    /// Makes room for so many more bytes to be sent, or received. An `Err` comes only for want of memory.
    pub(crate) fn reserve(&mut self, kind: Opcode, count: usize) -> Result<(), AllocError>
        ensures ok { OnOk result (self.new ≡ with_room kind count self.old) }
        ensures err { OnErr result (self.new ≡ self.old) }
    {
        match kind {
            Opcode::Send => {
                let room = self.sent_room.checked_add(count).ok_or(AllocError)?;
                self.sent.reserve(room)?;
                self.sent_room = room;
            }
            Opcode::Recv => {
                let room = self.received_room.checked_add(count).ok_or(AllocError)?;
                self.received.reserve(room)?;
                self.received_room = room;
            }
            _ => {}
        }
        Ok(())
    }

    /// Gives up the room for so many bytes to be sent, or received, or for all where there is no more.
    pub(crate) fn release(&mut self, kind: Opcode, count: usize)
        ensures { self.new ≡ without_room kind count self.old }
    {
        match kind {
            Opcode::Send => self.sent_room = self.sent_room.saturating_sub(count),
            Opcode::Recv => self.received_room = self.received_room.saturating_sub(count),
            _ => {}
        }
    }

    /// Sends the first bytes of the window of this request, so many.
    pub(crate) fn send(&mut self, count: usize, request: &Request)
        requires out { moves_out (window_by true request.now).kind ≡ true }
        requires within { count ≤ (window_by true request.now).length }
        requires room { count ≤ self.old.sent_room }
        ensures { self.new ≡ after_send count (window_bytes request.now) self.old }
    {
        append_window(&mut self.sent, count, request);
        self.sent_room -= count;
    }

    /// Receives so many bytes into the window of this request.
    pub(crate) fn receive(&mut self, count: usize, request: &mut Request)
        requires in_ { moves_in (window_by true request.old).kind ≡ true }
        requires within { count ≤ (window_by true request.old).length }
        requires room { count ≤ self.old.received_room }
        ensures socket { self.new ≡ after_receive count self.old }
        ensures filled { Fills request.old request.new (resized count self.old.fed) }
    {
        let bytes = next_of(&self.fed, self.taken, count);
        request.fill_window(0, count, bytes);
        append_filled(&mut self.received, count, bytes);
        self.taken += bytes.len();
        self.received_room -= count;
    }
}

/// The bytes from this place on, at most so many.
fn next_of(fed: &[u8], taken: usize, count: usize) -> &[u8]
    requires { taken ≤ length fed.now }
    ensures { result.now ≡ take count (drop taken fed.now) }
{
    let rest = &fed[taken..];
    &rest[..count.min(rest.len())]
}

/// Appends the first bytes of the window of this request, so many, in room that is there.
fn append_window(sent: &mut Vec<u8>, count: usize, request: &Request)
    requires out { moves_out (window_by true request.now).kind ≡ true }
    requires within { count ≤ (window_by true request.now).length }
    requires room { vec_len sent.old + count ≤ vec_capacity sent.old }
    ensures items { sent.new.items ≡ sent.old.items ++ take count (window_bytes request.now) }
    ensures capacity { vec_capacity sent.old ≤ vec_capacity sent.new }
{
    let start = sent.len();
    let _ = sent.resize(start + count, 0);
    request.copy_window(0, sent.slice_mut(start..));
}

/// Appends these bytes and zeros after their end, so many in all, in room that is there.
fn append_filled(received: &mut Vec<u8>, count: usize, bytes: &[u8])
    requires within { length bytes.now ≤ count }
    requires room { vec_len received.old + count ≤ vec_capacity received.old }
    ensures items { received.new.items ≡ received.old.items ++ resized count bytes.now }
    ensures capacity { vec_capacity received.old ≤ vec_capacity received.new }
{
    let end = received.len() + count;
    let _ = received.extend_from_slice(bytes);
    let _ = received.resize(end, 0);
}
