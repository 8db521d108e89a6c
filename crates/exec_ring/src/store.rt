//! The model bytes behind all rings of an executor: those of its sockets and of its files.
//!
//! A socket or a file that was never named has no bytes. A landing moves bytes within room that was made before, by
//! `reserve`, for the window that it ends. Room for the bytes of a send or a receive is a number for each socket: a
//! landing uses it up, and `release` gives it up: that of a request which is refused its admission, and what one leaves
//! that is over. Else it stays its socket's, and is used by nothing but later landings there. Room for the bytes of a
//! write is a stretch of its file, which stays.

ghost use Rattle.std.specs.Prelude.{◌≡◌, ◌+◌, ◌-◌, ◌^◌, ◌<◌, ◌≤◌, ◌++◌, ◌↔◌, ℕ, take, true, IsTrue, OnOk, OnErr, IfSome, IfNone};
ghost use Rattle.exec_bufs.specs.Buffers.{resized};
ghost use Rattle.exec_request.specs.{Windows.{moves_out, moves_in}, Requests.window_by, Bytes.window_bytes};
ghost use Rattle.exec_ring.specs.{Fillings.Fills, Sockets.{nothing_moved, after_send, after_receive}, Files.{byte_at, values_from}, Landings.HasRoomBy, Stores.{socket_of, store_byte, HasSocket, HasFile, HasStretch, Same, SocketBecomes, WritesOver, Reserves, Releases}};

use crate::file::File;
use crate::socket::Socket;
use exec_request::request::Request;
use exec_request::window::{Opcode, Window};
use std::alloc::{AllocError, Global};
use std::collections::BTreeMap;

/// The bytes of all sockets and files.
#[derive(Drop)]
pub struct Store {
    sockets: BTreeMap<u32, Socket>,
    files: BTreeMap<u32, File>,
}

impl Store {
    /// No bytes at all.
    pub fn new(alloc: Global) -> Store
        ensures sockets { (s : ℕ) → socket_of result s ≡ nothing_moved }
        ensures files { (f k : ℕ) → store_byte result f k ≡ 0 }
    {
        Store {
            sockets: BTreeMap::new(alloc),
            files: BTreeMap::new(alloc),
        }
    }

    /// The peer of this socket sends these bytes. An `Err` comes only for want of memory, and changes nothing.
    pub fn feed(&mut self, alloc: Global, socket: u32, bytes: &[u8]) -> Result<(), AllocError>
        ensures ok { OnOk result (SocketBecomes self.old self.new socket (record (socket_of self.old socket) { fed = (socket_of self.old socket).fed ++ bytes.now })) }
        ensures err { OnErr result (Same self.old self.new) }
    {
        self.make_socket(alloc, socket)?;
        match self.sockets.get_mut(&socket) {
            Some(there) => there.feed(bytes),
            None => Ok(()),
        }
    }

    /// The bytes that this socket sent.
    pub fn sent(&self, socket: u32) -> &[u8]
        ensures { result.now ≡ (socket_of self.now socket).sent }
    {
        match self.sockets.get(&socket) {
            Some(there) => there.sent(),
            None => &[],
        }
    }

    /// The bytes that this socket received.
    pub fn received(&self, socket: u32) -> &[u8]
        ensures { result.now ≡ (socket_of self.now socket).received }
    {
        match self.sockets.get(&socket) {
            Some(there) => there.received(),
            None => &[],
        }
    }

    /// The bytes of this file. None where nothing was ever to be written to it, and then it has zeros alone.
    pub fn file(&self, number: u32) -> Option<&File>
        ensures bytes { IfSome result (λ f. (k : ℕ) → store_byte self.now number k ≡ byte_at f.now k) }
        ensures none { IfNone result ((k : ℕ) → store_byte self.now number k ≡ 0) }
    {
        self.files.get(&number)
    }

    /// Makes a socket, unless it is there.
    fn make_socket(&mut self, alloc: Global, socket: u32) -> Result<(), AllocError>
        ensures ok { OnOk result (HasSocket self.new socket) }
        ensures same { Same self.old self.new }
    {
        if !self.sockets.contains_key(&socket) {
            self.sockets.insert(socket, Socket::new(alloc))?;
        }
        Ok(())
    }

    /// Makes a file, unless it is there.
    fn make_file(&mut self, alloc: Global, number: u32) -> Result<(), AllocError>
        ensures ok { OnOk result (HasFile self.new number) }
        ensures same { Same self.old self.new }
    {
        if !self.files.contains_key(&number) {
            self.files.insert(number, File::new(alloc))?;
        }
        Ok(())
    }

    /// Makes room for the bytes of one more window: of a send or a receive beside the room that is there, of a write
    /// for its stretch of the file. Other windows need none. An `Err` comes only for want of memory, and changes
    /// nothing. The caller must have a window that ends within 64 bits.
    pub fn reserve(&mut self, alloc: Global, window: Window) -> Result<(), AllocError>
        requires { window.offset + window.length < 2 ^ 64 }
        ensures ok { OnOk result (Reserves window self.old self.new) }
        ensures err { OnErr result (Same self.old self.new) }
    {
        match window.kind {
            Opcode::Send | Opcode::Recv => {
                self.make_socket(alloc, window.target)?;
                match self.sockets.get_mut(&window.target) {
                    Some(there) => there.reserve(window.kind, window.length as usize),
                    None => Ok(()),
                }
            }
            Opcode::Write => {
                self.make_file(alloc, window.target)?;
                match self.files.get_mut(&window.target) {
                    Some(there) => there.reserve(alloc, window.offset, window.length as u64),
                    None => Ok(()),
                }
            }
            _ => Ok(()),
        }
    }

    /// Whether there is the room that so many bytes of a window need. The caller must have a window of which so many
    /// bytes end within 64 bits.
    pub fn has_room(&self, window: Window, count: usize) -> bool
        requires { window.offset + count < 2 ^ 64 }
        ensures { IsTrue result ↔ HasRoomBy window.kind window count self.now }
    {
        let socket = self.sockets.get(&window.target);
        match window.kind {
            Opcode::Send => count <= socket.map_or(0, |there| there.sent_room()),
            Opcode::Recv => count <= socket.map_or(0, |there| there.received_room()),
            Opcode::Write => match self.files.get(&window.target) {
                Some(there) => there.covers(window.offset, count as u64),
                None => count == 0,
            },
            _ => true,
        }
    }

    /// Gives up the room that `reserve` made for the bytes of a window, of which the caller must have had it. The
    /// stretch of a file stays.
    pub fn release(&mut self, window: Window)
        ensures { Releases window self.old self.new }
    {
        if let Some(there) = self.sockets.get_mut(&window.target) {
            there.release(window.kind, window.length as usize);
        }
    }

    /// This socket sends the first bytes of the window of this request, so many.
    pub(crate) fn send(&mut self, socket: u32, count: usize, request: &Request)
        requires out { moves_out (window_by true request.now).kind ≡ true }
        requires within { count ≤ (window_by true request.now).length }
        requires room { count ≤ (socket_of self.old socket).sent_room }
        ensures { SocketBecomes self.old self.new socket (after_send count (window_bytes request.now) (socket_of self.old socket)) }
    {
        if let Some(there) = self.sockets.get_mut(&socket) {
            there.send(count, request);
        }
    }

    /// This socket receives so many bytes into the window of this request.
    pub(crate) fn receive(&mut self, socket: u32, count: usize, request: &mut Request)
        requires in_ { moves_in (window_by true request.old).kind ≡ true }
        requires within { count ≤ (window_by true request.old).length }
        requires room { count ≤ (socket_of self.old socket).received_room }
        ensures socket { SocketBecomes self.old self.new socket (after_receive count (socket_of self.old socket)) }
        ensures filled { Fills request.old request.new (resized count (socket_of self.old socket).fed) }
    {
        match self.sockets.get_mut(&socket) {
            Some(there) => there.receive(count, request),
            None => request.fill_window(0, count, &[]),
        }
    }

    /// So many bytes of this file from an offset on go into the window of this request.
    pub(crate) fn read(&self, file: u32, offset: u64, count: usize, request: &mut Request)
        requires ends { offset + count < 2 ^ 64 }
        requires in_ { moves_in (window_by true request.old).kind ≡ true }
        requires within { count ≤ (window_by true request.old).length }
        ensures { Fills request.old request.new (values_from (store_byte self.now file) offset count) }
    {
        match self.files.get(&file) {
            Some(there) => there.read(offset, count, request),
            None => request.fill_window(0, count, &[]),
        }
    }

    /// The first bytes of the window of this request, so many, are written to this file from an offset on.
    pub(crate) fn write(&mut self, file: u32, offset: u64, count: usize, request: &Request)
        requires ends { offset + count < 2 ^ 64 }
        requires out { moves_out (window_by true request.now).kind ≡ true }
        requires within { count ≤ (window_by true request.now).length }
        requires stretch { HasStretch self.old file offset count }
        ensures { WritesOver self.old self.new file offset (take count (window_bytes request.now)) }
    {
        if let Some(there) = self.files.get_mut(&file) {
            there.write(offset, count, request);
        }
    }
}
