//! What the next operation of a request asks of the kernel.
//!
//! A window names no memory: it says how many bytes move, from where or to where, and how. Whoever has the request
//! has the bytes. Two windows belong to no request: the cancel of an operation, and the poll by which a ring is woken.

ghost use Rattle.std.specs.Prelude.{◌≡◌};
ghost use Rattle.exec_request.specs.Windows.{plain_window, cancel_window, wake_window, most_of};

use exec_outcomes::outcome::LARGEST_COUNT;

/// The kind of an operation. Stands for the operation code of a submission.
#[derive(Clone, Copy, Debug, PartialEq, Eq)]
pub enum Opcode {
    /// Bytes go to a socket.
    Send,
    /// Bytes come from a socket.
    Recv,
    /// Bytes come from a file.
    Read,
    /// Bytes go to a file.
    Write,
    /// The bytes of a file are made durable.
    Sync,
    /// A socket is connected.
    Connect,
    /// One event of a listener is awaited.
    Poll,
    /// An operation that is under way is to end.
    Cancel,
    /// A ring is told to wake its worker.
    Wake,
}

/// The window of an operation: what it moves, from where or to where, and how. It stands for the submission of
/// the original, which names memory where this one names a request.
#[derive(Clone, Copy, Debug, PartialEq, Eq)]
pub struct Window {
    /// What the operation does.
    pub kind: Opcode,
    /// The number of its socket, listener or open; 0 where it has none.
    pub target: u32,
    /// Where it begins in the file, in bytes. Of a cancel, the user data of the operation that is to end. Else 0.
    pub offset: u64,
    /// How many bytes it moves at most.
    pub length: u32,
    /// In how many chunks they lie, at most 1,024; 0 where it moves no bytes.
    pub chunks: u32,
    /// Whether it has the hint to keep its bytes out of the page cache.
    pub hint: bool,
    /// Whether it passes the page cache by.
    pub direct: bool,
    /// Whether its bytes are durable when it ends.
    pub dsync: bool,
}

impl Window {
    /// An operation that has no place in a file, or a sync: bytes in so many chunks, or none.
    pub(crate) fn plain(kind: Opcode, target: u32, length: u32, chunks: u32) -> Window
        ensures { result ≡ plain_window kind target length chunks }
    {
        Window {
            kind,
            target,
            offset: 0,
            length,
            chunks,
            hint: false,
            direct: false,
            dsync: false,
        }
    }

    /// The cancel of the operation with this user data.
    pub fn cancel(user_data: u64) -> Window
        ensures { result ≡ cancel_window user_data }
    {
        Window {
            offset: user_data,
            ..Window::plain(Opcode::Cancel, 0, 0, 0)
        }
    }

    /// The poll by which a ring is woken.
    pub fn wake() -> Window
        ensures { result ≡ wake_window }
    {
        Window::plain(Opcode::Wake, 0, 0, 0)
    }

    /// The largest count that the kernel may answer: the window's bytes, and what a result can say where it moves none.
    pub fn most(self) -> u64
        ensures { result ≡ most_of self }
    {
        match self.kind {
            Opcode::Send | Opcode::Recv | Opcode::Read | Opcode::Write => self.length as u64,
            Opcode::Sync | Opcode::Connect | Opcode::Poll | Opcode::Cancel | Opcode::Wake => {
                LARGEST_COUNT
            }
        }
    }
}
