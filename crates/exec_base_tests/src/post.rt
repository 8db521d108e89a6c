//! A post that gives a message back where it is closed.

ghost use Rattle.std.specs.Prelude.{◌+◌, ◌≤◌, IsTrue, vec_len, vec_capacity};

use crate::found::{holds, same};
use exec_base::post::Post;
use std::process::Abort;
use std::test::Fail;

/// A post into a list with room for a few messages, which may be closed. A message that is there already is dropped.
#[derive(Drop)]
struct Inbox {
    messages: Vec<u32>,
    closed: bool,
}

impl Post<u32> for Inbox {
    ghost use Rattle.std.specs.Prelude.{Some, ◌+◌, ◌≤◌, vec_len, vec_capacity};

    ghost closed = { λ inbox. inbox.closed };

    ghost taken = { λ inbox. Some inbox.messages.items };

    ghost has_place = { λ inbox message. vec_len inbox.messages + 1 ≤ vec_capacity inbox.messages };

    fn send(&mut self, message: u32) -> Result<(), u32> {
        if self.closed {
            return Err(message);
        }
        if !self.messages.contains(&message) {
            self.messages.push_reserved(message);
        }
        Ok(())
    }
}

impl Inbox {
    /// Whether there is room for one more message.
    fn has_room(&self) -> bool
        ensures { IsTrue result → vec_len self.now.messages + 1 ≤ vec_capacity self.now.messages }
    {
        self.messages.len() < self.messages.capacity()
    }
}

/// Sends a message for which there is room.
fn send(inbox: &mut Inbox, rt: &impl Abort, message: u32) -> Result<(), u32> {
    let room = inbox.has_room();
    holds!(&rt; room);
    inbox.send(message)
}

#[test]
fn a_closed_post_gives_the_message_back(rt: HostRuntime) -> Result<(), Fail> {
    let mut inbox = Inbox {
        messages: Vec::with_capacity(rt.alloc(), 3)?,
        closed: false,
    };
    same!(&rt; send(&mut inbox, &rt, 1), Ok(()));
    same!(&rt; send(&mut inbox, &rt, 1), Ok(()));
    same!(&rt; inbox.messages.len(), 1);
    same!(&rt; send(&mut inbox, &rt, 2), Ok(()));
    inbox.closed = true;
    same!(&rt; send(&mut inbox, &rt, 3), Err(3));
    same!(&rt; inbox.messages.as_slice(), [1, 2].as_slice());
    Ok(())
}
