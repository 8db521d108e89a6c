//! How another worker's wait is ended, and how it is sent a message.
//!
//! Where a worker waits and nobody signalled it before, its wait is ended by a second step: a wait on its ring has a
//! wake raised there, and a worker that sleeps is roused, whichever of its two waits it is in by then.

ghost use Rattle.std.specs.Prelude.{◌≡◌};
ghost use Rattle.exec_parts.specs.Pooled.{HasPlaceFor, asks_if_sent, chair_raised, chair_sent, event_rousing, event_sent};

use crate::parts::mail::mail_of;
use crate::parts::seat::Seat;
use exec_machine::event::Event;
use exec_machine::state::MailMessage;

/// Ends the wait of a worker, whose seat this is, and rouses it where it sleeps.
pub fn rouse(ring: bool, worker: usize, seat: &mut Seat) -> Event
    ensures event { result ≡ event_rousing worker seat.old.rest }
    ensures seat { seat.new ≡ chair_raised ring seat.old }
{
    if seat.raise(ring) {
        Event::Rouse { worker }
    } else {
        Event::Turn
    }
}

/// Puts a message into the mailbox of a worker, whose seat this is. Answers what happened, and whether a signal must
/// follow. A second wake of its root beside one that it hasn't taken is left out. `Closed` where that worker takes no
/// mail any more, and then nothing is sent. The caller must know that an open inbox has a place for the message.
pub fn mail(worker: usize, message: MailMessage, seat: &mut Seat) -> (Event, bool)
    requires place { HasPlaceFor message seat.old.mailbox }
    ensures event { result.0 ≡ event_sent worker message seat.old.mailbox }
    ensures asks { result.1 ≡ asks_if_sent message seat.old.mailbox }
    ensures seat { seat.new ≡ chair_sent message seat.old }
{
    let mailbox = &mut seat.mailbox;
    match mailbox.inbox.send(&mut mailbox.waker, mail_of(message)) {
        Ok(asks) => (Event::Send { worker, message }, asks),
        Err(_given_back) => (Event::Closed, false),
    }
}
