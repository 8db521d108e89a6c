//! Registrations of requests: polls here and elsewhere, and what is let go. What has to come of each step is what the
//! rules of registrations say.

use crate::visits::{Heard, LetGo, Made, Round, Visit, play};
use exec_base::slab::Id;
use exec_waiters::waiter_id::WaiterId;

/// The second request of slot 0.
const SECOND: WaiterId = WaiterId(Id {
    index: 0,
    generation: 1,
});

/// It is polled here until it fails.
const TAKEN: &[Round] = &[Round {
    made: Made::Listen,
    steps: &[
        Visit::Places(2),
        Visit::Pending(true),
        Visit::Poll(7, Heard::Nothing),
        Visit::Poll(8, Heard::Nothing),
        Visit::Fail,
        Visit::Wakes(8),
        Visit::Poll(8, Heard::Failed),
        Visit::Over,
        Visit::Pending(false),
    ],
    let_go: LetGo::Here,
    after: &[Visit::Unasked],
}];

#[test]
fn a_request_is_registered_polled_and_taken(rt: HostRuntime) {
    play(&rt, rt.alloc(), TAKEN);
}

/// It is polled elsewhere, and hears there how it failed.
const ASKED: &[Round] = &[Round {
    made: Made::Listen,
    steps: &[
        Visit::PollThere(7, Heard::Nothing),
        Visit::Pending(true),
        Visit::Carry,
        Visit::Poll(7, Heard::Nothing),
        Visit::Unasked,
        Visit::Fail,
        Visit::Send,
        Visit::PollAway(Heard::Failed),
    ],
    let_go: LetGo::Away,
    after: &[Visit::Unasked],
}];

#[test]
fn a_poll_elsewhere_asks_once_and_hears(rt: HostRuntime) {
    play(&rt, rt.alloc(), ASKED);
}

/// It is let go by its worker.
const RELEASED: &[Round] = &[Round {
    made: Made::Listen,
    steps: &[Visit::Empty(false)],
    let_go: LetGo::Here,
    after: &[Visit::Empty(true), Visit::Unasked],
}];

#[test]
fn what_is_released_here_is_let_go(rt: HostRuntime) {
    play(&rt, rt.alloc(), RELEASED);
}

/// A second one, in the slot of the first, is let go elsewhere while it is staged.
const RELEASED_ELSEWHERE: &[Round] = &[
    Round {
        made: Made::Listen,
        steps: &[],
        let_go: LetGo::Here,
        after: &[],
    },
    Round {
        made: Made::Listen,
        steps: &[Visit::Stage],
        let_go: LetGo::Away,
        after: &[
            Visit::Cancels(false),
            Visit::Cancel(SECOND),
            Visit::Cancels(true),
            Visit::Empty(false),
        ],
    },
];

#[test]
fn what_is_released_elsewhere_is_let_go(rt: HostRuntime) {
    play(&rt, rt.alloc(), RELEASED_ELSEWHERE);
}

/// Two that are polled where their worker closes.
const CLOSING: &[Round] = &[
    Round {
        made: Made::Listen,
        steps: &[
            Visit::Close,
            Visit::Places(2),
            Visit::Poll(7, Heard::Closed),
            Visit::Empty(true),
        ],
        let_go: LetGo::Here,
        after: &[],
    },
    Round {
        made: Made::Listen,
        steps: &[
            Visit::Places(2),
            Visit::Poll(7, Heard::Closed),
            Visit::Empty(true),
        ],
        let_go: LetGo::Here,
        after: &[],
    },
];

#[test]
fn a_closing_worker_takes_nothing(rt: HostRuntime) {
    play(&rt, rt.alloc(), CLOSING);
}

/// One that was refused, which its first poll tells.
const REFUSED: &[Round] = &[Round {
    made: Made::Refuse,
    steps: &[
        Visit::Pending(false),
        Visit::Poll(7, Heard::Closed),
        Visit::Over,
    ],
    let_go: LetGo::Here,
    after: &[Visit::Unasked],
}];

#[test]
fn a_refused_registration_says_so_once(rt: HostRuntime) {
    play(&rt, rt.alloc(), REFUSED);
}

/// One that is polled and let go where the mail is closed.
const CLOSED_MAIL: &[Round] = &[Round {
    made: Made::Invent,
    steps: &[
        Visit::Close,
        Visit::CloseMail,
        Visit::PollAway(Heard::Closed),
    ],
    let_go: LetGo::Away,
    after: &[Visit::Empty(true)],
}];

#[test]
fn a_closed_mail_takes_nothing(rt: HostRuntime) {
    play(&rt, rt.alloc(), CLOSED_MAIL);
}
