//! The ring with its model kernel: a poll and its wakes, a cancel, and a store that nothing landed in.

use exec_request::window::Window;
use exec_ring::completion::{CANCEL_USER_DATA, Completion, WAKE_USER_DATA};
use exec_ring::ring::{Entered, Ring};
use exec_ring::sim_ring::SimRing;
use exec_ring::store::Store;
use std::test::Fail;

#[test]
fn a_poll_and_its_wakes(rt: HostRuntime) -> Result<(), Fail> {
    let mut store = Store::new(rt.alloc());
    let mut ring = SimRing::new(rt.alloc(), 2)?;
    ring.reserve(rt.alloc(), Window::wake(), &mut store)?;
    assert_eq!(rt; ring.room(), 2);
    ring.stage(Window::wake(), WAKE_USER_DATA);
    assert_eq!(rt; ring.room(), 1);
    ring.busy();
    assert!(rt; ring.enter() == Entered::Busy);
    assert!(rt; ring.enter() == Entered::Taken(1));
    assert!(rt; ring.is_quiet());
    ring.raise();
    ring.last();
    ring.raise();
    ring.raise();
    assert!(rt; ring.reap() == Some(Completion::wake(true)));
    assert!(rt; ring.reap() == Some(Completion::wake(false)));
    assert!(rt; ring.reap() == None);
    Ok(())
}

#[test]
fn a_cancel_is_acknowledged(rt: HostRuntime) -> Result<(), Fail> {
    let mut store = Store::new(rt.alloc());
    let mut ring = SimRing::new(rt.alloc(), 1)?;
    ring.reserve(rt.alloc(), Window::cancel(7), &mut store)?;
    ring.stage(Window::cancel(7), CANCEL_USER_DATA);
    assert_eq!(rt; ring.room(), 0);
    assert!(rt; ring.enter() == Entered::Taken(1));
    assert!(rt; ring.reap() == Some(Completion::acknowledgement(CANCEL_USER_DATA)));
    ring.release(Window::cancel(7), &mut store);
    Ok(())
}

#[test]
fn a_store_without_landings(rt: HostRuntime) -> Result<(), Fail> {
    let mut store = Store::new(rt.alloc());
    store.feed(rt.alloc(), 3, b"abc")?;
    assert_eq!(rt; store.sent(3).len(), 0);
    assert_eq!(rt; store.received(3).len(), 0);
    assert!(rt; store.file(0).is_none());
    Ok(())
}
