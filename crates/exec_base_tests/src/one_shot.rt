//! A one-shot that is sent to, polled and closed.

use crate::found::same;
use exec_base::error::Error;
use exec_base::one_shot::OneShot;
use std::test::Fail;

#[test]
fn a_value_is_delivered_once(rt: HostRuntime) -> Result<(), Fail> {
    let mut channel = OneShot::new();
    same!(&rt; channel.poll(), Ok(None));
    same!(&rt; channel.send(7), Ok(()));
    same!(&rt; channel.send(8), Err(8));
    same!(&rt; channel.poll(), Ok(Some(7)));
    same!(&rt; channel.poll(), Err(Error::Closed));
    same!(&rt; channel.send(9), Err(9));
    Ok(())
}

#[test]
fn a_closed_one_shot_gives_the_value_back(rt: HostRuntime) -> Result<(), Fail> {
    let mut channel = OneShot::new();
    channel.close();
    same!(&rt; channel.send(7), Err(7));
    same!(&rt; channel.poll(), Err(Error::Closed));
    Ok(())
}

#[test]
fn a_value_that_was_sent_outlives_the_close(rt: HostRuntime) -> Result<(), Fail> {
    let mut channel = OneShot::new();
    same!(&rt; channel.send(7), Ok(()));
    channel.close();
    same!(&rt; channel.poll(), Ok(Some(7)));
    same!(&rt; channel.poll(), Err(Error::Closed));
    Ok(())
}
