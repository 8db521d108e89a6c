//! A caller's task beside a worker that goes to sleep, after each number of its steps. The logs of other runs of several
//! workers stand in `runs`.

use crate::found::holds;
use crate::run::call;
use std::alloc::Global;
use std::test::Fail;

/// A header with two workers and one socket.
const HEADER: &str = "workers 2
interval 31
ring 16
tick 5000000
connect 10000000
rw 10000000
spin 0 0 0 0
files 0
sockets 1
";

/// A root that waits, with one script.
const WAITING: &str = "script end
root await end
steps
w 0 4000
";

/// How many lines of the log are this one.
fn count_of(log: &str, line: &str) -> usize {
    let mut count: usize = 0;
    for found in log.split('\n') {
        if found == line {
            count = count.saturating_add(1);
        }
    }
    count
}

/// Whether the log has this line of one of the two workers, and once.
fn has_one(log: &str, first: &str, second: &str) -> bool {
    count_of(log, first).saturating_add(count_of(log, second)) == 1
}

/// Whether a worker is asleep at the end of the log: it went to sleep, was then refused a step, and nobody roused it.
fn is_asleep(log: &str, worker: &str, roused: &str) -> bool {
    let mut asleep = false;
    let mut refused = false;
    for line in log.split('\n') {
        if let Some(said) = line.strip_prefix(worker) {
            refused = said == "refused";
            asleep = said == "sleep ever" || (asleep && refused);
        }
        if let Some((_, number)) = line.split_once(" rouse ") {
            asleep = asleep && number != roused;
        }
    }
    asleep && refused
}

/// Whether the call returned once, and its task was polled once, by one of the workers, and both are asleep at the end.
fn is_good(log: &[u8]) -> bool {
    let Ok(log) = str::from_utf8(log) else {
        return false;
    };
    count_of(log, "x 0 return") == 1
        && has_one(log, "w 0 begin 2", "w 1 begin 2")
        && has_one(log, "w 0 done 2", "w 1 done 2")
        && is_asleep(log, "w 0 ", "0")
        && is_asleep(log, "w 1 ", "1")
}

/// The quiet log of a spawn by a caller, after worker one has taken so many steps towards its sleep. The caller is asked for
/// more steps than a call has.
fn spawn_after(alloc: Global, steps: usize) -> Result<Vec<u8>, Fail> {
    let mut text = format!(in alloc; "{HEADER}{WAITING}w 1 {steps}\nx 0 spawn 0\n")?;
    for _ in 0..40 {
        text.push_str("x 0\n")?;
    }
    text.push_str("w 1 4000\nw 0 4000\nw 1 4000\n")?;
    let (_status, sink) = call(alloc, "trace quiet", text.as_str())?;
    Ok(sink.bytes().to_vec(alloc)?)
}

#[test]
fn a_spawn_beside_a_worker_that_parks_is_polled_once(rt: HostRuntime) -> Result<(), Fail> {
    let mut good: usize = 0;
    for steps in 1..=200 {
        let log = spawn_after(rt.alloc(), steps)?;
        if is_good(log.as_slice()) {
            good = good.saturating_add(1);
        }
    }
    holds!(&rt; good == 200);
    Ok(())
}
