//! Texts that are traces, with what they say.

use crate::reading::{Of, says};
use std::test::Fail;

/// A header with one socket.
pub const HEADER: &str =
    "workers 1\ninterval 31\nring 16\ntick 5000000\nconnect 10000000\nrw 10000000\nspin 0 0 0 0\nfiles 0\nsockets 1\n";

const FIRST: &str =
    "workers 1\ninterval 31\nring 16\ntick 5000000\nconnect 10000000\nrw 10000000\nspin 0 0 0 0\n\
    files 0\nsockets 1\nroot send 0 10 await end\nsteps\nw 0 1000\nk 0 10\nw 0 1000\n";

const OF_FIRST: &[(Of, &str)] = &[
    (
        Of::Config,
        "Configuration { workers: 1, interval: 31, ring: 16, tick: 5000000, connect: 10000000, rw: 10000000, \
        spin: Spin { budget: 0, most: 0, quick: 0, iterations: 0 }, files: 0, sockets: 1 }",
    ),
    (Of::Scripts, "[]"),
    (Of::Root, "[Send { socket: 0, length: 10 }, Await, End]"),
    (
        Of::Steps,
        "[Work { worker: 0, count: 1000 }, One { action: Land { request: 0, result: Count(10) } }, \
        Work { worker: 0, count: 1000 }]",
    ),
    (Of::Total, "2001"),
];

#[test]
fn reads_a_trace(rt: HostRuntime) -> Result<(), Fail> {
    says(&rt, rt.alloc(), "", FIRST, OF_FIRST)
}

/// What stands below a comment and the header.
const ENDS_AND_COMMENTS: &str =
    "# a comment\r\n\r\n\nroot end\r\n#\nsteps\r\nk 18446744073709551615 -1\r\n\nk 0 18446744073709551615\n\
    w 18446744073709551615 18446744073709551615";

const OF_ENDS_AND_COMMENTS: &[(Of, &str)] = &[
    (Of::Root, "[End]"),
    (
        Of::Steps,
        "[One { action: Land { request: 18446744073709551615, result: Errno(1) } }, \
        One { action: Land { request: 0, result: Count(18446744073709551615) } }, \
        Work { worker: 18446744073709551615, count: 18446744073709551615 }]",
    ),
];

#[test]
fn reads_line_ends_and_comments(rt: HostRuntime) -> Result<(), Fail> {
    let header = format!(in rt.alloc(); "#\n{HEADER}")?;
    says(
        &rt,
        rt.alloc(),
        header.as_str(),
        ENDS_AND_COMMENTS,
        OF_ENDS_AND_COMMENTS,
    )
}

const NUMBERS: &str =
    "workers 0\r\ninterval 18446744073709551615\nring 3\ntick 4\nconnect 5\nrw 6\nspin 7 8 9 10\n\
    files 11\nsockets 12\nroot end\nsteps";

const OF_NUMBERS: &[(Of, &str)] = &[
    (
        Of::Config,
        "Configuration { workers: 0, interval: 18446744073709551615, ring: 3, tick: 4, connect: 5, rw: 6, \
        spin: Spin { budget: 7, most: 8, quick: 9, iterations: 10 }, files: 11, sockets: 12 }",
    ),
    (Of::Total, "0"),
];

#[test]
fn reads_each_number_of_the_header(rt: HostRuntime) -> Result<(), Fail> {
    says(&rt, rt.alloc(), "", NUMBERS, OF_NUMBERS)
}

const WORDS: &str =
    "root send 0 1048576 poll 0 await drop sleep 0 sleep 18446744073709551615 yield fault 0 end await\nsteps\n";

const OF_WORDS: &[(Of, &str)] = &[(
    Of::Root,
    "[Send { socket: 0, length: 1048576 }, Poll { listener: 0 }, Await, Drop, Sleep { time: 0 }, \
    Sleep { time: 18446744073709551615 }, Yield, Fault { code: 0 }, End, Await]",
)];

#[test]
fn reads_each_word(rt: HostRuntime) -> Result<(), Fail> {
    says(&rt, rt.alloc(), HEADER, WORDS, OF_WORDS)
}

const STEPS: &str =
    "root end\nsteps\nw 1 5\nc 0\nc 18446744073709551615\nk 2 -125\nk 0 7\ne 18446744073709551615\n";

const OF_STEPS: &[(Of, &str)] = &[
    (
        Of::Steps,
        "[Work { worker: 1, count: 5 }, One { action: Clock { by: 0 } }, \
        One { action: Clock { by: 18446744073709551615 } }, \
        One { action: Land { request: 2, result: Errno(125) } }, \
        One { action: Land { request: 0, result: Count(7) } }, \
        One { action: Stir { worker: 18446744073709551615 } }]",
    ),
    (Of::Total, "10"),
];

#[test]
fn reads_each_step(rt: HostRuntime) -> Result<(), Fail> {
    says(&rt, rt.alloc(), HEADER, STEPS, OF_STEPS)
}
