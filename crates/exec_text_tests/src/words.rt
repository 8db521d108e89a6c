//! Words that register a request or a sleep, or make a worker, in scripts and in the root's line.

use crate::pool::HEADER;
use crate::reading::{Frame, Of, faults_at, says};
use std::test::Fail;

const OF_SOCKETS: &[(Of, &str)] = &[(
    Of::LastScript,
    "Some([Poll { listener: 0 }, Send { socket: 0, length: 1 }, \
    Recv { socket: 0, length: 2 }, Fill { socket: 0, length: 1048576 }])",
)];

#[test]
fn reads_words_of_sockets(rt: HostRuntime) -> Result<(), Fail> {
    let body = "script poll 0 send 0 1 recv 0 2 fill 0 1048576\nroot end\nsteps\n";
    says(&rt, rt.alloc(), HEADER, body, OF_SOCKETS)
}

const OF_ONE_NUMBER: &[(Of, &str)] = &[(
    Of::LastScript,
    "Some([Connect { socket: 0 }, Sleep { time: 9 }, Dedicated { script: 0 }, Sync { file: 1 }])",
)];

#[test]
fn reads_words_of_one_number(rt: HostRuntime) -> Result<(), Fail> {
    let body = "script conn 0 sleep 9 dedicated 0 sync 1\nroot end\nsteps\n";
    says(&rt, rt.alloc(), HEADER, body, OF_ONE_NUMBER)
}

const OF_READS: &[(Of, &str)] = &[(
    Of::Root,
    "[Read { file: 1, offset: 4611686018427387904, length: 1048576 }, \
    Hint { file: 0, offset: 0, length: 1 }]",
)];

#[test]
fn reads_words_of_reads(rt: HostRuntime) -> Result<(), Fail> {
    let body = "root read 1 4611686018427387904 1048576 hint 0 0 1\nsteps\n";
    says(&rt, rt.alloc(), HEADER, body, OF_READS)
}

const OF_A_DIRECT_READ: &[(Of, &str)] = &[(
    Of::Root,
    "[Direct { file: 1, offset: 4096, length: 8192 }]",
)];

#[test]
fn reads_a_direct_read(rt: HostRuntime) -> Result<(), Fail> {
    let body = "root direct 1 4096 8192\nsteps\n";
    says(&rt, rt.alloc(), HEADER, body, OF_A_DIRECT_READ)
}

const OF_WRITES: &[(Of, &str)] = &[(
    Of::Root,
    "[Write { file: 0, offset: 1, length: 2 }, Dsync { file: 1, offset: 0, length: 3 }, \
    Many { file: 0, offset: 7, length: 4 }]",
)];

#[test]
fn reads_words_of_writes(rt: HostRuntime) -> Result<(), Fail> {
    let body = "root write 0 1 2 dsync 1 0 3 many 0 7 4\nsteps\n";
    says(&rt, rt.alloc(), HEADER, body, OF_WRITES)
}

const OF_A_DEDICATED: &[(Of, &str)] = &[
    (Of::Root, "[Dedicated { script: 0 }, Await, End]"),
    (Of::Total, "2000"),
];

#[test]
fn reads_a_dedicated_worker(rt: HostRuntime) -> Result<(), Fail> {
    let body = "script end\nroot dedicated 0 await end\nsteps\nw 0 1000\nw 4 1000\n";
    says(&rt, rt.alloc(), HEADER, body, OF_A_DEDICATED)
}

/// What no line of words has: with one socket and two files, and two scripts.
const NO_WORDS: &[&str] = &[
    "poll 1",
    "poll 0 0",
    "recv 1 1",
    "recv 0 0",
    "recv 0 1048577",
    "recv 0",
    "fill 0 0",
    "fill 0 01",
    "fill 0 1 1",
    "conn 1",
    "conn",
    "conn 00",
    "conn 18446744073709551616",
    "read 2 0 1",
    "read 0 4611686018427387905 1",
    "read 0 0 0",
    "read 0 0 1048577",
    "read 0 0",
    "read 0 0 1 1",
    "read 0  0 1",
    "hint 2 0 1",
    "hint 0 18446744073709551615 1",
    "hint 0 18446744073709551616 1",
    "direct 0 00 1",
    "direct 0 -1 1",
    "Direct 0 0 1",
    "write 0 0 -1",
    "write 2 0 1",
    "dsync 0 4611686018427387905 1",
    "dsync 2 0 1",
    "many 0 0 1048577",
    "many",
    "sync 2",
    "sync",
    "sync 0 0",
    "dedicated 2",
    "dedicated 18446744073709551616",
    "dial 0",
    "accept 0",
    "put 0 10",
    "ws 0 0 1",
    "urgent 0",
];

const IN_A_SCRIPT: &Frame = &Frame {
    header: HEADER,
    before: "script end\nscript await ",
    after: " end\nroot end\nsteps\n",
};

const IN_THE_ROOT: &Frame = &Frame {
    header: HEADER,
    before: "script end\nscript end\nroot ",
    after: "\nsteps\n",
};

#[test]
fn finds_faults_in_words(rt: HostRuntime) -> Result<(), Fail> {
    faults_at(&rt, rt.alloc(), 11, IN_A_SCRIPT, NO_WORDS)?;
    faults_at(&rt, rt.alloc(), 12, IN_THE_ROOT, NO_WORDS)
}
