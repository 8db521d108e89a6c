//! Texts that are no traces, with the line at which they go wrong.

use crate::read_trace::HEADER;
use crate::reading::{Frame, fault, faults, faults_at, is_trace};
use std::alloc::Global;
use std::process::Abort;
use std::test::Fail;

const ALONE: &Frame = &Frame {
    header: "",
    before: "",
    after: "",
};

const HEADERS: &[(&str, usize)] = &[
    ("", 1),
    ("\n\n", 3),
    ("workers 1\ninter", 2),
    ("workers 1", 2),
    ("workers 1\r", 1),
    ("workers 2\n", 2),
    ("#\nworkers 1 \n", 2),
    ("workers", 1),
    ("workers ", 1),
    ("workers1", 1),
    ("workers  1", 1),
    ("workers 01", 1),
    ("workers +1", 1),
    ("workers -1", 1),
    ("workers -0", 1),
    ("workers 1 1", 1),
    ("workers 18446744073709551616", 1),
    ("workers 18446744073709551615\n", 2),
    ("worker 1", 1),
    ("interval 1\nworkers 1", 1),
    ("workers 1\nworkers 1", 2),
    ("workers 1\n\r\n#\ninterval 00", 4),
];

#[test]
fn finds_faults_in_the_header(rt: HostRuntime) -> Result<(), Fail> {
    faults(&rt, rt.alloc(), ALONE, HEADERS)
}

const IN_SPIN: &Frame = &Frame {
    header: "",
    before: "workers 1\ninterval 31\nring 16\ntick 1\nconnect 1\nrw 1\n",
    after: "\n",
};

const SPINS: &[(&str, usize)] = &[
    ("spin", 7),
    ("spin ", 7),
    ("spin 0", 7),
    ("spin 0 0 0", 7),
    ("spin 0 0 0 ", 7),
    ("spin 0 0 0 0 ", 7),
    ("spin 0 0 0 0 0", 7),
    ("spin 0 0  0 0", 7),
    ("spin 0 0 00 0", 7),
    ("spin 0 0 0 +1", 7),
    ("spin 0 18446744073709551616 0 0", 7),
    ("spin0 0 0 0", 7),
    ("files 0", 7),
    ("spin 4 3 2 1\nfiles 0\nsockets 00", 9),
    ("spin 4 3 2 1\nfiles 0", 9),
];

#[test]
fn finds_faults_in_the_spin(rt: HostRuntime) -> Result<(), Fail> {
    faults(&rt, rt.alloc(), IN_SPIN, SPINS)
}

/// The lines of a trace, by their numbers.
const LINES: &[(usize, &str)] = &[
    (1, "workers 1"),
    (2, "interval 31"),
    (3, "ring 16"),
    (4, "tick 5000000"),
    (5, "connect 10000000"),
    (6, "rw 10000000"),
    (7, "spin 0 0 0 0"),
    (8, "files 0"),
    (9, "sockets 1"),
    (10, "root end"),
    (11, "steps"),
];

/// The text of the lines before each of these goes wrong at its number, and all of them are a trace.
fn misses_each(rt: &impl Abort, alloc: Global) -> Result<(), Fail> {
    let mut text = String::new(alloc);
    for (number, line) in LINES {
        assert_eq!(rt; fault(alloc, text.as_str()), Some(*number), "at {line:?}");
        text.push_str(line)?;
        text.push('\n')?;
    }
    assert!(rt; is_trace(alloc, text.as_str()));
    Ok(())
}

#[test]
fn misses_the_line_after_the_last(rt: HostRuntime) -> Result<(), Fail> {
    misses_each(&rt, rt.alloc())
}

const FROM_SOCKETS: &Frame = &Frame {
    header: "workers 1\ninterval 31\nring 16\ntick 1\nconnect 1\nrw 1\nspin 0 0 0 0\nfiles 0\n",
    before: "sockets ",
    after: "\n",
};

/// How many sockets there are, and the words of the root.
const SOCKETS: &[(&str, usize)] = &[
    ("0\nroot send 0 1", 10),
    ("0\nroot poll 0", 10),
    ("0\nroot await", 11),
    ("1\nroot send 0 1 poll 0", 11),
    ("1\nroot send 1 1", 10),
    ("1\nroot poll 1", 10),
    ("3\nroot send 2 1 poll 2", 11),
    ("3\nroot end poll 3", 10),
    ("3\nroot end send 3 1", 10),
];

#[test]
fn knows_how_many_sockets_there_are(rt: HostRuntime) -> Result<(), Fail> {
    faults(&rt, rt.alloc(), FROM_SOCKETS, SOCKETS)
}

const BELOW: &Frame = &Frame {
    header: HEADER,
    before: "",
    after: "",
};

const BODIES: &[(&str, usize)] = &[
    ("", 10),
    ("# more\n\n", 12),
    ("root\nsteps\n", 10),
    ("root \nsteps\n", 10),
    ("rootend\nsteps\n", 10),
    ("root  end\nsteps\n", 10),
    ("root end \nsteps\n", 10),
    ("root send 1 1\nsteps\n", 10),
    ("root send 0 0\nsteps\n", 10),
    ("root send 0 1048577\nsteps\n", 10),
    ("root send 0 01\nsteps\n", 10),
    ("root send 0\nsteps\n", 10),
    ("root send 0 1 1\nsteps\n", 10),
    ("root poll\nsteps\n", 10),
    ("root poll 00\nsteps\n", 10),
    ("root await 0\nsteps\n", 10),
    ("root dropped\nsteps\n", 10),
    ("root Drop\nsteps\n", 10),
    ("root sleep\nsteps\n", 10),
    ("root sleep 18446744073709551616\nsteps\n", 10),
    ("root sleep -1\nsteps\n", 10),
    ("root yield 1\nsteps\n", 10),
    ("root fault\nsteps\n", 10),
    ("root fault -5\nsteps\n", 10),
    ("root read 0\nsteps\n", 10),
    ("script end\nroot bad\nsteps\n", 11),
    ("root send 0 1048576 end", 11),
    ("root end\nstep\n", 11),
    ("root end\n\nw 0 1\n", 12),
];

#[test]
fn finds_faults_behind_the_header(rt: HostRuntime) -> Result<(), Fail> {
    faults(&rt, rt.alloc(), BELOW, BODIES)
}

const IN_STEPS: &Frame = &Frame {
    header: HEADER,
    before: "root end\nsteps\nk 0 0\n",
    after: "\n",
};

const STEPS: &[&str] = &[
    "w 00 1",
    "w +1 1",
    "w -0 1",
    "w 0 +1",
    "w 0 -1",
    "w 18446744073709551616 1",
    "w 0 18446744073709551616",
    "w  0 1",
    "w 0  1",
    "w 0 1 ",
    " w 0 1",
    "w 0 0",
    "w 0",
    "w",
    "w 0 1 1",
    "k 0 -0",
    "k 0 -01",
    "k 0 --1",
    "k 0 +1",
    "k 0 ",
    "k 0 -",
    "k 0 00",
    "c",
    "c ",
    "c 00",
    "c -1",
    "c 1 1",
    "c 18446744073709551616",
    "e",
    "e +0",
    "e 0 1",
    "e 0 ",
    "x 0 1",
    "l 0",
    "root end",
    "steps",
    "w 0 1\r\r",
];

#[test]
fn finds_faults_in_the_steps(rt: HostRuntime) -> Result<(), Fail> {
    faults_at(&rt, rt.alloc(), 13, IN_STEPS, STEPS)
}
