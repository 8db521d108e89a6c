//! Texts of several workers: scripts, which may name each other in any order, and the calls from outside.

use crate::reading::{Frame, Of, faults, faults_at, says};
use std::test::Fail;

/// A header with four workers, two files and one socket.
pub const HEADER: &str =
    "workers 4\ninterval 3\nring 4\ntick 1000\nconnect 3000\nrw 3000\nspin 1 2 3 4\nfiles 2\nsockets 1\n";

/// Three scripts, a comment between two of them, and a root that names the first and the last.
const SCRIPTS: &str = "script spawn 1 end
# one
script wake 18446744073709551615 await\r
script sleep 0 drop yield fault 3
root spawn 0 spawn 2 sleep 7
steps
";

const THREE_SCRIPTS: &[(Of, &str)] = &[(
    Of::Scripts,
    "[[Spawn { script: 1 }, End], [Wake { task: 18446744073709551615 }, Await], \
    [Sleep { time: 0 }, Drop, Yield, Fault { code: 3 }]]",
)];

#[test]
fn reads_scripts(rt: HostRuntime) -> Result<(), Fail> {
    says(&rt, rt.alloc(), HEADER, SCRIPTS, THREE_SCRIPTS)
}

const LAST_AND_ROOT: &[(Of, &str)] = &[
    (
        Of::LastScript,
        "Some([Sleep { time: 0 }, Drop, Yield, Fault { code: 3 }])",
    ),
    (
        Of::Root,
        "[Spawn { script: 0 }, Spawn { script: 2 }, Sleep { time: 7 }]",
    ),
];

#[test]
fn reads_the_last_script_and_the_root(rt: HostRuntime) -> Result<(), Fail> {
    says(&rt, rt.alloc(), HEADER, SCRIPTS, LAST_AND_ROOT)
}

/// Calls from outside, and what befalls a ring.
const CALLS: &str = "script end
root end
steps
x 0 spawn 0
x 15 wake 18446744073709551615
x 15
b 18446744073709551615
m 3
w 3 2
";

const SIX_CALLS: &[(Of, &str)] = &[
    (
        Of::Steps,
        "[One { action: Spawn { caller: 0, script: 0 } }, \
        One { action: Wake { caller: 15, task: 18446744073709551615 } }, \
        One { action: GoOn { caller: 15 } }, \
        One { action: SetBusy { worker: 18446744073709551615 } }, \
        One { action: EndPoll { worker: 3 } }, \
        Work { worker: 3, count: 2 }]",
    ),
    (Of::Total, "7"),
];

#[test]
fn reads_calls(rt: HostRuntime) -> Result<(), Fail> {
    says(&rt, rt.alloc(), HEADER, CALLS, SIX_CALLS)
}

const BELOW: &Frame = &Frame {
    header: HEADER,
    before: "",
    after: "",
};

const COUNTED: &[(&str, usize)] = &[
    // A script that comes later counts.
    ("script spawn 1\nscript end\nroot spawn 1", 13),
    ("script spawn 2\nscript end\nroot end\nsteps", 10),
    ("script end\nscript spawn 0 spawn 2\nroot end\nsteps", 11),
    // One from a malformed line on doesn't.
    ("script spawn 1\nscript bad\nroot end\nsteps", 10),
    (
        "script spawn 0\nscript bad\nscript end\nroot end\nsteps",
        11,
    ),
    ("script spawn 1\nscript\nroot end\nsteps", 10),
    (
        "script spawn 2\nscript end\nroot end\nscript end\nsteps",
        10,
    ),
    ("script spawn 1\n", 10),
    ("script spawn 0\n", 11),
    // The first of both lines.
    ("script spawn 0\nroot spawn 1\nstep", 11),
    ("script spawn 0\nroot spawn 0\nstep\nx 0 spawn 1", 12),
    ("script spawn 0\nroot spawn 0\nsteps\nx 0 spawn 1\nz", 13),
    ("script spawn 0\nroot spawn 0\nsteps\nx 0 spawn 0\nz", 14),
    ("root spawn 0\nsteps", 10),
    ("root end\nsteps\nx 0 spawn 0", 12),
    ("script dedicated 1\nscript end\nroot dedicated 1", 13),
    ("script dedicated 1\nscript bad\nroot end\nsteps", 10),
    ("script end\nroot dedicated 0 dedicated 1\nsteps", 11),
    ("script spawn 18446744073709551615\nroot end\nsteps", 10),
];

#[test]
fn counts_scripts_first(rt: HostRuntime) -> Result<(), Fail> {
    faults(&rt, rt.alloc(), BELOW, COUNTED)
}

const IN_SCRIPTS: &Frame = &Frame {
    header: HEADER,
    before: "script end\n",
    after: "\nroot end\nsteps\n",
};

/// Lines that are no script, or name a script that there isn't.
const FAULTY_SCRIPTS: &[&str] = &[
    "script",
    "script ",
    "scripts end",
    "scriptend",
    "script  end",
    "script end ",
    "Script end",
    "script send 1 1",
    "script await poll 1",
    "script sleep",
    "script sleep 0 sleep 18446744073709551616",
    "script dial 0",
    "script get 0 1",
    "script spawn",
    "script spawn ",
    "script spawn 00",
    "script spawn -1",
    "script spawn 2",
    "script spawn 18446744073709551616",
    "script dedicated",
    "script dedicated 2",
    "script dedicated 0 0",
    "script dedicated 01",
    "script wake",
    "script wake 01",
    "script wake 18446744073709551616",
    "script yield 0",
];

#[test]
fn finds_faults_in_scripts(rt: HostRuntime) -> Result<(), Fail> {
    faults_at(&rt, rt.alloc(), 11, IN_SCRIPTS, FAULTY_SCRIPTS)
}

const IN_CALLS: &Frame = &Frame {
    header: HEADER,
    before: "script end\nroot end\nsteps\nx 15 spawn 0\n",
    after: "\n",
};

/// Lines that are no step.
const FAULTY_CALLS: &[&str] = &[
    "x",
    "x ",
    "x 16",
    "x 00",
    "x 0 ",
    "x 0 0",
    "x 16 spawn 0",
    "x 0 spawn",
    "x 0 spawn ",
    "x 0 spawn 1",
    "x 0 spawn 00",
    "x 0 spawn 0 ",
    "x 0 spawn 0 0",
    "x 0 Spawn 0",
    "x 0 spawn 18446744073709551616",
    "x 16 wake 0",
    "x 0 wake",
    "x 0 wake ",
    "x 0 wake -1",
    "x 0 wake 0 ",
    "x 0 wake 18446744073709551616",
    "x  0 wake 0",
    "x 0  wake 0",
    "x wake 0",
    "b",
    "b ",
    "b 00",
    "b 0 ",
    "m",
    "m 0 1",
    "m 18446744073709551616",
    "l 0",
    "script end",
];

#[test]
fn finds_faults_in_calls(rt: HostRuntime) -> Result<(), Fail> {
    faults_at(&rt, rt.alloc(), 14, IN_CALLS, FAULTY_CALLS)
}

const IN_ROOT: &Frame = &Frame {
    header: HEADER,
    before: "script end\n",
    after: "\nsteps\n",
};

const FAULTY_ROOTS: &[&str] = &[
    "root",
    "root dedicated 1",
    "root dedicated",
    "root spawn 1",
    "root spawn",
    "root wake",
    "root wake -1",
    "root end spawn 00",
];

#[test]
fn finds_faults_in_the_root(rt: HostRuntime) -> Result<(), Fail> {
    faults_at(&rt, rt.alloc(), 11, IN_ROOT, FAULTY_ROOTS)
}
