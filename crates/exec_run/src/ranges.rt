//! The ranges of a configuration.

ghost use Rattle.std.specs.Prelude.{◌≡◌};
ghost use Rattle.exec_machine.specs.Ranges.{ticks_needed};
ghost use Rattle.exec_run.specs.Ranges.{first_out_of_range, tested_parts, is_within, is_spin};

use crate::field::{Field, OutOfRange};
use exec_base::limits::{LONGEST_TIMEOUT, MOST_SLOTS, MOST_WORKERS};
use exec_machine::config::{Configuration, Spin};

/// The most that a count of 32 bits can be.
const MOST_COUNT: u64 = 4_294_967_295;
/// The most operations that a ring can hold.
const MOST_OPERATIONS: u64 = 32_768;
/// The most files.
const MOST_FILES: u64 = 64;
/// The most sockets.
const MOST_SOCKETS: u64 = 1024;

/// The first part of the configuration that is out of its range, in the order of the header, with what it
/// says. The slots of the timeout wheel come last.
pub fn first_out_of_range(config: Configuration) -> Option<OutOfRange>
    ensures { result ≡ first_out_of_range config }
{
    for (field, value, is_in_range) in tested_parts(config) {
        if !is_in_range {
            return Some(OutOfRange { field, value });
        }
    }
    None
}

/// Each part with what it says and whether that is in its range.
fn tested_parts(config: Configuration) -> [(Field, u64, bool); 10]
    ensures { result ≡ tested_parts config }
{
    let Configuration {
        workers,
        interval,
        ring,
        tick,
        connect,
        rw,
        spin,
        files,
        sockets,
    } = config;
    let (files, sockets) = (files as u64, sockets as u64);
    [
        (
            Field::Workers,
            workers as u64,
            up_to(MOST_WORKERS as u64, workers as u64),
        ),
        (Field::Interval, interval, up_to(MOST_COUNT, interval)),
        (Field::Ring, ring, up_to(MOST_OPERATIONS, ring)),
        (Field::Tick, tick, up_to(LONGEST_TIMEOUT, tick)),
        (Field::Connect, connect, up_to(LONGEST_TIMEOUT, connect)),
        (Field::Rw, rw, up_to(LONGEST_TIMEOUT, rw)),
        (Field::Spin, spin.budget, is_spin(spin)),
        (Field::Files, files, files <= MOST_FILES),
        (Field::Sockets, sockets, sockets <= MOST_SOCKETS),
        (
            Field::Layout,
            tick,
            ticks_needed(config) <= u128::from(MOST_SLOTS),
        ),
    ]
}

/// Whether the number is neither below 1 nor above the most.
fn up_to(most: u64, number: u64) -> bool
    ensures { result ≡ is_within 1 most number }
{
    1 <= number && number <= most
}

/// Whether the first budget is no larger than the largest, and each number is a count.
fn is_spin(spin: Spin) -> bool
    ensures { result ≡ is_spin spin }
{
    spin.budget <= spin.most
        && spin.most <= MOST_COUNT
        && spin.quick <= MOST_COUNT
        && spin.iterations <= MOST_COUNT
}

/// How many ticks the longest deadline takes, and two more. A tick of 0 is out of its own range.
fn ticks_needed(config: Configuration) -> u128
    ensures { result ≡ ticks_needed config }
{
    let longest = u128::from(config.connect.max(config.rw));
    let tick = u128::from(config.tick);
    if tick == 0 {
        return 2;
    }
    (longest + (tick - 1)) / tick + 2
}
