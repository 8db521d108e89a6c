//! The configuration of an executor, from the header of a trace.

ghost use Rattle.std.specs.Prelude.{◌≡◌, None};
ghost use Rattle.exec_core.specs.Configs.{configuration_of};
ghost use Rattle.exec_run.specs.Ranges.{first_out_of_range};

use exec_base::spinner::SpinnerConfig;
use exec_core::config::{Config, RingConfig};
use exec_machine::config::Configuration;

/// The configuration that the header asks for.
pub(crate) fn config_of(header: &Configuration) -> Config
    requires { first_out_of_range header.now ≡ None }
    ensures told { configuration_of result header.now.spin.iterations header.now.files header.now.sockets ≡ header.now }
    ensures workers { result.worker_threads ≡ header.now.workers }
{
    Config::new()
        .with_worker_threads(header.workers)
        .with_global_queue_interval(header.interval as u32)
        .with_ring_config(RingConfig {
            size: header.ring as u32,
            timeout_wheel_tick: header.tick,
        })
        .with_idle_spinner(SpinnerConfig {
            budget_us: header.spin.budget,
            max_budget_us: header.spin.most,
            quick_wake_us: header.spin.quick,
        })
        .with_connect_timeout(header.connect)
        .with_read_write_timeout(header.rw)
}
