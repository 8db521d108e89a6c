//! How a runner is set up.

ghost use Rattle.std.specs.Prelude.{◌≡◌};
ghost use Rattle.exec_core.specs.Configs.{usual_config};

use exec_base::spinner::SpinnerConfig;

/// How the ring of a worker is set up. Ports `RingConfig`.
#[derive(Clone, Debug, Drop)]
pub struct RingConfig {
    /// How many operations it holds, rounded up to a power of two.
    pub size: u32,
    /// The tick of the timeout wheel, in nanoseconds.
    pub timeout_wheel_tick: u64,
}

impl Default for RingConfig {
    ghost use Rattle.std.specs.Prelude.{◌≡◌};

    ghost is_default = { λ c. c ≡ record { size = 128; timeout_wheel_tick = 5000000 } };

    fn default() -> Self {
        RingConfig {
            size: 128,
            timeout_wheel_tick: 5_000_000,
        }
    }
}

/// How a runner is set up. Ports `Config`.
#[derive(Clone, Drop)]
pub struct Config {
    worker_threads: usize,
    global_queue_interval: u32,
    ring_config: RingConfig,
    idle_spinner: SpinnerConfig,
    connect_timeout: u64,
    read_write_timeout: u64,
    read_buffer_size: usize,
}

impl Default for Config {
    ghost use Rattle.std.specs.Prelude.{◌≡◌};
    ghost use Rattle.exec_core.specs.Configs.{usual_config};

    ghost is_default = { λ c. c ≡ usual_config };

    fn default() -> Self {
        Config::new()
    }
}

impl Config {
    /// Two workers with rings of 1024, a global look every 31 picks, the default spinner, 10 seconds for a connect, 60
    /// for a read or a write, and read buffers of 65,536 bytes.
    pub fn new() -> Self
        ensures { result ≡ usual_config }
    {
        Config {
            worker_threads: 2,
            global_queue_interval: 31,
            ring_config: RingConfig {
                size: 1024,
                timeout_wheel_tick: 5_000_000,
            },
            idle_spinner: SpinnerConfig::default(),
            connect_timeout: 10_000_000_000,
            read_write_timeout: 60_000_000_000,
            read_buffer_size: 65_536,
        }
    }

    /// The same with so many workers in the pool.
    pub fn with_worker_threads(mut self, worker_threads: usize) -> Self
        ensures { result ≡ record self { worker_threads = worker_threads } }
    {
        self.worker_threads = worker_threads;
        self
    }

    /// The same with a global look every so many picks.
    pub fn with_global_queue_interval(mut self, global_queue_interval: u32) -> Self
        ensures { result ≡ record self { global_queue_interval = global_queue_interval } }
    {
        self.global_queue_interval = global_queue_interval;
        self
    }

    /// The same with rings that are set up so.
    pub fn with_ring_config(mut self, ring_config: RingConfig) -> Self
        ensures { result ≡ record self { ring_config = ring_config } }
    {
        self.ring_config = ring_config;
        self
    }

    /// The same with workers that spin so before they sleep.
    pub fn with_idle_spinner(mut self, idle_spinner: SpinnerConfig) -> Self
        ensures { result ≡ record self { idle_spinner = idle_spinner } }
    {
        self.idle_spinner = idle_spinner;
        self
    }

    /// The same with so many nanoseconds for a connect.
    pub fn with_connect_timeout(mut self, connect_timeout: u64) -> Self
        ensures { result ≡ record self { connect_timeout = connect_timeout } }
    {
        self.connect_timeout = connect_timeout;
        self
    }

    /// The same with so many nanoseconds for a read or a write of a socket.
    pub fn with_read_write_timeout(mut self, read_write_timeout: u64) -> Self
        ensures { result ≡ record self { read_write_timeout = read_write_timeout } }
    {
        self.read_write_timeout = read_write_timeout;
        self
    }

    /// The same with read buffers of so many bytes.
    pub fn with_read_buffer_size(mut self, read_buffer_size: usize) -> Self
        ensures { result ≡ record self { read_buffer_size = read_buffer_size } }
    {
        self.read_buffer_size = read_buffer_size;
        self
    }

    /// How many workers the pool has.
    pub fn worker_threads(&self) -> usize
        ensures { result ≡ self.now.worker_threads }
    {
        self.worker_threads
    }

    /// Every so many picks a worker looks at the global queue first.
    pub fn global_queue_interval(&self) -> u32
        ensures { result ≡ self.now.global_queue_interval }
    {
        self.global_queue_interval
    }

    /// How rings are set up.
    pub fn ring_config(&self) -> &RingConfig
        ensures { result.now ≡ self.now.ring_config }
    {
        &self.ring_config
    }

    /// How workers spin before they sleep.
    pub fn idle_spinner(&self) -> &SpinnerConfig
        ensures { result.now ≡ self.now.idle_spinner }
    {
        &self.idle_spinner
    }

    /// How long a connect may take, in nanoseconds.
    pub fn connect_timeout(&self) -> u64
        ensures { result ≡ self.now.connect_timeout }
    {
        self.connect_timeout
    }

    /// How long a read or a write of a socket may take, in nanoseconds.
    pub fn read_write_timeout(&self) -> u64
        ensures { result ≡ self.now.read_write_timeout }
    {
        self.read_write_timeout
    }

    /// How many bytes a stream reads ahead.
    pub fn read_buffer_size(&self) -> usize
        ensures { result ≡ self.now.read_buffer_size }
    {
        self.read_buffer_size
    }
}
