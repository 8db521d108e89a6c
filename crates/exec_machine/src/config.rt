//! What a trace sets up: the configuration and the words of scripts.

/// How long a worker without work looks for some before it sleeps.
#[derive(Clone, Copy, Debug)]
pub struct Spin {
    /// The budget at first, in microseconds.
    pub budget: u64,
    /// The largest budget, in microseconds.
    pub most: u64,
    /// A wake within this time counts as quick, in microseconds.
    pub quick: u64,
    /// How many iterations a microsecond has.
    pub iterations: u64,
}

/// The header of a trace. Ports `Config` and `RingConfig`.
#[derive(Clone, Copy, Debug)]
pub struct Configuration {
    /// How many workers the pool has.
    pub workers: usize,
    /// Every so many picks the global queue is looked at first.
    pub interval: u64,
    /// How many operations a ring can hold.
    pub ring: u64,
    /// The tick of the timeout wheel, in nanoseconds.
    pub tick: u64,
    /// How long a connect may take, in nanoseconds.
    pub connect: u64,
    /// How long another request of a socket may take, in nanoseconds.
    pub rw: u64,
    /// The spin before a sleep.
    pub spin: Spin,
    /// How many files are open.
    pub files: usize,
    /// How many sockets there are, and as many listeners.
    pub sockets: usize,
}

/// One word of a script: what a task does next.
#[derive(Clone, Copy, Debug)]
pub enum ScriptWord {
    /// Registers a readiness poll of this listener.
    Poll {
        listener: usize,
    },
    /// Registers a send to this socket of so many bytes.
    Send {
        socket: usize,
        length: u64,
    },
    /// Registers a receive from this socket of at most so many bytes.
    Recv {
        socket: usize,
        length: u64,
    },
    /// Registers a receive from this socket of exactly so many bytes.
    Fill {
        socket: usize,
        length: u64,
    },
    /// Registers a connect of this socket.
    Connect {
        socket: usize,
    },
    /// Registers a buffered read of so many bytes of this file.
    Read {
        file: usize,
        offset: u64,
        length: u64,
    },
    /// The same, with the hint to keep them out of the page cache.
    Hint {
        file: usize,
        offset: u64,
        length: u64,
    },
    /// The same, past the page cache.
    Direct {
        file: usize,
        offset: u64,
        length: u64,
    },
    /// Registers a write of so many bytes to this file.
    Write {
        file: usize,
        offset: u64,
        length: u64,
    },
    /// The same, each operation durable by itself.
    Dsync {
        file: usize,
        offset: u64,
        length: u64,
    },
    /// The same, made durable by one sync after all operations.
    Many {
        file: usize,
        offset: u64,
        length: u64,
    },
    /// Registers a sync of this file.
    Sync {
        file: usize,
    },
    /// Waits for the newest held request, or with none held for a wake.
    Await,
    /// Lets the newest held request go. With none held it asks for nothing.
    Drop,
    /// Sleeps so many nanoseconds.
    Sleep {
        time: u64,
    },
    /// Spawns a task of this script.
    Spawn {
        script: usize,
    },
    /// Spawns a task of this script with a worker of its own.
    Dedicated {
        script: usize,
    },
    /// Wakes this task. Where there is none it asks for nothing.
    Wake {
        task: usize,
    },
    /// Wakes the task itself, and lets others go first.
    Yield,
    /// Ends the task.
    End,
    /// Ends the task with a fault.
    Fault {
        code: u64,
    },
}
