//! Which work a worker runs.

ghost use Rattle.std.specs.Prelude.{◌≡◌};
ghost use Rattle.exec_parts.specs.Roles.{is_pool, owns_runner};

/// Which work a worker runs. Ports `Role`.
#[derive(Clone, Copy, Debug, PartialEq, Eq)]
pub enum Role {
    /// It is the worker of this number in the pool, and polls all tasks that are no roots.
    Pool(u32),
    /// It polls its own root alone.
    Dedicated,
}

impl Role {
    /// Whether it is a worker of the pool. Ports `is_pool`.
    pub fn is_pool(self) -> bool
        ensures { result ≡ is_pool self }
    {
        matches!(self, Role::Pool(_))
    }

    /// Whether it is the worker that runs the runner's own root: the first of the pool. Ports `owns_runner`.
    pub fn owns_runner(self) -> bool
        ensures { result ≡ owns_runner self }
    {
        matches!(self, Role::Pool(0))
    }
}
