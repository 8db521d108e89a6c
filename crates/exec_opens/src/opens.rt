//! The opens that the workers of an executor share: for each its record, and the gate of its durable requests.
//!
//! Durable requests of all workers stand in one line, first come, first served, each by the number of its worker and its
//! own name there. The first holds the gate: from its join where nobody does, else from when the one before it leaves,
//! and until its end is accounted for, so the next one knows of its failure. So it holds the gate also before its worker
//! grants it the permit, and the others wait for that. Who is admitted has a place in the line (`reserve`) before it
//! joins (`join`); a holder that is over leaves (`leave`), which names the next. Its worker has to be signalled.
//!
//! A caller lends the opens to each call that may need one. A number that no open has is none: its record is none, and
//! it has no gate.

ghost use Rattle.std.specs.Prelude.{◌≡◌, ◌↔◌, IsTrue, IfSome, ◌<◌, ◌+◌, ◌≤◌, length, replicate, slice_get, Some, IfOk, OnOk, OnErr};
ghost use Rattle.exec_opens.specs.Opens.{account_in, open_at, open_named, with_account, with_open, with_named, holder_at, next_at, placed, displaced, joined, passed, keeping, writing, fresh_open};

use exec_base::gate::Gate;
use exec_request::open_record::OpenRecord;
use exec_waiters::waiter_id::WaiterId;
use std::alloc::{AllocError, Global};
use std::marker::Model;

/// The name of a request among all workers.
#[derive(Clone, Copy, Debug, PartialEq, Eq)]
pub struct WaiterKey {
    /// The number of its worker.
    pub worker: u32,
    /// Its name there.
    pub id: WaiterId,
}

/// One open.
#[derive(Drop)]
struct Open {
    /// Which durable request holds it, and which wait.
    gate: Gate<WaiterKey>,
    /// How many have a place in the line that haven't joined it.
    coming: usize,
    /// What is kept of it.
    account: Option<OpenRecord>,
}

impl Model for Open {
    ghost use Rattle.std.specs.Prelude.{◌≤◌, ◌+◌, length};
    ghost use Rattle.exec_opens.specs.Opens.{OpenState};

    ghost Value = { OpenState };

    ghost view = { λ o. record { holder = o.gate.holder; waiting = o.gate.waiting; coming = o.coming; account = o.account } };

    ghost invariant = { λ o. length o.gate.waiting + o.coming ≤ o.gate.room };
}

impl Open {
    fn new(alloc: Global) -> Self
        ensures { result ≡ fresh_open }
    {
        Open {
            gate: Gate::new(alloc),
            coming: 0,
            account: Some(OpenRecord::new()),
        }
    }

    fn set_account(&mut self, account: Option<OpenRecord>)
        ensures { self.new ≡ keeping account self.old }
    {
        self.account = account;
    }

    fn begin_write(&mut self)
        ensures { self.new ≡ writing self.old }
    {
        if let Some(account) = &mut self.account {
            account.write();
        }
    }

    fn reserve(&mut self, alloc: Global) -> Result<(), AllocError>
        ensures ok { OnOk result (self.new ≡ placed self.old) }
        ensures kept { OnErr result (self.new ≡ self.old) }
    {
        let coming = self.coming.checked_add(1).ok_or(AllocError)?;
        self.gate.reserve(alloc, coming)?;
        self.coming = coming;
        Ok(())
    }

    fn release(&mut self)
        requires made { 0 < self.old.coming }
        ensures { self.new ≡ displaced self.old }
    {
        self.coming -= 1;
    }

    fn join(&mut self, key: WaiterKey)
        requires made { 0 < self.old.coming }
        ensures { self.new ≡ joined key self.old }
    {
        self.gate.enter(key);
        self.coming -= 1;
    }

    fn leave(&mut self) -> Option<WaiterKey>
        ensures next { result ≡ slice_get self.old.waiting 0 }
        ensures left { self.new ≡ passed self.old }
    {
        self.gate.leave()
    }
}

/// The opens by number.
#[derive(Drop)]
pub struct Opens {
    opens: Vec<Open>,
}

impl Model for Opens {
    ghost use Rattle.std.specs.Prelude.{List};
    ghost use Rattle.exec_opens.specs.Opens.{OpenState};

    ghost Value = { List OpenState };

    ghost view = { λ o. o.opens.items };
}

impl Opens {
    /// So many opens of which nothing is known. Err only for want of memory.
    pub fn new(alloc: Global, count: usize) -> Result<Self, AllocError>
        ensures { IfOk result (λ o. o ≡ replicate count fresh_open) }
    {
        let mut opens = Vec::with_capacity(alloc, count)?;
        'fresh: for _ in 0..count {
            opens.push(Open::new(alloc))?;
        }
        Ok(Opens { opens })
    }

    /// How many there are.
    pub fn len(&self) -> usize
        ensures { result ≡ length self.now }
    {
        self.opens.len()
    }

    /// The record of an open. None where there is no such open, or none is named.
    pub fn account(&self, file: Option<u32>) -> Option<OpenRecord>
        ensures { result ≡ account_in self.now file }
    {
        self.opens.get(file? as usize)?.account
    }

    /// The record of an open is this from now on. Nothing changes where there is no such open, or none is named.
    pub fn set_account(&mut self, file: Option<u32>, account: Option<OpenRecord>)
        ensures { self.new ≡ with_account self.old file account }
    {
        let Some(file) = file else {
            return;
        };
        if let Some(open_) = self.opens.get_mut(file as usize) {
            open_.set_account(account);
        }
    }

    /// A plain write of an open was admitted. Nothing changes where there is no such open, or none is named.
    pub fn begin_write(&mut self, file: Option<u32>)
        ensures { self.new ≡ with_named self.old file writing }
    {
        let Some(file) = file else {
            return;
        };
        if let Some(open_) = self.opens.get_mut(file as usize) {
            open_.begin_write();
        }
    }

    /// Makes a place in the line of an open. Err where there is no memory, and then nothing changes. Nothing is needed
    /// where there is no such open, or none is named.
    pub fn reserve(&mut self, alloc: Global, file: Option<u32>) -> Result<(), AllocError>
        ensures ok { OnOk result (self.new ≡ with_named self.old file placed) }
        ensures kept { OnErr result (self.new ≡ self.old) }
    {
        let Some(file) = file else {
            return Ok(());
        };
        match self.opens.get_mut(file as usize) {
            Some(open_) => open_.reserve(alloc),
            None => Ok(()),
        }
    }

    /// Gives up a place in the line of an open. The caller must have made it.
    pub fn release(&mut self, file: Option<u32>)
        requires made { IfSome (open_named self.old file) (λ o. 0 < o.coming) }
        ensures { self.new ≡ with_named self.old file displaced }
    {
        let Some(file) = file else {
            return;
        };
        if let Some(open_) = self.opens.get_mut(file as usize) {
            open_.release();
        }
    }

    /// Whether one may join the line of an open: a place was made that nobody took. So it is where there is no such
    /// open.
    pub fn has_place(&self, file: u32) -> bool
        ensures { IsTrue result ↔ IfSome (open_at self.now file) (λ o. 0 < o.coming) }
    {
        match self.opens.get(file as usize) {
            Some(open_) => open_.coming > 0,
            None => true,
        }
    }

    /// A durable request joins the line of its open. It holds the gate at once where nobody does. Nothing changes where
    /// there is no such open. The caller must have made a place for it (`has_place`), and know that it stands nowhere in
    /// the line: one that stands there twice comes to hold the gate after its end, and holds it for good.
    pub fn join(&mut self, file: u32, key: WaiterKey)
        requires made { IfSome (open_at self.old file) (λ o. 0 < o.coming) }
        ensures { self.new ≡ with_open self.old file (joined key) }
    {
        if let Some(open_) = self.opens.get_mut(file as usize) {
            open_.join(key);
        }
    }

    /// The holder leaves the gate, and gives the permit up. Answers the next holder, whose worker has to be signalled.
    /// Nothing changes where there is no such open. The caller must be who holds the permit, and have ended the request
    /// that it was for: the permit of any other holder would be given up as well.
    pub fn leave(&mut self, file: u32) -> Option<WaiterKey>
        ensures next { result ≡ next_at self.old file }
        ensures left { self.new ≡ with_open self.old file passed }
    {
        match self.opens.get_mut(file as usize) {
            Some(open_) => open_.leave(),
            None => None,
        }
    }

    /// Who holds the gate of an open, whether its worker granted it the permit or has yet to. None where nobody does, or
    /// there is no such open.
    pub fn holder(&self, file: u32) -> Option<WaiterKey>
        ensures { result ≡ holder_at self.now file }
    {
        self.opens.get(file as usize)?.gate.holder()
    }
}
