//! A read: bytes of a file, from an offset on, fill a buffer.
//!
//! A direct read fills a buffer of whole pages around its range, and is done once the range is there. A result that
//! neither ends it nor leaves it at a page makes it a buffered read of the range alone, from nothing, and that at
//! most once: there is no way back. What a read leaves in its buffer is shown only where it ends well.

ghost use Rattle.std.specs.Prelude.{◌≡◌, ◌+◌, ◌-◌, ◌<◌, ◌≤◌, ◌^◌, true, false, length};
ghost use Rattle.exec_outcomes.specs.Lawful.{aligned};
ghost use Rattle.exec_request.specs.Ways.{size_for};

use crate::bytes::fill;
use crate::cache::Cache;
use crate::judge::{judge, moves_on};
use crate::open_record::OpenRecord;
use crate::output::{RequestOutput, RetiredResources};
use crate::results::{DIRECT_ALIGN, LARGEST_WINDOW, WaiterState, counted_by};
use crate::way::Way;
use crate::window::{Opcode, Window};
use exec_base::error::Error;
use exec_bufs::buf::IoBufMut;
use exec_outcomes::outcome::{Kind, OpResult};
use std::alloc::{AllocError, Global};

/// The most bytes of one direct read: the whole pages that an i32 can say. Ports `DIRECT_CHUNK`.
pub const DIRECT_CHUNK: u64 = 2_147_479_552;
/// The largest end of a range in a file.
pub const LARGEST_OFFSET: u64 = 0x7fff_ffff_ffff_ffff;

/// A read of a range of a file. Ports `ReadAtRequest`.
#[derive(Debug, Drop)]
pub struct ReadAtRequest {
    /// The open.
    pub file: u32,
    /// Where the buffer's first byte lies in the file.
    pub offset: u64,
    /// How many bytes of the buffer were read.
    pub read: usize,
    /// The buffer, as long as what is to be read.
    pub buf: IoBufMut,
    /// Whether its operations still ask for the hint.
    pub cache: Cache,
    /// How it goes.
    pub way: Way,
    pub ghost within: { read ≤ length buf.bytes },
    pub ghost ends: { offset + length buf.bytes < 2 ^ 64 },
    pub ghost sized: { length buf.bytes ≡ size_for way (length buf.bytes) },
}

impl ReadAtRequest {
    ghost use Rattle.std.specs.Prelude.{◌⊎◌, ◌%◌, ◌&&◌, ◌↔◌, Bool, [], Ok, None, IsTrue, IfOk, IfSome, if◌then◌else◌};
    ghost use Rattle.exec_outcomes.specs.Lawful.{is_lawful, window_of};
    ghost use Rattle.exec_outcomes.specs.Outcomes.{cursor_next, is_unsupported, outcome_next, moves_on};
    ghost use Rattle.exec_request.specs.Hints.{asks_hint, has_hint, cache_for, without_hint};
    ghost use Rattle.exec_request.specs.States.{as_answer, range_read};
    ghost use Rattle.exec_bufs.specs.Buffers.{resized};
    ghost use Rattle.exec_request.specs.Bytes.{filled_at};
    ghost use Rattle.exec_request.specs.Kept.{read_kept};
    ghost use Rattle.exec_request.specs.Judging.{Judges, judged_as};
    ghost use Rattle.exec_request.specs.Ways.{is_direct, is_switched, switched_from, narrowed};
    ghost use Rattle.exec_request.specs.Views.{read_asked, read_cursor, read_hinted, read_window, IsDirectRead};

    /// A read of as many bytes as this buffer has, from `offset` on. The caller must have a range that ends below 2^64.
    pub fn new(file: u32, offset: u64, buf: IoBufMut, cache: Cache) -> Self
        requires { offset + length buf.bytes < 2 ^ 64 }
        ensures file { result.file ≡ file }
        ensures offset { result.offset ≡ offset }
        ensures read { result.read ≡ 0 }
        ensures buf { result.buf ≡ buf }
        ensures cache { result.cache ≡ cache }
        ensures way { result.way ≡ (if asks_hint cache then Way.Hinted else Way.Buffered) }
    {
        let way = if cache.is_disabled() {
            Way::Hinted
        } else {
            Way::Buffered
        };
        ReadAtRequest {
            file,
            offset,
            read: 0,
            buf,
            cache,
            way,
        }
    }

    /// A direct read of `len` bytes from `offset` on, into a buffer of its own. None where the range is empty, or
    /// where its whole pages end past the largest offset of a file. An `Err` comes only for want of memory.
    pub fn direct(
        alloc: Global,
        file: u32,
        offset: u64,
        len: usize,
    ) -> Result<Option<Self>, AllocError>
        ensures none { result ≡ Ok None ↔ ((len ≡ 0) ⊎ (2 ^ 63 ≤ (offset - offset % 4096) + aligned (offset % 4096 + len))) }
        ensures made { IfOk result (λ made. IfSome made (λ r. IsDirectRead r file offset len)) }
    {
        if len == 0 || len as u64 > LARGEST_OFFSET {
            return Ok(None);
        }
        let skip = offset % DIRECT_ALIGN;
        let pages = whole_pages(skip + len as u64);
        if pages > LARGEST_OFFSET.saturating_sub(offset - skip) {
            return Ok(None);
        }
        let mut buf = IoBufMut::with_capacity(alloc, pages as usize)?;
        buf.set_len(pages as usize);
        Ok(Some(ReadAtRequest {
            file,
            offset: offset - skip,
            read: 0,
            buf,
            cache: Cache::Disabled,
            way: Way::Direct {
                skip: skip as usize,
                len,
            },
        }))
    }

    /// What the next operation will ask of the kernel. Nothing changes.
    pub fn window(&self, open_: &Option<OpenRecord>) -> Window
        ensures window { result ≡ read_window (has_hint open_.now) self.now }
        ensures left { result.length ≡ window_of (read_asked self.now) (read_cursor self.now) }
    {
        let direct = self.way.is_direct();
        Window {
            kind: Opcode::Read,
            target: self.file,
            offset: self.offset + self.read as u64,
            length: self.window_len() as u32,
            chunks: 1,
            hint: !direct && self.cache.rw_flag(open_),
            direct,
            dsync: false,
        }
    }

    /// What the next operation asks of the kernel. A request gives up the hint that its open has given up.
    pub fn build_sqe(&mut self, open_: &Option<OpenRecord>) -> Window
        ensures window { result ≡ read_window (has_hint open_.now) self.old }
        ensures left { result.length ≡ window_of (read_asked self.old) (read_cursor self.old) }
        ensures again { read_window true self.new ≡ result }
        ensures after { self.new ≡ record self.old { cache = if is_direct self.old.way then self.old.cache else cache_for (has_hint open_.now) self.old.cache } }
    {
        let window = self.window(open_);
        if !self.way.is_direct() {
            self.cache.give_up(open_);
        }
        window
    }

    /// The most that the next operation may answer.
    pub(crate) fn window_len(&self) -> u64
        ensures { result ≡ window_of (read_asked self.now) (read_cursor self.now) }
    {
        let most = if self.way.is_direct() {
            DIRECT_CHUNK
        } else {
            LARGEST_WINDOW
        };
        ((self.buf.len() - self.read) as u64).min(most)
    }

    /// Fills bytes of the next window.
    pub(crate) fn fill(&mut self, at: usize, count: usize, bytes: &[u8])
        requires within { at + count ≤ (read_window true self.old).length }
        requires whole { length bytes.now ≤ count }
        ensures buffer { self.new.buf ≡ filled_at (self.old.read + at) (resized count bytes.now) self.old.buf }
        ensures length { length self.new.buf.bytes ≡ length self.old.buf.bytes }
        ensures rest { self.new.file ≡ self.old.file × (self.new.offset ≡ self.old.offset) × (self.new.read ≡ self.old.read) × (self.new.cache ≡ self.old.cache) × (self.new.way ≡ self.old.way) }
    {
        let _long = self.buf.len();
        fill(&mut self.buf, self.read + at, count, bytes);
    }

    /// Ends the request: what is told of it, with the buffer, and all else that it owned. The buffer has the range
    /// where it was read, and else no byte.
    pub fn complete(self, ended: Result<(), Error>) -> (RequestOutput, RetiredResources)
        ensures told { result.0 ≡ RequestOutput.ReadAt (range_read (narrowed self.way self.buf) self.buf ended) }
        ensures retired { result.1 ≡ RetiredResources.File self.file None }
    {
        let file = self.file;
        let told = match ended {
            Ok(()) => Ok(self.into_range()),
            Err(error) => Err((self.into_empty(), error)),
        };
        (
            RequestOutput::ReadAt(told),
            RetiredResources::File { file, write: None },
        )
    }

    /// The buffer with the range alone.
    pub(crate) fn into_range(mut self) -> IoBufMut
        ensures { result ≡ narrowed self.way self.buf }
    {
        if let Way::Direct { skip, len } = self.way {
            self.buf.truncate(skip + len);
            self.buf.advance(skip);
        }
        self.buf
    }

    /// The buffer without a byte.
    pub(crate) fn into_empty(mut self) -> IoBufMut
        ensures { result ≡ record self.buf { bytes = [] } }
    {
        self.buf.clear();
        self.buf
    }

    /// Whether its last operation had the hint.
    fn is_hinted(&self) -> bool
        ensures { result ≡ read_hinted self.now }
    {
        !self.way.is_direct() && self.cache.is_disabled()
    }

    /// Judges the next result. Answers the outcome that all results so far give, or None where another
    /// operation is needed. A refused hint is given up, also by the open. The caller must know that the kernel may
    /// give this result for the operation.
    pub fn on_cqe(
        &mut self,
        state: WaiterState,
        given: OpResult,
        open_: &mut Option<OpenRecord>,
    ) -> Option<Result<(), Error>>
        requires lawful { IsTrue (is_lawful (window_of (read_asked self.old) (read_cursor self.old)) given) }
        ensures judges { Judges (read_asked self.old) (read_cursor self.old) (read_cursor self.new) (judged_as (read_hinted self.old) state given) (as_answer result) }
        ensures kept { read_kept self.new ≡ read_kept self.old }
        ensures pages { is_direct self.new.way ≡ true → self.new.buf ≡ self.old.buf }
        ensures open { open_.new ≡ (if read_hinted self.old && is_unsupported given then without_hint open_.old else open_.old) }
    {
        let hinted = self.is_hinted();
        let outcome = self.judge(state.is_cancelled(), given);
        self.go_on(given);
        self.cache.fallback(hinted, given, open_);
        outcome
    }

    /// Counts the bytes of one more result, or goes on as a buffered read.
    fn go_on(&mut self, given: OpResult)
        requires lawful { IsTrue (is_lawful (window_of (read_asked self.old) (read_cursor self.old)) given) }
        ensures cursor { (cancelled : Bool) → let next = cursor_next (read_asked self.old) (read_cursor self.old) (record { result = given; hinted = read_hinted self.old; cancelled = cancelled }) in
            (self.new.read ≡ next.moved) × (is_switched self.new.way ≡ next.switched) }
        ensures kept { read_kept self.new ≡ read_kept self.old }
        ensures pages { is_direct self.new.way ≡ true → self.new.buf ≡ self.old.buf }
        ensures cache { self.new.cache ≡ self.old.cache }
    {
        if self.switches(given) {
            self.switch();
        } else {
            self.read += counted_by(given) as usize;
        }
    }

    /// What one more result means.
    fn judge(&self, cancelled: bool, given: OpResult) -> Option<Result<(), Error>>
        requires { IsTrue (is_lawful (window_of (read_asked self.now) (read_cursor self.now)) given) }
        ensures { as_answer result ≡ outcome_next (read_asked self.now) (read_cursor self.now) (record { result = given; hinted = read_hinted self.now; cancelled = cancelled }) }
    {
        match self.way {
            Way::Direct { skip, len } => {
                let left = (skip as u64 + len as u64).saturating_sub(self.read as u64);
                judge(Kind::Direct, left, false, cancelled, given)
            }
            _ => {
                let left = (self.buf.len() - self.read) as u64;
                judge(Kind::Read, left, self.cache.is_disabled(), cancelled, given)
            }
        }
    }

    /// Whether one more result makes this direct read a buffered one.
    fn switches(&self, given: OpResult) -> bool
        ensures switches { (cancelled : Bool) → result ≡ moves_on (read_asked self.now) (read_cursor self.now) (record { result = given; hinted = read_hinted self.now; cancelled = cancelled }) }
        ensures direct { IsTrue result → is_direct self.now.way ≡ true }
    {
        match self.way {
            Way::Direct { skip, len } => {
                let left = (skip as u64 + len as u64).saturating_sub(self.read as u64);
                moves_on(Kind::Direct, left, false, given)
            }
            _ => false,
        }
    }

    /// Goes on as a buffered read of the range, from nothing.
    fn switch(&mut self)
        requires { is_direct self.old.way ≡ true }
        ensures read { self.new.read ≡ 0 }
        ensures way { self.new.way ≡ switched_from self.old.way }
        ensures kept { read_kept self.new ≡ read_kept self.old }
        ensures cache { self.new.cache ≡ self.old.cache }
    {
        if let Way::Direct { skip, len } = self.way {
            self.buf.truncate(skip + len);
            self.buf.advance(skip);
            self.offset += skip as u64;
            self.read = 0;
            self.way = Way::Switched { skip, len };
        }
    }
}

/// So many bytes, up to the end of a page.
fn whole_pages(count: u64) -> u64
    requires { count < 2 ^ 64 - 4096 }
    ensures { result ≡ aligned count }
{
    (count + (DIRECT_ALIGN - 1)) / DIRECT_ALIGN * DIRECT_ALIGN
}
