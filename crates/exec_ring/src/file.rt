//! The bytes of a file: a finite map from offsets to bytes, with zeros elsewhere.
//!
//! The bytes lie in pages of 4,096, by their number. A page that is not there has zeros alone, so making one changes
//! no byte. A landing writes into pages that were made before, and reads also where there are none.

ghost use Rattle.std.specs.Prelude.{◌≡◌, ◌+◌, ◌-◌, ◌/◌, ◌%◌, ◌^◌, ◌<◌, ◌≤◌, ◌↔◌, IsTrue, ℕ, min, length, take, drop, true, replicate, IfOk, OnOk};
ghost use Rattle.exec_bufs.specs.Buffers.{resized};
ghost use Rattle.exec_request.specs.{Windows.{moves_out, moves_in}, Requests.window_by, Bytes.window_bytes};

use exec_request::request::Request;
use std::alloc::{AllocError, Global};
use std::collections::BTreeMap;

/// How many bytes a page has.
const PAGE: u64 = 4096;

/// 4,096 bytes of a file.
#[derive(Drop)]
pub struct Page {
    bytes: Vec<u8>,
    pub ghost full: { length bytes.items ≡ 4096 },
}

impl Page {
    ghost use Rattle.exec_ring.specs.Files.{bytes_of, overwritten};

    /// A page of zeros.
    pub(crate) fn new(alloc: Global) -> Result<Page, AllocError>
        ensures { IfOk result (λ p. bytes_of p ≡ replicate 4096 0) }
    {
        Ok(Page {
            bytes: vec![in alloc; 0u8; 4096]?,
        })
    }

    /// The bytes from this place on, so many.
    pub(crate) fn slice(&self, start: usize, count: usize) -> &[u8]
        requires { start + count ≤ 4096 }
        ensures { result.now ≡ take count (drop start (bytes_of self.now)) }
    {
        &self.bytes[start..start + count]
    }

    /// Writes bytes of the window of this request, from its byte `at` on, so many, at this place.
    pub(crate) fn write(&mut self, start: usize, count: usize, at: usize, request: &Request)
        requires page { start + count ≤ 4096 }
        requires out { moves_out (window_by true request.now).kind ≡ true }
        requires within { at + count ≤ (window_by true request.now).length }
        ensures inside { start + length (take count (drop at (window_bytes request.now))) ≤ 4096 }
        ensures bytes { bytes_of self.new ≡ overwritten start (take count (drop at (window_bytes request.now))) (bytes_of self.old) }
    {
        request.copy_window(at, self.bytes.slice_mut(start..start + count));
    }
}

/// The bytes of a file.
#[derive(Drop)]
pub struct File {
    pages: BTreeMap<u64, Page>,
}

impl File {
    ghost use Rattle.exec_ring.specs.{Fillings.Fills, Files.{byte_at, HasPage, Covers, SameBytes, KeepsPages, Overwrites, bytes_from}};

    /// A file of zeros.
    pub fn new(alloc: Global) -> File
        ensures { (k : ℕ) → byte_at result k ≡ 0 }
    {
        File {
            pages: BTreeMap::new(alloc),
        }
    }

    /// The byte at this offset.
    pub fn byte_at(&self, offset: u64) -> u8
        ensures { result ≡ byte_at self.now offset }
    {
        match self.pages.get(&(offset / PAGE)) {
            Some(page) => page.bytes[(offset % PAGE) as usize],
            None => 0,
        }
    }

    /// Makes room for the bytes of a write. An `Err` comes only for want of memory, and changes no byte.
    pub(crate) fn reserve(
        &mut self,
        alloc: Global,
        offset: u64,
        length: u64,
    ) -> Result<(), AllocError>
        requires { offset + length < 2 ^ 64 }
        ensures ok { OnOk result (Covers self.new offset length) }
        ensures bytes { SameBytes self.old self.new }
        ensures pages { KeepsPages self.old self.new }
    {
        let first = offset / PAGE;
        let end = (offset + length).div_ceil(PAGE);
        for number in first..end {
            self.add_page(alloc, number)?;
        }
        Ok(())
    }

    /// Whether there is room for so many bytes from this offset on.
    pub(crate) fn covers(&self, offset: u64, length: u64) -> bool
        requires { offset + length < 2 ^ 64 }
        ensures { IsTrue result ↔ Covers self.now offset length }
    {
        if length == 0 {
            return true;
        }
        let first = offset / PAGE;
        let end = (offset + length).div_ceil(PAGE);
        'pages: for number in first..end {
            if !self.pages.contains_key(&number) {
                return false;
            }
        }
        true
    }

    /// Makes a page, unless it is there.
    fn add_page(&mut self, alloc: Global, number: u64) -> Result<(), AllocError>
        ensures ok { OnOk result (HasPage self.new number) }
        ensures bytes { SameBytes self.old self.new }
        ensures pages { KeepsPages self.old self.new }
    {
        if !self.pages.contains_key(&number) {
            self.pages.insert(number, Page::new(alloc)?)?;
        }
        Ok(())
    }

    /// Writes the first bytes of the window of this request, so many, from this offset on, in room that is there.
    pub(crate) fn write(&mut self, offset: u64, count: usize, request: &Request)
        requires ends { offset + count < 2 ^ 64 }
        requires covered { Covers self.old offset count }
        requires out { moves_out (window_by true request.now).kind ≡ true }
        requires within { count ≤ (window_by true request.now).length }
        ensures bytes { Overwrites self.old self.new offset (take count (window_bytes request.now)) }
        ensures pages { KeepsPages self.old self.new }
    {
        let mut at = 0;
        while at < count {
            let here = in_page(offset + at as u64, count - at);
            self.write_in_page(offset + at as u64, here, at, request);
            at += here;
        }
    }

    /// Writes bytes of the window of this request, from its byte `at` on, within one page.
    fn write_in_page(&mut self, offset: u64, count: usize, at: usize, request: &Request)
        requires page { offset % 4096 + count ≤ 4096 }
        requires there { HasPage self.old (offset / 4096) }
        requires out { moves_out (window_by true request.now).kind ≡ true }
        requires within { at + count ≤ (window_by true request.now).length }
        ensures bytes { Overwrites self.old self.new offset (take count (drop at (window_bytes request.now))) }
        ensures pages { KeepsPages self.old self.new }
    {
        if let Some(page) = self.pages.get_mut(&(offset / PAGE)) {
            page.write((offset % PAGE) as usize, count, at, request);
        }
    }

    /// Reads so many bytes from this offset on into the window of this request.
    pub(crate) fn read(&self, offset: u64, count: usize, request: &mut Request)
        requires ends { offset + count < 2 ^ 64 }
        requires in_ { moves_in (window_by true request.old).kind ≡ true }
        requires within { count ≤ (window_by true request.old).length }
        ensures { Fills request.old request.new (bytes_from self.now offset count) }
    {
        let mut at = in_page(offset, count);
        request.fill_window(0, at, self.bytes_in_page(offset, at));
        while at < count {
            let here = in_page(offset + at as u64, count - at);
            request.fill_window(at, here, self.bytes_in_page(offset + at as u64, here));
            at += here;
        }
    }

    /// So many bytes from this offset on, within one page: none where the page is not there, so all are zeros.
    fn bytes_in_page(&self, offset: u64, count: usize) -> &[u8]
        requires { offset % 4096 + count ≤ 4096 }
        ensures bytes { resized count result.now ≡ bytes_from self.now offset count }
        ensures within { length result.now ≤ count }
    {
        match self.pages.get(&(offset / PAGE)) {
            Some(page) => page.slice((offset % PAGE) as usize, count),
            None => &[],
        }
    }
}

/// How many of so many bytes from this offset on lie in its page.
fn in_page(offset: u64, count: usize) -> usize
    ensures { result ≡ min count (4096 - offset % 4096) }
{
    count.min((PAGE - offset % PAGE) as usize)
}
