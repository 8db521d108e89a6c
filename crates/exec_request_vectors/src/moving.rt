//! The bytes that operations move, each by its place.

use crate::fault::Fault;
use crate::words::bytes_from;
use exec_request::open_record::OpenRecord;
use exec_request::request::Request;
use exec_request::way::Way;
use exec_request::window::Opcode;
use std::alloc::Global;

/// Where the range of a read begins in the file; 0 for others.
pub fn place_of(request: &Option<Request>) -> u64 {
    match request {
        Some(Request::ReadAt(read)) => match read.way {
            Way::Direct { skip, .. } => read.offset.saturating_add(skip as u64),
            _ => read.offset,
        },
        _ => 0,
    }
}

/// Moves so many bytes of the next window: compares those that go out, and fills in those that come. `moved` is how
/// many moved before. Answers how many bytes moved.
pub fn move_bytes(
    request: &mut Request,
    alloc: Global,
    moved: u64,
    count: u64,
) -> Result<u64, Fault> {
    let window = request.window(&Some(OpenRecord::new()));
    if count > window.length as u64 {
        return Ok(0);
    }
    match window.kind {
        Opcode::Send | Opcode::Write => {
            let wanted = bytes_from(alloc, moved, count as usize)?;
            let mut bytes = bytes_from(alloc, 0, count as usize)?;
            if bytes.len() as u64 > window.length as u64 {
                return Err(Fault::Condition);
            }
            request.copy_window(0, bytes.as_mut_slice());
            if bytes.as_slice() != wanted.as_slice() {
                return Err(Fault::Differs);
            }
            Ok(count)
        }
        Opcode::Recv | Opcode::Read => {
            let place = if window.kind == Opcode::Read {
                window.offset
            } else {
                moved
            };
            let bytes = bytes_from(alloc, place, count as usize)?;
            if bytes.len() as u64 > window.length as u64 {
                return Err(Fault::Condition);
            }
            request.fill_window(0, bytes.len(), bytes.as_slice());
            Ok(count)
        }
        _ => Ok(0),
    }
}
