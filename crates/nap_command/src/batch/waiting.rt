//! Waiting for a complete request, also past one for which memory ran out.
ghost use Rattle.std.specs.Prelude.{◌≡◌, ◌+◌, ◌<◌, ◌≤◌, length, ◌-◌, ◌++◌, [], drop, take, vec_capacity};
ghost use Rattle.nap_list.specs.Limits.{reads_limit};
ghost use Rattle.nap_list.specs.declared.device.TheConstants.{READ_SIZE};
ghost use Rattle.nap_command.specs.Requests.{IsMore};
ghost use Rattle.nap_command.specs.Waiting.{IsFound, IsLast, IsSkipped, IsStep, ReadsSome, end_of, IsReadOn};
ghost use Rattle.nap_command.specs.Buffering.{TakesMemory, least_memory, memory_for};

use crate::batch::request::{RequestFront, RequestLine, request_front_of};
use crate::batch::service::Ended;
use nap_list::{DeviceFault, Inlet, READ_SIZE, READS};
use std::marker::Model;

/// The memory of a new buffer: that of two reads.
pub(crate) const LEAST_MEMORY: usize = 2 * READ_SIZE;

/// Why no more bytes were read.
#[derive(Clone, Copy, PartialEq, Eq, Drop)]
pub(crate) enum Stop {
    /// Memory ran out for them. The input wasn't read.
    Memory,
    /// The read failed.
    Read,
}

/// The bytes that were read and belong to no answered request.
#[derive(Drop)]
pub(crate) struct InputBuffer {
    /// The memory, as far as it was ever written. The bytes from `start` to `end` are the buffer's.
    bytes: Vec<u8>,
    start: usize,
    end: usize,
}

impl Model for InputBuffer {
    ghost use Rattle.std.specs.Prelude.{◌≤◌, drop, length, take, vec_capacity};
    ghost use Rattle.nap_command.specs.Buffering.{Buffered, least_memory};

    ghost Value = { Buffered };

    ghost view = { λ h. record { bytes = drop h.start (take h.end h.bytes.items); memory = vec_capacity h.bytes } };

    ghost invariant = { λ h. record { order : h.start ≤ h.end; within : h.end ≤ length h.bytes.items; memory : least_memory ≤ vec_capacity h.bytes } };
}

/// Moves the bytes between two indices to the start.
fn move_to_start(bytes: &mut Vec<u8>, start: usize, end: usize)
    requires order { start ≤ end }
    requires within { end ≤ length bytes.old.items }
    ensures len { length bytes.new.items ≡ length bytes.old.items }
    ensures moved { take (end - start) bytes.new.items ≡ drop start (take end bytes.old.items) }
    ensures memory { vec_capacity bytes.new ≡ vec_capacity bytes.old }
{
    if start > 0 {
        bytes.copy_within(start..end, 0);
    }
}

/// Puts more bytes at this index, into memory that there is.
fn write_at(bytes: &mut Vec<u8>, end: usize, more: &[u8])
    requires within { end ≤ length bytes.old.items }
    requires fits { end + length more.now ≤ vec_capacity bytes.old }
    ensures within { end + length more.now ≤ length bytes.new.items }
    ensures written { take (end + length more.now) bytes.new.items ≡ take end bytes.old.items ++ more.now }
    ensures memory { vec_capacity bytes.new ≡ vec_capacity bytes.old }
{
    if more.len() <= bytes.len() - end {
        bytes[end..end + more.len()].copy_from_slice(more);
        return;
    }
    bytes.truncate(end);
    for &byte in more {
        bytes.push_reserved(byte);
    }
}

impl InputBuffer {
    /// Returns a buffer over this memory, which has no bytes yet.
    pub(crate) fn over(memory: Vec<u8>) -> InputBuffer
        requires { least_memory ≤ vec_capacity memory }
        ensures { result ≡ record { bytes = []; memory = vec_capacity memory } }
    {
        InputBuffer {
            bytes: memory,
            start: 0,
            end: 0,
        }
    }

    /// Returns the bytes.
    pub(crate) fn bytes(&self) -> &[u8]
        ensures { result.now ≡ self.now.bytes }
    {
        &self.bytes[..self.end][self.start..]
    }

    /// Drops the first `count` bytes.
    pub(crate) fn drop_first(&mut self, count: usize)
        requires { count ≤ length self.old.bytes }
        ensures { self.new ≡ record { bytes = drop count self.old.bytes; memory = self.old.memory } }
    {
        self.start += count;
    }

    /// Drops all bytes, and keeps their memory.
    pub(crate) fn clear(&mut self)
        ensures { self.new ≡ record { bytes = []; memory = self.old.memory } }
    {
        self.start = self.end;
    }

    /// Reads once, into `scratch`, appends the bytes, and returns their number. Before, gives up the memory of what was
    /// dropped, and reserves some for `missing` bytes.
    pub(crate) fn read<I: Inlet>(
        &mut self,
        input: &mut I,
        scratch: &mut [u8],
        missing: usize,
    ) -> Result<usize, Stop>
        requires { length scratch.old ≡ READ_SIZE }
        ensures space { length scratch.new ≡ READ_SIZE }
        ensures reads { IsReadOn I.Inlet self.old.bytes self.new.bytes input.old input.new result }
        ensures memory { TakesMemory (memory_for (length self.old.bytes) missing) self.old.memory self.new.memory result }
    {
        move_to_start(&mut self.bytes, self.start, self.end);
        self.end -= self.start;
        self.start = 0;
        let spare = self.bytes.len() - self.end;
        let lacking = missing.max(READ_SIZE).saturating_sub(spare);
        if self.bytes.try_reserve_exact(lacking).is_err() {
            return Err(Stop::Memory);
        }
        let Ok(count) = input.read(scratch) else {
            return Err(Stop::Read);
        };
        write_at(&mut self.bytes, self.end, &scratch[..count]);
        self.end += count;
        Ok(count)
    }
}

/// A request that was read to its last byte.
#[derive(Clone, Copy, PartialEq, Eq, Drop)]
pub(crate) enum FoundRequest {
    /// The buffer begins with it, and its page is at this index.
    Whole(RequestLine, usize),
    /// Memory ran out for its page, and the buffer is empty.
    Dropped,
}

/// The result of one read.
#[derive(Clone, Copy, PartialEq, Eq, Drop)]
pub(crate) enum ReadStep {
    /// More bytes in the buffer.
    Longer,
    /// All of a request whose page lacked memory. The buffer is empty.
    Dropped,
}

/// Reads once, at most `most` bytes, to the beginning of `scratch`.
fn read_some<I: Inlet>(input: &mut I, scratch: &mut [u8], most: usize) -> Result<usize, DeviceFault>
    requires space { 0 < length scratch.old }
    requires most { 0 < most }
    ensures space { length scratch.new ≡ length scratch.old }
    ensures reads { ReadsSome I.Inlet most input.old input.new result }
{
    let piece = most.min(scratch.len());
    input.read(&mut scratch[..piece])
}

/// Reads `missing` bytes and drops them, with at most `most` reads.
fn skip<I: Inlet>(input: &mut I, scratch: &mut [u8], missing: usize, most: u64) -> Result<(), Ended>
    requires { 0 < length scratch.old }
    ensures space { length scratch.new ≡ length scratch.old }
    ensures skipped { IsSkipped I.Inlet missing most input.old input.new result }
{
    let mut left = missing;
    for _ in 0..most {
        if left == 0 {
            return Ok(());
        }
        let Ok(count) = read_some(input, scratch, left) else {
            return Err(Ended::Read);
        };
        if count == 0 {
            return Err(Ended::Request);
        }
        left -= count;
    }
    if left == 0 {
        return Ok(());
    }
    Err(Ended::Read)
}

/// Returns how the input ends after these bytes.
fn end_of(buffer: &InputBuffer) -> Ended
    ensures { result ≡ end_of buffer.now.bytes }
{
    if buffer.bytes().is_empty() {
        Ended::Done
    } else {
        Ended::Request
    }
}

/// Reads once, with `missing` bytes of a page missing. If memory runs out for them, reads and drops them with at most
/// `most` reads, and empties the buffer.
fn read_more<I: Inlet>(
    buffer: &mut InputBuffer,
    input: &mut I,
    scratch: &mut [u8],
    missing: usize,
    most: u64,
) -> Result<ReadStep, Ended>
    requires more { IsMore buffer.old.bytes missing }
    requires most { reads_limit ≤ most + length buffer.old.bytes }
    requires space { length scratch.old ≡ READ_SIZE }
    ensures space { length scratch.new ≡ READ_SIZE }
    ensures steps { IsStep I.Inlet buffer.old buffer.new input.old input.new result }
{
    match buffer.read(input, scratch, missing) {
        Ok(0) => Err(end_of(buffer)),
        Ok(_) => Ok(ReadStep::Longer),
        Err(Stop::Read) => Err(Ended::Read),
        // The line of a request fits into the memory of a new buffer, with a read after it.
        Err(Stop::Memory) => {
            buffer.clear();
            skip(input, scratch, missing, most)?;
            Ok(ReadStep::Dropped)
        }
    }
}

/// Returns what the bytes begin with after the last allowed read.
#[tactic(auto, using(crate::proofs::FrontLemmas::more_begun))]
fn final_front(bytes: &[u8]) -> Result<FoundRequest, Ended>
    ensures { IsLast bytes.now result }
{
    match request_front_of(bytes) {
        RequestFront::Whole(line, start) => Ok(FoundRequest::Whole(line, start)),
        RequestFront::Wrong => Err(Ended::Request),
        RequestFront::More(_) => Err(Ended::Read),
    }
}

/// Reads until the buffer begins with a complete request.
pub(crate) fn wait<I: Inlet>(
    buffer: &mut InputBuffer,
    input: &mut I,
    scratch: &mut [u8],
) -> Result<FoundRequest, Ended>
    requires { length scratch.old ≡ READ_SIZE }
    ensures space { length scratch.new ≡ READ_SIZE }
    ensures found { IsFound I.Inlet buffer.old buffer.new input.old input.new result }
{
    for reads in 0..READS {
        match request_front_of(buffer.bytes()) {
            RequestFront::Whole(line, start) => return Ok(FoundRequest::Whole(line, start)),
            RequestFront::Wrong => return Err(Ended::Request),
            RequestFront::More(missing) => {
                if read_more(buffer, input, scratch, missing, READS - reads)? == ReadStep::Dropped {
                    return Ok(FoundRequest::Dropped);
                }
            }
        }
    }
    final_front(buffer.bytes())
}
