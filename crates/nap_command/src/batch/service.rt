//! Requests, one after another, and their answers.
ghost use Rattle.std.specs.Prelude.{◌≡◌, ◌+◌, ◌++◌, IfOk, drop, length, take};
ghost use Rattle.nap_command.specs.Devices.{devices, pipes};
ghost use Rattle.nap_list.specs.declared.device.TheConstants.{READ_SIZE};
ghost use Rattle.nap_command.specs.Requests.{IsWhole};
ghost use Rattle.nap_command.specs.Sessions.{IsAnswered, IsExchanged, IsSent, Replies, Served, Session};

use crate::batch::answer::{Body, answer_page};
use crate::batch::request::RequestLine;
use crate::batch::waiting::{FoundRequest, InputBuffer, LEAST_MEMORY, wait};
use crate::device::write_whole;
use crate::execution::report;
use crate::failure::Failure;
use nap_list::{Inlet, Outlet, READ_SIZE, send_all};
use std::alloc::{AllocError, Global};

/// The greatest number of requests of one run.
pub const REQUESTS: u64 = 4_398_046_511_104;

/// How a run ends.
#[derive(Clone, Copy, PartialEq, Eq, Drop)]
pub enum Ended {
    /// The input ended between two requests.
    Done,
    /// The next bytes are no request, or there were as many requests as allowed.
    Request,
    /// A read failed, or there were as many reads for one request as allowed.
    Read,
    /// A write failed. The number of bytes that the output had taken, saturating at the greatest `u64`.
    Write(u64),
    /// Memory ran out before anything was read or written.
    Memory,
}

/// The number of bytes written so far, or how a run ends.
type Sent = Result<u64, Ended>;

/// The answer if memory ran out for one.
const NO_MEMORY: &[u8] = b"no memory\n0\n";

/// Returns the answer to a request with this page: the bytes before the body, and the body.
fn answer_parts(
    alloc: Global,
    line: RequestLine,
    page: &[u8],
) -> Result<(Vec<u8>, Body), AllocError>
    ensures { IfOk result (λ parts. IsAnswered line.question line.budget page.now (parts.0.items ++ parts.1)) }
{
    let answer = answer_page(alloc, line.question, line.budget, page)?;
    answer.into_parts()
}

/// Writes an answer, or the rest of one, and flushes the output. Returns the number of bytes written so far, of which
/// `written` came before.
fn send<O: Outlet>(output: &mut O, written: u64, text: &[u8]) -> Sent
    ensures { IsSent O.Outlet written text.now output.old output.new result }
{
    match write_whole(output, text) {
        Ok(()) => Ok(written.saturating_add(text.len() as u64)),
        Err(Failure::Write(taken)) => Err(Ended::Write(written.saturating_add(taken))),
        // Writing fails in no other way.
        Err(_) => unreachable!(),
    }
}

/// Writes an answer in two parts, and flushes the output. Returns the number of bytes written so far, of which
/// `written` came before.
fn send_parts<O: Outlet>(output: &mut O, written: u64, head: &[u8], body: &[u8]) -> Sent
    ensures { IsSent O.Outlet written (head.now ++ body.now) output.old output.new result }
{
    let mut sent = written;
    match send_all(output, &mut sent, head) {
        Ok(()) => send(output, sent, body),
        Err(_) => Err(Ended::Write(sent)),
    }
}

/// Answers a request with this page.
fn answer<O: Outlet>(
    alloc: Global,
    line: RequestLine,
    page: &[u8],
    output: &mut O,
    written: u64,
) -> Sent
    ensures { Replies O.Outlet written line.question line.budget page.now output.old output.new result }
{
    match answer_parts(alloc, line, page) {
        Ok((head, body)) => send_parts(output, written, head.as_slice(), body.as_slice()),
        Err(AllocError) => send(output, written, NO_MEMORY),
    }
}

/// Answers the request that the buffer begins with, whose page is at this index, and drops it.
fn answer_front<O: Outlet>(
    alloc: Global,
    line: RequestLine,
    start: usize,
    buffer: &mut InputBuffer,
    output: &mut O,
    written: u64,
) -> Sent
    requires { IsWhole buffer.old.bytes line start }
    ensures buffered { buffer.new ≡ record { bytes = drop (start + line.size) buffer.old.bytes; memory = buffer.old.memory } }
    ensures answers { let page = take line.size (drop start buffer.old.bytes) in
        Replies O.Outlet written line.question line.budget page output.old output.new result }
{
    let end = start + line.size as usize;
    let sent = answer(alloc, line, &buffer.bytes()[start..end], output, written);
    buffer.drop_first(end);
    sent
}

/// Reads one request and answers it.
fn exchange<I: Inlet, O: Outlet>(
    alloc: Global,
    buffer: &mut InputBuffer,
    scratch: &mut [u8],
    input: &mut I,
    output: &mut O,
    written: u64,
) -> Sent
    requires { length scratch.old ≡ READ_SIZE }
    ensures space { length scratch.new ≡ READ_SIZE }
    ensures exchanged { let seen = pipes I.Inlet O.Outlet in
        IsExchanged written buffer.old buffer.new (seen input.old output.old) (seen input.new output.new) result }
{
    match wait(buffer, input, scratch) {
        Ok(FoundRequest::Whole(line, start)) => {
            answer_front(alloc, line, start, buffer, output, written)
        }
        Ok(FoundRequest::Dropped) => send(output, written, NO_MEMORY),
        Err(ended) => Err(ended),
    }
}

/// Answers requests until the input ends or a device fails.
// Kept out of the caller, whose frame would hold its buffers.
#[inline(never)]
fn serve<I: Inlet, O: Outlet>(alloc: Global, input: &mut I, output: &mut O) -> Ended
    ensures { let seen = pipes I.Inlet O.Outlet in Session (seen input.old output.old) (seen input.new output.new) result }
{
    let Ok(memory) = Vec::with_capacity(alloc, LEAST_MEMORY) else {
        return Ended::Memory;
    };
    let mut buffer = InputBuffer::over(memory);
    let mut scratch = [0; READ_SIZE];
    let mut written = 0;
    for _ in 0..REQUESTS {
        match exchange(alloc, &mut buffer, &mut scratch, input, output, written) {
            Ok(more) => written = more,
            Err(ended) => return ended,
        }
    }
    Ended::Request
}

/// Executes `batch`: answers requests, reports on standard error how that ended, and returns the exit status
/// (docs/BATCH.md).
pub fn batch<I: Inlet, O: Outlet, E: Outlet>(
    alloc: Global,
    input: &mut I,
    output: &mut O,
    errors: &mut E,
) -> u8
    ensures { let seen = devices I.Inlet O.Outlet E.Outlet in
        Served (seen input.old output.old errors.old) (seen input.new output.new errors.new) result }
{
    match serve(alloc, input, output) {
        Ended::Done => 0,
        Ended::Request => {
            let _ = write_whole(errors, b"request fault\n");
            3
        }
        Ended::Read => report(Failure::Read, errors),
        Ended::Write(taken) => report(Failure::Write(taken), errors),
        Ended::Memory => report(Failure::Memory, errors),
    }
}
