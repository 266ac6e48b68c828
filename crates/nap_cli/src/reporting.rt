//! The program over a writer that is buffered.
ghost use Rattle.std.specs.Prelude.{◌≡◌, ◌<◌, ◌^◌, ◌||◌, [], List, ℕ, map, string_bytes, ◌+◌, ◌-◌, IfOk, min};
ghost use Rattle.std.specs.Io.Buffered.{writer_contents};
ghost use Rattle.std.specs.Io.KnownBytes.{Appends, WriteAppends};
ghost use Rattle.std.specs.Io.{WritesAtMost};
ghost use Rattle.nap_cli.specs.Reporting.{AnswersBuffered, Tells, devices_at_start};

use crate::program::run;
use nap_command::{Failure, report, write_whole};
use nap_list::{Inlet, Outlet, Target};
use std::alloc::Global;
use std::io::{BufWriter, Result, Write};

/// A writer of `std`, and how many bytes it took through this, saturating at the greatest `u64`. It tells its bytes if
/// the writer does.
#[derive(Drop)]
pub struct Counted<W> {
    writer: W,
    /// The number of bytes that the writer took.
    pub count: u64,
}

impl<W: Write> Counted<W> {
    /// Counts the bytes that a writer takes from now on.
    pub fn new(writer: W) -> Counted<W>
        ensures { result ≡ record { writer = writer; count = 0 } }
    {
        Counted { writer, count: 0 }
    }
}

impl<W: Write> Write for Counted<W> {
    ghost contents = { λ c. W.contents c.writer };

    fn write(&mut self, piece: &[u8]) -> Result<usize>
        ensures bound { WritesAtMost result piece.now }
        ensures bytes { WriteAppends (W.contents self.old.writer) (W.contents self.new.writer) result piece.now }
        ensures counts { IfOk result (λ n. self.new.count ≡ min (self.old.count + n) (2 ^ 64 - 1)) }
    {
        let taken = self.writer.write(piece)?;
        self.count = self.count.saturating_add(taken as u64);
        Ok(taken)
    }

    fn flush(&mut self) -> Result<()> {
        self.writer.flush()
    }
}

/// Reports on standard error how the program ended, and returns the exit status: that the output failed, with the number
/// of bytes that its writer took, or what was noted.
fn tell<E: Outlet>(
    failed: bool,
    count: u64,
    notes: Target<Vec<u8>>,
    status: u8,
    errors: &mut E,
) -> u8
    ensures { (e : List ℕ) × Appends (E.taken errors.old) (E.taken errors.new) e × Tells failed (notes.write_failed || notes.flush_failed) count notes.writer.items status e (E.failed errors.new) result }
{
    if failed {
        return report(Failure::Write(count), errors);
    }
    if notes.failed() {
        return report(Failure::Memory, errors);
    }
    let _ = write_whole(errors, notes.into_inner().as_slice());
    status
}

/// Runs the program on its words over a writer whose bytes are buffered. Returns the writer and the exit status. A write
/// fault is reported with the number of bytes that the writer took, and those that it didn't take are given up.
pub fn run_buffered<I: Inlet, W: Write + Drop, E: Outlet>(
    alloc: Global,
    words: &[String],
    input: &mut I,
    output: BufWriter<Counted<W>>,
    notes: Vec<u8>,
    errors: &mut E,
) -> (Counted<W>, u8)
    requires calls { I.calls input.old < 2 ^ 63 }
    requires empty { notes.items ≡ [] }
    ensures { AnswersBuffered I.Inlet (map string_bytes words.now) input.old input.new (devices_at_start I.Inlet input.old (writer_contents ⟦<Counted<W> as Write>⟧.contents output))
        (⟦<Counted<W> as Write>⟧.contents result.0) result.0.count (E.taken errors.old) (E.taken errors.new) (E.failed errors.new) result.1 }
{
    let mut notes = Target::new(notes);
    let (output, status) = run(alloc, words, input, Target::new(output), &mut notes);
    let failed = output.failed();
    let (writer, _) = output.into_inner().into_parts();
    let status = tell(failed, writer.count, notes, status, errors);
    (writer, status)
}
