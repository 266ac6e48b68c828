//! A sink that makes lines of its entries.
ghost use Rattle.std.specs.Prelude.{◌≡◌, [], false};
ghost use Rattle.nap_list.specs.State.{start};
ghost use Rattle.nap_lines.specs.Listing.{TakesLinesOf, lists_more, lists_none};

use crate::backward_buffer::BackwardBuffer;
use crate::batch::write_batch;
use crate::line::{write_line, write_shape_line};
use nap_list::{Batch, BatchFault, Entry, GhostState, Shape, Sink, SinkFault};
use std::alloc::Global;
use std::marker::Model;

/// Makes a line of each entry that it takes, and keeps only the lines.
#[derive(Drop)]
pub struct LineSink {
    buffer: BackwardBuffer,
    text: Vec<u8>,
    state: GhostState,
}

impl Model for LineSink {
    ghost use Rattle.nap_lines.specs.Listing.{LineSinkState};

    ghost Value = { LineSinkState };

    ghost view = { λ s. record { text = s.text.items; state = s.state.state } };
}

impl LineSink {
    /// Returns a sink that has taken no entry, and no memory.
    pub fn new(alloc: Global) -> LineSink
        ensures { result ≡ record { text = []; state = start } }
    {
        LineSink::over(Vec::new(alloc))
    }

    /// Makes a sink that has taken nothing, and appends its lines to this text.
    pub fn over(text: Vec<u8>) -> LineSink
        ensures { result ≡ record { text = text.items; state = start } }
    {
        LineSink {
            buffer: BackwardBuffer::new(),
            text,
            state: GhostState::start(),
        }
    }

    /// Returns the lines of the entries taken so far, with the text before them.
    pub fn text(&self) -> &[u8]
        ensures { result.now ≡ self.now.text }
    {
        self.text.as_slice()
    }

    /// Returns the lines of the entries taken, with the text before them.
    pub fn into_text(self) -> Vec<u8>
        ensures { result.items ≡ self.text }
    {
        let LineSink { text, .. } = self;
        text
    }
}

impl Sink for LineSink {
    ghost state = { λ s. s.state };

    ghost wants = { λ s d. Unit {0} };

    ghost failed = { λ s. false };

    ghost took = { λ s d t. TakesLinesOf s d t };

    ghost broke = { λ s d e t. ⊥ };

    fn put(&mut self, entry: Entry) -> Result<(), SinkFault> {
        write_line(&mut self.buffer, &mut self.text, &entry, "\n")?;
        self.state = self.state.after(&entry);
        Ok(())
    }

    #[inline(always)]
    fn put_batch(&mut self, batch: &Batch) -> Result<(), BatchFault> {
        let taken = write_batch(&mut self.buffer, &mut self.text, batch, 0, batch.len());
        self.state = self.state.after_first(batch, taken);
        BatchFault::error_unless_all(taken, batch)
    }

    fn put_shape(&mut self, _: Global, shape: &Shape) -> Result<(), SinkFault> {
        write_shape_line(&mut self.buffer, &mut self.text, shape)?;
        self.state = self.state.after_shape(shape);
        Ok(())
    }

    ghost took_none = { λ s. lists_none s };

    ghost took_more = { λ s t u d e a b. lists_more s t u d e a b };

    ghost wants_more = { λ s t d e f a b. tt {0} };

    ghost took_broke = { λ s t u d e x a b. absurd b };
}
