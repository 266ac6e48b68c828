//! WAIT and BLINK (PROFILE.md, Opcodes).
ghost use Rattle.std.specs.Prelude.{None, length, ◌+◌, ◌<◌, ◌≡◌};
ghost use Rattle.nap_draw.specs.Names.{StatesAgree, operand_words};
ghost use Rattle.nap_list.specs.declared.entry.Entry.TheVariants.{Wait};
ghost use Rattle.nap_draw.specs.Rule.{blink, rule};
ghost use Rattle.nap_draw.specs.Execution.{ActsByRule, clears_nothing};

use crate::fault::Drawn;
use crate::operands::word_at;
use crate::work::Work;
use nap_codes::Opcode;
use nap_list::{Drawing, Entry, Sink, SinkFault};
use nap_values::{Domain, Point, Word, single_bytes};

/// Returns the Blink of a group: an address and three words.
fn blink_of(domain: Domain, drawing: &Drawing, group: &[u8]) -> Entry
    requires { 0 < length group.now }
    ensures { result ≡ blink domain.single drawing.now.colour (operand_words group.now) }
{
    let size = domain.single();
    let (address, times) = group.split_at(usize::from(size).min(group.len()));
    Entry::Blink {
        addr: single_bytes(address),
        on: word_at(times, 0),
        off: word_at(times, 1),
        delay: word_at(times, 2),
        colour: drawing.colour,
    }
}

impl Work {
    pub(crate) fn wait<S: Sink>(&mut self, run: &[u8], sink: &mut S) -> Drawn
        requires { StatesAgree self.old.state (S.state sink.old) }
        ensures { ActsByRule S.Sink clears_nothing ⊥ (rule self.old Opcode.Wait (operand_words run.now)) self.old self.new sink.old sink.new result }
    {
        if run.is_empty() {
            return Ok(());
        }
        for byte in run {
            sink.put(Entry::Wait(Word::of_byte(*byte)))?;
        }
        self.state.last = None;
        Ok(())
    }

    pub(crate) fn blink<S: Sink>(&mut self, run: &[u8], sink: &mut S) -> Drawn
        requires { StatesAgree self.old.state (S.state sink.old) }
        ensures { ActsByRule S.Sink clears_nothing ⊥ (rule self.old Opcode.Blink (operand_words run.now)) self.old self.new sink.old sink.new result }
    {
        if run.is_empty() {
            let colour = self.state.drawing.colour;
            return self.put_and_set_pen(Entry::BlinkEnd { colour }, self.state.drawing.pen, sink);
        }
        for group in run.chunks(usize::from(self.domain.single()) + 3) {
            sink.put(blink_of(self.domain, &self.state.drawing, group))?;
        }
        self.state.last = None;
        Ok(())
    }
}
