//! What the libraries answer about a stream.
use crate::notation::MOST;
use crate::report::Report;
use nap_list::{Entry, ListSink, Sink};
use nap_reader::{Budget, Reader, Refusal};

/// All that a reader answers about a stream.
#[derive(Drop)]
pub struct Answer {
    /// The entries before the end, or before the refusal.
    pub list: Vec<Entry>,
    /// Why the stream is refused, if it is.
    pub refusal: Option<Refusal>,
    /// Whether the stream was refused before its end.
    pub early: bool,
    /// The number of bytes read.
    pub fed: u64,
    /// The number of turns.
    pub turns: u64,
    /// The number of bytes charged.
    pub charged: u64,
}

impl Answer {
    /// Whether two answers are equal.
    pub fn is(&self, other: &Answer) -> bool {
        self.list == other.list
            && (self.refusal, self.early) == (other.refusal, other.early)
            && [self.fed, self.turns, self.charged] == [other.fed, other.turns, other.charged]
    }
}

/// The pieces of a stream.
#[derive(Clone, Copy, Drop)]
pub enum Cut {
    /// One piece.
    Whole,
    /// Two pieces, cut at this index, each followed by an empty piece.
    At(usize),
    /// Single bytes, each after an empty piece if this is true.
    Single(bool),
}

/// Feeds a piece, and checks that a refused stream stays so.
fn feed<S: Sink>(report: &mut Report, reader: &mut Reader<S>, piece: &[u8]) {
    if piece.len() > MOST || reader.fed() > MOST as u64 {
        report.tell("there are too many bytes");
        return;
    }
    let (before, fed) = (reader.refused(), reader.fed());
    let answer = reader.feed(piece).err();
    let stays = before.is_none() || (answer == before && reader.fed() == fed);
    let is_kept = stays && answer == reader.refused();
    report.check(is_kept, "the refusal isn't the one that was kept");
}

/// Feeds a stream in these pieces.
fn feed_in<S: Sink>(report: &mut Report, reader: &mut Reader<S>, stream: &[u8], cut: Cut) {
    match cut {
        Cut::Whole => feed(report, reader, stream),
        Cut::At(place) => {
            let (front, back) = stream.split_at(place.min(stream.len()));
            for piece in [front, &[], back, &[]] {
                feed(report, reader, piece);
            }
        }
        Cut::Single(empty) => {
            for byte in stream {
                if empty {
                    feed(report, reader, &[]);
                }
                feed(report, reader, &[*byte]);
            }
        }
    }
}

/// Ends the stream, and returns the sink and the refusal.
fn end<S: Sink>(reader: Reader<S>) -> (S, Option<Refusal>) {
    match reader.finish() {
        Ok(sink) => (sink, None),
        Err(stopped) => (stopped.sink, Some(stopped.refusal)),
    }
}

/// Reads a stream in these pieces into the reader's sink, and returns the sink and the answer.
pub fn read_into<S: Sink + Drop>(
    report: &mut Report,
    mut reader: Reader<S>,
    stream: &[u8],
    cut: Cut,
) -> (S, Answer) {
    feed_in(report, &mut reader, stream, cut);
    let early = reader.refused().is_some();
    if early {
        feed(report, &mut reader, b"\x0F");
    }
    let (fed, turns, charged) = (reader.fed(), reader.turns(), reader.charged());
    let (sink, refusal) = end(reader);
    let answer = Answer {
        list: Vec::new(report.alloc),
        refusal,
        early,
        fed,
        turns,
        charged,
    };
    (sink, answer)
}

/// Reads a stream in these pieces, and returns the answer with its list.
#[tactic(auto, unfolding(nap_list::specs::State::walk))]
pub fn answer_in(report: &mut Report, budget: Budget, stream: &[u8], cut: Cut) -> Answer {
    let alloc = report.alloc;
    let reader = Reader::new(alloc, budget, ListSink::new(alloc));
    let (sink, answer) = read_into(report, reader, stream, cut);
    Answer {
        list: sink.into_list(),
        ..answer
    }
}
