//! Laws about the meaning of streams. Each is the contract of a function that does nothing.
ghost use Rattle.std.specs.Prelude.{◌≡◌};
ghost use Rattle.nap_reader.specs.Laws.{AcceptedIsLegal, BegunComesFirst, CodeActs, EndBreaksAmong, FedBreaksAmong, FrontAfterFront, MoreBytesKeepEntries, MoreBytesKeepRefusal, PiecesAgree, ReadValuesAreInRange, RunActs, RunWaits};
ghost use Rattle.nap_reader.specs.Bodies.{store_limit};
ghost use Rattle.nap_reader.specs.Budgets.{most_budget, usual_budget};
ghost use Rattle.nap_reader.specs.declared.budget.TheConstants.Budget.{MOST, USUAL};
ghost use Rattle.nap_reader.specs.declared.store.TheConstants.{STORE_LIMIT};

use nap_list::Sink;

/// The meaning of a stream is found front after front, with no bound on their number.
#[tactic(auto, using(crate::proofs::PublicLaws::front_after_front))]
pub fn front_after_front()
    ensures { FrontAfterFront }
{}

/// An opcode acts by its rule when a byte that isn't an operand byte follows its run, and not before.
#[tactic(auto, using(crate::proofs::PublicLaws::run_acts, crate::proofs::PublicLaws::run_waits))]
pub fn opcodes_take_their_runs()
    ensures acts { RunActs }
    ensures waits { RunWaits }
{}

/// A character, control, shift or designation acts by its rule or adds nothing, whatever follows it.
#[tactic(auto, using(crate::proofs::PublicLaws::code_acts))]
pub fn codes_act_alone()
    ensures { CodeActs }
{}

/// More bytes after a stream change none of its entries, which are a prefix of those of the longer stream.
#[tactic(auto, using(crate::proofs::PublicLaws::more_bytes_keep_entries))]
pub fn more_bytes_keep_entries()
    ensures { MoreBytesKeepEntries }
{}

/// More bytes after a refused stream change nothing.
#[tactic(auto, using(crate::proofs::PublicLaws::more_bytes_keep_refusal))]
pub fn more_bytes_keep_refusal()
    ensures { MoreBytesKeepRefusal }
{}

/// What is known of a stream doesn't depend on how it is cut into pieces.
#[tactic(auto, using(crate::proofs::PublicLaws::pieces_agree))]
pub fn pieces_agree()
    ensures { PiecesAgree }
{}

/// The list of an accepted stream is legal.
pub fn accepted_is_legal()
    ensures { AcceptedIsLegal }
{}

/// The values of entries that were read are in the ranges of their types.
pub fn read_values_are_in_range()
    ensures { ReadValuesAreInRange }
{}

/// The entries of the meaning so far are a prefix of those of the whole stream.
#[tactic(auto, using(crate::proofs::PublicLaws::begun_comes_first))]
pub fn begun_comes_first()
    ensures { BegunComesFirst }
{}

/// A reader that broke, for lack of memory or at its sink, leaves part of the entries of the bytes that it was fed.
pub fn fed_breaks_among<S: Sink>()
    ensures { FedBreaksAmong S.Sink }
{}

/// A reader that broke at the end of a stream, in the opcode that acts there, leaves part of the entries of the stream.
#[tactic(auto, using(crate::proofs::PublicLaws::end_breaks_among))]
pub fn end_breaks_among<S: Sink>()
    ensures { EndBreaksAmong S.Sink }
{}

/// The constants have the values of the profile: 1,048,576 bytes of bodies; budgets up to 67,108,864, by default
/// 1,048,576 (PROFILE.md, Limits).
pub fn limits()
    ensures store { STORE_LIMIT ≡ store_limit }
    ensures most { MOST ≡ most_budget }
    ensures usual { USUAL ≡ usual_budget }
{}
