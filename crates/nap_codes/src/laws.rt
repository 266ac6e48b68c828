//! Laws about the definitions of this crate. Each is the contract of a function that does nothing.
#![tactic(auto, using(crate::proofs::PublicLaws::laws))]

ghost use Rattle.nap_codes.specs.Laws.{CodeRanges, EarlierUnfinished, FormatEffectorFront, FormatEffectorKnown, OneByteOpcode, OneByteOperand, RefusedIndex, RefusedStays, RefusedByItsBytes, UnfinishedBefore, CodeLength, CodeStays, CodeByItsBytes};
ghost use Rattle.nap_codes.specs.LexResults.{StepsGiveLexResult};
ghost use Rattle.nap_codes.specs.SpellingLaws.{RefusedIsSpelled, UnfinishedIsPrefix, CodeIsSpelled};

/// The front of a list of bytes is a code, a refusal or unfinished exactly as the rules of spelling say.
pub fn front_is_spelled()
    ensures complete { CodeIsSpelled }
    ensures refused { RefusedIsSpelled }
    ensures unfinished { UnfinishedIsPrefix }
{}

/// A front that is a code or a refusal is unchanged by further bytes.
pub fn front_stays()
    ensures complete { CodeStays }
    ensures refused { RefusedStays }
{}

/// A front that is a code or a refusal depends on its own bytes alone, and these are in the list.
pub fn front_length()
    ensures complete { CodeLength }
    ensures refused { RefusedIndex }
    ensures code_taken { CodeByItsBytes }
    ensures refused_taken { RefusedByItsBytes }
{}

/// A front is unfinished if any of its bytes is missing.
pub fn earlier_is_unfinished()
    ensures complete { EarlierUnfinished }
    ensures refused { UnfinishedBefore }
{}

/// The parameters of a code at the front are in range, and its opcode isn't one that is left out.
pub fn code_ranges()
    ensures { CodeRanges }
{}

/// A code of the PDI set has one byte, and changes no code set.
pub fn one_byte_of_pdi()
    ensures opcode { OneByteOpcode }
    ensures operand { OneByteOperand }
{}

/// The calls of `step`, one for each byte, give the same codes however the bytes are cut into pieces.
pub fn steps_give_lex_result()
    ensures { StepsGiveLexResult }
{}

/// Each of the six format effectors of one byte is below `20` and a complete code, and there are no others.
pub fn format_effector_alone()
    ensures front { FormatEffectorFront }
    ensures known { FormatEffectorKnown }
{}
