//! Laws about the rules. Each is the contract of a function that does nothing.
ghost use Rattle.std.specs.Prelude.{◌≡◌};
ghost use Rattle.nap_draw.specs.Laws.{RuleFits, CodeFits, DrawnValuesAreInRange, CodeValuesAreInRange, OpcodesAreDrawn, WholeOperandFirst, NoOperands, TextByteRule};
ghost use Rattle.nap_draw.specs.Joining.{RunsJoin};
ghost use Rattle.nap_draw.specs.Limits.{run_limit};
ghost use Rattle.nap_draw.specs.declared.work.TheConstants.{RUN_LIMIT};

/// If the states agree, the entries of an opcode fit one after another, and the states agree again after them.
pub fn rule_fits()
    ensures { RuleFits }
{}

/// If the states agree, the entries of a character or control fit one after another, and the states agree again after
/// them.
pub fn code_fits()
    ensures { CodeFits }
{}

/// The entries of an opcode, and the state after it, are in the ranges of their types.
pub fn drawn_values_are_in_range()
    ensures { DrawnValuesAreInRange }
{}

/// The entries of a character or control, and the state after it, are in the ranges of their types.
pub fn code_values_are_in_range()
    ensures { CodeValuesAreInRange }
{}

/// Every opcode that isn't left out has a rule.
#[tactic(auto, using(crate::proofs::PublicLaws::opcodes_are_drawn))]
pub fn opcodes_are_drawn()
    ensures { OpcodesAreDrawn }
{}

/// The first operand of a run is the first words of it, as many as the operand length.
#[tactic(auto, using(crate::proofs::PublicLaws::whole_operand_first))]
pub fn whole_operand_first()
    ensures { WholeOperandFirst }
{}

/// An empty run has no operands.
#[tactic(auto, using(crate::proofs::PublicLaws::no_operands))]
pub fn no_operands()
    ensures { NoOperands }
{}

/// An opcode on a run of complete operands, and then on a second run, does what it does on both runs joined.
#[tactic(auto, using(crate::proofs::PublicLaws::runs_join))]
pub fn runs_join()
    ensures { RunsJoin }
{}

/// The rule of a code that is a byte of a text gives the entry of that byte.
#[tactic(auto, using(crate::proofs::PublicLaws::typed_rule))]
pub fn text_byte_rule()
    ensures { TextByteRule }
{}

/// The constant has the value of the profile: 16,384 operand bytes (PROFILE.md, Limits).
pub fn limits()
    ensures { RUN_LIMIT ≡ run_limit }
{}
