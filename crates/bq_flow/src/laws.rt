//! Laws of flow and paths, each the contract of a function that does nothing. Whoever needs one at a
//! step calls it there.

ghost use Rattle.std.specs.Prelude.{◌≡◌, ◌<◌, ◌+◌, ◌^◌, ℕ, ℤ, pos, List, Some};
ghost use Rattle.bq_insn.specs.Slots.{IsText, insn_at};
ghost use Rattle.bq_insn.specs.declared.insn.Insn.{Insn};
ghost use Rattle.bq_word.specs.Word.{low, modulo};
ghost use Rattle.bq_flow.specs.declared.fault.FlowRule.{FlowRule};
ghost use Rattle.bq_flow.specs.Successors.{destination};
ghost use Rattle.bq_flow.specs.Paths.{IsLegalFlow, IsLongest};
ghost use Rattle.bq_flow.specs.Faults.{IsFirstFlowFault};

/// A text whose flow has a fault has no legal flow.
pub fn faulty_is_not_legal()
    ensures { (text : List Insn) (unit : ℕ) (rule : FlowRule) → IsFirstFlowFault text unit rule → IsLegalFlow text → ⊥ }
{}

/// A text's flow has one first fault at most.
pub fn one_first_fault()
    ensures { (text : List Insn) (unit other : ℕ) (rule wrong : FlowRule) → IsFirstFlowFault text unit rule → IsFirstFlowFault text other wrong → (unit ≡ other) × (rule ≡ wrong) }
{}

/// A text has one longest path length at most.
pub fn one_longest()
    ensures { (text : List Insn) (m n : ℕ) → IsLongest text m → IsLongest text n → m ≡ n }
{}

/// At unit 0 of a text an instruction begins.
pub fn first_unit_begins()
    ensures { (text : List Insn) → IsText text → (i : Insn) × (insn_at text 0 ≡ Some i) }
{}

/// A jump's destination is where a machine arrives that counts units modulo 2^64.
pub fn destination_in_words()
    ensures { (unit next : ℕ) (distance : ℤ) → unit < 2 ^ 64 → next < 2 ^ 64 → destination unit distance ≡ pos next → low 64 (unit + 1 + modulo 64 distance) ≡ next }
{}
