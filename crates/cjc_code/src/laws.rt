//! Laws of cutting and decoding for other crates: codes are cut in one way, refusals and instructions are what
//! the definitions say, and samples. Nothing here runs.

ghost use Rattle.std.specs.Prelude.{◌≡◌, ◌<◌, ◌↔◌, true, List, Some, None, Ok, Err, ℕ, map, slice_get};
ghost use Rattle.cjc_code.specs.declared.raw.Cut.{Cut as Parts};
ghost use Rattle.cjc_code.specs.declared.table.TheConstants.{TABLE};
ghost use Rattle.cjc_code.specs.Table.{row};
ghost use Rattle.cjc_code.specs.Cut.{IsCut, cut};
ghost use Rattle.cjc_classfile.specs.declared.tree.ClassTree.{ClassTree};
ghost use Rattle.cjc_classfile.specs.declared.tree.MethodTree.{MethodTree};
ghost use Rattle.cjc_classfile.specs.Code.{CodeTree};
ghost use Rattle.cjc_code.specs.declared.insn.JInsn.{JInsn};
ghost use Rattle.cjc_code.specs.Decoded.{decoding};
ghost use Rattle.cjc_code.specs.Rules.{IsStart, starts_at, IsFirstUnfit, IsFirstUnsupportedCode, IsDecoded};
ghost use Rattle.cjc_code.specs.Samples.{sample, broken, unfit, unsupported, good, others};

/// The table by which code is cut has for each opcode what the ranges of the standard say.
pub fn opcodes()
    ensures { (opcode : ℕ) → opcode < 256 → slice_get TABLE opcode ≡ Some (row opcode) }
{}

/// The bytes of a code are cut in one way, and in one only.
pub fn cuts()
    ensures cut { (code : List ℕ) → IsCut code (cut code) }
    ensures only { (code : List ℕ) (c : Parts) → IsCut code c → c ≡ cut code }
{}

/// A code is refused by rule 103 at the first place where it breaks the rule; by rule 303 at the first such
/// instruction, where it breaks rule 103 nowhere; and is decoded where it breaks neither. A jump, a handler and
/// a bound of its range need a place where an instruction starts.
pub fn rules()
    ensures starts { (code : CodeTree) (place : ℕ) → (starts_at code place ≡ true) ↔ IsStart code place }
    ensures unfit { (class : ClassTree) (method : MethodTree) (code : CodeTree) (k : ℕ)
        → (decoding class method code ≡ broken 103 k) ↔ IsFirstUnfit class method code k }
    ensures unsupported { (class : ClassTree) (method : MethodTree) (code : CodeTree) (k : ℕ)
        → (decoding class method code ≡ broken 303 k) ↔ IsFirstUnsupportedCode class method code k }
    ensures decoded { (class : ClassTree) (method : MethodTree) (code : CodeTree) (insns : List JInsn)
        → (decoding class method code ≡ Ok insns) ↔ IsDecoded class method code insns }
{}

/// Some codes are decoded as they should be.
pub fn samples()
    ensures unfit { map (λ x. sample x.0) unfit ≡ map (λ x. broken 103 x.1) unfit }
    ensures unsupported { map (λ x. sample x.0) unsupported ≡ map (λ x. broken 303 x.1) unsupported }
    ensures good { map (λ x. sample x.0) good ≡ map (λ x. Ok x.1) good }
    ensures others { map (λ x. x.0) others ≡ map (λ x. x.1) others }
{}
