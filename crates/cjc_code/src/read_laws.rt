//! What class files that are read keep: their descriptors are descriptors, their numbers have so many bits, and
//! the instructions of their methods have the opcodes of their kinds. Definitions and laws alone: nothing here
//! runs.
ghost use Rattle.std.specs.Prelude.{◌≡◌, ◌<◌, ℕ, List, Some, slice_get};
ghost use Rattle.std.specs.List.{AllByRecursion};
ghost use Rattle.cjc_bytes.specs.Format.{FileSpells};
ghost use Rattle.cjc_classfile.specs.ClassFile.{class_file};
ghost use Rattle.cjc_classfile.specs.declared.tree.ClassTree.{ClassTree};
ghost use Rattle.cjc_classfile.specs.Code.{CodeTree};
ghost use Rattle.cjc_classfile.specs.declared.tree.MethodTree.{MethodTree};
ghost use Rattle.cjc_code.specs.Rules.{IsDecoded};
ghost use Rattle.cjc_code.specs.declared.insn.JInsn.{JInsn};
ghost use Rattle.cjc_code.specs.ReadLaws.Instructions.{IsInstruction};
ghost use Rattle.cjc_code.specs.ReadLaws.Members.{AreWords, IsReadClass};

/// Each instruction that a method was decoded to has an opcode of its kind, and numbers of so many bits: one
/// that is pushed has 32, one that is added to a local 16, and the number of a newarray's type is one of 4 to
/// 11. The matches of a switch have 32 bits and ascend, and a tableswitch has one at least.
pub fn decoded_instructions_fit()
    ensures { (class : ClassTree) (method : MethodTree) (tree : CodeTree) (insns : List JInsn)
        → IsDecoded class method tree insns → AreWords class.pool → AllByRecursion (λ b. b < 256) tree.bytes
        → (k : ℕ) (i : JInsn) → slice_get insns k ≡ Some i → IsInstruction i.op }
{}

/// The descriptors of the fields and methods of a class that bytes spell are such, and its constants have 32 bits.
pub fn spelt_members_are_read()
    ensures { (class : ClassTree) (bytes : List ℕ) → AllByRecursion (λ b. b < 256) bytes
        → FileSpells class_file class bytes → IsReadClass class }
{}
