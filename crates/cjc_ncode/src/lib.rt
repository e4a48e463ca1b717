//! Narrow code: the instructions of the card with labels and names in place of offsets, indices and tokens,
//! the order of the constant pool that they need, and the machine that runs them. Whoever selects, lays out
//! and emits code stands on its types. It knows no tokens and no offsets.
#![tactic(auto)]

// Lower crates, for those above.
/// What crates above take of bytes.
pub mod bytes {
    pub use cjc_code::bytes::{
        Bytes, Desc, Fault, Kind, MemberId, NoMemory, Part, PlaceRef, Row, is_static, refused_at,
    };
}

/// What crates above take of classfile.
pub mod classfile {
    pub use cjc_code::classfile::{ClassTree, Code, MethodTree};
}

/// What crates above take of cjc_code.
pub mod bytecode {
    pub use cjc_code::{JCase, JInsn, JOp, MethodCode, jvm};
}

/// What crates above take of capread.
pub mod capread {
    pub use cjc_card_semantics::capread::{OpInfo, card, op};
}

pub mod int_code;
pub mod lowering;

ghost use Rattle.std.specs.Prelude.{◌≡◌, ◌++◌, codes, pos, negsuc, Some, None, [], ◌∷◌, ℕ, List, Bool, true, false};
ghost use Rattle.cjc_card_semantics.specs.Script.declared.value.Value.TheVariants.{Num, Null, Obj};
ghost use Rattle.cjc_card_semantics.specs.Script.declared.report.Note.TheVariants.{Result};
ghost use Rattle.cjc_card_semantics.specs.Script.declared.report.Outcome.TheVariants.{Done, Stuck};
ghost use Rattle.cjc_card_semantics.specs.Script.declared.report.Thing.TheVariants as things;
ghost use Rattle.cjc_ncode.specs.declared.narrow.PoolKey.TheVariants as keys;
ghost use Rattle.cjc_ncode.specs.PoolOrder.{pool_order};
ghost use Rattle.cjc_ncode.specs.ByLabel.{run};
ghost use Rattle.cjc_ncode.specs.declared.narrow.NInsn.TheVariants as insns;
ghost use Rattle.cjc_ncode.specs.declared.narrow.NInsn.{NInsn as NarrowInsn};
ghost use Rattle.cjc_ncode.specs.declared.narrow.PairRole.{PairRole as Role};
ghost use Rattle.cjc_code.specs.declared.insn.JOp.{JOp as JvmOp};
ghost use Rattle.cjc_card_semantics.specs.Script.Sorts.{field_sort};
ghost use Rattle.cjc_ncode.specs.Written.{Access, Resolution, accessed, is_load, narrow_method, on_this, this_access};
ghost use Rattle.cjc_ncode.specs.Written.{written, written_as};
ghost use Rattle.cjc_ncode.specs.WorkedCode.{linked, methods, script, call, ends, id, resolution, code, one_more};
ghost use Rattle.cjc_ncode.specs.WorkedCode.{paired, reads_own};
ghost use Rattle.cjc_ncode.specs.WorkedCode.{divides, divides_catches, jumps, all};

mod narrow;

pub use narrow::{NCase, NCatch, NInsn, NMethod, PairRole, PoolKey};

/// The pool of the methods made by hand: the class of any exception first, since there is a handler with a
/// catch type, then instance fields, then the other keys as they are met, each once.
pub fn keys_stand_in_order()
    ensures { pool_order methods ≡ keys.Class (codes "java/lang/Object")
        ∷ keys.Field (id (codes "p/B") (codes "s") (codes "S"))
        ∷ keys.StaticMethod (id (codes "p/T") (codes "g") (codes "(S)S")) ∷ keys.Class (codes "p/B")
        ∷ keys.Virtual (id (codes "p/A") (codes "v") (codes "()S")) ∷ keys.Class (codes "java/lang/ArithmeticException")
        ∷ [] }
{}

/// Runs of these methods: a static call whose sum wraps, a virtual call on a subclass, a handler that takes a
/// zero divisor, and a field that is put and read; a place behind the last instruction is no instruction.
pub fn methods_run_by_label()
    ensures static_call { run linked (script (call (codes "f") (codes "(S)S") (Num (pos 32767) ∷ []) ∷ [])) 100
        ≡ ends (Result (Some (Num (negsuc 32767))) ∷ []) [] Done 7 }
    ensures virtual_call { run linked (script (call (codes "h") (codes "()S") [] ∷ [])) 100
        ≡ ends (Result (Some (Num (pos 2))) ∷ []) (things.Object (codes "p/B")
        (record { field = id (codes "p/B") (codes "s") (codes "S"); value = Num (pos 0) } ∷ []) ∷ []) Done 5 }
    ensures caught { run linked (script (call (codes "e") (codes "(S)S") (Num (pos 0) ∷ []) ∷ [])) 100
        ≡ ends (Result (Some (Num (pos 3))) ∷ []) (things.Object (codes "java/lang/ArithmeticException") [] ∷ []) Done
        6 }
    ensures put { run linked (script (call (codes "w") (codes "()S") [] ∷ [])) 100 ≡ ends (Result (Some (Num (pos 5)))
        ∷ []) (things.Object (codes "p/B") (record {
          field = id (codes "p/B") (codes "s") (codes "S");
          value = Num (pos 5);
        } ∷ []) ∷ []) Done 6 }
    ensures behind { run linked (script (call (codes "x") (codes "()V") [] ∷ [])) 100 ≡ ends [] [] (Stuck 1) 1 }
{}

/// What is written for three methods made by hand: i2s is left out; a handler over nothing that is written is
/// left out too, and the others lead to what is written for their bounds; a table keeps its cases of 16 bits,
/// and what is not reached is not written.
pub fn methods_are_written()
    ensures plain { narrow_method resolution (code 2 1 []) 1 one_more (all 5) ≡ record {
      insns = insns.Op 0x1C
          ∷ insns.Op 0x04 ∷ insns.Op 0x41 ∷ insns.Op 0x78 ∷ [];
      from = 0 ∷ 1 ∷ 2 ∷ 4 ∷ [];
      catches = [];
      max_stack = 2;
      nargs = 1;
      max_locals = 0;
      widest = 7;
    } }
    ensures catches { (narrow_method resolution (code 2 1 divides_catches) 1 divides (all 14)).catches
        ≡ record { start = 2; end = 3; target = 4; class = Some (codes "java/lang/ClassCastException"); at = 5 }
        ∷ record { start = 0; end = 3; target = 10; class = None; at = 11 } ∷ [] }
    ensures jumps { (narrow_method resolution (code 1 1 []) 1 jumps (all 5 ++ None ∷ [])).insns ≡ insns.Op 0x1C
        ∷ insns.Switch 0x73 2 (pos 32767) (record { value = pos 32767; target = 3 } ∷ []) ∷ insns.Op 0x7A
        ∷ insns.Inc 0x96 0 (pos 200) ∷ insns.Jump 0x70 0 ∷ [] }
    ensures pair { narrow_method paired (code 1 1 []) 1 reads_own (all 3) ≡ record {
      insns = insns.Named (this_access false (field_sort (codes "S")))
          (keys.Field (id (codes "p/B") (codes "s") (codes "S"))) ∷ insns.Op 0x78 ∷ [];
      from = 1 ∷ 2 ∷ [];
      catches = [];
      max_stack = 1;
      nargs = 1;
      max_locals = 0;
      widest = 6;
    } }
{}

/// Whatever role an instruction has, nothing is written for a load, or what stands alone, or one access of a field. So
/// what holds of these holds of what is written.
pub fn roles_write_little()
    ensures { (holds : List NarrowInsn → Bool) (role : Role) (r : Resolution) (place : ℕ → ℕ) (op : JvmOp)
        → (is_load op ≡ true → holds [] ≡ true) → holds (written r place op) ≡ true
        → ((a : Access) → accessed op ≡ Some a → holds (on_this r place op (Some a)) ≡ true)
        → holds (written_as role r place op) ≡ true }
{}
