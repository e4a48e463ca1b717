//! Laws of initialisers and static images for other crates: what is an initialiser, what it puts, and where it
//! is refused. Nothing here runs.

ghost use Rattle.std.specs.Prelude.{◌≡◌, ◌⊎◌, ◌∷◌, ◌++◌, [], ℕ, List, pos, negsuc, codes, true, false};
ghost use Rattle.cjc_subset.specs.LowerClassFile.declared.tree.ClassTree.{ClassTree};
ghost use Rattle.cjc_subset.specs.LowerBytecode.declared.insn.JInsn.{JInsn};
ghost use Rattle.cjc_subset.specs.LowerBytecode.declared.insn.JOp.{JOp};
ghost use Rattle.cjc_subset.specs.LowerBytecode.declared.insn.JOp.TheVariants as jop;
ghost use Rattle.cjc_subset.specs.LowerBytecode.declared.method_code.MethodCode.{MethodCode};
ghost use Rattle.cjc_subset.specs.LowerWorld.declared.image.StaticImage.{StaticImage};
ghost use Rattle.cjc_subset.specs.LowerWorld.Files.{Files};
ghost use Rattle.cjc_clinit.specs.declared.stage.Held.{Held as Content};
ghost use Rattle.cjc_clinit.specs.Image.{IsImage, arrays_of};
ghost use Rattle.cjc_clinit.specs.Initialiser.{Initialises, IsBeginning, IsInitialiser, IsWrongAt, Put};
ghost use Rattle.cjc_clinit.specs.Worked.{IsImageAfter, IsRight, IsWrong, byte_at, id, new_bytes, number, put};
ghost use Rattle.cjc_clinit.specs.Worked.{replaced_image, return, statements, statements_image};

/// Code is an initialiser or is wrong at one offset, never both, and what an initialiser does is settled by its
/// instructions.
pub fn initialisers()
    ensures either { (files : Files) (number : ℕ) (c : ClassTree) (insns : List JInsn)
        → IsInitialiser files number c insns ⊎ ((at : ℕ) × IsWrongAt files number c insns at) }
    ensures not_both { (files : Files) (number : ℕ) (c : ClassTree) (insns : List JInsn) (at : ℕ)
        → IsInitialiser files number c insns → IsWrongAt files number c insns at → ⊥ }
    ensures one_offset { (files : Files) (number : ℕ) (c : ClassTree) (insns : List JInsn) (at other : ℕ)
        → IsWrongAt files number c insns at → IsWrongAt files number c insns other → at ≡ other }
    ensures one_effect { (files : Files) (number : ℕ) (c : ClassTree) (before after other : List Content)
        (ops : List JOp) (puts others : List Put) → Initialises files number c before ops puts after
        → Initialises files number c before ops others other → (after ≡ other)
        × (arrays_of c puts ≡ arrays_of c others) }
    // And so is what all initialisers of a package leave.
    ensures one_image { (files : Files) (methods : List MethodCode) (image other : StaticImage)
        → IsImage files methods image → IsImage files methods other → image ≡ other }
    // All of an initialiser is a beginning, and what a beginning begins with.
    ensures whole { (files : Files) (number : ℕ) (c : ClassTree) (before after : List Content) (ops : List JOp)
        (puts : List Put) → Initialises files number c before ops puts after → IsBeginning files number c before ops }
    ensures front { (files : Files) (number : ℕ) (c : ClassTree) (before : List Content) (ops more : List JOp)
        → IsBeginning files number c before (ops ++ more) → IsBeginning files number c before ops }
{}

/// What initialisers put: an array, null and numbers; and a number in place of that of a ConstantValue.
pub fn images()
    ensures statements { IsImageAfter statements statements_image }
    ensures replaced { IsImageAfter (number 0 ∷ put (codes "v") (codes "S") ∷ return ∷ []) replaced_image }
{}

/// The first instruction with which some instructions are no initialiser, by its number.
pub fn refusals()
    ensures none { IsRight statements }
    // An instruction that no initialiser has, or has there.
    ensures call { IsWrong (jop.Call 0xB8 (id (codes "g") (codes "()S")) ∷ put (codes "s") (codes "S") ∷ return
        ∷ []) 0 }
    ensures nop { IsWrong (number 1 ∷ jop.Nop ∷ put (codes "s") (codes "S") ∷ return ∷ []) 1 }
    ensures getstatic { IsWrong (jop.Static false (id (codes "c") (codes "S")) ∷ put (codes "s") (codes "S") ∷ return
        ∷ []) 0 }
    ensures past { IsWrong (return ∷ return ∷ []) 1 }
    ensures endless { IsWrong (number 1 ∷ put (codes "s") (codes "S") ∷ []) 0 }
    // A field of another class, a constant, a field that was put, one of another type.
    ensures foreign { IsWrong (number 1 ∷ jop.Static true (record {
      class = codes "q/A";
      name = codes "s";
      desc = codes "S";
    }) ∷ return ∷ []) 1 }
    ensures constant { IsWrong (number 1 ∷ put (codes "c") (codes "S") ∷ return ∷ []) 1 }
    ensures twice { IsWrong (number 1 ∷ put (codes "s") (codes "S") ∷ number 1 ∷ put (codes "s") (codes "S") ∷ return
        ∷ []) 3 }
    ensures null { IsWrong (jop.Null ∷ put (codes "s") (codes "S") ∷ return ∷ []) 1 }
    ensures other_array { IsWrong (new_bytes 1 ++ (put (codes "o") (codes "Ljava/lang/Object;") ∷ return ∷ [])) 2 }
    // A number that does not fit.
    ensures boolean { IsWrong (number 2 ∷ put (codes "z") (codes "Z") ∷ return ∷ []) 1 }
    ensures short { IsWrong (number 32768 ∷ put (codes "s") (codes "S") ∷ return ∷ []) 1 }
    ensures least_short { IsRight (jop.Number (negsuc 32767) ∷ put (codes "s") (codes "S") ∷ return ∷ []) }
    // A count, the type of an array, an index, a value and a store.
    ensures count { IsWrong (number 32768 ∷ jop.NewArray 8 ∷ []) 1 }
    ensures below_zero { IsWrong (jop.Number (negsuc 0) ∷ jop.NewArray 8 ∷ []) 1 }
    ensures chars { IsWrong (number 1 ∷ jop.NewArray 5 ∷ []) 1 }
    ensures index { IsWrong (new_bytes 3 ++ byte_at 3 1) 3 }
    ensures empty { IsWrong (new_bytes 0 ++ byte_at 0 1) 2 }
    ensures value { IsWrong (new_bytes 3 ++ byte_at 0 128) 4 }
    ensures store { IsWrong (new_bytes 3 ++ (jop.Stack 0x59 ∷ number 0 ∷ number 1 ∷ jop.ArrayStore 0x56 ∷ [])) 5 }
{}
