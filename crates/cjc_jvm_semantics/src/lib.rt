//! Class files run by name, on numbers of 32 bits: the machine that an applet's author sees. It has definitions
//! and laws alone. It knows no tokens, no components and no intervals, and shares no instruction with the card's
//! machine.
#![tactic(auto)]

// Lower crates, for those above.
/// What crates above take of bytes.
pub mod bytes {
    pub use cjc_code::bytes::{Bytes, Desc, Kind, MemberId, NoMemory, Row};
}

/// What crates above take of classfile.
pub mod classfile {
    pub use cjc_code::classfile::{Catch, ClassTree, FieldTree, MethodTree};
}

/// What crates above take of cjc_code.
pub mod bytecode {
    pub use cjc_code::{JCase, JInsn, JOp, MethodCode, jvm};
}

/// What crates above take of cjc_script.
pub mod script {
    pub use cjc_script::{
        Act, Answer, Entry, FieldValue, Note, Outcome, Reply, Report, Script, Thing, Value,
    };
}

/// What crates above take of cjc_world.
pub mod world {
    pub use cjc_world::StaticImage;
}

ghost use Rattle.std.specs.Prelude.{◌≡◌, ◌≢◌, ◌≤◌, ℕ, ℤ, codes, pos, negsuc, replicate, slice_get, length, take};
ghost use Rattle.std.specs.Prelude.{reverse, nat_le, nat_lt, ◌++◌, false, true, List, Option, Some, None, [], ◌∷◌};
ghost use Rattle.cjc_code.specs.Bytes.declared.fault.MemberId.{MemberId};
ghost use Rattle.cjc_code.specs.Jvm as jvm;
ghost use Rattle.cjc_code.specs.declared.insn.JOp.TheVariants as jop;
ghost use Rattle.cjc_script.specs.declared.value.Value.{Value};
ghost use Rattle.cjc_script.specs.declared.value.Value.TheVariants.{Num, Null, Obj};
ghost use Rattle.cjc_script.specs.declared.script.Script.{Script};
ghost use Rattle.cjc_script.specs.declared.script.Act.TheVariants as acts;
ghost use Rattle.cjc_script.specs.declared.script.Reply.TheVariants.{Give, Throw};
ghost use Rattle.cjc_script.specs.declared.report.Note.TheVariants.{Event, Result, Thrown};
ghost use Rattle.cjc_script.specs.declared.report.Outcome.TheVariants.{Done, Running, Waiting, Unfit, Stuck};
ghost use Rattle.cjc_script.specs.declared.report.Thing.TheVariants as things;
ghost use Rattle.cjc_script.specs.Agree.{IsBegun};
ghost use Rattle.cjc_jvm_semantics.specs.Linked.{Method, Instance, Callee, Inside, Call, Linked};
ghost use Rattle.cjc_jvm_semantics.specs.Effects.{Store, Fault, Arithmetic, NullPointer, NegativeSize, exception_class};
ghost use Rattle.cjc_jvm_semantics.specs.Effects.{Go, Raise, Invoke, Stick, holder, effect};
ghost use Rattle.cjc_jvm_semantics.specs.Machine.{Frame, State, report, heap_of, with_last, with_note, offset};
ghost use Rattle.cjc_jvm_semantics.specs.Machine.{holder_of, room, stuck_at, values_of, is_at_once, are_of_sorts};
ghost use Rattle.cjc_jvm_semantics.specs.Machine.{handler_in, after_throw, after_fault, imported_call, at_callee};
ghost use Rattle.cjc_jvm_semantics.specs.Machine.{on_receiver, with_types, after_return, after_effect, spend, begins};
ghost use Rattle.cjc_jvm_semantics.specs.Machine.{move, device, run as run_linked};
ghost use Rattle.cjc_script.specs.Sorts.{Sort, Signature};
ghost use Rattle.cjc_card_semantics.specs.Bytecode.Runs.{On, Over, Lawful};
ghost use Rattle.cjc_code.specs.declared.insn.JInsn.{JInsn};
ghost use Rattle.cjc_jvm_semantics.specs.ByName.{run};
ghost use Rattle.cjc_jvm_semantics.specs.Group.{run_group};
ghost use Rattle.cjc_jvm_semantics.specs.Worked.{id, object, call, send, answer, script, bare, ends, p, no_image, of_t};
ghost use Rattle.cjc_jvm_semantics.specs.Worked.{both, no_images, app_package, a_b, an_a, r, r_image, cell, roomy};
ghost use Rattle.cjc_jvm_semantics.specs.Worked.{two_arrays};
ghost use Rattle.cjc_jvm_semantics.specs.Worked.{arrays_with};
ghost use Rattle.cjc_jvm_semantics.specs.Wallet.{wallet_package, wallet_script, wallet_report};

/// For every record of look-ups and every script: a run that is over stays as it is, however many instructions
/// it is given, and no note is taken back.
pub fn runs_only_grow()
    ensures device { (l : Linked) → Lawful (device l) }
    ensures over { (l : Linked) (script : Script) (m n : ℕ) → m ≤ n → (run_linked l script m).outcome ≢ Running
        → run_linked l script n ≡ run_linked l script m }
    ensures notes { (l : Linked) (script : Script) (m n : ℕ) → m ≤ n
        → IsBegun (run_linked l script m).notes (run_linked l script n).notes }
{}

/// Numbers of 32 bits: a sum that wraps only where it is cut to a short, an index outside its array, a zero
/// divisor, the least short by -1, shifts, handlers in the order of the class file, and an array of ints.
pub fn calculations_run()
    ensures sum { of_t (codes "add") (codes "(S)S") (Num (pos 32767) ∷ []) [] ≡ ends (Result (Some (Num (negsuc 32767)))
        ∷ []) [] Done 5 }
    ensures index { run p no_image (script (record (call (codes "p/T") (codes "at") (codes "([BS)S") (Obj 0
        ∷ Num (pos 32767) ∷ [])) { acts = acts.Array (codes "[B") (pos 6) ∷ [] } ∷ []) []) 100
        ≡ ends (Thrown (codes "java/lang/ArrayIndexOutOfBoundsException") 1 ∷ []) (things.Array (codes "[B")
        (replicate 6 (Num (pos 0))) ∷ bare (codes "java/lang/ArrayIndexOutOfBoundsException") ∷ []) Done 5 }
    ensures element { run p no_image (script (record (call (codes "p/T") (codes "at") (codes "([BS)S") (Obj 0
        ∷ Num (pos 0) ∷ [])) { acts = acts.Array (codes "[B") (pos 2) ∷ acts.Put 0 (pos 1) (Num (negsuc 4)) ∷ [] }
        ∷ []) []) 100 ≡ ends (Result (Some (Num (negsuc 4))) ∷ []) (things.Array (codes "[B") (Num (pos 0)
        ∷ Num (negsuc 4) ∷ []) ∷ []) Done 6 }
    ensures index_before { run p no_image (script (record (call (codes "p/T") (codes "before") (codes "([BS)S") (Obj 0
        ∷ Num (negsuc 32767) ∷ [])) { acts = acts.Array (codes "[B") (pos 6) ∷ [] } ∷ []) []) 100
        ≡ ends (Thrown (codes "java/lang/ArrayIndexOutOfBoundsException") 1 ∷ []) (things.Array (codes "[B")
        (replicate 6 (Num (pos 0))) ∷ bare (codes "java/lang/ArrayIndexOutOfBoundsException") ∷ []) Done 5 }
    ensures empty_array { run p no_image (script (record (call (codes "p/T") (codes "last") (codes "([B)S") (Obj 0
        ∷ [])) { acts = acts.Array (codes "[B") (pos 0) ∷ [] } ∷ []) []) 100
        ≡ ends (Thrown (codes "java/lang/ArrayIndexOutOfBoundsException") 1 ∷ []) (things.Array (codes "[B") []
        ∷ bare (codes "java/lang/ArrayIndexOutOfBoundsException") ∷ []) Done 6 }
    ensures zero_divisor { of_t (codes "div") (codes "(SS)S") (Num (pos 5) ∷ Num (pos 0) ∷ []) []
        ≡ ends (Thrown (codes "java/lang/ArithmeticException") 0 ∷ []) (bare (codes "java/lang/ArithmeticException")
        ∷ []) Done 3 }
    ensures least { of_t (codes "div") (codes "(SS)S") (Num (negsuc 32767) ∷ Num (negsuc 0) ∷ []) []
        ≡ ends (Result (Some (Num (negsuc 32767))) ∷ []) [] Done 5 }
    ensures unsigned_shift { of_t (codes "ushr") (codes "(S)S") (Num (negsuc 0) ∷ []) []
        ≡ ends (Result (Some (Num (pos 4095))) ∷ []) [] Done 5 }
    ensures shift_out { of_t (codes "shl") (codes "(S)S") (Num (pos 12345) ∷ []) [] ≡ ends (Result (Some (Num (pos 0)))
        ∷ []) [] Done 5 }
    ensures handled { of_t (codes "caught") (codes "(S)S") (Num (pos 0) ∷ []) [] ≡ ends (Result (Some (Num (pos 3)))
        ∷ []) (bare (codes "java/lang/ArithmeticException") ∷ []) Done 6 }
    ensures not_handled { of_t (codes "caught") (codes "(S)S") (Num (negsuc 4) ∷ []) []
        ≡ ends (Result (Some (Num (pos 1))) ∷ []) [] Done 5 }
    ensures ints { of_t (codes "ints") (codes "(I)I") (Num (pos 70000) ∷ []) [] ≡ ends (Result (Some (Num (pos 70000)))
        ∷ []) (things.Array (codes "[I") (Num (pos 0) ∷ Num (pos 70000) ∷ []) ∷ []) Done 9 }
{}

/// Calls of all kinds: an imported one that waits, is unfit, is answered and throws; on a subclass, of a
/// superclass, of an interface, and one that reaches an imported class; constructors, fields, and numbers that
/// a put keeps.
pub fn calls_run()
    ensures waits { of_t (codes "ext") (codes "(S)S") (Num (pos 7) ∷ []) []
        ≡ ends (Event (id (codes "lib/L") (codes "inc") (codes "(S)S")) (Num (pos 7) ∷ []) ∷ []) [] Waiting 2 }
    ensures answered { of_t (codes "ext") (codes "(S)S") (Num (pos 7) ∷ []) (answer (Give (Some (Num (pos 9)))) ∷ [])
        ≡ ends (Event (id (codes "lib/L") (codes "inc") (codes "(S)S")) (Num (pos 7) ∷ []) ∷ Result (Some (Num (pos 9)))
        ∷ []) [] Done 3 }
    ensures unfit { of_t (codes "ext") (codes "(S)S") (Num (pos 7) ∷ []) (answer (Give None) ∷ [])
        ≡ ends (Event (id (codes "lib/L") (codes "inc") (codes "(S)S")) (Num (pos 7) ∷ []) ∷ []) [] (Unfit 1) 2 }
    ensures out_of_range { of_t (codes "ext") (codes "(S)S") (Num (pos 7) ∷ []) (answer (Give (Some (Num (pos 32768))))
        ∷ []) ≡ ends (Event (id (codes "lib/L") (codes "inc") (codes "(S)S")) (Num (pos 7) ∷ []) ∷ []) [] (Unfit 1) 2 }
    ensures throws { of_t (codes "ext") (codes "(S)S") (Num (pos 7)
        ∷ []) (answer (Throw (codes "java/lang/ArithmeticException")) ∷ [])
        ≡ ends (Event (id (codes "lib/L") (codes "inc") (codes "(S)S")) (Num (pos 7) ∷ [])
        ∷ Thrown (codes "java/lang/ArithmeticException") 0 ∷ []) (bare (codes "java/lang/ArithmeticException")
        ∷ []) Done 2 }
    ensures unfit_entry { of_t (codes "add") (codes "(S)S") (Num (pos 32768) ∷ []) [] ≡ ends [] [] (Unfit 0) 0 }
    ensures subclass { of_t (codes "virt") (codes "()S") [] [] ≡ ends (Result (Some (Num (pos 2))) ∷ []) (a_b (pos 0)
        ∷ []) Done 5 }
    ensures superclass { of_t (codes "above") (codes "()S") [] [] ≡ ends (Result (Some (Num (pos 1))) ∷ []) (a_b (pos 0)
        ∷ []) Done 8 }
    ensures interface { of_t (codes "iface") (codes "()S") [] [] ≡ ends (Result (Some (Num (pos 4))) ∷ []) (a_b (pos 0)
        ∷ []) Done 5 }
    ensures reaches_imported { of_t (codes "same") (codes "()Z") [] []
        ≡ ends (Event (id object (codes "equals") (codes "(Ljava/lang/Object;)Z")) (Obj 0 ∷ Null ∷ [])
        ∷ []) (a_b (pos 0) ∷ []) Waiting 3 }
    ensures constructor { of_t (codes "make") (codes "()Lp/A;") [] [] ≡ ends (Result (Some (Obj 0)) ∷ []) (an_a
        ∷ []) Done 7 }
    ensures kept { of_t (codes "put") (codes "()I") [] [] ≡ ends (Result (Some (Num (pos 71424))) ∷ []) (a_b (pos 71424)
        ∷ []) Done 8 }
    ensures passed { of_t (codes "pass") (codes "()I") [] [] ≡ ends (Result (Some (Num (pos 71424))) ∷ []) [] Done 7 }
    ensures sent_by_imported { run p no_image (script (call (codes "p/T") (codes "new_f") (codes "()Lp/F;") []
        ∷ send (codes "lib/K") (codes "j") (codes "()S") (Obj 0 ∷ []) ∷ send (codes "lib/J") (codes "j") (codes "()S")
        (Obj 0 ∷ []) ∷ []) []) 100 ≡ ends (Result (Some (Obj 0)) ∷ Result (Some (Num (pos 7)))
        ∷ Result (Some (Num (pos 7))) ∷ []) (bare (codes "p/F") ∷ []) Done 6 }
    ensures private_method { of_t (codes "private") (codes "()S") [] [] ≡ ends (Result (Some (Num (pos 6))) ∷ []) (an_a
        ∷ []) Done 8 }
    ensures only_in_interface { of_t (codes "added") (codes "()S") [] [] ≡ ends (Result (Some (Num (pos 3)))
        ∷ []) (bare (codes "p/E") ∷ []) Done 5 }
    ensures interface_abroad { run p no_image (script (record (call (codes "p/T") (codes "abroad") (codes "(Llib/J;)S")
        (Obj 0 ∷ [])) { acts = acts.Object (codes "lib/K") ∷ [] } ∷ []) []) 100
        ≡ ends (Event (id (codes "lib/J") (codes "j") (codes "()S")) (Obj 0 ∷ []) ∷ []) (bare (codes "lib/K")
        ∷ []) Waiting 2 }
    ensures first_imported { of_t (codes "below") (codes "()S") [] []
        ≡ ends (Event (id (codes "lib/K") (codes "j") (codes "()S")) (Obj 0 ∷ []) ∷ []) (bare (codes "p/C")
        ∷ []) Waiting 2 }
    ensures super_abroad { of_t (codes "super") (codes "()Z") [] []
        ≡ ends (Event (id (codes "lib/K") (codes "equals") (codes "(Ljava/lang/Object;)Z")) (Obj 0 ∷ Null ∷ [])
        ∷ []) (bare (codes "p/C") ∷ []) Waiting 5 }
    ensures cut_off { run p no_image (script (call (codes "p/T") (codes "add") (codes "(S)S") (Num (pos 1) ∷ [])
        ∷ []) []) 3 ≡ ends [] [] Running 3 }
    ensures sent { run p no_image (script (call (codes "p/T") (codes "new") (codes "()Lp/B;") []
        ∷ send (codes "p/A") (codes "v") (codes "()S") (Obj 0 ∷ []) ∷ []) []) 100 ≡ ends (Result (Some (Obj 0))
        ∷ Result (Some (Num (pos 2))) ∷ []) (a_b (pos 0) ∷ []) Done 4 }
{}

/// Static cells in the order of the class file, arrays as the first objects, and a constant that is read.
pub fn statics_run()
    ensures at_first { run r r_image (script (call (codes "r/S") (codes "next") (codes "()S") [] ∷ []) []) 0
        ≡ record {
          notes = [];
          statics = cell (codes "n") (codes "Ljava/lang/Object;") Null
              ∷ cell (codes "k") (codes "S") (Num (pos 5)) ∷ cell (codes "a") (codes "[B") (Obj 0)
              ∷ cell (codes "z") (codes "I") (Num (pos 0)) ∷ [];
          heap = things.Array (codes "[B") (Num (pos 1)
              ∷ Num (negsuc 0) ∷ []) ∷ [];
          outcome = Running;
          spent = 0;
        } }
    ensures next { run r r_image (script (call (codes "r/S") (codes "next") (codes "()S") [] ∷ []) []) 100
        ≡ record {
          notes = (Result (Some (Num (pos 12))) ∷ []);
          statics = cell (codes "n") (codes "Ljava/lang/Object;")
              Null ∷ cell (codes "k") (codes "S") (Num (pos 12)) ∷ cell (codes "a") (codes "[B") (Obj 0)
              ∷ cell (codes "z") (codes "I") (Num (pos 0)) ∷ [];
          heap = things.Array (codes "[B") (Num (pos 1)
              ∷ Num (negsuc 0) ∷ []) ∷ [];
          outcome = Done;
          spent = 6;
        } }
{}

/// A package over another: a static call, constructors across both, and a package-visible method that the other
/// package's does not override; alone, the upper one makes events of its calls.
pub fn packages_run_together()
    ensures across { run_group both no_images (script (call (codes "app/M") (codes "f") (codes "(S)S") (Num (pos
        32767) ∷ []) ∷ []) []) 100 ≡ ends (Result (Some (Num (negsuc 32767))) ∷ []) [] Done 8 }
    ensures not_overridden { run_group both no_images (script (call (codes "app/M") (codes "make") (codes "()Lapp/M;")
        []
        ∷ send (codes "lib/L") (codes "w") (codes "()S") (Obj 0 ∷ []) ∷ send (codes "app/M") (codes "v") (codes "()S")
        (Obj 0 ∷ []) ∷ send (codes "lib/L") (codes "v") (codes "()S") (Obj 0 ∷ []) ∷ []) []) 100
        ≡ ends (Result (Some (Obj 0)) ∷ Result (Some (Num (pos 1))) ∷ Result (Some (Num (pos 2)))
        ∷ Result (Some (Num (pos 1))) ∷ []) (bare (codes "app/M") ∷ []) Done 19 }
    ensures alone { run app_package no_image (script (call (codes "app/M") (codes "f") (codes "(S)S") (Num (pos 32767)
        ∷ []) ∷ []) []) 100 ≡ ends (Event (id (codes "lib/L") (codes "inc") (codes "(S)S")) (Num (pos 32767) ∷ [])
        ∷ []) [] Waiting 2 }
{}

/// The wallet: it is installed, credited and debited, and a debit beyond its balance is refused. Its run is the
/// same with more instructions than it needs, and cut off with one less.
pub fn wallet_runs()
    ensures whole { run wallet_package no_image wallet_script 10000 ≡ wallet_report }
    ensures to_the_last { run wallet_package no_image wallet_script 65 ≡ wallet_report }
    ensures cut_off { (run wallet_package no_image wallet_script 64).outcome ≡ Running }
{}

/// Where the machine is stuck, and where it raises: an exception, a result and an answer without room, an
/// argument of another sort, a member that is nowhere before its receiver is null, a receiver of another class,
/// types of arrays, an array that is thrown, abstract methods, a local that is not set, and the other
/// exceptions of the machine's own.
pub fn ends_are_met()
    ensures no_room_for_exception { of_t (codes "noroom") (codes "()V") [] []
        ≡ ends [] (bare (codes "java/lang/ArithmeticException") ∷ []) (Stuck 2) 3 }
    ensures no_room_for_result { of_t (codes "full") (codes "()V") [] [] ≡ ends [] [] (Stuck 1) 2 }
    ensures no_room_for_answer { of_t (codes "answer") (codes "()V") [] (answer (Give (Some (Num (pos 5)))) ∷ [])
        ≡ ends (Event (id (codes "lib/L") (codes "zero") (codes "()S")) [] ∷ []) [] (Stuck 0) 0 }
    ensures other_sort { of_t (codes "other") (codes "()S") [] [] ≡ ends [] [] (Stuck 1) 1 }
    ensures nowhere_before_null { of_t (codes "lost") (codes "()S") [] [] ≡ ends [] [] (Stuck 1) 1 }
    ensures null { of_t (codes "null") (codes "()S") [] [] ≡ ends (Thrown (codes "java/lang/NullPointerException") 0
        ∷ []) (bare (codes "java/lang/NullPointerException") ∷ []) Done 2 }
    ensures other_receiver { of_t (codes "wrong") (codes "()S") [] [] ≡ ends [] (an_a ∷ []) (Stuck 3) 1 }
    ensures arrays { of_t (codes "arrays") (codes "()S") [] [] ≡ ends (Result (Some (Num (pos 1)))
        ∷ []) (things.Array (codes "[Lp/A;") (Null ∷ Null ∷ []) ∷ []) Done 5 }
    ensures array_thrown { of_t (codes "toss") (codes "()V") [] [] ≡ ends (Thrown (codes "[S") 0
        ∷ []) (things.Array (codes "[S") [] ∷ []) Done 3 }
    ensures abstract_call { of_t (codes "abstract") (codes "()S") [] [] ≡ ends [] (a_b (pos 0) ∷ []) (Stuck 3) 1 }
    ensures abstract_entry { run p no_image (script (call (codes "p/T") (codes "new") (codes "()Lp/B;") []
        ∷ send (codes "p/B") (codes "b") (codes "()S") (Obj 0 ∷ []) ∷ []) []) 100 ≡ ends (Result (Some (Obj 0))
        ∷ []) (a_b (pos 0) ∷ []) (Stuck 0) 2 }
    ensures abstract_class { of_t (codes "new_d") (codes "()Lp/D;") [] [] ≡ ends [] [] (Stuck 0) 0 }
    ensures other_sort_abroad { of_t (codes "abroad") (codes "()S") [] [] ≡ ends [] [] (Stuck 1) 1 }
    ensures act_unfit { run p no_image (script (record (call (codes "p/T") (codes "one") (codes "()S") [])
        { acts = acts.Array (codes "[S") (pos 1) ∷ acts.Object (codes "p/A") ∷ [] } ∷ []) []) 100
        ≡ ends [] (things.Array (codes "[S") (Num (pos 0) ∷ []) ∷ []) (Unfit 0) 0 }
    ensures long_array { run p no_image (script (record (call (codes "p/T") (codes "one") (codes "()S") [])
        { acts = acts.Array (codes "[S") (pos 32768) ∷ [] } ∷ []) []) 100 ≡ ends [] [] (Unfit 0) 0 }
    ensures other_object { run p no_image (script (record (call (codes "p/T") (codes "abroad") (codes "(Llib/J;)S")
        (Obj 0 ∷ [])) { acts = acts.Object (codes "lib/L") ∷ [] } ∷ []) []) 100 ≡ ends [] (bare (codes "lib/L")
        ∷ []) (Unfit 0) 0 }
    ensures sent_to_other { run p no_image (script (record (send (codes "p/A") (codes "v") (codes "()S") (Obj 0 ∷ []))
        { acts = acts.Object (codes "lib/K") ∷ [] } ∷ []) []) 100 ≡ ends [] (bare (codes "lib/K") ∷ []) (Unfit 0) 0 }
    ensures not_static { run p no_image (script (call (codes "p/A") (codes "v") (codes "()S") [] ∷ []) []) 100
        ≡ ends [] [] (Unfit 0) 0 }
    ensures throws_own { of_t (codes "ext") (codes "(S)S") (Num (pos 7) ∷ []) (answer (Throw (codes "p/A")) ∷ [])
        ≡ ends (Event (id (codes "lib/L") (codes "inc") (codes "(S)S")) (Num (pos 7) ∷ []) ∷ []) [] (Unfit 1) 2 }
    ensures unset { of_t (codes "unset") (codes "()S") [] [] ≡ ends [] [] (Stuck 0) 0 }
    ensures negative_count { of_t (codes "count") (codes "()[S") [] []
        ≡ ends (Thrown (codes "java/lang/NegativeArraySizeException") 0
        ∷ []) (bare (codes "java/lang/NegativeArraySizeException") ∷ []) Done 2 }
    ensures other_class { of_t (codes "cast") (codes "()Lp/T;") [] []
        ≡ ends (Thrown (codes "java/lang/ClassCastException") 1 ∷ []) (an_a
        ∷ bare (codes "java/lang/ClassCastException") ∷ []) Done 2 }
    ensures other_element { of_t (codes "item") (codes "()V") [] []
        ≡ ends (Thrown (codes "java/lang/ArrayStoreException") 2 ∷ []) (things.Array (codes "[Lp/T;") (Null ∷ []) ∷ an_a
        ∷ bare (codes "java/lang/ArrayStoreException") ∷ []) Done 5 }
{}

/// For every record of look-ups: what rows of the instructions give of a stack, where they are stuck, and what raises
/// whatever else is there.
pub fn rows_give_their_results()
    ensures pop { (l : Linked) (store : Store) → effect l (roomy 20) 2 [] store (jop.Stack jvm.pop) (Num (pos 1) ∷ Null
        ∷ []) ≡ Go 3 (Null ∷ []) [] store }
    ensures pop2 { (l : Linked) (store : Store) → effect l (roomy 20) 2 [] store (jop.Stack jvm.pop2) (Num (pos 1)
        ∷ Null ∷ Obj 3 ∷ []) ≡ Go 3 (Obj 3 ∷ []) [] store }
    ensures dup { (l : Linked) (store : Store) → effect l (roomy 20) 2 [] store (jop.Stack jvm.dup) (Num (pos 1) ∷ Null
        ∷ []) ≡ Go 3 (Num (pos 1) ∷ Num (pos 1) ∷ Null ∷ []) [] store }
    ensures dup_x1 { (l : Linked) (store : Store) → effect l (roomy 20) 2 [] store (jop.Stack jvm.dup_x1) (Num (pos 1)
        ∷ Null ∷ Obj 3 ∷ []) ≡ Go 3 (Num (pos 1) ∷ Null ∷ Num (pos 1) ∷ Obj 3 ∷ []) [] store }
    ensures dup_x2 { (l : Linked) (store : Store) → effect l (roomy 20) 2 [] store (jop.Stack jvm.dup_x2) (Num (pos 1)
        ∷ Null ∷ Obj 3 ∷ Obj 4 ∷ []) ≡ Go 3 (Num (pos 1) ∷ Null ∷ Obj 3 ∷ Num (pos 1) ∷ Obj 4 ∷ []) [] store }
    ensures dup2 { (l : Linked) (store : Store) → effect l (roomy 20) 2 [] store (jop.Stack jvm.dup2) (Num (pos 1)
        ∷ Null ∷ []) ≡ Go 3 (Num (pos 1) ∷ Null ∷ Num (pos 1) ∷ Null ∷ []) [] store }
    ensures dup2_x1 { (l : Linked) (store : Store) → effect l (roomy 20) 2 [] store (jop.Stack jvm.dup2_x1) (Num (pos 1)
        ∷ Null ∷ Obj 3 ∷ []) ≡ Go 3 (Num (pos 1) ∷ Null ∷ Obj 3 ∷ Num (pos 1) ∷ Null ∷ []) [] store }
    ensures dup2_x2 { (l : Linked) (store : Store) → effect l (roomy 20) 2 [] store (jop.Stack jvm.dup2_x2) (Num (pos 1)
        ∷ Null ∷ Obj 3 ∷ Obj 4 ∷ []) ≡ Go 3 (Num (pos 1) ∷ Null ∷ Obj 3 ∷ Obj 4 ∷ Num (pos 1) ∷ Null ∷ []) [] store }
    ensures swap { (l : Linked) (store : Store) → effect l (roomy 20) 2 [] store (jop.Stack jvm.swap) (Num (pos 1)
        ∷ Null ∷ Obj 3 ∷ []) ≡ Go 3 (Null ∷ Num (pos 1) ∷ Obj 3 ∷ []) [] store }
    ensures no_room { (l : Linked) (store : Store) → effect l (roomy 1) 2 [] store (jop.Stack jvm.dup) (Num (pos 1)
        ∷ []) ≡ Stick }
    ensures missing { (l : Linked) (store : Store) → effect l (roomy 20) 2 [] store (jop.Stack jvm.dup_x1) (Num (pos 1)
        ∷ []) ≡ Stick }
    ensures iadd { (l : Linked) (store : Store) → effect l (roomy 20) 2 [] store (jop.Arith jvm.iadd) (Num (pos 1)
        ∷ Num (pos 2147483647) ∷ []) ≡ Go 3 (Num (negsuc 2147483647) ∷ []) [] store }
    ensures isub { (l : Linked) (store : Store) → effect l (roomy 20) 2 [] store (jop.Arith jvm.isub) (Num (pos 1)
        ∷ Num (negsuc 2147483647) ∷ []) ≡ Go 3 (Num (pos 2147483647) ∷ []) [] store }
    ensures imul { (l : Linked) (store : Store) → effect l (roomy 20) 2 [] store (jop.Arith jvm.imul) (Num (pos 65536)
        ∷ Num (pos 65536) ∷ []) ≡ Go 3 (Num (pos 0) ∷ []) [] store }
    ensures idiv { (l : Linked) (store : Store) → effect l (roomy 20) 2 [] store (jop.Arith jvm.idiv) (Num (pos 2)
        ∷ Num (negsuc 6) ∷ []) ≡ Go 3 (Num (negsuc 2) ∷ []) [] store }
    ensures idiv_least { (l : Linked) (store : Store) → effect l (roomy 20) 2 [] store (jop.Arith jvm.idiv)
        (Num (negsuc 0) ∷ Num (negsuc 2147483647) ∷ []) ≡ Go 3 (Num (negsuc 2147483647) ∷ []) [] store }
    ensures irem { (l : Linked) (store : Store) → effect l (roomy 20) 2 [] store (jop.Arith jvm.irem) (Num (pos 2)
        ∷ Num (negsuc 6) ∷ []) ≡ Go 3 (Num (negsuc 0) ∷ []) [] store }
    ensures ineg { (l : Linked) (store : Store) → effect l (roomy 20) 2 [] store (jop.Arith jvm.ineg)
        (Num (negsuc 2147483647) ∷ []) ≡ Go 3 (Num (negsuc 2147483647) ∷ []) [] store }
    ensures ishl { (l : Linked) (store : Store) → effect l (roomy 20) 2 [] store (jop.Arith jvm.ishl) (Num (pos 35)
        ∷ Num (pos 3) ∷ []) ≡ Go 3 (Num (pos 24) ∷ []) [] store }
    ensures ishr { (l : Linked) (store : Store) → effect l (roomy 20) 2 [] store (jop.Arith jvm.ishr) (Num (pos 34)
        ∷ Num (negsuc 6) ∷ []) ≡ Go 3 (Num (negsuc 1) ∷ []) [] store }
    ensures iushr { (l : Linked) (store : Store) → effect l (roomy 20) 2 [] store (jop.Arith jvm.iushr) (Num (pos 28)
        ∷ Num (negsuc 0) ∷ []) ≡ Go 3 (Num (pos 15) ∷ []) [] store }
    ensures iand { (l : Linked) (store : Store) → effect l (roomy 20) 2 [] store (jop.Arith jvm.iand) (Num (negsuc 1)
        ∷ Num (pos 7) ∷ []) ≡ Go 3 (Num (pos 6) ∷ []) [] store }
    ensures ior { (l : Linked) (store : Store) → effect l (roomy 20) 2 [] store (jop.Arith jvm.ior) (Num (pos 4)
        ∷ Num (pos 3) ∷ []) ≡ Go 3 (Num (pos 7) ∷ []) [] store }
    ensures ixor { (l : Linked) (store : Store) → effect l (roomy 20) 2 [] store (jop.Arith jvm.ixor) (Num (negsuc 0)
        ∷ Num (pos 5) ∷ []) ≡ Go 3 (Num (negsuc 5) ∷ []) [] store }
    ensures i2b { (l : Linked) (store : Store) → effect l (roomy 20) 2 [] store (jop.Narrow jvm.i2b) (Num (pos 200)
        ∷ []) ≡ Go 3 (Num (negsuc 55) ∷ []) [] store }
    ensures i2s { (l : Linked) (store : Store) → effect l (roomy 20) 2 [] store (jop.Narrow jvm.i2s) (Num (pos 70000)
        ∷ []) ≡ Go 3 (Num (pos 4464) ∷ []) [] store }
    ensures iinc { (l : Linked) (store : Store) → effect l (roomy 20) 2 (Some (Num (negsuc 2147483647)) ∷ []) store
        (jop.Inc 0 (negsuc 0)) [] ≡ Go 3 [] (Some (Num (pos 2147483647)) ∷ []) store }
    ensures istore { (l : Linked) (store : Store) → effect l (roomy 20) 2 (None ∷ None ∷ []) store (jop.Store false 1)
        (Num (pos 1) ∷ Null ∷ []) ≡ Go 3 (Null ∷ []) (None ∷ Some (Num (pos 1)) ∷ []) store }
    ensures astore { (l : Linked) (store : Store) → effect l (roomy 20) 2 (None ∷ None ∷ []) store (jop.Store true 0)
        (Null ∷ []) ≡ Go 3 [] (Some Null ∷ None ∷ []) store }
    ensures aload { (l : Linked) (store : Store) → effect l (roomy 20) 2 (Some (Obj 3) ∷ []) store (jop.Load true 0) []
        ≡ Go 3 (Obj 3 ∷ []) (Some (Obj 3) ∷ []) store }
    ensures iload_of_reference { (l : Linked) (store : Store) → effect l (roomy 20) 2 (Some Null ∷ []) store
        (jop.Load false 0) [] ≡ Stick }
    ensures astore_of_number { (l : Linked) (store : Store) → effect l (roomy 20) 2 (None ∷ []) store (jop.Store true 0)
        (Num (pos 1) ∷ []) ≡ Stick }
    ensures ifeq { (l : Linked) (store : Store) → effect l (roomy 20) 2 [] store (jop.If jvm.ifeq 9) (Num (pos 0) ∷ [])
        ≡ Go 1 [] [] store }
    ensures ifne_not { (l : Linked) (store : Store) → effect l (roomy 20) 2 [] store (jop.If jvm.ifne 9) (Num (pos 0)
        ∷ []) ≡ Go 3 [] [] store }
    ensures iflt { (l : Linked) (store : Store) → effect l (roomy 20) 2 [] store (jop.If jvm.iflt 9) (Num (negsuc 0)
        ∷ []) ≡ Go 1 [] [] store }
    ensures ifge_not { (l : Linked) (store : Store) → effect l (roomy 20) 2 [] store (jop.If jvm.ifge 9) (Num (negsuc 0)
        ∷ []) ≡ Go 3 [] [] store }
    ensures ifgt_not { (l : Linked) (store : Store) → effect l (roomy 20) 2 [] store (jop.If jvm.ifgt 9) (Num (pos 0)
        ∷ []) ≡ Go 3 [] [] store }
    ensures ifle { (l : Linked) (store : Store) → effect l (roomy 20) 2 [] store (jop.If jvm.ifle 9) (Num (pos 0) ∷ [])
        ≡ Go 1 [] [] store }
    ensures if_icmpeq_not { (l : Linked) (store : Store) → effect l (roomy 20) 2 [] store (jop.If jvm.if_icmpeq 9)
        (Num (pos 2) ∷ Num (pos 1) ∷ []) ≡ Go 3 [] [] store }
    ensures if_icmpne { (l : Linked) (store : Store) → effect l (roomy 20) 2 [] store (jop.If jvm.if_icmpne 9)
        (Num (pos 2) ∷ Num (pos 1) ∷ []) ≡ Go 1 [] [] store }
    ensures if_icmplt { (l : Linked) (store : Store) → effect l (roomy 20) 2 [] store (jop.If jvm.if_icmplt 9)
        (Num (pos 2) ∷ Num (pos 1) ∷ []) ≡ Go 1 [] [] store }
    ensures if_icmpge_not { (l : Linked) (store : Store) → effect l (roomy 20) 2 [] store (jop.If jvm.if_icmpge 9)
        (Num (pos 2) ∷ Num (pos 1) ∷ []) ≡ Go 3 [] [] store }
    ensures if_icmpgt_not { (l : Linked) (store : Store) → effect l (roomy 20) 2 [] store (jop.If jvm.if_icmpgt 9)
        (Num (pos 2) ∷ Num (pos 1) ∷ []) ≡ Go 3 [] [] store }
    ensures if_icmple { (l : Linked) (store : Store) → effect l (roomy 20) 2 [] store (jop.If jvm.if_icmple 9)
        (Num (pos 2) ∷ Num (pos 1) ∷ []) ≡ Go 1 [] [] store }
    ensures if_acmpeq { (l : Linked) (store : Store) → effect l (roomy 20) 2 [] store (jop.If jvm.if_acmpeq 9) (Obj 3
        ∷ Obj 3 ∷ []) ≡ Go 1 [] [] store }
    ensures if_acmpne { (l : Linked) (store : Store) → effect l (roomy 20) 2 [] store (jop.If jvm.if_acmpne 9) (Null
        ∷ Obj 3 ∷ []) ≡ Go 1 [] [] store }
    ensures ifnull_not { (l : Linked) (store : Store) → effect l (roomy 20) 2 [] store (jop.If jvm.ifnull 9) (Obj 3
        ∷ []) ≡ Go 3 [] [] store }
    ensures ifnonnull { (l : Linked) (store : Store) → effect l (roomy 20) 2 [] store (jop.If jvm.ifnonnull 9) (Obj 3
        ∷ []) ≡ Go 1 [] [] store }
    ensures if_acmpeq_of_number { (l : Linked) (store : Store) → effect l (roomy 20) 2 [] store (jop.If jvm.if_acmpeq 9)
        (Num (pos 1) ∷ Num (pos 1) ∷ []) ≡ Stick }
    ensures ifeq_of_reference { (l : Linked) (store : Store) → effect l (roomy 20) 2 [] store (jop.If jvm.ifeq 9) (Null
        ∷ []) ≡ Stick }
    ensures goto { (l : Linked) (store : Store) → effect l (roomy 20) 2 [] store (jop.Goto 9) (Num (pos 1) ∷ [])
        ≡ Go 1 (Num (pos 1) ∷ []) [] store }
    ensures table_first { (l : Linked) (store : Store) → effect l (roomy 20) 2 [] store (jop.TableSwitch 0 (negsuc 0) (9
        ∷ 0 ∷ 9 ∷ [])) (Num (negsuc 0) ∷ []) ≡ Go 1 [] [] store }
    ensures table_last { (l : Linked) (store : Store) → effect l (roomy 20) 2 [] store (jop.TableSwitch 0 (negsuc 0) (9
        ∷ 0 ∷ 9 ∷ [])) (Num (pos 1) ∷ []) ≡ Go 1 [] [] store }
    ensures table_below { (l : Linked) (store : Store) → effect l (roomy 20) 2 [] store (jop.TableSwitch 0 (negsuc 0) (9
        ∷ 0 ∷ 9 ∷ [])) (Num (negsuc 1) ∷ []) ≡ Go 0 [] [] store }
    ensures table_above { (l : Linked) (store : Store) → effect l (roomy 20) 2 [] store (jop.TableSwitch 0 (negsuc 0) (9
        ∷ 0 ∷ 9 ∷ [])) (Num (pos 2) ∷ []) ≡ Go 0 [] [] store }
    ensures lookup { (l : Linked) (store : Store)
        → effect l (roomy 20) 2 [] store (jop.LookupSwitch 0 (record { value = pos 70000; target = 9 } ∷ []))
        (Num (pos 70000) ∷ []) ≡ Go 1 [] [] store }
    ensures lookup_other { (l : Linked) (store : Store)
        → effect l (roomy 20) 2 [] store (jop.LookupSwitch 0 (record { value = pos 70000; target = 9 } ∷ []))
        (Num (pos 4464) ∷ []) ≡ Go 0 [] [] store }
    ensures bastore { (l : Linked) → effect l (roomy 20) 2 [] two_arrays (jop.ArrayStore jvm.bastore) (Num (pos 258)
        ∷ Num (pos 0) ∷ Obj 0 ∷ []) ≡ Go 3 [] [] (arrays_with (pos 2) (pos 0)) }
    ensures sastore { (l : Linked) → effect l (roomy 20) 2 [] two_arrays (jop.ArrayStore jvm.sastore) (Num (pos 70000)
        ∷ Num (pos 0) ∷ Obj 1 ∷ []) ≡ Go 3 [] [] (arrays_with (pos 0) (pos 4464)) }
    ensures other_array { (l : Linked) → effect l (roomy 20) 2 [] two_arrays (jop.ArrayLoad jvm.saload) (Num (pos 0)
        ∷ Obj 0 ∷ []) ≡ Stick }
    ensures idiv_by_zero { (l : Linked) (m : Method) (at : ℕ) (locals : List (Option Value)) (store : Store) (x : ℤ)
        (rest : List Value) → effect l m at locals store (jop.Arith jvm.idiv) (Num (pos 0) ∷ Num x ∷ rest)
        ≡ Raise Arithmetic }
    ensures irem_by_zero { (l : Linked) (m : Method) (at : ℕ) (locals : List (Option Value)) (store : Store) (x : ℤ)
        (rest : List Value) → effect l m at locals store (jop.Arith jvm.irem) (Num (pos 0) ∷ Num x ∷ rest)
        ≡ Raise Arithmetic }
    ensures negative_size { (l : Linked) (m : Method) (at : ℕ) (locals : List (Option Value)) (store : Store) (n : ℕ)
        (rest : List Value) → effect l m at locals store (jop.NewArray 10) (Num (negsuc n) ∷ rest)
        ≡ Raise NegativeSize }
    ensures length_of_null { (l : Linked) (m : Method) (at : ℕ) (locals : List (Option Value)) (store : Store)
        (rest : List Value) → effect l m at locals store jop.ArrayLength (Null ∷ rest) ≡ Raise NullPointer }
    ensures null_thrown { (l : Linked) (m : Method) (at : ℕ) (locals : List (Option Value)) (store : Store)
        (rest : List Value) → effect l m at locals store jop.Throw (Null ∷ rest) ≡ Raise NullPointer }
    ensures field_of_null { (l : Linked) (m : Method) (at : ℕ) (locals : List (Option Value)) (store : Store)
        (id f : MemberId) (rest : List Value) → l.field (holder l m at locals store) id ≡ Some (Instance f)
        → effect l m at locals store (jop.Field false id) (Null ∷ rest) ≡ Raise NullPointer }
    ensures field_nowhere { (l : Linked) (m : Method) (at : ℕ) (locals : List (Option Value)) (store : Store)
        (id : MemberId) (stack : List Value) → l.field (holder l m at locals store) id ≡ None
        → effect l m at locals store (jop.Field false id) stack ≡ Stick }
{}

/// For every record of look-ups: what a call, a return and an exception meet. A member that is nowhere is stuck
/// whatever its receiver, and so are operands of other sorts, an abstract method, and a result or exception
/// without room; an exception of the machine's own is made before it is caught, and an imported call is noted
/// before it waits.
pub fn calls_and_exceptions_end()
    ensures nowhere { (l : Linked) (op : ℕ) (id : MemberId) (f : Frame) (outer : List Frame) (s : State)
        → l.call (holder_of f) op id ≡ None → after_effect l (Invoke op id) f outer s ≡ stuck_at (offset f) s }
    ensures other_sorts { (l : Linked) (call : Call) (types : Signature) (f : Frame) (outer : List Frame) (s : State)
        → are_of_sorts types.params (reverse (take (length types.params) f.stack)) ≡ false
        → with_types l call (Some types) f outer s ≡ stuck_at (offset f) s }
    ensures null_receiver { (l : Linked) (selected : List ℕ → Option Callee) (stack : List Value) (result : Option Sort)
        (args : List Value) (f : Frame) (outer : List Frame) (s : State) → on_receiver l selected (Null ∷ stack) result
        args f outer s ≡ after_fault l NullPointer f outer s }
    ensures abstract_method { (l : Linked) (m : Method) (result : Option Sort) (args : List Value) (f : Frame)
        (outer : List Frame) (s : State) → m.is_abstract ≡ true → at_callee l (Some (Inside m)) result args f outer s
        ≡ stuck_at (offset f) s }
    ensures no_room_for_result { (l : Linked) (v : Option Value) (f g : Frame) (outer : List Frame) (s : State)
        → nat_le (length (values_of v ++ g.stack)) (room g) ≡ false → after_return l v f (g ∷ outer) s
        ≡ stuck_at (offset f) s }
    ensures no_room_for_exception { (l : Linked) (from : ℕ) (f : Frame) (outer : List Frame) (object target : ℕ)
        (type : List ℕ) (s : State) → handler_in l f type ≡ Some target → nat_lt 0 (room f) ≡ false
        → after_throw l from (f ∷ outer) object type s ≡ stuck_at from s }
    ensures outwards { (l : Linked) (from : ℕ) (f : Frame) (outer : List Frame) (object : ℕ) (type : List ℕ) (s : State)
        → handler_in l f type ≡ None → after_throw l from (f ∷ outer) object type s ≡ after_throw l from outer object
        type s }
    ensures own_exception_is_made { (l : Linked) (fault : Fault) (f : Frame) (outer : List Frame) (s : State)
        → after_fault l fault f outer s ≡ after_throw l (offset f) (f ∷ outer) (length (heap_of s))
        (exception_class fault) (with_last (things.Object (exception_class fault) []) s) }
    ensures no_answer { (l : Linked) (id : MemberId) (result : Option Sort) (args : List Value) (f : Frame)
        (outer : List Frame) (s : State) → is_at_once id ≡ false → s.answers ≡ []
        → imported_call l id result args f outer s ≡ Over (report Waiting (with_note (Event id args) s)) }
{}

/// For every record of look-ups: a turn of a state with a frame is its instruction's effect, and one in which an entry
/// begins is that of the state in which it has begun; a place without instruction is stuck.
pub fn turns_follow_effects()
    ensures made { (l : Linked) (f : Frame) (outer : List Frame) (s : State) (i : JInsn) → s.frames ≡ f ∷ outer
        → slice_get (let m = f.method in m.insns) f.at ≡ Some i
        → move l s ≡ spend l (after_effect l (effect l f.method f.at f.locals s.store i.op f.stack) f outer s) }
    ensures no_instruction { (l : Linked) (f : Frame) (outer : List Frame) (s : State) → s.frames ≡ f ∷ outer
        → slice_get (let m = f.method in m.insns) f.at ≡ None → move l s ≡ stuck_at (offset f) s }
    ensures begun { (l : Linked) (f : Frame) (outer : List Frame) (s t : State) → begins l s.frames s.entries s ≡ On t
        → t.frames ≡ f ∷ outer → move l s ≡ move l t }
{}
