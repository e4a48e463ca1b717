//! Components run by token on the card's machine of 16 bits: the machine of a group of packages, whose
//! look-ups are functions over their components and the export files of the packages outside. It knows
//! names of classes and members as they were told it, no intervals, and not how a table was made.
ghost use Rattle.std.specs.Prelude.{◌≡◌, ◌≢◌, ◌≤◌, ◌+◌, ◌++◌, slice_get, ℕ, codes, pos, negsuc, false, List, Option};
ghost use Rattle.std.specs.Prelude.{Some, None, [], ◌∷◌};
ghost use Rattle.cjc_script.specs.declared.value.Value.{Value};
ghost use Rattle.cjc_script.specs.Sorts.{Element, Shape};
ghost use Rattle.cjc_card_semantics.specs.Bytecode.Calculations.{NullPointer, NegativeSize};
ghost use Rattle.cjc_card_semantics.specs.Bytecode.Effects.{Letter, Memory, Touch, Get, NewNumbers, Cast, Length};
ghost use Rattle.cjc_card_semantics.specs.Bytecode.Effects.{Throw as Athrow, Raise, Go};
ghost use Rattle.cjc_script.specs.declared.value.Value.TheVariants.{Num, Null, Obj};
ghost use Rattle.cjc_script.specs.declared.script.Reply.TheVariants.{Give, Throw};
ghost use Rattle.cjc_script.specs.declared.report.Note.TheVariants.{Event, Result, Thrown};
ghost use Rattle.cjc_script.specs.declared.report.Outcome.TheVariants.{Done, Running, Waiting, Unfit, Stuck};
ghost use Rattle.cjc_script.specs.declared.report.Thing.TheVariants as things;
ghost use Rattle.cjc_capread.specs.Opcodes.{Form};
ghost use Rattle.cjc_capread.specs.Decode.{Instruction, emitted, size, IsWritable};
ghost use Rattle.cjc_script.specs.declared.script.Script.{Script};
ghost use Rattle.cjc_script.specs.Agree.{IsBegun};
ghost use Rattle.cjc_card_semantics.specs.Bytecode.Meanings.{meaning};
ghost use Rattle.cjc_card_semantics.specs.Machine.Loaded.{Loaded, Part};
ghost use Rattle.cjc_card_semantics.specs.Machine.Operations.{operation};
ghost use Rattle.cjc_card_semantics.specs.Machine.Methods.{Code, bytes_from, fetch};
ghost use Rattle.cjc_card_semantics.specs.Machine.Classes.{Class, Field};
ghost use Rattle.cjc_card_semantics.specs.Machine.Statics.{Image};
ghost use Rattle.cjc_card_semantics.specs.Machine.ByToken.{run};
ghost use Rattle.cjc_card_semantics.specs.Machine.Worked.{alone, calls, maps, both, app_alone, ints, at_ends, script};
ghost use Rattle.cjc_card_semantics.specs.Machine.Worked.{call, send, ends, bare, id, does};

/// Calls inside a package: a static call whose sum wraps, a virtual call on a subclass, one that goes on above
/// an entry 0xFFFF, and handlers of which the first neither takes the exception nor ends the search.
pub fn calls_and_handlers_run()
    ensures static_call { run (alone calls) (script (call (codes "p/T") (codes "f") (codes "(S)S") (Num (pos 32767)
        ∷ []) ∷ []) ([])) 100 ≡ ends (Result (Some (Num (negsuc 32767))) ∷ []) ([]) Done 7 }
    ensures virtual_call { run (alone calls) (script (call (codes "p/T") (codes "h") (codes "()S") ([]) ∷ []) ([])) 100
        ≡ ends (Result (Some (Num (pos 2))) ∷ []) (things.Object (codes "p/B")
        (record { field = id (codes "p/B") (codes "s") (codes "S"); value = Num (pos 0) }
        ∷ record { field = id (codes "p/B") (codes "i") (codes "I"); value = Num (pos 0) }
        ∷ record { field = id (codes "p/B") (codes "r") (codes "Ljava/lang/Object;"); value = Null } ∷ []) ∷ []) Done
        5 }
    ensures above { run (alone calls) (script (call (codes "p/T") (codes "u") (codes "()S") ([]) ∷ []) ([])) 100
        ≡ ends (Result (Some (Num (pos 3))) ∷ []) (things.Object (codes "p/B")
        (record { field = id (codes "p/B") (codes "s") (codes "S"); value = Num (pos 0) }
        ∷ record { field = id (codes "p/B") (codes "i") (codes "I"); value = Num (pos 0) }
        ∷ record { field = id (codes "p/B") (codes "r") (codes "Ljava/lang/Object;"); value = Null } ∷ []) ∷ []) Done
        5 }
    ensures caught { run (alone calls) (script (call (codes "p/T") (codes "e") (codes "(S)S") (Num (pos 0) ∷ [])
        ∷ []) ([])) 100 ≡ ends (Result (Some (Num (pos 3))) ∷ []) (bare (codes "java/lang/ArithmeticException")
        ∷ []) Done 6 }
    ensures whole { run (alone calls) (script (call (codes "p/T") (codes "e") (codes "(S)S") (Num (negsuc 4) ∷ [])
        ∷ []) ([])) 100 ≡ ends (Result (Some (Num (pos 1))) ∷ []) ([]) Done 4 }
    ensures cut_off { run (alone calls) (script (call (codes "p/T") (codes "f") (codes "(S)S") (Num (pos 41) ∷ [])
        ∷ []) ([])) 3 ≡ ends ([]) ([]) Running 3 }
    ensures unfit { run (alone calls) (script (call (codes "p/T") (codes "f") (codes "(S)S") (Num (pos 32768) ∷ [])
        ∷ []) ([])) 100 ≡ ends ([]) ([]) (Unfit 0) 0 }
{}

/// An interface's map in a superclass; a call and dispatch across two packages, where a package-visible method
/// is overridden by none of the other package; an imported call that waits and one that is answered.
pub fn packages_and_imports_run()
    ensures mapped { run (alone maps) (script (call (codes "q/T") (codes "k") (codes "()S") ([]) ∷ []) ([])) 100
        ≡ ends (Result (Some (Num (pos 7))) ∷ []) (bare (codes "q/B") ∷ []) Done 5 }
    ensures across { run both (script (call (codes "app/M") (codes "f") (codes "(S)S") (Num (pos 32767) ∷ [])
        ∷ []) ([])) 100 ≡ ends (Result (Some (Num (negsuc 32767))) ∷ []) ([]) Done 7 }
    ensures not_overridden { run both (script (call (codes "app/M") (codes "k") (codes "()S") ([])
        ∷ send (codes "app/M") (codes "v") (codes "()S") (Obj 0 ∷ []) ∷ send (codes "lib/L") (codes "v") (codes "()S")
        (Obj 0 ∷ []) ∷ []) ([])) 100 ≡ ends (Result (Some (Num (pos 1))) ∷ Result (Some (Num (pos 2)))
        ∷ Result (Some (Num (pos 1))) ∷ []) (bare (codes "app/M") ∷ []) Done 17 }
    ensures waits { run app_alone (script (call (codes "app/M") (codes "f") (codes "(S)S") (Num (pos 7) ∷ [])
        ∷ []) ([])) 100 ≡ ends (Event (id (codes "lib/L") (codes "inc") (codes "(S)S")) (Num (pos 7) ∷ []) ∷ []) ([])
        Waiting 2 }
    ensures answered { run app_alone (script (call (codes "app/M") (codes "f") (codes "(S)S") (Num (pos 7) ∷ [])
        ∷ []) (record { number = 1; acts = []; reply = Give (Some (Num (pos 9))) } ∷ [])) 100
        ≡ ends (Event (id (codes "lib/L") (codes "inc") (codes "(S)S")) (Num (pos 7) ∷ []) ∷ Result (Some (Num (pos 9)))
        ∷ []) ([]) Done 3 }
    ensures misfit { run app_alone (script (call (codes "app/M") (codes "f") (codes "(S)S") (Num (pos 7) ∷ [])
        ∷ []) (record { number = 1; acts = []; reply = Give None } ∷ [])) 100
        ≡ ends (Event (id (codes "lib/L") (codes "inc") (codes "(S)S")) (Num (pos 7) ∷ []) ∷ []) ([]) (Unfit 1) 2 }
    ensures thrown { run app_alone (script (call (codes "app/M") (codes "f") (codes "(S)S") (Num (pos 7) ∷ [])
        ∷ []) (record { number = 1; acts = []; reply = Throw (codes "java/lang/ArithmeticException") } ∷ [])) 100
        ≡ ends (Event (id (codes "lib/L") (codes "inc") (codes "(S)S")) (Num (pos 7) ∷ [])
        ∷ Thrown (codes "java/lang/ArithmeticException") 0 ∷ []) (bare (codes "java/lang/ArithmeticException")
        ∷ []) Done 2 }
{}

/// An int in a static field, an element, a field by all three forms, arguments and results, and both switches.
pub fn ints_run()
    ensures in_statics { run (alone ints) (script (call (codes "n/T") (codes "s") (codes "()I") ([]) ∷ []) ([])) 100
        ≡ record {
          notes = Result (Some (Num (pos 70000))) ∷ [];
          statics = record { field = id (codes "n/T") (codes "k") (codes "I"); value = Num (pos 70000) } ∷ [];
          heap = [];
          outcome = Done;
          spent = 4;
        } }
    ensures in_array { run (alone ints) (script (call (codes "n/T") (codes "a") (codes "()I") ([]) ∷ []) ([])) 100
        ≡ record {
          notes = Result (Some (Num (pos 70000))) ∷ [];
          statics = record { field = id (codes "n/T") (codes "k") (codes "I"); value = Num (pos 0) } ∷ [];
          heap = things.Array (codes "[I") (Num (pos 0) ∷ Num (pos 70000) ∷ []) ∷ [];
          outcome = Done;
          spent = 9;
        } }
    ensures in_field { run (alone ints) (script (call (codes "n/T") (codes "o") (codes "()I") ([]) ∷ []) ([])) 100
        ≡ record {
          notes = Result (Some (Num (pos 70000))) ∷ [];
          statics = record { field = id (codes "n/T") (codes "k") (codes "I"); value = Num (pos 0) } ∷ [];
          heap = things.Object (codes "n/C") (record {
            field = id (codes "n/C") (codes "i") (codes "I");
            value = Num (pos 70000);
          } ∷ []) ∷ [];
          outcome = Done;
          spent = 6;
        } }
    ensures by_wide_forms { run (alone ints) (script (call (codes "n/T") (codes "w") (codes "()I") ([]) ∷ []) ([])) 100
        ≡ record {
          notes = Result (Some (Num (pos 70000))) ∷ [];
          statics = record { field = id (codes "n/T") (codes "k") (codes "I"); value = Num (pos 0) } ∷ [];
          heap = things.Object (codes "n/C") (record {
            field = id (codes "n/C") (codes "i") (codes "I");
            value = Num (pos 70000);
          } ∷ []) ∷ [];
          outcome = Done;
          spent = 6;
        } }
    ensures as_argument { run (alone ints) (script (call (codes "n/T") (codes "t") (codes "()I") ([]) ∷ []) ([])) 100
        ≡ record {
          notes = Result (Some (Num (pos 70000))) ∷ [];
          statics = record { field = id (codes "n/T") (codes "k") (codes "I"); value = Num (pos 0) } ∷ [];
          heap = things.Object (codes "n/C") (record {
            field = id (codes "n/C") (codes "i") (codes "I");
            value = Num (pos 70000);
          } ∷ []) ∷ [];
          outcome = Done;
          spent = 13;
        } }
    ensures in_table { run (alone ints) (script (call (codes "n/T") (codes "i") (codes "(I)S") (Num (pos 70000) ∷ [])
        ∷ call (codes "n/T") (codes "i") (codes "(I)S") (Num (pos 70001) ∷ []) ∷ call (codes "n/T") (codes "i")
        (codes "(I)S") (Num (pos 4464) ∷ []) ∷ []) ([])) 100 ≡ record {
          notes = Result (Some (Num (pos 0)))
              ∷ Result (Some (Num (pos 1))) ∷ Result (Some (Num (pos 2))) ∷ [];
          statics =
              record { field = id (codes "n/T") (codes "k") (codes "I"); value = Num (pos 0) } ∷ [];
          heap = [];
          outcome =
              Done;
          spent = 12;
        } }
    ensures in_pairs { run (alone ints) (script (call (codes "n/T") (codes "l") (codes "(I)S") (Num (negsuc 0) ∷ [])
        ∷ call (codes "n/T") (codes "l") (codes "(I)S") (Num (pos 70000) ∷ []) ∷ call (codes "n/T") (codes "l")
        (codes "(I)S") (Num (pos 0) ∷ []) ∷ []) ([])) 100 ≡ record {
          notes = Result (Some (Num (pos 0)))
              ∷ Result (Some (Num (pos 0))) ∷ Result (Some (Num (pos 2))) ∷ [];
          statics =
              record { field = id (codes "n/T") (codes "k") (codes "I"); value = Num (pos 0) } ∷ [];
          heap = [];
          outcome =
              Done;
          spent = 12;
        } }
{}

/// Where the machine is stuck, and where it is not: an exception that a handler without room takes, a return
/// without room, an answer without room, locals by the header alone, an imported call's word of another kind
/// and a call inside that carries any word, a member that is nowhere before its receiver is null, flags of a
/// header, locals that are not set, slots by Class, types of arrays, an array that is thrown, an abstract
/// method, and the package-visible number 127.
pub fn ends_are_met()
    ensures no_room_for_exception { run at_ends (script (call (codes "k/T") (codes "x") (codes "()V") ([]) ∷ []) ([]))
        100 ≡ ends ([]) (bare (codes "java/lang/ArithmeticException") ∷ []) (Stuck 21) 3 }
    ensures no_room_for_result { run at_ends (script (call (codes "k/T") (codes "r") (codes "()V") ([]) ∷ []) ([])) 100
        ≡ ends ([]) ([]) (Stuck 38) 2 }
    ensures no_room_for_answer { run at_ends (script (call (codes "k/T") (codes "a") (codes "()V") ([])
        ∷ []) (record { number = 1; acts = []; reply = Give (Some (Num (pos 5))) } ∷ [])) 100
        ≡ ends (Event (id (codes "lib/L") (codes "zero") (codes "()S")) [] ∷ []) ([]) (Stuck 200) 0 }
    ensures cells_by_header { run at_ends (script (call (codes "k/T") (codes "m") (codes "(S)S") (Num (pos 5) ∷ [])
        ∷ []) ([])) 100 ≡ ends ([]) ([]) (Stuck 196) 0 }
    ensures other_kind_abroad { run at_ends (script (call (codes "k/T") (codes "n") (codes "()S") ([]) ∷ []) ([])) 100
        ≡ ends ([]) ([]) (Stuck 42) 1 }
    ensures any_kind_inside { run at_ends (script (call (codes "k/T") (codes "w") (codes "()S") ([]) ∷ []) ([])) 100
        ≡ ends (Result (Some (Num (pos 1))) ∷ []) ([]) Done 5 }
    ensures nowhere_before_null { run at_ends (script (call (codes "k/T") (codes "y") (codes "()S") ([]) ∷ []) ([])) 100
        ≡ ends ([]) ([]) (Stuck 49) 1 }
    ensures null { run at_ends (script (call (codes "k/T") (codes "q") (codes "()S") ([]) ∷ []) ([])) 100
        ≡ ends (Thrown (codes "java/lang/NullPointerException") 0 ∷ []) (bare (codes "java/lang/NullPointerException")
        ∷ []) Done 2 }
    ensures null_interface { run at_ends (script (call (codes "k/T") (codes "j") (codes "()S") ([]) ∷ []) ([])) 100
        ≡ ends (Thrown (codes "java/lang/NullPointerException") 0 ∷ []) (bare (codes "java/lang/NullPointerException")
        ∷ []) Done 2 }
    ensures unset { run at_ends (script (call (codes "k/T") (codes "u") (codes "()S") ([]) ∷ []) ([])) 100
        ≡ ends ([]) ([]) (Stuck 71) 0 }
    ensures second_token { run at_ends (script (call (codes "k/T") (codes "p") (codes "()S") ([]) ∷ []) ([])) 100
        ≡ ends (Result (Some (Num (pos 0))) ∷ []) (things.Object (codes "k/A")
        (record { field = id (codes "k/A") (codes "i") (codes "I"); value = Num (pos 1) } ∷ []) ∷ []) Done 6 }
    ensures not_a_word { run at_ends (script (call (codes "k/T") (codes "v") (codes "()S") ([]) ∷ []) ([])) 100
        ≡ ends ([]) (things.Object (codes "k/A") (record {
          field = id (codes "k/A") (codes "i") (codes "I");
          value = Num (pos 70000);
        } ∷ []) ∷ []) (Stuck 98) 4 }
    ensures arrays { run at_ends (script (call (codes "k/T") (codes "c") (codes "()S") ([]) ∷ []) ([])) 100
        ≡ ends (Result (Some (Num (pos 1))) ∷ []) (things.Array (codes "[Lk/A;") (Null ∷ Null ∷ []) ∷ []) Done 5 }
    ensures array_thrown { run at_ends (script (call (codes "k/T") (codes "d") (codes "()V") ([]) ∷ []) ([])) 100
        ≡ ends (Thrown (codes "[S") 0 ∷ []) (things.Array (codes "[S") [] ∷ []) Done 3 }
    ensures abstract_call { run at_ends (script (call (codes "k/T") (codes "k") (codes "()S") ([]) ∷ []) ([])) 100
        ≡ ends ([]) (things.Object (codes "k/A") (record {
          field = id (codes "k/A") (codes "i") (codes "I");
          value = Num (pos 0);
        } ∷ []) ∷ []) (Stuck 133) 1 }
    ensures abstract_entry { run at_ends (script (call (codes "k/T") (codes "o") (codes "()Lk/A;") ([])
        ∷ send (codes "k/A") (codes "b") (codes "()S") (Obj 0 ∷ []) ∷ []) ([])) 100 ≡ ends (Result (Some (Obj 0))
        ∷ []) (things.Object (codes "k/A") (record {
          field = id (codes "k/A") (codes "i") (codes "I");
          value = Num (pos 0);
        } ∷ []) ∷ []) (Stuck 128) 2 }
    ensures other_flags { run at_ends (script (call (codes "k/T") (codes "o") (codes "()Lk/A;") ([])
        ∷ send (codes "k/A") (codes "m") (codes "()S") (Obj 0 ∷ []) ∷ []) ([])) 100 ≡ ends (Result (Some (Obj 0))
        ∷ Result (Some (Num (pos 1))) ∷ []) (things.Object (codes "k/A") (record {
          field = id (codes "k/A") (codes "i")
              (codes "I");
          value = Num (pos 0);
        } ∷ []) ∷ []) Done 4 }
    ensures number_127 { run at_ends (script (call (codes "k/T") (codes "o") (codes "()Lk/A;") ([])
        ∷ send (codes "k/A") (codes "h") (codes "()S") (Obj 0 ∷ []) ∷ []) ([])) 100 ≡ ends (Result (Some (Obj 0))
        ∷ Result (Some (Num (pos 2))) ∷ []) (things.Object (codes "k/A") (record {
          field = id (codes "k/A") (codes "i")
              (codes "I");
          value = Num (pos 0);
        } ∷ []) ∷ []) Done 4 }
{}

/// The machine's own exceptions: an index outside an array, a negative number of elements, a class that an
/// object is not of, a reference that an array does not take, null, and a zero divisor.
pub fn exceptions_are_raised()
    ensures index { run at_ends (script (call (codes "k/T") (codes "e") (codes "()S") ([]) ∷ []) ([])) 100
        ≡ ends (Thrown (codes "java/lang/ArrayIndexOutOfBoundsException") 1 ∷ []) (things.Array (codes "[S")
        (Num (pos 0) ∷ []) ∷ bare (codes "java/lang/ArrayIndexOutOfBoundsException") ∷ []) Done 4 }
    ensures negative_size { run at_ends (script (call (codes "k/T") (codes "f") (codes "()[S") ([]) ∷ []) ([])) 100
        ≡ ends (Thrown (codes "java/lang/NegativeArraySizeException") 0
        ∷ []) (bare (codes "java/lang/NegativeArraySizeException") ∷ []) Done 2 }
    ensures other_class { run at_ends (script (call (codes "k/T") (codes "g") (codes "()Lk/A;") ([]) ∷ []) ([])) 100
        ≡ ends (Thrown (codes "java/lang/ClassCastException") 1 ∷ []) (things.Object (codes "k/A")
        (record { field = id (codes "k/A") (codes "i") (codes "I"); value = Num (pos 0) } ∷ [])
        ∷ bare (codes "java/lang/ClassCastException") ∷ []) Done 2 }
    ensures other_element { run at_ends (script (call (codes "k/T") (codes "h") (codes "()V") ([]) ∷ []) ([])) 100
        ≡ ends (Thrown (codes "java/lang/ArrayStoreException") 2 ∷ []) (things.Array (codes "[Lk/A;") (Null ∷ [])
        ∷ bare (codes "k/T") ∷ bare (codes "java/lang/ArrayStoreException") ∷ []) Done 5 }
    ensures null_field { (l : Loaded) (letter : Letter) (f : Field) (room next : ℕ) (locals : List (Option Value))
        (m : Memory Class Field (List Image)) (rest : List Value) → does l (Get false letter f) room next locals m (Null
        ∷ rest) ≡ Raise NullPointer }
    ensures null_thrown { (l : Loaded) (room next : ℕ) (locals : List (Option Value)) (m : Memory Class Field
        (List Image)) (rest : List Value) → does l (Touch Athrow) room next locals m (Null ∷ rest) ≡ Raise NullPointer }
    ensures null_length { (l : Loaded) (room next : ℕ) (locals : List (Option Value)) (m : Memory Class Field
        (List Image)) (rest : List Value) → does l (Touch Length) room next locals m (Null ∷ rest) ≡ Raise NullPointer }
    ensures negative_count { (l : Loaded) (element : Element) (n room next : ℕ) (locals : List (Option Value))
        (m : Memory Class Field (List Image)) (rest : List Value) → does l (NewNumbers element) room next locals m
        (Num (negsuc n) ∷ rest) ≡ Raise NegativeSize }
    ensures null_is_of_any_class { (l : Loaded) (kind : Shape Class) (room next : ℕ) (locals : List (Option Value))
        (m : Memory Class Field (List Image)) (rest : List Value) → does l (Cast kind) room next locals m (Null ∷ rest)
        ≡ Go next (Null ∷ rest) locals m }
{}

/// An instruction whose bytes all stand inside a method's code is fetched as what its opcode means of its operands,
/// whatever stands behind it, and its size leads to the next.
pub fn written_instructions_are_fetched()
    ensures { (l : Loaded) (code : Code) (at : ℕ) (part : Part) (f : Form) (i : Instruction) (rest : List ℕ)
        → slice_get l.parts code.part ≡ Some part → code.first ≤ at → at + size i ≤ code.end
        → bytes_from part at ≡ emitted f i ++ rest → IsWritable f i
        → fetch l code at ≡ Some (record {
          operation = operation l code.part part.pool at (meaning i.opcode) i.operands
              i.table;
          next = at + size i;
        }) }
{}

/// More instructions change nothing of a run that is over, and take back no note.
pub fn runs_only_grow()
    ensures over { (l : Loaded) (script : Script) (m n : ℕ) → m ≤ n → (run l script m).outcome ≢ Running
        → run l script n ≡ run l script m }
    ensures notes { (l : Loaded) (script : Script) (m n : ℕ) → m ≤ n
        → IsBegun (run l script m).notes (run l script n).notes }
{}
