//! Packages made by hand as class files and as components, and their runs: by name, by token and by label. Nothing here
//! runs in the product; it shows on examples that the definitions of the three machines say the same.
ghost use Rattle.std.specs.Prelude.{◌≡◌, codes, pos, negsuc, replicate, [], ◌∷◌, Some, None};
ghost use Rattle.cjc_components.specs.LowerScript.declared.value.Value.TheVariants.{Num, Obj};
ghost use Rattle.cjc_components.specs.LowerScript.declared.script.Act.TheVariants as acts;
ghost use Rattle.cjc_components.specs.LowerScript.declared.script.Reply.TheVariants.{Give};
ghost use Rattle.cjc_components.specs.LowerScript.declared.report.Note.TheVariants.{Event, Result, Thrown};
ghost use Rattle.cjc_components.specs.LowerScript.declared.report.Outcome.TheVariants.{Done, Running, Waiting, Unfit};
ghost use Rattle.cjc_components.specs.LowerScript.declared.report.Thing.TheVariants as things;
ghost use Rattle.cjc_components.specs.LowerJvmSemantics.Worked.{no_image};
ghost use Rattle.cjc_components.specs.LowerCardSemantics.Machine.Worked.{id, call, send, script, bare, ends};
ghost use Rattle.cjc_components.specs.LowerCardSemantics.Machine.ByToken.{run};
ghost use Rattle.cjc_examples.specs.Narrow.Both.{after, answer, reports};
ghost use Rattle.cjc_examples.specs.Narrow.Calculating as Calculating;
ghost use Rattle.cjc_examples.specs.Narrow.Calculating.{all_stop};
ghost use Rattle.cjc_examples.specs.Narrow.Overriding as Overriding;
ghost use Rattle.cjc_examples.specs.Narrow.Sharing as Sharing;
ghost use Rattle.cjc_examples.specs.Narrow.Keeping as Keeping;
ghost use Rattle.cjc_examples.specs.Narrow.Keeping.{image, cells, kept};
ghost use Rattle.cjc_examples.specs.Narrow.Laid.{named_for, placed};
ghost use Rattle.cjc_components.specs.LowerNCode.Lowering.Package.{all_bytes, all_handlers};

/// Calculations, array elements, switches and handlers on all three machines: each row has the report by name,
/// by token and by label. A sum that wraps, an index outside on either side, the least short divided by -1,
/// shifts past their word, a mask of 16 bits, cases outside 16 bits, of which no word is one.
pub fn calculations_run_alike()
    ensures sum { reports 100 Calculating.files no_image Calculating.components
        (script (call (codes "p/T") (codes "f") (codes "(S)S") (Num (pos 32767) ∷ []) ∷ []) ([]))
        ≡ ends (Result (Some (Num (negsuc 32767))) ∷ []) ([]) Done 5 ∷ ends (Result (Some (Num (negsuc 32767)))
        ∷ []) ([]) Done 4 ∷ ends (Result (Some (Num (negsuc 32767))) ∷ []) ([]) Done 4 ∷ [] }
    ensures caught { reports 100 Calculating.files no_image Calculating.components
        (script (call (codes "p/T") (codes "c") (codes "(S)S") (Num (pos 0) ∷ []) ∷ []) ([]))
        ≡ ends (Result (Some (Num (pos 3))) ∷ []) (bare (codes "java/lang/ArithmeticException") ∷ []) Done 6
        ∷ ends (Result (Some (Num (pos 3))) ∷ []) (bare (codes "java/lang/ArithmeticException") ∷ []) Done 6
        ∷ ends (Result (Some (Num (pos 3))) ∷ []) (bare (codes "java/lang/ArithmeticException") ∷ []) Done 6 ∷ [] }
    ensures not_caught { reports 100 Calculating.files no_image Calculating.components
        (script (call (codes "p/T") (codes "c") (codes "(S)S") (Num (negsuc 4) ∷ []) ∷ []) ([]))
        ≡ ends (Result (Some (Num (pos 1))) ∷ []) ([]) Done 5 ∷ ends (Result (Some (Num (pos 1))) ∷ []) ([]) Done 4
        ∷ ends (Result (Some (Num (pos 1))) ∷ []) ([]) Done 4 ∷ [] }
    ensures element { reports 100 Calculating.files no_image Calculating.components
        (script (after (acts.Array (codes "[B") (pos 2) ∷ acts.Put 0 (pos 1) (Num (negsuc 4))
        ∷ []) (call (codes "p/T") (codes "h") (codes "([BS)B") (Obj 0 ∷ Num (pos 0) ∷ [])) ∷ []) ([]))
        ≡ ends (Result (Some (Num (negsuc 4))) ∷ []) (things.Array (codes "[B") (Num (pos 0) ∷ Num (negsuc 4) ∷ [])
        ∷ []) Done 6 ∷ ends (Result (Some (Num (negsuc 4))) ∷ []) (things.Array (codes "[B") (Num (pos 0)
        ∷ Num (negsuc 4) ∷ []) ∷ []) Done 6 ∷ ends (Result (Some (Num (negsuc 4))) ∷ []) (things.Array (codes "[B")
        (Num (pos 0) ∷ Num (negsuc 4) ∷ []) ∷ []) Done 6 ∷ [] }
    ensures index { reports 100 Calculating.files no_image Calculating.components
        (script (after (acts.Array (codes "[B") (pos 6) ∷ []) (call (codes "p/T") (codes "h") (codes "([BS)B") (Obj 0
        ∷ Num (pos 32767) ∷ [])) ∷ []) ([])) ≡ ends (Thrown (codes "java/lang/ArrayIndexOutOfBoundsException") 1
        ∷ []) (things.Array (codes "[B") (replicate 6 (Num (pos 0)))
        ∷ bare (codes "java/lang/ArrayIndexOutOfBoundsException") ∷ []) Done 5
        ∷ ends (Thrown (codes "java/lang/ArrayIndexOutOfBoundsException") 1 ∷ []) (things.Array (codes "[B")
        (replicate 6 (Num (pos 0))) ∷ bare (codes "java/lang/ArrayIndexOutOfBoundsException") ∷ []) Done 5
        ∷ ends (Thrown (codes "java/lang/ArrayIndexOutOfBoundsException") 1 ∷ []) (things.Array (codes "[B")
        (replicate 6 (Num (pos 0))) ∷ bare (codes "java/lang/ArrayIndexOutOfBoundsException") ∷ []) Done 5 ∷ [] }
    ensures index_before { reports 100 Calculating.files no_image Calculating.components
        (script (after (acts.Array (codes "[B") (pos 6) ∷ []) (call (codes "p/T") (codes "i") (codes "([BS)B") (Obj 0
        ∷ Num (negsuc 32767) ∷ [])) ∷ []) ([])) ≡ ends (Thrown (codes "java/lang/ArrayIndexOutOfBoundsException") 1
        ∷ []) (things.Array (codes "[B") (replicate 6 (Num (pos 0)))
        ∷ bare (codes "java/lang/ArrayIndexOutOfBoundsException") ∷ []) Done 5
        ∷ ends (Thrown (codes "java/lang/ArrayIndexOutOfBoundsException") 1 ∷ []) (things.Array (codes "[B")
        (replicate 6 (Num (pos 0))) ∷ bare (codes "java/lang/ArrayIndexOutOfBoundsException") ∷ []) Done 5
        ∷ ends (Thrown (codes "java/lang/ArrayIndexOutOfBoundsException") 1 ∷ []) (things.Array (codes "[B")
        (replicate 6 (Num (pos 0))) ∷ bare (codes "java/lang/ArrayIndexOutOfBoundsException") ∷ []) Done 5 ∷ [] }
    ensures empty_array { reports 100 Calculating.files no_image Calculating.components
        (script (after (acts.Array (codes "[B") (pos 0) ∷ []) (call (codes "p/T") (codes "j") (codes "([B)B") (Obj 0
        ∷ [])) ∷ []) ([])) ≡ ends (Thrown (codes "java/lang/ArrayIndexOutOfBoundsException") 1
        ∷ []) (things.Array (codes "[B") [] ∷ bare (codes "java/lang/ArrayIndexOutOfBoundsException") ∷ []) Done 6
        ∷ ends (Thrown (codes "java/lang/ArrayIndexOutOfBoundsException") 1 ∷ []) (things.Array (codes "[B") []
        ∷ bare (codes "java/lang/ArrayIndexOutOfBoundsException") ∷ []) Done 6
        ∷ ends (Thrown (codes "java/lang/ArrayIndexOutOfBoundsException") 1 ∷ []) (things.Array (codes "[B") []
        ∷ bare (codes "java/lang/ArrayIndexOutOfBoundsException") ∷ []) Done 6 ∷ [] }
    ensures least { reports 100 Calculating.files no_image Calculating.components
        (script (call (codes "p/T") (codes "d") (codes "(SS)S") (Num (negsuc 32767) ∷ Num (negsuc 0) ∷ []) ∷ []) ([]))
        ≡ ends (Result (Some (Num (negsuc 32767))) ∷ []) ([]) Done 5 ∷ ends (Result (Some (Num (negsuc 32767)))
        ∷ []) ([]) Done 4 ∷ ends (Result (Some (Num (negsuc 32767))) ∷ []) ([]) Done 4 ∷ [] }
    ensures zero_divisor { reports 100 Calculating.files no_image Calculating.components
        (script (call (codes "p/T") (codes "d") (codes "(SS)S") (Num (pos 5) ∷ Num (pos 0) ∷ []) ∷ []) ([]))
        ≡ ends (Thrown (codes "java/lang/ArithmeticException") 0 ∷ []) (bare (codes "java/lang/ArithmeticException")
        ∷ []) Done 3 ∷ ends (Thrown (codes "java/lang/ArithmeticException") 0
        ∷ []) (bare (codes "java/lang/ArithmeticException") ∷ []) Done 3
        ∷ ends (Thrown (codes "java/lang/ArithmeticException") 0 ∷ []) (bare (codes "java/lang/ArithmeticException")
        ∷ []) Done 3 ∷ [] }
    ensures unsigned_shift { reports 100 Calculating.files no_image Calculating.components
        (script (call (codes "p/T") (codes "u") (codes "(S)S") (Num (negsuc 0) ∷ []) ∷ []) ([]))
        ≡ ends (Result (Some (Num (pos 4095))) ∷ []) ([]) Done 5 ∷ ends (Result (Some (Num (pos 4095))) ∷ []) ([]) Done
        4 ∷ ends (Result (Some (Num (pos 4095))) ∷ []) ([]) Done 4 ∷ [] }
    ensures shift_out { reports 100 Calculating.files no_image Calculating.components
        (script (call (codes "p/T") (codes "l") (codes "(S)S") (Num (pos 12345) ∷ []) ∷ []) ([]))
        ≡ ends (Result (Some (Num (pos 0))) ∷ []) ([]) Done 5 ∷ ends (Result (Some (Num (pos 0))) ∷ []) ([]) Done 4
        ∷ ends (Result (Some (Num (pos 0))) ∷ []) ([]) Done 4 ∷ [] }
    ensures mask { reports 100 Calculating.files no_image Calculating.components
        (script (call (codes "p/T") (codes "m") (codes "(S)S") (Num (negsuc 1) ∷ []) ∷ []) ([]))
        ≡ ends (Result (Some (Num (negsuc 1))) ∷ []) ([]) Done 5 ∷ ends (Result (Some (Num (negsuc 1))) ∷ []) ([]) Done
        4 ∷ ends (Result (Some (Num (negsuc 1))) ∷ []) ([]) Done 4 ∷ [] }
    ensures pair { reports 100 Calculating.files no_image Calculating.components
        (script (call (codes "p/T") (codes "s") (codes "(S)S") (Num (pos 5) ∷ []) ∷ []) ([]))
        ≡ ends (Result (Some (Num (pos 1))) ∷ []) ([]) Done 4 ∷ ends (Result (Some (Num (pos 1))) ∷ []) ([]) Done 4
        ∷ ends (Result (Some (Num (pos 1))) ∷ []) ([]) Done 4 ∷ [] }
    ensures pair_outside { reports 100 Calculating.files no_image Calculating.components
        (script (call (codes "p/T") (codes "s") (codes "(S)S") (Num (pos 4464) ∷ []) ∷ []) ([]))
        ≡ ends (Result (Some (Num (pos 0))) ∷ []) ([]) Done 4 ∷ ends (Result (Some (Num (pos 0))) ∷ []) ([]) Done 4
        ∷ ends (Result (Some (Num (pos 0))) ∷ []) ([]) Done 4 ∷ [] }
    ensures table_outside { reports 100 Calculating.files no_image Calculating.components
        (script (call (codes "p/T") (codes "t") (codes "(S)S") (Num (negsuc 25535) ∷ []) ∷ []) ([]))
        ≡ ends (Result (Some (Num (pos 0))) ∷ []) ([]) Done 4 ∷ ends (Result (Some (Num (pos 0))) ∷ []) ([]) Done 5
        ∷ ends (Result (Some (Num (pos 0))) ∷ []) ([]) Done 5 ∷ [] }
{}

/// An imported call on all three machines: it waits, its answer is no boolean, and it is answered.
pub fn imported_calls_run_alike()
    ensures waits { reports 100 Calculating.files no_image Calculating.components
        (script (call (codes "p/T") (codes "g") (codes "()Z") ([]) ∷ []) ([]))
        ≡ ends (Event (id (codes "q/A") (codes "z") (codes "()Z")) [] ∷ []) ([]) Waiting 1
        ∷ ends (Event (id (codes "q/A") (codes "z") (codes "()Z")) [] ∷ []) ([]) Waiting 1
        ∷ ends (Event (id (codes "q/A") (codes "z") (codes "()Z")) [] ∷ []) ([]) Waiting 1 ∷ [] }
    ensures unfit { reports 100 Calculating.files no_image Calculating.components
        (script (call (codes "p/T") (codes "g") (codes "()Z") ([]) ∷ []) (answer 1 (Give (Some (Num (pos 2)))) ∷ []))
        ≡ ends (Event (id (codes "q/A") (codes "z") (codes "()Z")) [] ∷ []) ([]) (Unfit 1) 1
        ∷ ends (Event (id (codes "q/A") (codes "z") (codes "()Z")) [] ∷ []) ([]) (Unfit 1) 1
        ∷ ends (Event (id (codes "q/A") (codes "z") (codes "()Z")) [] ∷ []) ([]) (Unfit 1) 1 ∷ [] }
    ensures answered { reports 100 Calculating.files no_image Calculating.components
        (script (call (codes "p/T") (codes "g") (codes "()Z") ([]) ∷ []) (answer 1 (Give (Some (Num (pos 1)))) ∷ []))
        ≡ ends (Event (id (codes "q/A") (codes "z") (codes "()Z")) [] ∷ Result (Some (Num (pos 1))) ∷ []) ([]) Done 2
        ∷ ends (Event (id (codes "q/A") (codes "z") (codes "()Z")) [] ∷ Result (Some (Num (pos 1))) ∷ []) ([]) Done 2
        ∷ ends (Event (id (codes "q/A") (codes "z") (codes "()Z")) [] ∷ Result (Some (Num (pos 1))) ∷ []) ([]) Done 2
        ∷ [] }
{}

/// Dispatch on all three machines: an imported class's method is sent to a subclass that overrides it, and one
/// that it inherits is an event of the imported class; two classes with nothing but an interface in common have
/// each their own method.
pub fn dispatch_runs_alike()
    ensures overrides { reports 100 Overriding.files no_image Overriding.components
        (script (call (codes "p/B") (codes "make") (codes "()Lp/B;") [] ∷ send (codes "q/A") (codes "a") (codes "()S")
        (Obj 0 ∷ []) ∷ call (codes "p/B") (codes "k") (codes "(Lp/B;)S") (Obj 0 ∷ []) ∷ []) (answer 1 (Give None)
        ∷ answer 4 (Give (Some (Num (pos 9)))) ∷ [])) ≡ ends (Event (id (codes "q/A") (codes "<init>") (codes "()V"))
        (Obj 0 ∷ []) ∷ Result (Some (Obj 0)) ∷ Result (Some (Num (pos 7)))
        ∷ Event (id (codes "q/A") (codes "b") (codes "()S")) (Obj 0 ∷ []) ∷ Result (Some (Num (pos 9)))
        ∷ []) (bare (codes "p/B") ∷ []) Done 12 ∷ ends (Event (id (codes "q/A") (codes "<init>") (codes "()V")) (Obj 0
        ∷ []) ∷ Result (Some (Obj 0)) ∷ Result (Some (Num (pos 7))) ∷ Event (id (codes "q/A") (codes "b") (codes "()S"))
        (Obj 0 ∷ []) ∷ Result (Some (Num (pos 9))) ∷ []) (bare (codes "p/B") ∷ []) Done 12
        ∷ ends (Event (id (codes "q/A") (codes "<init>") (codes "()V")) (Obj 0 ∷ []) ∷ Result (Some (Obj 0))
        ∷ Result (Some (Num (pos 7))) ∷ Event (id (codes "q/A") (codes "b") (codes "()S")) (Obj 0 ∷ [])
        ∷ Result (Some (Num (pos 9))) ∷ []) (bare (codes "p/B") ∷ []) Done 12 ∷ [] }
    ensures shares { reports 100 Sharing.files no_image Sharing.components
        (script (call (codes "p/T") (codes "t") (codes "(S)S") (Num (pos 1) ∷ []) ∷ call (codes "p/T") (codes "t")
        (codes "(S)S") (Num (pos 0) ∷ []) ∷ []) ([])) ≡ ends (Result (Some (Num (pos 1))) ∷ Result (Some (Num (pos 2)))
        ∷ []) (bare (codes "p/M") ∷ bare (codes "p/N") ∷ []) Done 19 ∷ ends (Result (Some (Num (pos 1)))
        ∷ Result (Some (Num (pos 2))) ∷ []) (bare (codes "p/M") ∷ bare (codes "p/N") ∷ []) Done 19
        ∷ ends (Result (Some (Num (pos 1))) ∷ Result (Some (Num (pos 2))) ∷ []) (bare (codes "p/M") ∷ bare (codes "p/N")
        ∷ []) Done 19 ∷ [] }
{}

/// Static cells on all three machines, before the first instruction and after a run: an array, null, a boolean
/// and a short.
pub fn statics_run_alike()
    ensures at_first { reports 0 Keeping.files image Keeping.components
        (script (call (codes "p/T") (codes "next") (codes "()S") ([]) ∷ []) ([])) ≡ kept ([]) (cells 0 7) Running 0
        ∷ kept ([]) (cells 0 7) Running 0 ∷ kept ([]) (cells 0 7) Running 0 ∷ [] }
    ensures next { reports 100 Keeping.files image Keeping.components
        (script (call (codes "p/T") (codes "next") (codes "()S") ([]) ∷ []) ([])) ≡ kept (Result (Some (Num (pos 9)))
        ∷ []) (cells 1 9) Done 11 ∷ kept (Result (Some (Num (pos 9))) ∷ []) (cells 1 9) Done 10
        ∷ kept (Result (Some (Num (pos 9))) ∷ []) (cells 1 9) Done 10 ∷ [] }
{}

/// With a stop bit in every handler the exception passes the handler that would take it.
pub fn stop_bits_end_the_search()
    ensures { run all_stop (script (call (codes "p/T") (codes "c") (codes "(S)S") (Num (pos 0) ∷ []) ∷ []) []) 100
        ≡ ends (Thrown (codes "java/lang/ArithmeticException") 0 ∷ []) (bare (codes "java/lang/ArithmeticException")
        ∷ []) Done 3 }
{}

/// What is written for the class files, laid out one method behind the other with the indices of the pool in
/// its order, is the bytes of the components, and of the handlers their table with its stop bits.
pub fn what_is_written_is_laid_out_alike()
    ensures calculating { all_bytes (named_for Calculating.files Calculating.components (Calculating.class_t ∷ []))
        (placed Calculating.files Calculating.components (Calculating.class_t ∷ []) 17)
        ≡ (let method = Calculating.part.method in method.methods) }
    ensures handlers { all_handlers (named_for Calculating.files Calculating.components (Calculating.class_t ∷ []))
        (placed Calculating.files Calculating.components (Calculating.class_t ∷ []) 17)
        ≡ (let method = Calculating.part.method in method.handlers) }
    ensures overriding { all_bytes (named_for Overriding.files Overriding.components (Overriding.class_b ∷ []))
        (placed Overriding.files Overriding.components (Overriding.class_b ∷ []) 1)
        ≡ (let method = Overriding.part.method in method.methods) }
    ensures sharing { all_bytes (named_for Sharing.files Sharing.components (Sharing.class_m ∷ Sharing.class_n
        ∷ Sharing.class_t ∷ [])) (placed Sharing.files Sharing.components (Sharing.class_m ∷ Sharing.class_n
        ∷ Sharing.class_t ∷ []) 1) ≡ (let method = Sharing.part.method in method.methods) }
    ensures keeping { all_bytes (named_for Keeping.files Keeping.components (Keeping.class_t ∷ []))
        (placed Keeping.files Keeping.components (Keeping.class_t ∷ []) 1) ≡ (let method = Keeping.part.method
        in method.methods) }
{}
