//! Narrow code of methods in int mode, in which every number is two words: what is written for each
//! instruction, for calls that take or give values of one word, and before the first instruction. It has
//! definitions and computed methods alone, for whoever selects such code; it knows no table, no token and no
//! offset.
ghost use Rattle.std.specs.Prelude.{◌≡◌, ◌++◌, codes, pos, negsuc, false, true, [], ◌∷◌};
ghost use Rattle.cjc_ncode.specs.declared.narrow.NInsn.TheVariants as insns;
ghost use Rattle.cjc_ncode.specs.declared.narrow.PoolKey.TheVariants as keys;
ghost use Rattle.cjc_ncode.specs.WorkedCode.{id, resolution};
ghost use Rattle.cjc_ncode.specs.IntCode.IntCode.{element_written as stored, on_stack, pushed, written, scratch_pairs};
ghost use Rattle.cjc_ncode.specs.IntCode.IntCode.{widest};
ghost use Rattle.cjc_ncode.specs.IntCode.IntCode.{int_method};
ghost use Rattle.cjc_ncode.specs.IntCode.Worked.{code, reached, is_less_frame, is_less, is_less_written, element_frame};
ghost use Rattle.cjc_ncode.specs.IntCode.Worked.{element, element_written, loop_frame, loop, loop_written, call};
ghost use Rattle.cjc_ncode.specs.IntCode.Worked.{call_frame, constants, read};

/// What is written for three methods made by hand: a comparison of a short, an element of a byte array at an
/// int, whose index has its guard, and a loop over such an array.
pub fn methods_are_written()
    ensures compares { int_method is_less_frame resolution (code 2 1) is_less (0 ∷ 1 ∷ 2 ∷ 3 ∷ 4 ∷ 5 ∷ 6 ∷ 7 ∷ 8 ∷ [])
        ≡ record {
          insns = is_less_written;
          from = 0 ∷ 0 ∷ 0 ∷ 0 ∷ 1 ∷ 2 ∷ 3 ∷ 4 ∷ 4 ∷ 5 ∷ 6 ∷ 6 ∷ 7 ∷ 8 ∷ 8 ∷ [];
          catches = [];
          max_stack = 8;
          nargs = 1;
          max_locals = 2;
          widest = 36;
        } }
    ensures reads { (int_method element_frame resolution (code 2 2) element []).insns ≡ element_written }
    ensures loops { (int_method loop_frame resolution (code 2 3) loop []).insns ≡ loop_written }
{}

/// What is written for stores of elements, for cells of one and two words on the stack, for numbers, and for
/// calls with values of one word: the last parameter is cut where it is; others go by scratch pairs. A constant is a
/// number of five bytes at most, any other static field an access of four.
pub fn instructions_are_written()
    ensures elements { stored 0x53 true 0 ≡ insns.Words 0x40 1 2 ∷ insns.Op 0x5E ∷ insns.Words 0x40 1 1 ∷ insns.Op 0x37
        ∷ [] }
    ensures ints { stored 0x4F true 0 ≡ insns.Words 0x40 2 2 ∷ insns.Op 0x5E ∷ insns.Words 0x40 1 2 ∷ insns.Op 0x3A
        ∷ [] }
    ensures bytes { stored 0x54 true 0 ≡ insns.Op 0x5E ∷ insns.Words 0x40 1 2 ∷ insns.Op 0x5E ∷ insns.Words 0x40 1 1
        ∷ insns.Op 0x38 ∷ [] }
    ensures stack { on_stack 0x58 (false ∷ true ∷ []) ++ on_stack 0x5C (false ∷ true ∷ [])
        ++ on_stack 0x5A (false ∷ true ∷ []) ++ on_stack 0x5F (true ∷ false ∷ []) ≡ insns.Op 0x3C ∷ insns.Op 0x3B
        ∷ insns.Words 0x3F 3 0 ∷ insns.Words 0x3F 2 3 ∷ insns.Words 0x40 1 2 ∷ [] }
    ensures numbers { pushed (negsuc 0) ∷ pushed (pos 6) ∷ pushed (pos 128) ∷ pushed (pos 32768) ∷ [] ≡ insns.Op 0x09
        ∷ insns.Push 0x12 (pos 6) ∷ insns.Push 0x13 (pos 128) ∷ insns.Push 0x14 (pos 32768) ∷ [] }
    ensures last_parameter { written call_frame resolution (λ o. 0) ((reached 0 (call (codes "(IS)V")) []).before) 0
        (call (codes "(IS)V")) ≡ insns.Op 0x5E
        ∷ insns.Named 0x8D (keys.StaticMethod (id (codes "p/T") (codes "m") (codes "(IS)V"))) ∷ [] }
    ensures by_scratch { written call_frame resolution (λ o. 0) ((reached 0 (call (codes "(SI)B")) []).before) 0
        (call (codes "(SI)B")) ≡ insns.Op 0x35 ∷ insns.Op 0x33 ∷ insns.Op 0x20 ∷ insns.Op 0x5E ∷ insns.Op 0x22
        ∷ insns.Named 0x8D (keys.StaticMethod (id (codes "p/T") (codes "m") (codes "(SI)B"))) ∷ insns.Op 0x5C ∷ [] }
    ensures pairs { scratch_pairs (reached 0 (call (codes "(SI)B")) [] ∷ reached 3 (call (codes "(IS)V")) [] ∷ []) ≡ 2 }
    ensures constant { written call_frame (constants (pos 32768)) (λ o. 0) ((reached 0 read []).before) 0 read
        ≡ insns.Push 0x14 (pos 32768) ∷ [] }
    ensures of_constant { widest (constants (pos 32768)) read ≡ 5 }
    ensures of_field { widest resolution read ≡ 4 }
{}
