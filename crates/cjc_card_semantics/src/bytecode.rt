//! What the card's instructions do, and the machine on words of 16 bits, over any way to name classes and
//! members: the machine by token and the machine of narrow code are two. It has definitions and laws alone.
//! It knows no names of classes and members, no intervals, and not how a table was made.
ghost use Rattle.std.specs.Prelude.{◌≡◌, ◌<◌, ℕ, ℤ, pos, negsuc, true, List, [], ◌∷◌, Option, Some, None};
ghost use Rattle.cjc_script.specs.declared.value.Value.{Value};
ghost use Rattle.cjc_script.specs.declared.value.Value.TheVariants.{Num, Null, Obj};
ghost use Rattle.cjc_card_semantics.specs.Bytecode.Calculations.{Fine, Fails, Wrong, Arithmetic};
ghost use Rattle.cjc_card_semantics.specs.Bytecode.Worked.{calculated, is_told};

/// Each opcode of the card's table has one meaning, and it takes the operands that the table gives the
/// opcode; jsr, ret, impdep1, impdep2 and bytes that are no opcode have none.
pub fn each_opcode_has_one_meaning()
    ensures { (op : ℕ) → op < 256 → is_told op ≡ true }
{}

/// sdiv, srem, idiv and irem by 0 raise an arithmetic exception, whatever is divided.
pub fn zero_divides_nothing()
    ensures sdiv { (room : ℕ) (locals : List (Option Value)) (x : ℤ) (stack : List Value)
        → calculated 0x47 [] room locals (Num (pos 0) ∷ Num x ∷ stack) ≡ Fails Arithmetic }
    ensures srem { (room : ℕ) (locals : List (Option Value)) (x : ℤ) (stack : List Value)
        → calculated 0x49 [] room locals (Num (pos 0) ∷ Num x ∷ stack) ≡ Fails Arithmetic }
    ensures idiv { (room : ℕ) (locals : List (Option Value)) (high low : ℤ) (stack : List Value)
        → calculated 0x48 [] room locals (Num (pos 0) ∷ Num (pos 0) ∷ Num low ∷ Num high ∷ stack) ≡ Fails Arithmetic }
    ensures irem { (room : ℕ) (locals : List (Option Value)) (high low : ℤ) (stack : List Value)
        → calculated 0x4A [] room locals (Num (pos 0) ∷ Num (pos 0) ∷ Num low ∷ Num high ∷ stack) ≡ Fails Arithmetic }
{}

/// Where calculations of words meet their ends: sums wrap, the least word divided by -1 is itself, shifts
/// go by five bits of their distance and sushr by 32 bits of its word; an operand of another kind, a missing
/// one, a full stack and a local that is not set are wrong.
pub fn words_wrap_at_their_ends()
    ensures sadd { calculated 0x41 ([]) 20 [] (Num (pos 1) ∷ Num (pos 32767) ∷ []) ≡ Fine (Num (negsuc 32767) ∷ []) [] }
    ensures ssub { calculated 0x43 ([]) 20 [] (Num (pos 1) ∷ Num (negsuc 32767) ∷ []) ≡ Fine (Num (pos 32767) ∷ []) [] }
    ensures smul { calculated 0x45 ([]) 20 [] (Num (pos 256) ∷ Num (pos 256) ∷ []) ≡ Fine (Num (pos 0) ∷ []) [] }
    ensures sdiv { calculated 0x47 ([]) 20 [] (Num (negsuc 0) ∷ Num (negsuc 32767) ∷ []) ≡ Fine (Num (negsuc 32767)
        ∷ []) [] }
    ensures srem { calculated 0x49 ([]) 20 [] (Num (pos 2) ∷ Num (negsuc 6) ∷ []) ≡ Fine (Num (negsuc 0) ∷ []) [] }
    ensures sneg { calculated 0x4B ([]) 20 [] (Num (negsuc 32767) ∷ []) ≡ Fine (Num (negsuc 32767) ∷ []) [] }
    ensures sshl { calculated 0x4D ([]) 20 [] (Num (pos 33) ∷ Num (pos 1) ∷ []) ≡ Fine (Num (pos 2) ∷ []) [] }
    ensures sshl_far { calculated 0x4D ([]) 20 [] (Num (pos 17) ∷ Num (pos 1) ∷ []) ≡ Fine (Num (pos 0) ∷ []) [] }
    ensures sshr { calculated 0x4F ([]) 20 [] (Num (pos 20) ∷ Num (negsuc 0) ∷ []) ≡ Fine (Num (negsuc 0) ∷ []) [] }
    ensures sushr_one { calculated 0x51 ([]) 20 [] (Num (pos 1) ∷ Num (negsuc 0) ∷ []) ≡ Fine (Num (negsuc 0) ∷ []) [] }
    ensures sushr { calculated 0x51 ([]) 20 [] (Num (pos 20) ∷ Num (negsuc 0) ∷ []) ≡ Fine (Num (pos 4095) ∷ []) [] }
    ensures sand { calculated 0x53 ([]) 20 [] (Num (negsuc 1) ∷ Num (pos 7) ∷ []) ≡ Fine (Num (pos 6) ∷ []) [] }
    ensures sor { calculated 0x55 ([]) 20 [] (Num (pos 4) ∷ Num (pos 3) ∷ []) ≡ Fine (Num (pos 7) ∷ []) [] }
    ensures sxor { calculated 0x57 ([]) 20 [] (Num (negsuc 0) ∷ Num (pos 5) ∷ []) ≡ Fine (Num (negsuc 5) ∷ []) [] }
    ensures sinc { calculated 0x59 (pos 0 ∷ pos 1 ∷ []) 20 (Some (Num (pos 32767)) ∷ []) ([])
        ≡ Fine ([]) (Some (Num (negsuc 32767)) ∷ []) }
    ensures s2b { calculated 0x5B ([]) 20 [] (Num (pos 200) ∷ []) ≡ Fine (Num (negsuc 55) ∷ []) [] }
    ensures other_kind { calculated 0x41 ([]) 20 [] (Num (pos 1) ∷ Null ∷ []) ≡ Wrong }
    ensures missing { calculated 0x41 ([]) 20 [] (Num (pos 1) ∷ []) ≡ Wrong }
    ensures no_room { calculated 0x04 ([]) 1 [] (Null ∷ []) ≡ Wrong }
    ensures unset { calculated 0x1C ([]) 20 (None ∷ []) ([]) ≡ Wrong }
    ensures other_local { calculated 0x18 ([]) 20 (Some (Num (pos 1)) ∷ []) ([]) ≡ Wrong }
{}

/// dup_x copies the top words below others, by its two nibbles, and swap_x changes places.
pub fn words_move_on_the_stack()
    ensures dup_x_12 { calculated 0x3F (pos 18 ∷ []) 20 [] (Num (pos 1) ∷ Null ∷ Obj 3 ∷ []) ≡ Fine (Num (pos 1) ∷ Null
        ∷ Num (pos 1) ∷ Obj 3 ∷ []) [] }
    ensures dup_x_23 { calculated 0x3F (pos 35 ∷ []) 20 [] (Num (pos 1) ∷ Null ∷ Obj 3 ∷ Obj 4 ∷ []) ≡ Fine (Num (pos 1)
        ∷ Null ∷ Obj 3 ∷ Num (pos 1) ∷ Null ∷ Obj 4 ∷ []) [] }
    ensures dup_x_20 { calculated 0x3F (pos 32 ∷ []) 20 [] (Num (pos 1) ∷ Null ∷ Obj 3 ∷ []) ≡ Fine (Num (pos 1) ∷ Null
        ∷ Num (pos 1) ∷ Null ∷ Obj 3 ∷ []) [] }
    ensures dup_x_21 { calculated 0x3F (pos 33 ∷ []) 20 [] (Num (pos 1) ∷ Null ∷ Obj 3 ∷ []) ≡ Wrong }
    ensures dup_x_alone { calculated 0x3F (pos 18 ∷ []) 20 [] (Num (pos 1) ∷ []) ≡ Wrong }
    ensures swap_x_12 { calculated 0x40 (pos 18 ∷ []) 20 [] (Num (pos 1) ∷ Null ∷ Obj 3 ∷ []) ≡ Fine (Null ∷ Obj 3
        ∷ Num (pos 1) ∷ []) [] }
    ensures swap_x_30 { calculated 0x40 (pos 48 ∷ []) 20 [] (Num (pos 1) ∷ Null ∷ Obj 3 ∷ []) ≡ Wrong }
    ensures dup2 { calculated 0x3E ([]) 20 [] (Num (pos 1) ∷ Null ∷ []) ≡ Fine (Num (pos 1) ∷ Null ∷ Num (pos 1) ∷ Null
        ∷ []) [] }
    ensures pop2 { calculated 0x3C ([]) 20 [] (Num (pos 1) ∷ Null ∷ Num (pos 2) ∷ []) ≡ Fine (Num (pos 2) ∷ []) [] }
{}

/// Each opcode of int that sees the stack and the locals alone: an int is two words, the high one deeper and in
/// the local with the lower number; its arithmetic carries and wraps at 32 bits.
pub fn ints_are_two_words()
    ensures iconst_m1 { calculated 0x09 ([]) 20 [] ([]) ≡ Fine (Num (negsuc 0) ∷ Num (negsuc 0) ∷ []) [] }
    ensures iconst_0 { calculated 0x0A ([]) 20 [] ([]) ≡ Fine (Num (pos 0) ∷ Num (pos 0) ∷ []) [] }
    ensures iconst_1 { calculated 0x0B ([]) 20 [] ([]) ≡ Fine (Num (pos 1) ∷ Num (pos 0) ∷ []) [] }
    ensures iconst_2 { calculated 0x0C ([]) 20 [] ([]) ≡ Fine (Num (pos 2) ∷ Num (pos 0) ∷ []) [] }
    ensures iconst_3 { calculated 0x0D ([]) 20 [] ([]) ≡ Fine (Num (pos 3) ∷ Num (pos 0) ∷ []) [] }
    ensures iconst_4 { calculated 0x0E ([]) 20 [] ([]) ≡ Fine (Num (pos 4) ∷ Num (pos 0) ∷ []) [] }
    ensures iconst_5 { calculated 0x0F ([]) 20 [] ([]) ≡ Fine (Num (pos 5) ∷ Num (pos 0) ∷ []) [] }
    ensures bipush { calculated 0x12 (negsuc 0 ∷ []) 20 [] ([]) ≡ Fine (Num (negsuc 0) ∷ Num (negsuc 0) ∷ []) [] }
    ensures sipush { calculated 0x13 (negsuc 299 ∷ []) 20 [] ([]) ≡ Fine (Num (negsuc 299) ∷ Num (negsuc 0) ∷ []) [] }
    ensures iipush { calculated 0x14 (pos 70000 ∷ []) 20 [] ([]) ≡ Fine (Num (pos 4464) ∷ Num (pos 1) ∷ []) [] }
    ensures iload { calculated 0x17 (pos 0 ∷ []) 20 (Some (Num (pos 1)) ∷ Some (Num (pos 4464)) ∷ Some (Num (pos 7))
        ∷ Some (Num (pos 8)) ∷ Some (Num (pos 9)) ∷ []) ([]) ≡ Fine (Num (pos 4464) ∷ Num (pos 1)
        ∷ []) (Some (Num (pos 1)) ∷ Some (Num (pos 4464)) ∷ Some (Num (pos 7)) ∷ Some (Num (pos 8)) ∷ Some (Num (pos 9))
        ∷ []) }
    ensures iload_0 { calculated 0x20 ([]) 20 (Some (Num (pos 1)) ∷ Some (Num (pos 4464)) ∷ Some (Num (pos 7))
        ∷ Some (Num (pos 8)) ∷ Some (Num (pos 9)) ∷ []) ([]) ≡ Fine (Num (pos 4464) ∷ Num (pos 1)
        ∷ []) (Some (Num (pos 1)) ∷ Some (Num (pos 4464)) ∷ Some (Num (pos 7)) ∷ Some (Num (pos 8)) ∷ Some (Num (pos 9))
        ∷ []) }
    ensures iload_1 { calculated 0x21 ([]) 20 (Some (Num (pos 1)) ∷ Some (Num (pos 4464)) ∷ Some (Num (pos 7))
        ∷ Some (Num (pos 8)) ∷ Some (Num (pos 9)) ∷ []) ([]) ≡ Fine (Num (pos 7) ∷ Num (pos 4464)
        ∷ []) (Some (Num (pos 1)) ∷ Some (Num (pos 4464)) ∷ Some (Num (pos 7)) ∷ Some (Num (pos 8)) ∷ Some (Num (pos 9))
        ∷ []) }
    ensures iload_2 { calculated 0x22 ([]) 20 (Some (Num (pos 1)) ∷ Some (Num (pos 4464)) ∷ Some (Num (pos 7))
        ∷ Some (Num (pos 8)) ∷ Some (Num (pos 9)) ∷ []) ([]) ≡ Fine (Num (pos 8) ∷ Num (pos 7) ∷ []) (Some (Num (pos 1))
        ∷ Some (Num (pos 4464)) ∷ Some (Num (pos 7)) ∷ Some (Num (pos 8)) ∷ Some (Num (pos 9)) ∷ []) }
    ensures iload_3 { calculated 0x23 ([]) 20 (Some (Num (pos 1)) ∷ Some (Num (pos 4464)) ∷ Some (Num (pos 7))
        ∷ Some (Num (pos 8)) ∷ Some (Num (pos 9)) ∷ []) ([]) ≡ Fine (Num (pos 9) ∷ Num (pos 8) ∷ []) (Some (Num (pos 1))
        ∷ Some (Num (pos 4464)) ∷ Some (Num (pos 7)) ∷ Some (Num (pos 8)) ∷ Some (Num (pos 9)) ∷ []) }
    ensures half_a_local { calculated 0x20 ([]) 20 (Some (Num (pos 1)) ∷ Some Null ∷ []) ([]) ≡ Wrong }
    ensures istore { calculated 0x2A (pos 3 ∷ []) 20 (None ∷ None ∷ None ∷ None ∷ None ∷ []) (Num (pos 4464)
        ∷ Num (pos 1) ∷ []) ≡ Fine ([]) (None ∷ None ∷ None ∷ Some (Num (pos 1)) ∷ Some (Num (pos 4464)) ∷ []) }
    ensures istore_0 { calculated 0x33 ([]) 20 (None ∷ None ∷ None ∷ None ∷ None ∷ []) (Num (pos 4464) ∷ Num (pos 1)
        ∷ []) ≡ Fine ([]) (Some (Num (pos 1)) ∷ Some (Num (pos 4464)) ∷ None ∷ None ∷ None ∷ []) }
    ensures istore_1 { calculated 0x34 ([]) 20 (None ∷ None ∷ None ∷ None ∷ None ∷ []) (Num (pos 4464) ∷ Num (pos 1)
        ∷ []) ≡ Fine ([]) (None ∷ Some (Num (pos 1)) ∷ Some (Num (pos 4464)) ∷ None ∷ None ∷ []) }
    ensures istore_2 { calculated 0x35 ([]) 20 (None ∷ None ∷ None ∷ None ∷ None ∷ []) (Num (pos 4464) ∷ Num (pos 1)
        ∷ []) ≡ Fine ([]) (None ∷ None ∷ Some (Num (pos 1)) ∷ Some (Num (pos 4464)) ∷ None ∷ []) }
    ensures istore_3 { calculated 0x36 ([]) 20 (None ∷ None ∷ None ∷ None ∷ None ∷ []) (Num (pos 4464) ∷ Num (pos 1)
        ∷ []) ≡ Fine ([]) (None ∷ None ∷ None ∷ Some (Num (pos 1)) ∷ Some (Num (pos 4464)) ∷ []) }
    ensures iadd { calculated 0x42 ([]) 20 [] (Num (pos 1) ∷ Num (pos 0) ∷ Num (negsuc 0) ∷ Num (pos 0) ∷ [])
        ≡ Fine (Num (pos 0) ∷ Num (pos 1) ∷ []) [] }
    ensures iadd_wraps { calculated 0x42 ([]) 20 [] (Num (pos 1) ∷ Num (pos 0) ∷ Num (negsuc 0) ∷ Num (pos 32767) ∷ [])
        ≡ Fine (Num (pos 0) ∷ Num (negsuc 32767) ∷ []) [] }
    ensures isub { calculated 0x44 ([]) 20 [] (Num (pos 3) ∷ Num (pos 0) ∷ Num (pos 4464) ∷ Num (pos 1) ∷ [])
        ≡ Fine (Num (pos 4461) ∷ Num (pos 1) ∷ []) [] }
    ensures imul { calculated 0x46 ([]) 20 [] (Num (pos 4464) ∷ Num (pos 1) ∷ Num (pos 4464) ∷ Num (pos 1) ∷ [])
        ≡ Fine (Num (pos 4352) ∷ Num (pos 9232) ∷ []) [] }
    ensures idiv { calculated 0x48 ([]) 20 [] (Num (pos 3) ∷ Num (pos 0) ∷ Num (negsuc 4463) ∷ Num (negsuc 1) ∷ [])
        ≡ Fine (Num (negsuc 23332) ∷ Num (negsuc 0) ∷ []) [] }
    ensures idiv_least { calculated 0x48 ([]) 20 [] (Num (negsuc 0) ∷ Num (negsuc 0) ∷ Num (pos 0) ∷ Num (negsuc 32767)
        ∷ []) ≡ Fine (Num (pos 0) ∷ Num (negsuc 32767) ∷ []) [] }
    ensures irem { calculated 0x4A ([]) 20 [] (Num (pos 3) ∷ Num (pos 0) ∷ Num (negsuc 4463) ∷ Num (negsuc 1) ∷ [])
        ≡ Fine (Num (negsuc 0) ∷ Num (negsuc 0) ∷ []) [] }
    ensures ishl { calculated 0x4E ([]) 20 [] (Num (pos 35) ∷ Num (pos 0) ∷ Num (pos 4464) ∷ Num (pos 1) ∷ [])
        ≡ Fine (Num (negsuc 29823) ∷ Num (pos 8) ∷ []) [] }
    ensures ishr { calculated 0x50 ([]) 20 [] (Num (pos 3) ∷ Num (pos 0) ∷ Num (negsuc 4463) ∷ Num (negsuc 1) ∷ [])
        ≡ Fine (Num (negsuc 8749) ∷ Num (negsuc 0) ∷ []) [] }
    ensures iushr { calculated 0x52 ([]) 20 [] (Num (pos 28) ∷ Num (pos 0) ∷ Num (negsuc 0) ∷ Num (negsuc 0) ∷ [])
        ≡ Fine (Num (pos 15) ∷ Num (pos 0) ∷ []) [] }
    ensures iand { calculated 0x54 ([]) 20 [] (Num (negsuc 15) ∷ Num (negsuc 0) ∷ Num (pos 4464) ∷ Num (pos 1) ∷ [])
        ≡ Fine (Num (pos 4464) ∷ Num (pos 1) ∷ []) [] }
    ensures ior { calculated 0x56 ([]) 20 [] (Num (pos 3) ∷ Num (pos 0) ∷ Num (pos 4464) ∷ Num (pos 1) ∷ [])
        ≡ Fine (Num (pos 4467) ∷ Num (pos 1) ∷ []) [] }
    ensures ixor { calculated 0x58 ([]) 20 [] (Num (negsuc 0) ∷ Num (negsuc 0) ∷ Num (pos 4464) ∷ Num (pos 1) ∷ [])
        ≡ Fine (Num (negsuc 4464) ∷ Num (negsuc 1) ∷ []) [] }
    ensures ineg { calculated 0x4C ([]) 20 [] (Num (pos 0) ∷ Num (negsuc 32767) ∷ []) ≡ Fine (Num (pos 0)
        ∷ Num (negsuc 32767) ∷ []) [] }
    ensures iinc { calculated 0x5A (pos 0 ∷ pos 1 ∷ []) 20 (Some (Num (pos 0)) ∷ Some (Num (negsuc 0)) ∷ []) ([])
        ≡ Fine ([]) (Some (Num (pos 1)) ∷ Some (Num (pos 0)) ∷ []) }
    ensures iinc_w { calculated 0x97 (pos 0 ∷ negsuc 4464 ∷ []) 20 (Some (Num (pos 1)) ∷ Some (Num (pos 4464))
        ∷ []) ([]) ≡ Fine ([]) (Some (Num (pos 0)) ∷ Some (Num (negsuc 0)) ∷ []) }
    ensures s2i { calculated 0x5C ([]) 20 [] (Num (negsuc 1) ∷ []) ≡ Fine (Num (negsuc 1) ∷ Num (negsuc 0) ∷ []) [] }
    ensures i2b { calculated 0x5D ([]) 20 [] (Num (pos 200) ∷ Num (pos 7) ∷ []) ≡ Fine (Num (negsuc 55) ∷ []) [] }
    ensures i2s { calculated 0x5E ([]) 20 [] (Num (pos 4464) ∷ Num (pos 1) ∷ []) ≡ Fine (Num (pos 4464) ∷ []) [] }
    ensures icmp_less { calculated 0x5F ([]) 20 [] (Num (pos 1) ∷ Num (pos 0) ∷ Num (negsuc 0) ∷ Num (negsuc 0) ∷ [])
        ≡ Fine (Num (negsuc 0) ∷ []) [] }
    ensures icmp_same { calculated 0x5F ([]) 20 [] (Num (pos 4464) ∷ Num (pos 1) ∷ Num (pos 4464) ∷ Num (pos 1) ∷ [])
        ≡ Fine (Num (pos 0) ∷ []) [] }
    ensures icmp_greater { calculated 0x5F ([]) 20 [] (Num (negsuc 0) ∷ Num (negsuc 0) ∷ Num (pos 4464) ∷ Num (pos 1)
        ∷ []) ≡ Fine (Num (pos 1) ∷ []) [] }
    ensures half_an_int { calculated 0x42 ([]) 20 [] (Num (pos 1) ∷ Num (pos 0) ∷ Null ∷ Num (pos 0) ∷ []) ≡ Wrong }
{}
