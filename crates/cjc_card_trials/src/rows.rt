//! The opcodes, row by row, as runs.rt says; those that move words of the stack alone stand in stacks.rt.

use crate::runs::{first_wrong, fixed_parts, printed};
use std::test::*;

/// Constants.
const CONSTANTS: &str = "\
f()V : 00,00,00,7A = result void, done
f()Lp/T; : 01,00,01,77 = result null, done
f()S : 02,00,03,10,0A,45,04,41,10,0A,45,05,41,10,0A,45,06,41,10,0A,45,07,41,78 = result 1234, done # sconst_0 to sconst_4, digit by digit
f()S : 02,00,02,08,45,78 = result -5, done # sconst_m1 and sconst_5
f()I : 04,00,0A,12,0A,46,0B,42,12,0A,46,0C,42,12,0A,46,0D,42,12,0A,46,0E,42,79 = result 1234, done # iconst_0 to iconst_4
f()I : 04,00,09,0F,46,79 = result -5, done # iconst_m1 and iconst_5
f()S : 01,00,10,80,78 = result -128, done
f()S : 01,00,10,7F,78 = result 127, done
f()S : 01,00,11,80,00,78 = result -32768, done
f()I : 02,00,12,80,79 = result -128, done
f()I : 02,00,13,80,00,79 = result -32768, done
f()I : 02,00,14,80,00,00,00,79 = result -2147483648, done
f()S : 02,00,14,00,01,11,70,78 = result 4464, done # the low word lies on top
f()S : 02,00,14,00,01,11,70,3B,78 = result 1, done
f()V : 00,00,04,7A = stuck 256 # no room
f()V : 01,00,0B,7A = stuck 256
f()S : 80,01,00,00,04,78 = result 1, done # an extended header";

#[test]
fn constants_are_pushed(rt: HostRuntime) {
    assert_eq!(rt; first_wrong(rt.alloc(), CONSTANTS), "");
}

/// Loads and stores of locals; an int has its high word in the lower local.
const LOCALS: &str = "\
f(SSSSS)S 1 2 3 4 5 : 01,50,16,04,78 = result 5, done
f(SSSS)S 1 2 3 4 : 02,40,1C,10,0A,45,1D,41,10,0A,45,1E,41,10,0A,45,1F,41,78 = result 1234, done # sload_0 to sload_3
f(SSSSI)I 1 2 3 4 70000 : 02,60,17,04,79 = result 70000, done
f(II)I 70000 -5 : 04,40,20,22,44,79 = result 70005, done # iload_0 and iload_2
f(SII)I 1 70000 -5 : 04,50,21,23,44,79 = result 70005, done # iload_1 and iload_3
f(I)S 70000; -1; -70000 : 01,20,1C,78 = result 1, result -1, result -2, done # the high word has the lower local
f(I)S 70000; -1; -70000 : 01,20,1D,78 = result 4464, result -1, result -4464, done
f(SSSS[S)[S 1 2 3 4 @0 : 01,50,15,04,77 = result @0, done
f([S)[S @0; null : 01,10,18,77 = result @0, result null, done
f(S[S)[S 1 @0 : 01,20,19,77 = result @0, done
f(SS[S)[S 1 2 @0 : 01,30,1A,77 = result @0, done
f(SSS[S)[S 1 2 3 @0 : 01,40,1B,77 = result @0, done
f([S)S @0 : 01,10,1C,78 = stuck 256 # a word of another kind
f(S)[S 1 : 01,10,18,77 = stuck 256
f([SS)I @0 1 : 02,20,20,79 = stuck 256
f()S : 01,01,1C,78 = stuck 256 # not set
f(S)S 1 : 01,10,1D,78 = stuck 256 # past the locals
f(S)I 1 : 02,10,20,79 = stuck 256
f(S)S 9 : 01,14,1C,29,04,16,04,78 = result 9, done
f(S)S 9 : 01,13,1C,30,1D,31,1E,32,1F,2F,1C,78 = result 9, done # sstore_1, _2, _3 and _0
f(I)I 70000 : 02,24,20,2A,04,17,04,79 = result 70000, done
f(I)I 70000 : 02,23,20,35,22,34,21,36,23,33,20,79 = result 70000, done # istore_2, _1, _3 and _0
f(I)S 70000 : 02,22,20,35,1E,78 = result 1, done
f(I)S 70000 : 02,22,20,35,1F,78 = result 4464, done
f([S)[S @0 : 01,14,18,28,04,15,04,77 = result @0, done
f([S)[S @0 : 01,13,18,2C,19,2D,1A,2E,1B,2B,18,77 = result @0, done # astore_1, _2, _3 and _0
f(S)V 1 : 01,10,1C,2B,7A = stuck 257
f([S)V @0 : 01,10,18,2F,7A = stuck 257
f(I)V 1 : 02,20,20,34,7A = stuck 257 # its low word is past the locals";

#[test]
fn locals_are_loaded_and_stored(rt: HostRuntime) {
    assert_eq!(rt; first_wrong(rt.alloc(), LOCALS), "");
}

/// Ends of the instructions of stacks.rt: dup_x with m from 1 to 4 and n 0 or m to m + 4, swap_x with each 1 or 2.
const STACK: &str = "\
f()V : 0F,00,03,03,03,03,03,03,03,03,03,3F,50,7A = stuck 265 # m is 1 to 4
f()V : 0F,00,03,03,03,03,03,03,03,03,03,3F,00,7A = stuck 265
f()V : 0F,00,03,03,03,03,03,03,03,03,03,3F,21,7A = stuck 265 # n is 0, or m to m + 4
f()V : 0F,00,03,03,03,03,03,03,03,03,03,3F,16,7A = stuck 265
f()V : 0F,00,03,03,03,03,03,03,03,03,03,40,13,7A = stuck 265 # each is 1 or 2
f()V : 0F,00,03,03,03,03,03,03,03,03,03,40,31,7A = stuck 265
f()V : 0F,00,03,03,03,03,03,03,03,03,03,40,01,7A = stuck 265
f()V : 0F,00,03,03,03,03,03,03,03,03,03,40,10,7A = stuck 265
f()V : 02,00,03,03,3F,12,7A = stuck 258 # no room
f()V : 04,00,03,3F,12,7A = stuck 257 # no words
f()V : 04,00,03,3C,7A = stuck 257
f(I)I 70000 : 04,20,20,3E,42,79 = result 140000, done";

#[test]
fn the_stack_has_bounds(rt: HostRuntime) {
    assert_eq!(rt; first_wrong(rt.alloc(), STACK), "");
}

/// Arithmetic on shorts: 41, 43 and so on to 57.
const SHORTS: &str = "\
f(SS)S 3 4; 32767 1; -32768 -1 : 02,20,1C,1D,41,78 = result 7, result -32768, result 32767, done
f(SS)S 3 4; -32768 1; 32767 -1 : 02,20,1C,1D,43,78 = result -1, result 32767, result -32768, done
f(SS)S -3 4; 300 300; -32768 -1 : 02,20,1C,1D,45,78 = result -12, result 24464, result -32768, done
f(SS)S 7 2; -7 2; 7 -2; -7 -2; -32768 -1 : 02,20,1C,1D,47,78 = result 3, result -3, result -3, result 3, result -32768, done
f(SS)S 7 0 : 02,20,1C,1D,47,78 = thrown java/lang/ArithmeticException @1, object @1 java/lang/ArithmeticException, done
f(SS)S 7 2; -7 2; 7 -2; -7 -2; -32768 -1 : 02,20,1C,1D,49,78 = result 1, result -1, result 1, result -1, result 0, done
f(SS)S 7 0 : 02,20,1C,1D,49,78 = thrown java/lang/ArithmeticException @1, object @1 java/lang/ArithmeticException, done
f(S)S 5; -32768 : 01,10,1C,4B,78 = result -5, result -32768, done
f(SS)S 3 1; 1 15; 1 16; 1 31; 1 32; -1 33; 1 -17; 1 -1 : 02,20,1C,1D,4D,78 = result 6, result -32768, result 0, result 0, result 1, result -2, result -32768, result 0, done
f(SS)S -5 1; -32768 15; -32768 31; 32767 16; -5 32; -8 -31; 8 -1 : 02,20,1C,1D,4F,78 = result -3, result -1, result -1, result 0, result -5, result -4, result 0, done
f(SS)S 5 1; -1 1; -1 16; -1 17; -1 31; -32768 20; -1 32; -1 -1 : 02,20,1C,1D,51,78 = result 2, result -1, result -1, result 32767, result 1, result 4095, result -1, result 1, done
f(SS)S 12 10; -1 255; -32768 -1 : 02,20,1C,1D,53,78 = result 8, result 255, result -32768, done
f(SS)S 12 10; -256 15; 0 -32768 : 02,20,1C,1D,55,78 = result 14, result -241, result -32768, done
f(SS)S 12 10; -1 5; -1 32767 : 02,20,1C,1D,57,78 = result 6, result -6, result -32768, done
f(S)S 1 : 02,10,1C,41,78 = stuck 257
f([S)S @0 : 02,10,04,18,41,78 = stuck 258";

#[test]
fn shorts_are_computed(rt: HostRuntime) {
    assert_eq!(rt; first_wrong(rt.alloc(), SHORTS), "");
}

/// Arithmetic on ints: 42, 44 and so on to 58.
const INTS: &str = "\
f(II)I 3 4; 65535 1; 2147483647 1; -2147483648 -1 : 04,40,20,22,42,79 = result 7, result 65536, result -2147483648, result 2147483647, done
f(II)I 3 4; 65536 1; -2147483648 1; 2147483647 -1 : 04,40,20,22,44,79 = result -1, result 65535, result 2147483647, result -2147483648, done
f(II)I -300 300; 65536 65536; 46341 46341; -2147483648 -1 : 04,40,20,22,46,79 = result -90000, result 0, result -2147479015, result -2147483648, done
f(II)I 70000 -300; -7 2; -7 -2; -2147483648 -1 : 04,40,20,22,48,79 = result -233, result -3, result 3, result -2147483648, done
f(II)I 7 0 : 04,40,20,22,48,79 = thrown java/lang/ArithmeticException @1, object @1 java/lang/ArithmeticException, done
f(II)I -70000 300; 7 -2; -7 -2; -2147483648 -1 : 04,40,20,22,4A,79 = result -100, result 1, result -1, result 0, done
f(II)I 7 0 : 04,40,20,22,4A,79 = thrown java/lang/ArithmeticException @1, object @1 java/lang/ArithmeticException, done
f(I)I 70000; -2147483648 : 02,20,20,4C,79 = result -70000, result -2147483648, done
f(II)I 3 65; 1 16; 1 31; 1 32; 1 -1; 3 65536 : 04,40,20,22,4E,79 = result 6, result 65536, result -2147483648, result 1, result -2147483648, result 3, done
f(II)I -5 1; 70000 -28; -2147483648 31; -2147483648 32 : 04,40,20,22,50,79 = result -3, result 4375, result -1, result -2147483648, done
f(II)I -1 1; -1 31; -1 32; -1 -1; -2147483648 4; 70000 36 : 04,40,20,22,52,79 = result 2147483647, result 1, result -1, result 1, result 134217728, result 4375, done
f(II)I -65536 70000; -1 2147483647 : 04,40,20,22,54,79 = result 65536, result 2147483647, done
f(II)I 65536 4464; -2147483648 1 : 04,40,20,22,56,79 = result 70000, result -2147483647, done
f(II)I 70000 -1; -1 2147483647 : 04,40,20,22,58,79 = result -70001, result -2147483648, done
f(SI)I 1 2 : 03,30,1C,21,42,79 = stuck 258";

#[test]
fn ints_are_computed(rt: HostRuntime) {
    assert_eq!(rt; first_wrong(rt.alloc(), INTS), "");
}

/// sinc, iinc, their wide forms, casts and icmp.
const CHANGES: &str = "\
f(S)S 1; 32767 : 01,10,59,00,7F,1C,78 = result 128, result -32642, done
f(S)S 0; -32768 : 01,10,59,00,80,1C,78 = result -128, result 32640, done
f(I)I 65535; 2147483647 : 02,20,5A,00,01,20,79 = result 65536, result -2147483648, done
f(SI)I 7 0; 7 -2147483648 : 02,30,5A,01,80,21,79 = result -128, result 2147483520, done
f(SS)S 7 1 : 01,20,96,01,7F,FF,1D,78 = result -32768, done
f(S)S 0 : 01,10,96,00,80,00,1C,78 = result -32768, done
f(I)I 0; 32768 : 02,20,97,00,80,00,20,79 = result -32768, result 0, done
f()S : 01,01,59,00,01,1C,78 = stuck 256
f([S)V @0 : 01,10,59,00,01,7A = stuck 256
f(S)S 127; 128; 255; 256; -129; -32768 : 01,10,1C,5B,78 = result 127, result -128, result -1, result 0, result 127, result 0, done
f(S)I -5; 32767; -32768 : 02,10,1C,5C,79 = result -5, result 32767, result -32768, done
f(S)I 1 : 01,10,1C,5C,79 = stuck 257 # no room
f(I)S 70000; 384; -129 : 02,20,20,5D,78 = result 112, result -128, result 127, done
f(I)S 70000; 32768; -32769 : 02,20,20,5E,78 = result 4464, result -32768, result 32767, done
f(II)S 1 2; 2 1; 5 5; -2147483648 2147483647; 65536 1; 1 65536; 32768 1; -1 0 : 04,40,20,22,5F,78 = result -1, result 1, result 0, result -1, result 1, result -1, result 1, result -1, done";

#[test]
fn numbers_are_changed(rt: HostRuntime) {
    assert_eq!(rt; first_wrong(rt.alloc(), CHANGES), "");
}

/// Branches; 1 where they are taken.
const BRANCHES: &str = "\
f(S)S 0; 1; -1 : 01,10,1C,60,04,03,78,04,78 = result 1, result 0, result 0, done
f(S)S 0; 1; -1 : 01,10,1C,61,04,03,78,04,78 = result 0, result 1, result 1, done
f(S)S 0; 1; -1 : 01,10,1C,62,04,03,78,04,78 = result 0, result 0, result 1, done
f(S)S 0; 1; -1 : 01,10,1C,63,04,03,78,04,78 = result 1, result 1, result 0, done
f(S)S 0; 1; -1 : 01,10,1C,64,04,03,78,04,78 = result 0, result 1, result 0, done
f(S)S 0; 1; -1 : 01,10,1C,65,04,03,78,04,78 = result 1, result 0, result 1, done
f([S)S null; @0 : 01,10,18,66,04,03,78,04,78 = result 1, result 0, done
f([S)S null; @0 : 01,10,18,67,04,03,78,04,78 = result 0, result 1, done
f([S[S)S @0 @0; @0 null; null null; null @0 : 02,20,18,19,68,04,03,78,04,78 = result 1, result 0, result 1, result 0, done
f([S[S)S @0 @0; @0 null; null null; null @0 : 02,20,18,19,69,04,03,78,04,78 = result 0, result 1, result 0, result 1, done
f([S)S @0 : 03,11,18,03,90,0B,68,04,03,78,04,78 = result 0, array @1 [B, done # two objects
f(SS)S 1 1; 1 2; 2 1; -1 1 : 02,20,1C,1D,6A,04,03,78,04,78 = result 1, result 0, result 0, result 0, done
f(SS)S 1 1; 1 2; 2 1; -1 1 : 02,20,1C,1D,6B,04,03,78,04,78 = result 0, result 1, result 1, result 1, done
f(SS)S 1 1; 1 2; 2 1; -1 1 : 02,20,1C,1D,6C,04,03,78,04,78 = result 0, result 1, result 0, result 1, done
f(SS)S 1 1; 1 2; 2 1; -1 1 : 02,20,1C,1D,6D,04,03,78,04,78 = result 1, result 0, result 1, result 0, done
f(SS)S 1 1; 1 2; 2 1; -1 1 : 02,20,1C,1D,6E,04,03,78,04,78 = result 0, result 0, result 1, result 0, done
f(SS)S 1 1; 1 2; 2 1; -1 1 : 02,20,1C,1D,6F,04,03,78,04,78 = result 1, result 1, result 0, result 1, done
f()S : 01,00,70,04,03,78,04,78 = result 1, done
f()S : 01,00,70,04,04,78,70,FE = result 1, done # back
f()V : 00,00,70,00 = running
f()V : 00,00,70,7F = stuck 383 # nothing stands there
f()V : 00,00,70,80 = stuck 128
f(SS)S 1 -32768; -32768 32767 : 02,20,1C,1D,6C,04,03,78,04,78 = result 0, result 1, done # the difference would wrap";

#[test]
fn branches_are_taken(rt: HostRuntime) {
    assert_eq!(rt; first_wrong(rt.alloc(), BRANCHES), "");
}

/// The same with wide offsets.
const WIDE: &str = "\
f(S)S 0; 1; -1 : 01,10,1C,98,00,05,03,78,04,78 = result 1, result 0, result 0, done
f(S)S 0; 1; -1 : 01,10,1C,99,00,05,03,78,04,78 = result 0, result 1, result 1, done
f(S)S 0; 1; -1 : 01,10,1C,9A,00,05,03,78,04,78 = result 0, result 0, result 1, done
f(S)S 0; 1; -1 : 01,10,1C,9B,00,05,03,78,04,78 = result 1, result 1, result 0, done
f(S)S 0; 1; -1 : 01,10,1C,9C,00,05,03,78,04,78 = result 0, result 1, result 0, done
f(S)S 0; 1; -1 : 01,10,1C,9D,00,05,03,78,04,78 = result 1, result 0, result 1, done
f([S)S null; @0 : 01,10,18,9E,00,05,03,78,04,78 = result 1, result 0, done
f([S)S null; @0 : 01,10,18,9F,00,05,03,78,04,78 = result 0, result 1, done
f([S[S)S @0 @0; @0 null; null null; null @0 : 02,20,18,19,A0,00,05,03,78,04,78 = result 1, result 0, result 1, result 0, done
f([S[S)S @0 @0; @0 null; null null; null @0 : 02,20,18,19,A1,00,05,03,78,04,78 = result 0, result 1, result 0, result 1, done
f(SS)S 1 1; 1 2; 2 1; -1 1 : 02,20,1C,1D,A2,00,05,03,78,04,78 = result 1, result 0, result 0, result 0, done
f(SS)S 1 1; 1 2; 2 1; -1 1 : 02,20,1C,1D,A3,00,05,03,78,04,78 = result 0, result 1, result 1, result 1, done
f(SS)S 1 1; 1 2; 2 1; -1 1 : 02,20,1C,1D,A4,00,05,03,78,04,78 = result 0, result 1, result 0, result 1, done
f(SS)S 1 1; 1 2; 2 1; -1 1 : 02,20,1C,1D,A5,00,05,03,78,04,78 = result 1, result 0, result 1, result 0, done
f(SS)S 1 1; 1 2; 2 1; -1 1 : 02,20,1C,1D,A6,00,05,03,78,04,78 = result 0, result 0, result 1, result 0, done
f(SS)S 1 1; 1 2; 2 1; -1 1 : 02,20,1C,1D,A7,00,05,03,78,04,78 = result 1, result 1, result 0, result 1, done
f()S : 01,00,A8,00,05,03,78,04,78 = result 1, done
f()S : 01,00,A8,00,05,04,78,A8,FF,FE = result 1, done # back";

#[test]
fn wide_branches_are_taken(rt: HostRuntime) {
    assert_eq!(rt; first_wrong(rt.alloc(), WIDE), "");
}

/// Switches: 1 and 2 for their cases, 0 else.
const SWITCHES: &str = "\
f(S)S 0; 1; 2; 3; -32768 : 01,10,1C,73,00,0F,00,01,00,02,00,0B,00,0D,04,78,05,78,03,78 = result 0, result 1, result 2, result 0, result 0, done
f(S)S -2; -1; 0; 1 : 01,10,1C,73,00,0F,FF,FF,00,00,00,0B,00,0D,04,78,05,78,03,78 = result 0, result 1, result 2, result 0, done
f(S)S 32765; 32766; 32767; -32768 : 01,10,1C,73,00,0F,7F,FE,7F,FF,00,0B,00,0D,04,78,05,78,03,78 = result 0, result 1, result 2, result 0, done
f(S)S 32767; -32768; -32767; -32766 : 01,10,1C,73,00,0F,80,00,80,01,00,0B,00,0D,04,78,05,78,03,78 = result 0, result 1, result 2, result 0, done
f(I)S 69999; 70000; 70001; 70002; 4464 : 02,20,20,74,00,13,00,01,11,70,00,01,11,71,00,0F,00,11,04,78,05,78,03,78 = result 0, result 1, result 2, result 0, result 0, done
f(I)S 2147483645; 2147483646; 2147483647; -2147483648 : 02,20,20,74,00,13,7F,FF,FF,FE,7F,FF,FF,FF,00,0F,00,11,04,78,05,78,03,78 = result 0, result 1, result 2, result 0, done
f(S)S -32768; 5; 4; 32767 : 01,10,1C,75,00,11,00,02,80,00,00,0D,00,05,00,0F,04,78,05,78,03,78 = result 1, result 2, result 0, result 0, done
f(S)S 3 : 01,10,1C,75,00,05,00,00,04,78 = result 1, done # no pairs
f(I)S -1; 70000; 65535; 4464; 0 : 02,20,20,76,00,15,00,02,FF,FF,FF,FF,00,11,00,01,11,70,00,13,04,78,05,78,03,78 = result 1, result 2, result 0, result 0, result 0, done
f(I)S -2147483648; 2147483647; -1 : 02,20,20,76,00,15,00,02,80,00,00,00,00,11,7F,FF,FF,FF,00,13,04,78,05,78,03,78 = result 1, result 2, result 0, done
f(S)S 7 : 01,10,70,04,04,78,1C,75,FF,FD,00,00 = result 1, done # back
f(S)S 1 : 01,10,1C,73,00,07,00,02,00,01,04,78 = stuck 257 # the low match above the high one
f(S)S 1 : 01,10,1C,75,00,0D,00,02,00,05,00,0D,00,05,00,0D,04,78 = stuck 257 # matches that do not ascend";

#[test]
fn switches_choose(rt: HostRuntime) {
    assert_eq!(rt; first_wrong(rt.alloc(), SWITCHES), "");
}

/// Arrays, and their lengths.
const ARRAYS: &str = "\
f()V : 01,00,05,90,0A,3B,7A = result void, array @1 [Z 0 0, done
f()V : 01,00,05,90,0B,3B,7A = result void, array @1 [B 0 0, done
f()V : 01,00,05,90,0C,3B,7A = result void, array @1 [S 0 0, done
f()V : 01,00,05,90,0D,3B,7A = result void, array @1 [I 0 0, done
f()[S : 01,00,03,90,0C,77 = result @1, array @1 [S, done
f()V : 01,00,05,90,0E,3B,7A = stuck 257 # no such type
f()V : 01,00,05,90,09,3B,7A = stuck 257
f()V : 01,00,02,90,0C,3B,7A = thrown java/lang/NegativeArraySizeException @1, object @1 java/lang/NegativeArraySizeException, done
f()V : 01,00,05,91,00,01,3B,7A = result void, array @1 [Lp/T; null null, done
f()V : 01,00,04,91,00,03,3B,7A = result void, array @1 [Lp/I; null, done
f()V : 01,00,02,91,00,00,3B,7A = thrown java/lang/NegativeArraySizeException @1, object @1 java/lang/NegativeArraySizeException, done
f()V : 01,00,04,91,00,07,3B,7A = stuck 257 # no class
f([S)S @0; null : 01,10,18,92,78 = result 2, thrown java/lang/NullPointerException @1, object @1 java/lang/NullPointerException, done
f()S : 01,00,06,91,00,01,92,78 = result 3, array @1 [Lp/T; null null null, done
f()S : 01,00,8F,00,01,92,78 = stuck 259";

#[test]
fn arrays_are_made(rt: HostRuntime) {
    assert_eq!(rt; first_wrong(rt.alloc(), ARRAYS), "");
}

/// Elements of arrays.
const ELEMENTS: &str = "\
f()[B : 03,01,04,90,0B,2B,18,03,11,00,C8,38,18,77 = result @1, array @1 [B -56, done # 200
f()S : 03,01,04,90,0B,2B,18,03,11,00,C8,38,18,03,25,78 = result -56, array @1 [B -56, done
f()S : 03,01,04,90,0A,2B,18,03,11,01,01,38,18,03,25,78 = result 1, array @1 [Z 1, done # 257
f([S)S @0 : 03,10,18,04,11,80,00,39,18,04,26,78 = result -32768, array @0 [S 1 -32768, done
f()I : 04,01,05,90,0D,2B,18,04,14,00,01,11,70,3A,18,04,27,79 = result 70000, array @1 [I 0 70000, done
f()Ljava/lang/Object; : 03,01,05,91,00,00,2B,18,04,8F,00,00,37,18,04,24,77 = result @2, array @1 [Ljava/lang/Object; null @2, object @2 java/lang/Object, done
f([SS)S @0 -1; @0 2; @0 0; @0 1 : 02,20,18,1D,26,78 = thrown java/lang/ArrayIndexOutOfBoundsException @1, thrown java/lang/ArrayIndexOutOfBoundsException @2, result 1, result -2, object @1 java/lang/ArrayIndexOutOfBoundsException, object @2 java/lang/ArrayIndexOutOfBoundsException, done
f([SS)V @0 -1; @0 2; @0 1 : 03,20,18,1D,08,39,7A = thrown java/lang/ArrayIndexOutOfBoundsException @1, thrown java/lang/ArrayIndexOutOfBoundsException @2, result void, array @0 [S 1 5, object @1 java/lang/ArrayIndexOutOfBoundsException, object @2 java/lang/ArrayIndexOutOfBoundsException, done
f([Lp/T;)V null : 02,10,18,03,24,7A = thrown java/lang/NullPointerException @1, object @1 java/lang/NullPointerException, done
f([B)V null : 02,10,18,03,25,7A = thrown java/lang/NullPointerException @1, object @1 java/lang/NullPointerException, done
f([S)V null : 02,10,18,03,26,7A = thrown java/lang/NullPointerException @1, object @1 java/lang/NullPointerException, done
f([I)V null : 02,10,18,03,27,7A = thrown java/lang/NullPointerException @1, object @1 java/lang/NullPointerException, done
f([Lp/T;)V null : 03,10,18,03,01,37,7A = thrown java/lang/NullPointerException @1, object @1 java/lang/NullPointerException, done
f([B)V null : 03,10,18,03,03,38,7A = thrown java/lang/NullPointerException @1, object @1 java/lang/NullPointerException, done
f([S)V null : 03,10,18,03,03,39,7A = thrown java/lang/NullPointerException @1, object @1 java/lang/NullPointerException, done
f([I)V null : 04,10,18,03,0A,3A,7A = thrown java/lang/NullPointerException @1, object @1 java/lang/NullPointerException, done
f()V : 02,00,03,91,00,01,03,24,7A = thrown java/lang/ArrayIndexOutOfBoundsException @2, array @1 [Lp/T;, object @2 java/lang/ArrayIndexOutOfBoundsException, done
f()V : 02,00,04,90,0B,04,25,7A = thrown java/lang/ArrayIndexOutOfBoundsException @2, array @1 [B 0, object @2 java/lang/ArrayIndexOutOfBoundsException, done
f()V : 02,00,04,90,0D,02,27,7A = thrown java/lang/ArrayIndexOutOfBoundsException @2, array @1 [I 0, object @2 java/lang/ArrayIndexOutOfBoundsException, done
f()V : 03,00,04,90,0A,02,03,38,7A = thrown java/lang/ArrayIndexOutOfBoundsException @2, array @1 [Z 0, object @2 java/lang/ArrayIndexOutOfBoundsException, done
f()V : 04,00,04,90,0D,04,0A,3A,7A = thrown java/lang/ArrayIndexOutOfBoundsException @2, array @1 [I 0, object @2 java/lang/ArrayIndexOutOfBoundsException, done
f()V : 03,00,04,91,00,01,03,8F,00,00,37,7A = thrown java/lang/ArrayStoreException @3, array @1 [Lp/T; null, object @2 java/lang/Object, object @3 java/lang/ArrayStoreException, done
f()V : 03,00,04,91,00,01,04,8F,00,00,37,7A = thrown java/lang/ArrayIndexOutOfBoundsException @3, array @1 [Lp/T; null, object @2 java/lang/Object, object @3 java/lang/ArrayIndexOutOfBoundsException, done # the index first
f()V : 03,00,04,91,00,02,03,01,37,7A = result void, array @1 [Lp/U; null, done
f()[Lp/I; : 04,00,04,91,00,03,3D,03,8F,00,01,37,77 = result @1, array @1 [Lp/I; @2, object @2 p/T p/T.b:B=0 p/T.s:S=0 p/T.i:I=0 p/T.r:Lp/T;=null, done
f([S)V @0 : 02,10,18,03,25,7A = stuck 258 # bytes or booleans alone
f([S)V @0 : 03,10,18,03,03,38,7A = stuck 259";

#[test]
fn elements_are_loaded_and_stored(rt: HostRuntime) {
    assert_eq!(rt; first_wrong(rt.alloc(), ELEMENTS), "");
}

/// Static cells.
const CELLS: &str = "\
f()[S : 01,00,7B,00,1D,77 = result @0, done
f()S : 01,00,7D,00,22,78 = result 7, done
f(S)S 200 : 01,10,1C,80,00,1F,7C,00,1F,78 = result -56, static p/T.c:B -56, done
f(S)S -300 : 01,10,1C,81,00,20,7D,00,20,78 = result -300, static p/T.d:S -300, done
f(I)I 70000 : 02,20,20,82,00,21,7E,00,21,79 = result 70000, static p/T.j:I 70000, done
f(I)S 70000 : 02,20,20,82,00,21,7D,00,23,78 = result 4464, static p/T.j:I 70000, done # the high word first
f([S)V @0 : 01,10,18,7F,00,1E,7A = result void, static p/T.o:Ljava/lang/Object; @0, done
f()V : 01,00,01,7F,00,1D,7A = result void, static p/T.a:[S null, done
f()S : 01,00,7D,00,24,78 = stuck 256 # past the image
f()S : 01,00,7D,00,00,78 = stuck 256 # no field
f()S : 01,00,7D,00,09,78 = stuck 256 # no static field
f(S)V 1 : 01,10,1C,7F,00,1E,7A = stuck 257
f(S)V 1 : 01,10,1C,82,00,21,7A = stuck 257";

#[test]
fn static_cells_are_read_and_written(rt: HostRuntime) {
    assert_eq!(rt; first_wrong(rt.alloc(), CELLS), "");
}

/// Fields of objects: by an index of one byte, of two, and of local 0.
const FIELDS: &str = "\
f()S : 02,01,8F,00,01,2B,18,11,00,C8,88,08,18,84,08,78 = result -56, object @1 p/T p/T.b:B=-56 p/T.s:S=0 p/T.i:I=0 p/T.r:Lp/T;=null, done
f()S : 02,01,8F,00,01,2B,18,11,80,00,89,09,18,85,09,78 = result -32768, object @1 p/T p/T.b:B=0 p/T.s:S=-32768 p/T.i:I=0 p/T.r:Lp/T;=null, done
f()I : 03,01,8F,00,01,2B,18,14,00,01,11,70,8A,0A,18,86,0A,79 = result 70000, object @1 p/T p/T.b:B=0 p/T.s:S=0 p/T.i:I=70000 p/T.r:Lp/T;=null, done
f()Lp/T; : 02,01,8F,00,01,2B,18,18,87,07,18,83,07,77 = result @1, object @1 p/T p/T.b:B=0 p/T.s:S=0 p/T.i:I=0 p/T.r:Lp/T;=@1, done
f()S : 02,01,8F,00,01,2B,18,11,00,C8,B2,00,08,18,AA,00,08,78 = result -56, object @1 p/T p/T.b:B=-56 p/T.s:S=0 p/T.i:I=0 p/T.r:Lp/T;=null, done
f()S : 02,01,8F,00,01,2B,18,11,80,00,B3,00,09,18,AB,00,09,78 = result -32768, object @1 p/T p/T.b:B=0 p/T.s:S=-32768 p/T.i:I=0 p/T.r:Lp/T;=null, done
f()I : 03,01,8F,00,01,2B,18,14,00,01,11,70,B4,00,0A,18,AC,00,0A,79 = result 70000, object @1 p/T p/T.b:B=0 p/T.s:S=0 p/T.i:I=70000 p/T.r:Lp/T;=null, done
f()Lp/T; : 02,01,8F,00,01,2B,18,18,B1,00,07,18,A9,00,07,77 = result @1, object @1 p/T p/T.b:B=0 p/T.s:S=0 p/T.i:I=0 p/T.r:Lp/T;=@1, done
f()S : 01,01,8F,00,01,2B,11,00,C8,B6,08,AE,08,78 = result -56, object @1 p/T p/T.b:B=-56 p/T.s:S=0 p/T.i:I=0 p/T.r:Lp/T;=null, done
f()S : 01,01,8F,00,01,2B,11,80,00,B7,09,AF,09,78 = result -32768, object @1 p/T p/T.b:B=0 p/T.s:S=-32768 p/T.i:I=0 p/T.r:Lp/T;=null, done
f()I : 02,01,8F,00,01,2B,14,00,01,11,70,B8,0A,B0,0A,79 = result 70000, object @1 p/T p/T.b:B=0 p/T.s:S=0 p/T.i:I=70000 p/T.r:Lp/T;=null, done
f()Lp/T; : 01,01,8F,00,01,2B,18,B5,07,AD,07,77 = result @1, object @1 p/T p/T.b:B=0 p/T.s:S=0 p/T.i:I=0 p/T.r:Lp/T;=@1, done
f()S : 03,01,8F,00,02,2B,18,05,89,09,18,06,89,0B,18,85,09,18,85,0B,43,78 = result -1, object @1 p/U p/T.b:B=0 p/T.s:S=2 p/T.i:I=0 p/T.r:Lp/T;=null p/U.t:S=3, done # of a class and its superclass
f(Lp/T;)S null : 01,10,18,85,09,78 = thrown java/lang/NullPointerException @1, object @1 java/lang/NullPointerException, done
f(Lp/T;)V null : 02,10,18,03,89,09,7A = thrown java/lang/NullPointerException @1, object @1 java/lang/NullPointerException, done
f(Lp/T;)S null : 01,10,AF,09,78 = thrown java/lang/NullPointerException @1, object @1 java/lang/NullPointerException, done
f(Lp/T;)V null : 01,10,03,B7,09,7A = thrown java/lang/NullPointerException @1, object @1 java/lang/NullPointerException, done
f()S : 01,00,8F,00,01,85,0B,78 = stuck 259 # a field of the subclass
f()S : 01,00,8F,00,01,85,27,78 = stuck 259
f()V : 02,00,8F,00,01,03,87,07,7A = stuck 260
f([S)S @0 : 01,10,18,85,09,78 = stuck 257";

#[test]
fn fields_are_read_and_written(rt: HostRuntime) {
    assert_eq!(rt; first_wrong(rt.alloc(), FIELDS), "");
}

/// invokestatic, and what imported methods answer.
const STATIC: &str = "\
f(S)S 41 : 01,10,1C,8D,00,15,78 = result 42, done
f(I)I 69999 : 03,20,08,20,8D,00,16,79 = result 70000, done
f()S : 01,00,8D,00,15,78 = stuck 256 # no argument
f(S)S 0; 2 : 01,10,1C,8D,00,19,78 = thrown java/lang/ArithmeticException @1, result 0, object @1 java/lang/ArithmeticException, done # outwards
f()V : 00,00,8D,00,26,7A = stuck 98 # a result without room
f()S : 01,00,8D,00,01,78 = stuck 256
f()S, give 1 : 01,00,8D,00,1C,78 = event q/A.z()Z, result 1, done
f()S : 01,00,8D,00,1C,78 = event q/A.z()Z, waiting
f()S, give 2 : 01,00,8D,00,1C,78 = event q/A.z()Z, unfit 1
f()S, give : 01,00,8D,00,1C,78 = event q/A.z()Z, unfit 1
f()S, throw java/lang/Exception : 01,00,8D,00,1C,78 = event q/A.z()Z, thrown java/lang/Exception @1, object @1 java/lang/Exception, done
f()S, throw java/lang/ArithmeticException : 01,00,8D,00,1C,78,3B,08,78/01,00,80,03,01,04,00,05 = event q/A.z()Z, result 5, object @1 java/lang/ArithmeticException, done
f()V, give 1 : 00,00,8D,00,1C,7A = event q/A.z()Z, stuck 256 # an answer without room
f()V : 00,00,8D,00,28,7A = stuck 256 # no such method";

#[test]
fn static_methods_are_called(rt: HostRuntime) {
    assert_eq!(rt; first_wrong(rt.alloc(), STATIC), "");
}

/// invokevirtual on p/T and p/U.
const VIRTUAL: &str = "\
f()S : 01,00,8F,00,01,8B,00,0C,78 = result 1, done
f()S : 01,00,8F,00,02,8B,00,0C,78 = result 1, done # below the table
f()S : 01,00,8F,00,01,8B,00,0D,78 = result 2, done
f()S : 01,00,8F,00,02,8B,00,0D,78 = result 22, done # overridden, and the superclass's
f()S : 01,00,8F,00,01,8B,00,0E,78 = result 3, done
f()S : 01,00,8F,00,02,8B,00,0E,78 = result 3, done # FFFF
f()S : 01,00,8F,00,02,8B,00,0F,78 = result 5, done
f()S : 01,00,8F,00,01,8B,00,0F,78 = stuck 259 # abstract
f()S : 01,00,8F,00,01,8B,00,10,78 = stuck 259 # past the table
f()S : 01,00,8F,00,01,8B,00,11,78 = result 4, done # package-visible
f()S : 01,00,8F,00,02,8B,00,11,78 = result 4, done
f(Lp/T;)S null : 01,10,18,8B,00,0C,78 = thrown java/lang/NullPointerException @1, object @1 java/lang/NullPointerException, done
f(Lp/T;)S null : 01,10,18,8B,00,10,78 = stuck 257
f(S)S 1 : 01,10,1C,8B,00,0C,78 = stuck 257
f()S : 01,00,8F,00,01,8B,00,15,78 = stuck 259 # no virtual method
f()S, give 1 : 02,00,8F,00,01,01,8B,00,12,78 = event java/lang/Object.equals(Ljava/lang/Object;)Z @1 null, result 1, done
f()S, give 0 : 02,00,8F,00,02,3D,8B,00,12,78 = event java/lang/Object.equals(Ljava/lang/Object;)Z @1 @1, result 0, done
f([S)S @0, give 0 : 02,10,18,01,8B,00,12,78 = event java/lang/Object.equals(Ljava/lang/Object;)Z @0 null, result 0, done
f()S, give, give 7 : 02,00,8F,00,25,3D,8C,00,1B,8B,00,13,78 = event q/A.<init>()V @1, event q/A.a()S @1, result 7, object @1 q/A, done";

#[test]
fn virtual_methods_are_called(rt: HostRuntime) {
    assert_eq!(rt; first_wrong(rt.alloc(), VIRTUAL), "");
}

/// invokespecial, and invokeinterface.
const SPECIAL: &str = "\
f()Lp/T; : 02,00,8F,00,01,3D,8C,00,18,77 = result @1, done # a constructor, and that of java/lang/Object, which is no event
f()S : 01,00,8F,00,01,8C,00,17,78 = result 9, done # private
f()S : 01,00,8F,00,02,8C,00,14,78 = result 2, done # of the superclass
f(Lp/T;)S null : 01,10,18,8C,00,17,78 = thrown java/lang/NullPointerException @1, object @1 java/lang/NullPointerException, done
f(Lp/T;)S null : 01,10,18,8C,00,14,78 = thrown java/lang/NullPointerException @1, object @1 java/lang/NullPointerException, done
f()S : 01,00,8F,00,01,8C,00,0C,78 = stuck 259 # a virtual method
f()S : 01,00,8F,00,01,8E,01,00,03,00,78 = result 2, done
f()S : 01,00,8F,00,01,8E,01,00,03,01,78 = result 1, done
f()S : 01,00,8F,00,02,8E,01,00,03,00,78 = result 22, done # the map of the superclass
f()S : 01,00,8F,00,02,8E,01,00,03,01,78 = result 1, done
f()S : 01,00,8F,00,01,8E,01,00,03,02,78 = stuck 259 # past the map
f(Lp/I;)S null : 01,10,18,8E,01,00,03,00,78 = thrown java/lang/NullPointerException @1, object @1 java/lang/NullPointerException, done
f()S, give 3 : 01,00,8F,00,25,8E,01,00,03,00,78 = event p/I.a()S @1, result 3, object @1 q/A, done # an imported class
f()S : 01,00,8E,01,00,03,00,78 = stuck 256";

#[test]
fn special_methods_are_called(rt: HostRuntime) {
    assert_eq!(rt; first_wrong(rt.alloc(), SPECIAL), "");
}

/// new, instanceof and checkcast.
const TYPES: &str = "\
f()Lp/T; : 01,00,8F,00,01,77 = result @1, done
f()Lp/T; : 01,00,8F,00,00,77 = result @1, object @1 java/lang/Object, done
f()Lp/T; : 01,00,8F,00,03,77 = stuck 256 # an interface
f()Lp/T; : 01,00,8F,00,07,77 = stuck 256 # no class
f()S : 01,00,8F,00,01,95,00,00,01,78 = result 1, done # p/T is p/T, no p/U, java/lang/Object and p/I
f()S : 01,00,8F,00,01,95,00,00,02,78 = result 0, done
f()S : 01,00,8F,00,01,95,00,00,00,78 = result 1, done
f()S : 01,00,8F,00,01,95,00,00,03,78 = result 1, done
f()S : 01,00,8F,00,02,95,00,00,01,78 = result 1, done # p/U is p/T and p/I
f()S : 01,00,8F,00,02,95,00,00,03,78 = result 1, done
f()S : 01,00,8F,00,00,95,00,00,03,78 = result 0, object @1 java/lang/Object, done
f()S : 01,00,01,95,00,00,01,78 = result 0, done # null
f([S)S @0; null : 01,10,18,95,0C,00,00,78 = result 1, result 0, done # an array of shorts
f([S)S @0 : 01,10,18,95,0D,00,00,78 = result 0, done
f([S)S @0 : 01,10,18,95,00,00,00,78 = result 1, done
f([S)S @0 : 01,10,18,95,00,00,03,78 = result 0, done
f([S)S @0 : 01,10,18,95,0E,00,00,78 = result 0, done
f()S : 01,00,03,90,0A,95,0B,00,00,78 = result 0, array @1 [Z, done # booleans are no bytes
f()S : 01,00,03,90,0A,95,0A,00,00,78 = result 1, array @1 [Z, done
f()S : 01,00,03,90,0B,95,0B,FF,FF,78 = result 1, array @1 [B, done # any index
f()S : 01,00,03,90,0D,95,0D,00,00,78 = result 1, array @1 [I, done
f()S : 01,00,03,91,00,02,95,0E,00,01,78 = result 1, array @1 [Lp/U;, done
f()S : 01,00,03,91,00,01,95,0E,00,02,78 = result 0, array @1 [Lp/T;, done
f()S : 01,00,03,91,00,01,95,0E,00,03,78 = result 1, array @1 [Lp/T;, done
f()S : 01,00,03,91,00,01,95,00,00,00,78 = result 1, array @1 [Lp/T;, done
f()S : 01,00,03,91,00,01,95,00,00,01,78 = result 0, array @1 [Lp/T;, done
f()S : 01,00,8F,00,01,95,0E,00,01,78 = result 0, done
f()S : 01,00,01,95,09,00,00,78 = stuck 257 # no such type
f()Lp/T; : 01,00,8F,00,02,94,00,00,01,77 = result @1, done
f()Lp/T; : 01,00,01,94,00,00,02,77 = result null, done
f()Lp/T; : 01,00,8F,00,01,94,00,00,02,77 = thrown java/lang/ClassCastException @2, object @2 java/lang/ClassCastException, done
f([S)[S @0 : 01,10,18,94,0C,00,00,77 = result @0, done
f([S)[B @0 : 01,10,18,94,0B,00,00,77 = thrown java/lang/ClassCastException @1, object @1 java/lang/ClassCastException, done
f()[Lp/T; : 01,00,03,91,00,02,94,0E,00,01,77 = result @1, array @1 [Lp/U;, done
f(S)V 1 : 01,10,1C,94,00,00,01,7A = stuck 257";

#[test]
fn types_are_asked(rt: HostRuntime) {
    assert_eq!(rt; first_wrong(rt.alloc(), TYPES), "");
}

/// athrow and handlers.
const EXCEPTIONS: &str = "\
f()V : 01,00,01,93 = thrown java/lang/NullPointerException @1, object @1 java/lang/NullPointerException, done
f()V : 01,00,8F,00,04,93 = thrown java/lang/ArithmeticException @1, object @1 java/lang/ArithmeticException, done
f()Lp/T; : 01,00,8F,00,04,93,77/01,03,80,01,01,04,00,04 = result @1, object @1 java/lang/ArithmeticException, done # its class
f()Lp/T; : 01,00,8F,00,04,93,77/01,03,80,01,01,04,00,05 = result @1, object @1 java/lang/ArithmeticException, done # a superclass
f()Lp/T; : 01,00,8F,00,04,93,77/01,03,80,01,01,04,00,06 = thrown java/lang/ArithmeticException @1, object @1 java/lang/ArithmeticException, done # another class
f(S)S 0; 1 : 02,10,04,1C,47,78,3B,04,78,3B,05,78,3B,06,78/01,02,00,01,01,04,00,06,01,02,00,01,01,07,00,05,01,02,80,01,01,0A,00,00 = result 2, result 1, object @1 java/lang/ArithmeticException, done # the first that takes it
f(S)S 0 : 02,10,04,1C,47,78,3B,04,78,3B,05,78,3B,06,78/01,02,00,01,01,04,00,06,01,00,00,04,01,0A,00,00,01,02,80,01,01,07,00,05 = result 3, object @1 java/lang/ArithmeticException, done # in the order of the table
f(S)S 0 : 02,10,04,1C,47,78,3B,04,78,3B,05,78,3B,06,78/01,02,80,01,01,04,00,06,01,02,80,01,01,0A,00,00 = thrown java/lang/ArithmeticException @1, object @1 java/lang/ArithmeticException, done # a stop bit
f(S)S 0 : 02,10,04,1C,47,78,3B,04,78,3B,05,78,3B,06,78/01,00,80,02,01,04,00,00,01,02,80,01,01,0A,00,00 = result 3, object @1 java/lang/ArithmeticException, done # an end is not covered, nor does its stop bit count
f(S)S 0 : 02,10,04,1C,47,78,3B,04,78/01,00,80,02,01,04,00,00 = thrown java/lang/ArithmeticException @1, object @1 java/lang/ArithmeticException, done
f(S)S 0 : 02,10,04,1C,47,78,3B,04,78/01,00,80,03,01,04,00,00 = result 1, object @1 java/lang/ArithmeticException, done
f(S)S 0 : 02,10,04,1C,47,78,3B,04,78/01,03,80,03,01,04,00,00 = thrown java/lang/ArithmeticException @1, object @1 java/lang/ArithmeticException, done
f(S)V 0 : 03,10,08,04,1C,47,7A,3B,3B,7A/01,00,80,04,01,05,00,00 = object @1 java/lang/ArithmeticException, stuck 262 # the exception alone is on the stack
f(S)S 0; 2 : 01,10,1C,8D,00,19,78,3B,08,78/01,01,80,03,01,05,00,04 = result 5, result 0, object @1 java/lang/ArithmeticException, done # of a caller
f(S)S 0 : 01,10,1C,8D,00,19,78,3B,08,78/01,04,80,01,01,05,00,04 = thrown java/lang/ArithmeticException @1, object @1 java/lang/ArithmeticException, done # the place of the call counts, not the one behind it
f(S)S 9 : 01,10,01,93,3B,1C,78/01,01,80,01,01,02,00,00 = result 9, object @1 java/lang/NullPointerException, done # locals stay";

#[test]
fn exceptions_are_caught(rt: HostRuntime) {
    assert_eq!(rt; first_wrong(rt.alloc(), EXCEPTIONS), "");
}

/// Returns without what they return; what is no instruction, and jsr and ret, which the machine does not take.
const ENDS: &str = "\
f()S : 01,00,78 = stuck 256
f()I : 02,00,04,79 = stuck 257
f([S)S @0 : 01,10,18,78 = stuck 257
f(S)[S 1 : 01,10,1C,77 = stuck 257
f()V : 00,01,71,00,03,7A = stuck 256
f()V : 00,01,72,00 = stuck 256
f()V : 00,00,FE,7A = stuck 256
f()V : 00,00,FF,7A = stuck 256
f()V : 00,00,B9,7A = stuck 256
f()V : 00,00,FD,7A = stuck 256
f()V : 01,00,10 = stuck 256 # cut by the end of the method
f()V : 00,00,00 = stuck 257 # past the end";

#[test]
fn ends_are_met(rt: HostRuntime) {
    assert_eq!(rt; first_wrong(rt.alloc(), ENDS), "");
}

/// The whole report of one row.
const WHOLE: &str = "\
result @1
static p/T.a:[S @0
static p/T.o:Ljava/lang/Object; null
static p/T.c:B 0
static p/T.d:S 0
static p/T.j:I 0
static p/T.n:S 7
array @0 [S 1 -2
object @1 p/T p/T.b:B=0 p/T.s:S=0 p/T.i:I=0 p/T.r:Lp/T;=null
done
";

#[test]
fn whole_report(rt: HostRuntime) -> Result<(), Fail> {
    let fixed = fixed_parts(rt.alloc())?;
    let text = printed(rt.alloc(), &fixed, "f()Lp/T; : 01,00,8F,00,01,77")?;
    assert_eq!(rt; text.items(), WHOLE.as_bytes());
    Ok(())
}
