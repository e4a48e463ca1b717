//! Rows that no command runs: opcodes of ints, which no package has, and components that `check` refuses. The other
//! opcodes run in the cases of `card`. What a row is stands in runs.rt.

use crate::runs::{first_wrong, fixed_parts, printed};
use std::test::*;

/// Ints: constants, locals, arithmetic, casts, switches, elements, cells and fields. The high word has the lower
/// place.
const INTS: &str = "\
f()I : 04,00,0A,12,0A,46,0B,42,12,0A,46,0C,42,12,0A,46,0D,42,12,0A,46,0E,42,79 = result 1234, \
    done # iconst_0 to iconst_4
f()I : 04,00,09,0F,46,79 = result -5, done # iconst_m1 and iconst_5
f()I : 02,00,12,80,79 = result -128, done
f()I : 02,00,13,80,00,79 = result -32768, done
f()I : 02,00,14,80,00,00,00,79 = result -2147483648, done
f(SSSSI)I 1 2 3 4 70000 : 02,60,17,04,79 = result 70000, done
f(II)I 70000 -5 : 04,40,20,22,44,79 = result 70005, done # iload_0 and iload_2
f(SII)I 1 70000 -5 : 04,50,21,23,44,79 = result 70005, done # iload_1 and iload_3
f(I)S 70000; -1; -70000 : 01,20,1C,78 = result 1, result -1, result -2, done # the high word has the lower local
f(I)S 70000; -1; -70000 : 01,20,1D,78 = result 4464, result -1, result -4464, done
f([SS)I @0 1 : 02,20,20,79 = stuck 256
f(S)I 1 : 02,10,20,79 = stuck 256
f(I)I 70000 : 02,24,20,2A,04,17,04,79 = result 70000, done
f(I)I 70000 : 02,23,20,35,22,34,21,36,23,33,20,79 = result 70000, done # istore_2, _1, _3 and _0
f(I)S 70000 : 02,22,20,35,1E,78 = result 1, done
f(I)S 70000 : 02,22,20,35,1F,78 = result 4464, done
f(I)V 1 : 02,20,20,34,7A = stuck 257 # its low word is past the locals
f(I)I 70000 : 04,20,20,3E,42,79 = result 140000, done
f(II)I 3 4; 65535 1; 2147483647 1; -2147483648 -1 : 04,40,20,22,42,79 = result 7, result 65536, result -2147483648, \
    result 2147483647, done
f(II)I 3 4; 65536 1; -2147483648 1; 2147483647 -1 : 04,40,20,22,44,79 = result -1, result 65535, result 2147483647, \
    result -2147483648, done
f(II)I -300 300; 65536 65536; 46341 46341; -2147483648 -1 : 04,40,20,22,46,79 = result -90000, result 0, \
    result -2147479015, result -2147483648, done
f(II)I 70000 -300; -7 2; -7 -2; -2147483648 -1 : 04,40,20,22,48,79 = result -233, result -3, result 3, \
    result -2147483648, done
f(II)I 7 0 : 04,40,20,22,48,79 = thrown java/lang/ArithmeticException @1, object @1 java/lang/ArithmeticException, \
    done
f(II)I -70000 300; 7 -2; -7 -2; -2147483648 -1 : 04,40,20,22,4A,79 = result -100, result 1, result -1, result 0, done
f(II)I 7 0 : 04,40,20,22,4A,79 = thrown java/lang/ArithmeticException @1, object @1 java/lang/ArithmeticException, \
    done
f(I)I 70000; -2147483648 : 02,20,20,4C,79 = result -70000, result -2147483648, done
f(II)I 3 65; 1 16; 1 31; 1 32; 1 -1; 3 65536 : 04,40,20,22,4E,79 = result 6, result 65536, result -2147483648, \
    result 1, result -2147483648, result 3, done
f(II)I -5 1; 70000 -28; -2147483648 31; -2147483648 32 : 04,40,20,22,50,79 = result -3, result 4375, result -1, \
    result -2147483648, done
f(II)I -1 1; -1 31; -1 32; -1 -1; -2147483648 4; 70000 36 : 04,40,20,22,52,79 = result 2147483647, result 1, \
    result -1, result 1, result 134217728, result 4375, done
f(II)I -65536 70000; -1 2147483647 : 04,40,20,22,54,79 = result 65536, result 2147483647, done
f(II)I 65536 4464; -2147483648 1 : 04,40,20,22,56,79 = result 70000, result -2147483647, done
f(II)I 70000 -1; -1 2147483647 : 04,40,20,22,58,79 = result -70001, result -2147483648, done
f(SI)I 1 2 : 03,30,1C,21,42,79 = stuck 258
f(I)I 65535; 2147483647 : 02,20,5A,00,01,20,79 = result 65536, result -2147483648, done
f(SI)I 7 0; 7 -2147483648 : 02,30,5A,01,80,21,79 = result -128, result 2147483520, done
f(I)I 0; 32768 : 02,20,97,00,80,00,20,79 = result -32768, result 0, done
f(S)I -5; 32767; -32768 : 02,10,1C,5C,79 = result -5, result 32767, result -32768, done
f(S)I 1 : 01,10,1C,5C,79 = stuck 257 # no room
f(I)S 70000; 384; -129 : 02,20,20,5D,78 = result 112, result -128, result 127, done
f(I)S 70000; 32768; -32769 : 02,20,20,5E,78 = result 4464, result -32768, result 32767, done
f(II)S 1 2; 2 1; 5 5; -2147483648 2147483647; 65536 1; 1 65536; 32768 1; -1 0 : 04,40,20,22,5F,78 = result -1, \
    result 1, result 0, result -1, result 1, result -1, result 1, result -1, done
f(I)S 69999; 70000; 70001; 70002; \
    4464 : 02,20,20,74,00,13,00,01,11,70,00,01,11,71,00,0F,00,11,04,78,05,78,03,78 = result 0, result 1, result 2, \
    result 0, result 0, done
f(I)S 2147483645; 2147483646; 2147483647; \
    -2147483648 : 02,20,20,74,00,13,7F,FF,FF,FE,7F,FF,FF,FF,00,0F,00,11,04,78,05,78,03,78 = result 0, result 1, \
    result 2, result 0, done
f(I)S -1; 70000; 65535; 4464; \
    0 : 02,20,20,76,00,15,00,02,FF,FF,FF,FF,00,11,00,01,11,70,00,13,04,78,05,78,03,78 = result 1, result 2, \
    result 0, result 0, result 0, done
f(I)S -2147483648; 2147483647; \
    -1 : 02,20,20,76,00,15,00,02,80,00,00,00,00,11,7F,FF,FF,FF,00,13,04,78,05,78,03,78 = result 1, result 2, \
    result 0, done
f()I : 04,01,05,90,0D,2B,18,04,14,00,01,11,70,3A,18,04,27,79 = result 70000, array @1 [I 0 70000, done
f([I)V null : 02,10,18,03,27,7A = thrown java/lang/NullPointerException @1, \
    object @1 java/lang/NullPointerException, done
f([I)V null : 04,10,18,03,0A,3A,7A = thrown java/lang/NullPointerException @1, \
    object @1 java/lang/NullPointerException, done
f(I)I 70000 : 02,20,20,82,00,21,7E,00,21,79 = result 70000, static p/T.j:I 70000, done
f(I)S 70000 : 02,20,20,82,00,21,7D,00,23,78 = result 4464, static p/T.j:I 70000, done # the high word first
f()I : 03,01,8F,00,01,2B,18,14,00,01,11,70,8A,0A,18,86,0A,79 = result 70000, \
    object @1 p/T p/T.b:B=0 p/T.s:S=0 p/T.i:I=70000 p/T.r:Lp/T;=null, done
f()I : 03,01,8F,00,01,2B,18,14,00,01,11,70,B4,00,0A,18,AC,00,0A,79 = result 70000, \
    object @1 p/T p/T.b:B=0 p/T.s:S=0 p/T.i:I=70000 p/T.r:Lp/T;=null, done
f()I : 02,01,8F,00,01,2B,14,00,01,11,70,B8,0A,B0,0A,79 = result 70000, \
    object @1 p/T p/T.b:B=0 p/T.s:S=0 p/T.i:I=70000 p/T.r:Lp/T;=null, done
f(I)I 69999 : 03,20,08,20,8D,00,16,79 = result 70000, done
f()I : 02,00,04,79 = stuck 257";

/// The machine is stuck at what `check` refuses, and handlers stand in any order.
const REFUSED: &str = "\
f()V : 00,00,70,7F = stuck 383 # nothing stands there
f()V : 00,00,70,80 = stuck 128
f(S)S 1 : 01,10,1C,73,00,07,00,02,00,01,04,78 = stuck 257 # the low match above the high one
f(S)S 1 : 01,10,1C,75,00,0D,00,02,00,05,00,0D,00,05,00,0D,04,78 = stuck 257 # matches that do not ascend
f()V : 01,00,04,91,00,07,3B,7A = stuck 257 # no class
f()S : 01,00,7D,00,24,78 = stuck 256 # past the image
f()S : 01,00,7D,00,00,78 = stuck 256 # no field
f()S : 01,00,7D,00,09,78 = stuck 256 # no static field
f(S)V 1 : 01,10,1C,82,00,21,7A = stuck 257
f()S : 01,00,8F,00,01,85,27,78 = stuck 259
f()S : 01,00,8D,00,01,78 = stuck 256
f()V : 00,00,8D,00,28,7A = stuck 256 # no such method
f()S : 01,00,8F,00,02,8B,00,0F,78 = result 5, done
f()S : 01,00,8F,00,01,8B,00,0F,78 = stuck 259 # abstract
f()S : 01,00,8F,00,01,8B,00,10,78 = stuck 259 # past the table
f(Lp/T;)S null : 01,10,18,8B,00,10,78 = stuck 257
f()S : 01,00,8F,00,01,8B,00,15,78 = stuck 259 # no virtual method
f()S : 01,00,8F,00,01,8C,00,0C,78 = stuck 259 # a virtual method
f()Lp/T; : 01,00,8F,00,07,77 = stuck 256 # no class
f(S)S 0 : 02,10,04,1C,47,78,3B,04,78,3B,05,78,3B,06,78/01,02,00,01,01,04,00,06,01,00,00,04,01,0A,00,00,01,02,80,01,\
    01,07,00,05 = result 3, object @1 java/lang/ArithmeticException, done # in the order of the table
f(S)S 0 : 02,10,04,1C,47,78,3B,04,78,3B,05,78,3B,06,78/01,02,80,01,01,04,00,06,01,02,80,01,01,0A,00,\
    00 = thrown java/lang/ArithmeticException @1, object @1 java/lang/ArithmeticException, done # a stop bit
f()V : 00,00,FE,7A = stuck 256
f()V : 00,00,FF,7A = stuck 256
f()V : 00,00,B9,7A = stuck 256
f()V : 00,00,FD,7A = stuck 256
f()V : 01,00,10 = stuck 256 # cut by the end of the method
f()V : 00,00,00 = stuck 257 # past the end";

#[test]
fn rows_run_so(rt: HostRuntime) {
    assert_eq!(rt; first_wrong(rt.alloc(), INTS), "");
    assert_eq!(rt; first_wrong(rt.alloc(), REFUSED), "");
}

/// The whole report of one row.
const WHOLE: &str = "\
result @1
static p/T.a:[S @0
static p/T.o:Ljava/lang/Object; null
static p/T.c:B 0
static p/T.d:S 0
static p/T.j:I 0
static p/T.n:S 7
array @0 [S 1 -2
object @1 p/T p/T.b:B=0 p/T.s:S=0 p/T.i:I=0 p/T.r:Lp/T;=null
done
";

#[test]
fn whole_report(rt: HostRuntime) -> Result<(), Fail> {
    let fixed = fixed_parts(rt.alloc())?;
    let text = printed(rt.alloc(), &fixed, "f()Lp/T; : 01,00,8F,00,01,77")?;
    assert_eq!(rt; text.items(), WHOLE.as_bytes());
    Ok(())
}
