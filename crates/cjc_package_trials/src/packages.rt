//! Packages, a paragraph each. Its first line is `package`, the words of its folder as files.rt says, and ` = ` with
//! the lines that `convert` prints, or the refusal. The lines behind it say of what was written:
//!
//! - a name and bytes, those of a file in hexadecimal digits, or `absent`;
//! - `check = ` and what `check` of the folder says;
//! - `jvm SCRIPT = REPORT`, both lines with `, ` between: what runs by name, and so what was written by token;
//! - `card SCRIPT = REPORT`: what runs by token, or how that is refused.
//!
//! And some change what is there: `change NAME PLACE BYTE` a byte of a written file, `class NAME CLASS` a class file.

use crate::files::{class_file, folder, joined};
use crate::runs::{is_written, lines_of, says, stand};
use cjc_bytes::{NoMemory, Out, Row};
use cjc_cases::{cut, number, octets, question_and_answer};
use cjc_shelf::MemShelf;
use std::alloc::Global;
use std::test::*;

const PACKAGES: &str = "\
package lang sum = Header.cap 20, Directory.cap 36, Import.cap 14, ConstantPool.cap 5, Class.cap 15, Method.cap 10, StaticField.cap 13, RefLocation.cap 7, Export.cap 10, Descriptor.cap 29, p.exp 130 # a sum
Header.cap 01,00,11,DE,CA,FF,ED,02,02,02,00,01,05,A0,00,00,00,01,01,70
Directory.cap 02,00,21,00,11,00,21,00,00,00,0B,00,02,00,0C,00,07,00,0A,00,04,00,07,00,1A,00,00,00,00,00,00,00,00,01,00,00
Import.cap 04,00,0B,01,00,01,07,A0,00,00,00,62,00,01
ConstantPool.cap 05,00,02,00,00
Class.cap 06,00,0C,00,00,00,80,00,00,FF,00,01,00,00,00
Method.cap 07,00,07,00,02,10,1C,04,41,78
StaticField.cap 08,00,0A,00,00,00,00,00,00,00,00,00,00
RefLocation.cap 09,00,04,00,00,00,00
Export.cap 0A,00,07,01,00,02,00,01,00,01
Descriptor.cap 0B,00,1A,01,00,01,00,02,00,00,00,00,01,00,09,00,01,00,02,00,04,00,00,00,00,00,00,02,44
check = ok
jvm call p/T f(S)S 32767 = result -32768, done
change Method.cap 7 05
card call p/T f(S)S 32767 = result -32767, done
change Method.cap 7 04
card call p/T f(S)S 32767 = result -32768, done
class sum.class rows
card call p/T f(S)S 32767 = refused 719 Descriptor.cap - - 11
change Class.cap 7 0B
check = refused 704 Class.cap - - 6 # a superclass that java/lang has not
change Class.cap 6 00
change Class.cap 7 02
check = refused 705 Class.cap - - 6
change Class.cap 6 80
change Class.cap 7 00
change Method.cap 7 70
change Method.cap 8 01
check = refused 710 Method.cap - - 7 # a jump into its own operand
change Method.cap 6 8F
change Method.cap 7 00
change Method.cap 8 00
check = refused 711 Method.cap - - 7 # a class by an index that the pool has not
change Method.cap 6 1C
change Method.cap 7 04
change Method.cap 8 41
change Export.cap 9 03
check = refused 717 Export.cap - - 8
change Export.cap 9 01
change Header.cap 9 00
check = refused 702 Header.cap - - 9 # what is exported has no flag
change Header.cap 9 02
check = ok
package lang rows = Header.cap 20, Directory.cap 36, Import.cap 14, ConstantPool.cap 5, Class.cap 15, Method.cap 83, StaticField.cap 13, RefLocation.cap 7, Export.cap 26, Descriptor.cap 133, p.exp 276 # elements at sums, quotients, shifts, masks, and switches with keys outside of 16 bits
Method.cap 07,00,50,00,03,20,18,1D,04,41,25,78,03,20,18,1D,04,43,25,78,03,10,18,18,92,04,43,25,78,02,20,1C,1D,47,78,02,10,1C,10,14,51,78,02,10,1C,10,10,4D,78,02,10,1C,02,53,78,01,10,1C,75,00,0D,00,01,00,05,00,09,04,78,05,78,03,78,01,10,1C,3B,70,04,04,78,03,78
check = ok
jvm array [B 0, call p/T plus([BS)B @0 32767, call p/T minus([BS)B @0 -32768, call p/T last([B)B @0 = thrown java/lang/ArrayIndexOutOfBoundsException @1, thrown java/lang/ArrayIndexOutOfBoundsException @2, thrown java/lang/ArrayIndexOutOfBoundsException @3, array @0 [B, object @1 java/lang/ArrayIndexOutOfBoundsException, object @2 java/lang/ArrayIndexOutOfBoundsException, object @3 java/lang/ArrayIndexOutOfBoundsException, done
jvm call p/T quotient(SS)S -32768 -1, call p/T quotient(SS)S 1 0, call p/T right(S)S -1, call p/T left(S)S 7, call p/T low(S)S -2 = result -32768, thrown java/lang/ArithmeticException @0, result 4095, result 0, result -2, object @0 java/lang/ArithmeticException, done
jvm call p/T keys(S)S 5, call p/T keys(S)S 4464, call p/T table(S)S -25536 = result 1, result 0, result 0, done # the low words of 70000 and 40000
package lang q overrides = Header.cap 20, Directory.cap 36, Import.cap 22, ConstantPool.cap 21, Class.cap 19, Method.cap 33, StaticField.cap 13, RefLocation.cap 11, Descriptor.cap 83, p.exp 27 # an imported superclass whose method is overridden
Class.cap 06,00,10,00,00,00,81,00,00,FF,00,01,02,00,00,00,08,FF,FF
Method.cap 07,00,1E,00,01,10,18,8C,00,00,7A,01,10,10,07,78,02,00,8F,00,01,3D,8C,00,02,77,01,10,18,8B,00,03,78
ConstantPool.cap 05,00,12,00,04,06,81,00,00,01,00,02,00,06,00,00,01,03,00,02,02
Import.cap 04,00,13,02,00,01,07,A0,00,00,00,62,00,01,00,01,05,A0,00,00,00,02
Export.cap absent
Header.cap 01,00,11,DE,CA,FF,ED,02,02,00,00,01,05,A0,00,00,00,01,01,70
check = ok
jvm call p/B make()Lp/B;, give, send q/A a()S @0, call p/B k(Lp/B;)S @0, give 3 = event q/A.<init>()V @0, result @0, result 7, event q/A.b()S @0, result 3, object @0 p/B, done
package lang below abstract interface = Header.cap 20, Directory.cap 36, Import.cap 14, ConstantPool.cap 5, Class.cap 38, Method.cap 10, StaticField.cap 13, RefLocation.cap 7, Export.cap 16, Descriptor.cap 75, p.exp 202 # an abstract class gets a method of its interface
Class.cap 06,00,23,00,00,80,01,80,00,00,FF,00,01,01,00,00,00,01,00,02,01,01,01,00,03,00,FF,00,01,01,00,00,00,03,00,02,01,01
Method.cap 07,00,07,00,40,10,01,10,04,78
Export.cap 0A,00,0D,03,00,13,00,00,00,03,00,00,00,02,00,00
check = ok
package lang interface either gives-one gives-two = Header.cap 20, Directory.cap 36, Import.cap 14, ConstantPool.cap 29, Class.cap 48, Method.cap 55, StaticField.cap 13, RefLocation.cap 14, Export.cap 14, Descriptor.cap 136, p.exp 170 # a local of two classes that share an interface
Class.cap 06,00,2D,00,00,80,00,80,00,00,FF,00,01,00,00,00,01,80,00,00,FF,00,01,01,00,00,00,25,00,02,01,01,01,80,00,00,FF,00,01,01,00,00,00,30,00,02,01,01
ConstantPool.cap 05,00,1A,00,06,01,00,0D,00,06,00,00,1E,01,00,1D,00,06,00,00,29,01,00,02,00,06,80,00,00
Method.cap 07,00,34,00,02,11,1C,60,0B,8F,00,00,3D,8C,00,01,70,09,8F,00,02,3D,8C,00,03,2C,19,8E,01,00,04,00,78,01,10,18,8C,00,05,7A,01,10,04,78,01,10,18,8C,00,05,7A,01,10,05,78
Export.cap 0A,00,0B,02,00,02,00,00,00,03,00,01,00,01
check = ok
jvm call p/T f(Z)S 1, call p/T f(Z)S 0 = result 1, result 2, object @0 p/M, object @1 p/N, done
package lang caught = Header.cap 20, Directory.cap 36, Import.cap 14, ConstantPool.cap 13, Class.cap 15, Method.cap 35, StaticField.cap 13, RefLocation.cap 8, Export.cap 10, Descriptor.cap 33, p.exp 130 # three handlers, one of which covers nothing that is written
Method.cap 07,00,20,02,00,15,00,01,00,17,00,01,00,13,80,03,00,1D,00,00,02,10,1C,1C,47,78,3B,04,78,3B,05,78,3B,06,78
ConstantPool.cap 05,00,0A,00,02,01,80,00,00,01,80,05,00
RefLocation.cap 09,00,05,00,00,00,01,07
check = ok
jvm call p/T c(S)S 0, call p/T c(S)S -5 = result 3, result 1, object @0 java/lang/ArithmeticException, done
package lang own-exception catches = Header.cap 20, Directory.cap 36, Import.cap 14, ConstantPool.cap 29, Class.cap 25, Method.cap 57, StaticField.cap 13, RefLocation.cap 13, Export.cap 16, Descriptor.cap 77, p.exp 225 # catch types of the package and of an imported one
Class.cap 06,00,16,00,00,00,80,02,00,FF,00,01,00,00,00,00,80,00,00,FF,00,01,00,00,00
ConstantPool.cap 05,00,1A,00,06,01,80,00,00,06,80,02,00,06,80,00,00,01,00,02,00,06,00,00,11,01,80,04,00
Method.cap 07,00,36,02,00,21,00,0E,00,30,00,03,00,21,80,0E,00,33,00,05,01,10,18,8C,00,01,7A,01,10,18,8C,00,02,7A,02,21,1D,63,0A,8F,00,03,3D,8C,00,04,93,1C,1D,47,78,2D,04,78,2D,05,78
RefLocation.cap 09,00,0A,00,00,00,06,07,08,06,07,09,04
Export.cap 0A,00,0D,02,00,02,00,01,00,11,00,0C,00,01,00,18
check = ok
jvm call p/T f(SS)S 10 2, call p/T f(SS)S 1 0, call p/T f(SS)S 1 -1, give = result 5, result 2, event java/lang/Exception.<init>()V @1, result 1, object @0 java/lang/ArithmeticException, object @1 p/E, done
package lang statics = Header.cap 20, Directory.cap 36, Import.cap 14, ConstantPool.cap 5, Class.cap 15, Method.cap 4, StaticField.cap 21, RefLocation.cap 7, Export.cap 8, Descriptor.cap 49, p.exp 112 # an initialiser
StaticField.cap 08,00,12,00,07,00,02,00,01,03,00,03,01,02,03,00,01,00,02,00,07
Method.cap 07,00,01,00
Directory.cap 02,00,21,00,11,00,21,00,00,00,0B,00,02,00,0C,00,01,00,12,00,04,00,05,00,2E,00,00,00,07,00,01,00,03,01,00,00
Export.cap 0A,00,05,01,00,02,00,00
check = ok
jvm = static p/T.t:[B @0, static p/T.o:Ljava/lang/Object; null, static p/T.z:Z 0, static p/T.s:S 7, array @0 [B 1 2 3, done
package lang kinds = Header.cap 20, Directory.cap 36, Import.cap 14, ConstantPool.cap 41, Class.cap 15, Method.cap 59, StaticField.cap 35, RefLocation.cap 16, Export.cap 10, Descriptor.cap 174, p.exp 134 # static fields of every kind
StaticField.cap 08,00,20,00,12,00,05,00,03,02,00,02,01,00,03,00,03,00,00,00,04,00,04,01,02,FF,FF,00,04,00,04,01,07,00,03
ConstantPool.cap 05,00,26,00,09,06,80,00,00,05,00,00,0F,05,00,00,10,05,00,00,04,05,00,00,0E,05,00,00,0C,05,00,00,0A,05,00,00,0B,05,00,00,06
Method.cap 07,00,38,00,01,10,18,8C,00,00,7A,03,00,7C,00,01,7D,00,02,41,10,09,41,7B,00,03,03,26,41,7C,00,04,60,05,04,70,03,03,41,78,01,40,1C,81,00,05,1D,80,00,06,1E,80,00,07,1B,7F,00,08,7A
RefLocation.cap 09,00,0D,00,00,00,09,05,06,03,07,06,0E,04,04,04
check = ok
jvm call p/F get()S, call p/F set(SZBLjava/lang/Object;)V 5 1 -3 @0 = result 278, result void, static p/F.za:[Z @0, static p/F.ba:[B @1, static p/F.sa:[S @2, static p/F.o:Ljava/lang/Object; @0, static p/F.self:Lp/F; null, static p/F.z0:Z 1, static p/F.z1:Z 1, static p/F.b0:B -3, static p/F.b7:B 7, static p/F.s0:S 5, static p/F.s3:S 3, array @0 [Z 1 0, array @1 [B 0 0 0, array @2 [S 258 -1, done
package +p/W lang framework installs interface = Header.cap 20, Directory.cap 36, Applet.cap 13, Import.cap 24, ConstantPool.cap 5, Class.cap 18, Method.cap 10, StaticField.cap 13, RefLocation.cap 7, Descriptor.cap 69, p.exp 27 # an applet beside a public interface that is not shared
Header.cap 01,00,11,DE,CA,FF,ED,02,02,04,00,01,05,A0,00,00,00,01,01,70
Applet.cap 03,00,0A,01,06,A0,00,00,00,01,01,00,01
Class.cap 06,00,0F,00,00,80,00,81,00,00,FF,00,02,01,00,00,00,04
Method.cap 07,00,07,00,00,30,7A,00,20,7A
Export.cap absent
check = ok
package +p/W lang shareable installs shared shares = Header.cap 20, Directory.cap 36, Applet.cap 13, Import.cap 24, ConstantPool.cap 9, Class.cap 39, Method.cap 21, StaticField.cap 13, RefLocation.cap 8, Export.cap 8, Descriptor.cap 112, p.exp 128 # an applet beside an interface that is shared
Header.cap 01,00,11,DE,CA,FF,ED,02,02,06,00,01,05,A0,00,00,00,01,01,70
Applet.cap 03,00,0A,01,06,A0,00,00,00,01,01,00,01
Class.cap 06,00,24,00,00,C1,81,03,00,81,00,00,FF,00,02,01,00,00,00,04,42,80,00,00,FF,00,01,01,00,00,00,0E,81,03,00,00,02,01,01
Method.cap 07,00,12,00,00,30,7A,00,20,7A,01,10,18,8C,00,00,7A,01,20,1D,78
ConstantPool.cap 05,00,06,00,01,06,80,00,00
RefLocation.cap 09,00,05,00,00,00,01,0B
Export.cap 0A,00,05,01,00,02,00,00
Descriptor.cap 0B,00,6D,03,00,C1,00,02,01,00,00,00,01,81,03,00,41,00,00,00,06,00,00,00,00,00,00,FF,01,00,05,00,00,00,00,02,FF,09,00,01,00,08,00,01,00,00,00,00,02,01,00,04,00,0B,00,01,00,00,00,00,FF,01,00,11,02,00,00,00,02,81,03,00,02,FF,81,00,07,00,04,00,05,00,00,00,00,01,01,00,0E,00,06,00,02,00,00,00,00,00,01,00,04,01,10,02,44,04,B4,31,06,68,10,11
check = ok
package lang s widens calls-interfaces below-imported = Header.cap 20, Directory.cap 36, Import.cap 22, ConstantPool.cap 37, Class.cap 47, Method.cap 75, StaticField.cap 13, RefLocation.cap 16, Export.cap 20, Descriptor.cap 197, p.exp 282 # an imported interface with a method, an own one below it, and a superclass that has it
Import.cap 04,00,13,02,00,01,07,A0,00,00,00,62,00,01,00,01,05,A0,00,00,00,03
Class.cap 06,00,2C,00,00,81,81,00,02,80,00,00,FF,00,01,02,00,00,00,08,00,0C,81,00,01,01,00,02,02,01,02,01,81,01,00,FF,00,01,01,00,00,00,3A,81,00,01,01
ConstantPool.cap 05,00,22,00,08,06,80,00,00,01,81,00,00,01,00,02,00,01,00,05,00,06,00,00,01,06,81,01,00,01,00,1C,00,06,00,00,33
Method.cap 07,00,48,00,01,10,18,8C,00,00,7A,01,10,04,78,01,10,05,78,01,10,18,8E,01,00,01,00,78,02,10,18,8E,01,00,01,00,18,8E,01,00,02,01,41,78,02,00,8F,00,03,3D,8C,00,04,77,01,10,18,8C,00,05,7A,01,10,06,78,02,00,8F,00,06,3D,8C,00,07,77
RefLocation.cap 09,00,0D,00,00,00,09,05,10,09,06,08,04,07,0A,04
Export.cap 0A,00,11,02,00,02,00,00,00,05,00,04,00,01,00,10,00,19,00,29
Descriptor.cap 0B,00,C2,03,00,C1,00,02,01,00,00,00,01,81,00,01,41,00,00,00,14,00,00,00,00,00,00,01,01,00,05,02,00,00,00,06,81,00,00,02,00,81,00,01,00,12,00,05,00,00,00,00,01,01,00,08,00,14,00,02,00,00,00,00,02,01,00,0C,00,14,00,02,00,00,00,00,01,09,00,10,00,16,00,07,00,00,00,00,02,09,00,19,00,1A,00,0E,00,00,00,00,03,09,00,29,00,1E,00,08,00,00,00,00,FF,00,00,1C,01,00,00,00,03,81,00,FF,80,00,33,00,12,00,05,00,00,00,00,01,01,00,3A,00,14,00,02,00,00,00,00,FF,08,00,3E,00,22,00,08,00,00,00,00,00,08,00,12,FF,FF,FF,FF,FF,FF,00,12,00,12,FF,FF,00,12,01,10,01,40,06,68,10,04,06,60,00,24,05,60,00,50,05,60,01,C0
check = ok
jvm call p/C make()Lp/C;, call p/C f(Ls/V;)S @0, call p/C g(Lp/K;)S @0 = result @0, result 1, result 3, object @0 p/C, done
jvm call p/D make()Lp/D;, give, call p/C f(Ls/V;)S @0 = event s/W.<init>()V @0, result @0, result 3, object @0 p/D, done
package lang visible narrow = Header.cap 20, Directory.cap 36, Import.cap 14, ConstantPool.cap 33, Class.cap 39, Method.cap 68, StaticField.cap 13, RefLocation.cap 14, Export.cap 10, Descriptor.cap 166, p.exp 162 # methods of the package, private ones, and a call of the superclass's
Class.cap 06,00,24,00,00,00,80,00,00,FF,00,01,02,00,01,00,0C,00,13,00,08,00,00,02,00,FF,00,01,02,00,02,00,2D,00,13,00,25,00,29
ConstantPool.cap 05,00,1E,00,07,06,80,00,00,03,00,02,80,06,00,00,1A,06,00,00,01,04,00,12,01,01,00,12,00,06,00,00,1E
Method.cap 07,00,41,00,01,10,18,8C,00,00,7A,01,10,04,78,01,10,18,8B,00,01,78,01,10,18,8C,00,02,78,01,10,07,78,01,10,18,8C,00,03,7A,01,10,05,78,01,10,08,78,02,10,18,8C,00,04,10,0A,41,78,02,00,8F,00,05,3D,8C,00,06,77
Export.cap 0A,00,07,01,00,02,00,01,00,01
check = ok
jvm call p/X make()Lp/X;, send p/U b()S @0, send p/U c()S @0 = result @0, result 12, result 4, object @0 p/X, done
package lang members wider narrower = Header.cap 20, Directory.cap 36, Import.cap 14, ConstantPool.cap 5, Class.cap 32, Method.cap 11, StaticField.cap 13, RefLocation.cap 7, Export.cap 18, Descriptor.cap 144, p.exp 310 # fields of each group, a constant, and two added methods
Class.cap 06,00,1D,00,00,80,81,00,02,02,80,00,04,01,02,01,02,00,00,00,04,00,06,00,02,01,01,00,03,02,01,02
Method.cap 07,00,08,00,00,00,7A,40,10,40,10
Export.cap 0A,00,0F,03,00,06,00,01,00,01,00,03,00,00,00,02,00,00
StaticField.cap 08,00,0A,00,02,00,01,00,00,00,00,00,00
Descriptor.cap 0B,00,8D,03,02,C1,00,02,00,00,00,00,01,00,41,00,00,00,02,00,00,00,00,00,00,01,C1,00,03,01,00,00,00,01,00,02,01,41,00,00,00,02,00,00,00,00,00,00,00,81,00,06,02,00,05,00,03,00,02,00,03,02,02,00,06,02,00,04,00,01,00,06,00,80,04,01,04,00,06,01,00,08,03,00,00,06,03,80,03,FF,08,00,00,00,00,04,00,09,00,01,00,0A,00,01,00,00,00,00,01,41,00,04,00,02,00,00,00,00,00,00,02,41,00,06,00,02,00,00,00,00,00,00,00,00,01,40,05,68,00,00,01,B0,01,10
check = ok
package +p/Wallet lang framework wallet = Header.cap 20, Directory.cap 36, Applet.cap 13, Import.cap 24, ConstantPool.cap 33, Class.cap 17, Method.cap 92, StaticField.cap 13, RefLocation.cap 19, Descriptor.cap 87, p.exp 27 # an applet with a balance
Header.cap 01,00,11,DE,CA,FF,ED,02,02,04,00,01,05,A0,00,00,00,01,01,70
Class.cap 06,00,0E,00,00,00,81,00,01,FF,00,02,01,00,00,00,15
ConstantPool.cap 05,00,1E,00,07,02,00,02,00,06,81,00,00,01,00,02,00,06,00,00,01,03,00,02,01,03,81,01,01,06,81,02,00
Method.cap 07,00,59,00,01,10,18,8C,00,01,7A,02,30,8F,00,02,3D,8C,00,03,8B,00,04,7A,04,21,19,8B,00,05,2D,1A,04,25,75,00,33,00,02,00,30,00,0D,00,40,00,19,18,18,85,00,1A,08,25,41,89,00,70,22,1A,08,25,18,85,00,6F,08,11,6A,85,8D,00,06,18,18,85,00,1A,08,25,43,89,00,70,08,11,6D,00,8D,00,06,7A
RefLocation.cap 09,00,10,00,05,2F,06,08,0C,06,00,07,05,06,04,03,07,2B,12
Applet.cap 03,00,0A,01,06,A0,00,00,00,01,01,00,08
Export.cap absent
check = ok
jvm call p/Wallet install([BSB)V null 0 0, give, give, object javacard/framework/APDU, send p/Wallet process(Ljavacard/framework/APDU;)V @0 @1, array [B 6, put @2 1 48, put @2 5 50, give @2, send p/Wallet process(Ljavacard/framework/APDU;)V @0 @1, put @2 1 64, put @2 5 20, give @2, send p/Wallet process(Ljavacard/framework/APDU;)V @0 @1, put @2 5 100, give @2, throw javacard/framework/ISOException = event javacard/framework/Applet.<init>()V @0, event javacard/framework/Applet.register()V @0, result void, event javacard/framework/APDU.getBuffer()[B @1, result void, event javacard/framework/APDU.getBuffer()[B @1, result void, event javacard/framework/APDU.getBuffer()[B @1, event javacard/framework/ISOException.throwIt(S)V 27269, thrown javacard/framework/ISOException @3, object @0 p/Wallet p/Wallet.balance:S=30, object @1 javacard/framework/APDU, array @2 [B 0 64 0 0 0 100, object @3 javacard/framework/ISOException, done
package lang q asks = Header.cap 20, Directory.cap 36, Import.cap 22, ConstantPool.cap 9, Class.cap 15, Method.cap 10, StaticField.cap 13, RefLocation.cap 8, Export.cap 10, Descriptor.cap 31, p.exp 130 # an imported static method
ConstantPool.cap 05,00,06,00,01,06,81,00,01
Method.cap 07,00,07,00,01,00,8D,00,00,78
RefLocation.cap 09,00,05,00,00,00,01,04
check = ok
jvm call p/T go()Z = event q/A.z()Z, waiting
jvm call p/T go()Z, give 2 = event q/A.z()Z, unfit 1
jvm call p/T go()Z, give 1 = event q/A.z()Z, result 1, done
package lang calls-first = refused 308 calls-first.class p/T <clinit>()V 0
Header.cap absent
package lang two-orders = refused 311 two-orders.class p/T c(S)S 5
Header.cap absent
package lang loads-a-long = refused 303 loads-a-long.class p/T f(S)S 1
Header.cap absent";

/// A folder after the conversion of its files, and whether that said what is wanted.
fn convert(
    alloc: Global,
    shelf: &mut MemShelf,
    words: &str,
    wanted: &str,
) -> Result<bool, NoMemory> {
    *shelf = folder(alloc, words)?;
    Ok(says(alloc, shelf, "convert list out", wanted)? && stand(alloc, shelf, wanted)?)
}

/// Whether a script gives a report of the components.
fn card_runs_so(
    alloc: Global,
    shelf: &mut MemShelf,
    script: &str,
    report: &str,
) -> Result<bool, NoMemory> {
    let script = lines_of(alloc, script)?;
    shelf.add(b"script", script.items())?;
    says(alloc, shelf, "card list out script 30000", report)
}

/// Whether a script gives a report, of the class files and of the components.
fn runs_so(
    alloc: Global,
    shelf: &mut MemShelf,
    script: &str,
    report: &str,
) -> Result<bool, NoMemory> {
    let by_token = card_runs_so(alloc, shelf, script, report)?;
    Ok(by_token && says(alloc, shelf, "jvm list script 10000", report)?)
}

/// Another byte at a place of a written file.
fn change(alloc: Global, shelf: &mut MemShelf, words: &str) -> Result<bool, NoMemory> {
    let (name, words) = cut(words, " ");
    let (place, byte) = cut(words, " ");
    let name = joined(alloc, "out/", name)?;
    let mut bytes = Out::new(alloc);
    bytes.put_slice(shelf.get(name.items()).unwrap_or(b""))?;
    let mut bytes = bytes.finish().into_vec();
    let byte = octets(alloc, byte)?;
    match (bytes.get_mut(number(place)? as usize), byte.first()) {
        (Some(at), Some(byte)) => *at = *byte,
        _ => return Ok(false),
    }
    shelf.add(name.items(), &bytes)?;
    Ok(true)
}

/// Another class file under a name.
fn replace(shelf: &mut MemShelf, words: &str) -> Result<bool, NoMemory> {
    let (name, class) = cut(words, " ");
    shelf.add(name.as_bytes(), class_file(class))?;
    Ok(true)
}

/// Whether what a line says is so.
fn is_so(alloc: Global, shelf: &mut MemShelf, line: &str) -> Result<bool, NoMemory> {
    let (question, wanted) = question_and_answer(line);
    let (word, words) = cut(question, " ");
    match word {
        "package" => convert(alloc, shelf, words, wanted),
        "check" => says(alloc, shelf, "check list out", wanted),
        "jvm" => runs_so(alloc, shelf, words, wanted),
        "card" => card_runs_so(alloc, shelf, words, wanted),
        "change" => change(alloc, shelf, words),
        "class" => replace(shelf, words),
        _ => is_written(alloc, shelf, word, words),
    }
}

/// The first line of which what it says is not so; nothing where there is none.
fn first_wrong(alloc: Global, cases: &'static str) -> &'static str {
    let mut shelf = MemShelf::new(alloc, Row::new(alloc));
    for line in cases.lines() {
        match is_so(alloc, &mut shelf, line) {
            Ok(true) => {}
            _ => return line,
        }
    }
    ""
}

#[test]
fn converts_checks_and_runs(rt: HostRuntime) {
    assert_eq!(rt; first_wrong(rt.alloc(), PACKAGES), "");
}
