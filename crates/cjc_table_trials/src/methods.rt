//! One method for each case of the rules, and what some rows of tables hold. A case has the descriptor of a static
//! method, max_stack, max_locals, the bytes of its code, and maybe ` catch ` and where a handler of everything begins,
//! ends and goes; then ` = ` and what is answered, and maybe ` # ` and why.

ghost use Rattle.std.specs.Prelude.{IfOk};
ghost use Rattle.cjc_types.specs.Tables.{IsOfPackage};

use crate::words::{cut, is_number, number, octet, question_and_answer, small_number};
use cjc_bytes::{Bytes, Fault, FileLine, NoMemory, Row};
use cjc_cases::pool;
use cjc_classfile::{Catch, ClassTree, Code, MethodTree};
use cjc_code::{MethodCode, decode};
use cjc_export::{ExportClass, ExportTree};
use cjc_types::{Cell, Frame, Method, TypeTable, TypeWalk, infer};
use cjc_world::World;
use std::alloc::Global;
use std::test::*;

/// The classes of java/lang that are needed, each with its supers.
const LANGUAGE: &str = "\
java/lang/Object -
java/lang/Throwable java/lang/Object
java/lang/ArrayIndexOutOfBoundsException java/lang/Throwable,java/lang/Object
java/lang/ArrayStoreException java/lang/Throwable,java/lang/Object
java/lang/NegativeArraySizeException java/lang/Throwable,java/lang/Object
java/lang/ArithmeticException java/lang/Throwable,java/lang/Object
java/lang/ClassCastException java/lang/Throwable,java/lang/Object
java/lang/NullPointerException java/lang/Throwable,java/lang/Object";

/// The classes of the package, each with its flags and interfaces. p/T has the method.
const PACKAGE: &str = "\
p/T 1 -
p/M 1 p/I
p/N 1 p/I
p/I 1537 -";

/// What the codes below name, from index 1 on.
const POOL: &str = "\
class p/M
class java/lang/Object
class [S
field p/T f S
field p/T o Lp/M;
method p/M v ()V
method p/T s (SLp/M;)S
interface p/I i ()V
method p/T q ()V
method java/lang/Object w ()V
method p/M <init> ()V";

/// A static method: its descriptor, max_stack, max_locals, and the code with at most one handler of everything.
#[derive(Clone, Copy)]
struct TestMethod<'t> {
    desc: &'t str,
    max_stack: u16,
    max_locals: u16,
    code: &'t [u8],
    catch: &'t str,
}

fn text(alloc: Global, word: &str) -> Result<Bytes, NoMemory> {
    Bytes::copy_of(alloc, word.as_bytes())
}

fn texts(alloc: Global, words: &str) -> Result<Row<Bytes>, NoMemory> {
    let mut row = Row::new(alloc);
    if words != "-" {
        for word in words.split(",") {
            row.push(text(alloc, word)?)?;
        }
    }
    Ok(row)
}

fn imported(alloc: Global, words: &str) -> Result<ExportClass, NoMemory> {
    let (name, supers) = cut(words, " ");
    Ok(ExportClass {
        token: 0,
        flags: 1,
        name: text(alloc, name)?,
        supers: texts(alloc, supers)?,
        interfaces: Row::new(alloc),
        fields: Row::new(alloc),
        methods: Row::new(alloc),
    })
}

fn language(alloc: Global) -> Result<ExportTree, NoMemory> {
    let mut classes = Row::new(alloc);
    for line in LANGUAGE.lines() {
        classes.push(imported(alloc, line)?)?;
    }
    Ok(ExportTree {
        name: text(alloc, "java/lang")?,
        aid: Bytes::new(alloc),
        major: 1,
        minor: 0,
        library: true,
        classes,
    })
}

/// The handler of these words: where it begins, ends and goes.
fn handler(words: &str) -> Result<Catch, NoMemory> {
    let (start, words) = cut(words, " ");
    let (end, target) = cut(words, " ");
    Ok(Catch {
        start: small_number(start)?,
        end: small_number(end)?,
        target: small_number(target)?,
        class: None,
    })
}

fn catches(alloc: Global, words: &str) -> Result<Row<Catch>, NoMemory> {
    let mut catches = Row::new(alloc);
    if !words.is_empty() {
        catches.push(handler(words)?)?;
    }
    Ok(catches)
}

/// The method of a draft.
fn drafted<'t>(alloc: Global, draft: TestMethod<'t>) -> Result<MethodTree<'t>, NoMemory> {
    Ok(MethodTree {
        flags: 9,
        name: text(alloc, "m")?,
        desc: text(alloc, draft.desc)?,
        code: Some(Code {
            max_stack: draft.max_stack,
            max_locals: draft.max_locals,
            bytes: draft.code,
            catches: catches(alloc, draft.catch)?,
        }),
    })
}

/// A private method without code, which some codes name.
fn private<'t>(alloc: Global) -> Result<MethodTree<'t>, NoMemory> {
    Ok(MethodTree {
        flags: 2,
        name: text(alloc, "q")?,
        desc: text(alloc, "()V")?,
        code: None,
    })
}

/// The methods of a class: p/T alone has some.
fn methods<'t>(
    alloc: Global,
    class: &str,
    draft: TestMethod<'t>,
) -> Result<Row<MethodTree<'t>>, NoMemory> {
    let mut methods = Row::new(alloc);
    if class == "p/T" {
        methods.push(drafted(alloc, draft)?)?;
        methods.push(private(alloc)?)?;
    }
    Ok(methods)
}

fn class<'t>(alloc: Global, line: &str, draft: TestMethod<'t>) -> Result<ClassTree<'t>, NoMemory> {
    let (name, words) = cut(line, " ");
    let (flags, interfaces) = cut(words, " ");
    Ok(ClassTree {
        major: 52,
        flags: small_number(flags)?,
        name: text(alloc, name)?,
        superclass: text(alloc, "java/lang/Object")?,
        interfaces: texts(alloc, interfaces)?,
        pool: pool(alloc, POOL)?,
        fields: Row::new(alloc),
        methods: methods(alloc, name, draft)?,
    })
}

fn classes<'t>(alloc: Global, draft: TestMethod<'t>) -> Result<Row<ClassTree<'t>>, NoMemory> {
    let mut classes = Row::new(alloc);
    for line in PACKAGE.lines() {
        classes.push(class(alloc, line, draft)?)?;
    }
    Ok(classes)
}

fn line(alloc: Global, class_file: bool, name: &str) -> Result<FileLine, NoMemory> {
    Ok(FileLine {
        class_file,
        name: text(alloc, name)?,
    })
}

/// The lines of the list for the files of the package.
fn lines(alloc: Global) -> Result<Row<FileLine>, NoMemory> {
    let mut lines = Row::new(alloc);
    for _ in 0..4 {
        lines.push(line(alloc, true, "a class file")?)?;
    }
    lines.push(line(alloc, false, "an export file")?)?;
    Ok(lines)
}

fn exports(alloc: Global) -> Result<Row<ExportTree>, NoMemory> {
    let mut exports = Row::new(alloc);
    exports.push(language(alloc)?)?;
    Ok(exports)
}

/// A package of p/T, which has the method, and of p/M and p/N, which both implement p/I.
fn package<'t>(alloc: Global, draft: TestMethod<'t>) -> Result<World<'t>, Fault> {
    let lines = lines(alloc)?;
    let classes = classes(alloc, draft)?;
    let exports = exports(alloc)?;
    World::new(alloc, b"list", b"p", lines, classes, exports)
}

/// The code of the first method of the first class; where there is none, the answer is the same as for want of memory.
fn first_code(alloc: Global, world: &World<'_>) -> Result<MethodCode, Fault>
    ensures { IfOk result (λ code. IsOfPackage world.now code) }
{
    let class = match world.classes().items().get(0) {
        Some(class) => class,
        None => return Err(Fault::NoMemory),
    };
    let method = match class.methods.items().get(0) {
        Some(method) => method,
        None => return Err(Fault::NoMemory),
    };
    let code = match &method.code {
        Some(code) => code,
        None => return Err(Fault::NoMemory),
    };
    if code.bytes.len() > 65535 || method.desc.items().len() > 65535 {
        return Err(Fault::NoMemory);
    }
    let insns = decode(alloc, b"T.class", class, 0)?;
    Ok(MethodCode {
        class: 0,
        method: 0,
        insns,
    })
}

fn types(alloc: Global, draft: TestMethod<'_>) -> Result<TypeTable, Fault> {
    let world = package(alloc, draft)?;
    let code = first_code(alloc, &world)?;
    infer(alloc, b"T.class", &world, &code)
}

/// The bytes of a code.
fn bytes_of(alloc: Global, words: &str) -> Result<Vec<u8>, NoMemory> {
    let mut bytes = Vec::new(alloc);
    for word in words.split(" ") {
        bytes.push(octet(word)?)?;
    }
    Ok(bytes)
}

/// The rule and the offset of the refusal, or `well` where there is none.
fn is_answer(answer: Result<TypeTable, Fault>, wanted: &str) -> bool {
    let (rule, offset) = cut(wanted, " ");
    match answer {
        Ok(_) => wanted == "well",
        Err(Fault::Refused(refusal)) => {
            is_number(rule, refusal.rule.0 as u32) && is_number(offset, refusal.place.offset)
        }
        Err(Fault::NoMemory) => false,
    }
}

/// The words of the bytes of a method's code, and those of its handler.
fn code_and_catch(method: &str) -> (&str, &str) {
    let (_, words) = cut(method, " ");
    let (_, words) = cut(words, " ");
    let (_, words) = cut(words, " ");
    cut(words, " catch ")
}

/// A method of these words, whose code has these bytes.
fn draft_of<'t>(method: &'t str, code: &'t [u8]) -> Result<TestMethod<'t>, NoMemory> {
    let (desc, words) = cut(method, " ");
    let (max_stack, words) = cut(words, " ");
    let (max_locals, _) = cut(words, " ");
    let (_, catch) = code_and_catch(method);
    Ok(TestMethod {
        desc,
        max_stack: small_number(max_stack)?,
        max_locals: small_number(max_locals)?,
        code,
        catch,
    })
}

fn is_answered(alloc: Global, case: &str) -> Result<bool, NoMemory> {
    let (method, wanted) = question_and_answer(case);
    let (words, _) = code_and_catch(method);
    let code = bytes_of(alloc, words)?;
    let draft = draft_of(method, code.as_slice())?;
    Ok(is_answer(types(alloc, draft), wanted))
}

/// The first case that is answered otherwise; nothing where there is none.
fn first_wrong(alloc: Global, cases: &str) -> &str {
    for case in cases.lines() {
        match is_answered(alloc, case) {
            Ok(true) => {}
            _ => return case,
        }
    }
    ""
}

/// Stacks: different heights, too high, too low.
const STACKS: &str = "\
(S)S 2 1 1A 99 00 04 04 03 AC = 501 5
(S)V 1 1 1A 99 00 04 04 B1 = 501 5 # no way leaves the clash
()S 1 0 04 04 AC = 503 1
()S 1 0 04 60 AC = 503 1
()V 1 0 57 B1 = 503 0
()V 0 0 A7 00 04 B1 B1 catch 0 3 3 = 503 3 # an exception in a method without an operand stack";

/// Numbers and references.
const KINDS: &str = "\
()S 1 0 01 AC = 502 1
(Lp/M;)V 1 1 1A 57 B1 = 502 0
(S)V 1 1 2A 57 B1 = 502 0
(J)V 1 1 2A 57 B1 = 502 0
(Lp/M;)V 0 1 84 00 01 B1 = 502 0
(Lp/M;)V 1 1 2A 3B B1 = 502 1
(S)V 1 1 1A 4B B1 = 502 1
()S 2 0 04 01 60 AC = 502 2
()S 1 0 01 74 AC = 502 1
()S 1 0 01 91 AC = 502 1
()V 1 0 01 99 00 03 B1 = 502 1
()V 2 0 04 01 9F 00 03 B1 = 502 2
()V 1 0 04 C6 00 03 B1 = 502 1
()V 2 0 01 04 A5 00 03 B1 = 502 2
()V 1 0 01 AB 00 00 00 00 00 0B 00 00 00 00 B1 = 502 1
()V 1 0 01 AA 00 00 00 00 00 13 00 00 00 00 00 00 00 00 00 00 00 13 B1 = 502 1
()V 1 0 01 BC 09 57 B1 = 502 1
()V 1 0 01 BD 00 02 57 B1 = 502 1
()V 1 0 04 C0 00 01 57 B1 = 502 1
()V 1 0 04 C1 00 01 57 B1 = 502 1
()V 1 0 04 BF = 502 1";

/// Arrays.
const ARRAYS: &str = "\
(Lp/M;)V 1 1 2A BE 57 B1 = 502 1
([B)V 2 1 2A 03 35 57 B1 = 502 2
([S)V 2 1 2A 01 35 57 B1 = 502 2
([S)V 2 1 2A 03 32 57 B1 = 502 2
([S)V 2 1 2A 03 2E 57 B1 = 502 2
([S)V 2 1 2A 03 33 57 B1 = 502 2
([Z)V 2 1 2A 03 33 57 B1 = well
([S)V 3 1 2A 03 01 56 B1 = 502 3
([Lp/M;)V 3 1 2A 03 04 53 B1 = 502 3
([Lp/M;Lp/N;)V 3 2 2A 03 2B 53 B1 = well";

/// Classes, receivers and results.
const CLASSES: &str = "\
(Lp/M;)V 1 1 2A BF = 502 1
(Lp/M;)V 1 1 2A B4 00 04 57 B1 = 502 1
(Lp/M;)V 2 1 2A 04 B5 00 04 B1 = 502 2
(Lp/T;)V 2 1 2A 01 B5 00 04 B1 = 502 2
(Lp/T;)V 2 1 2A 04 B5 00 04 B1 = well
()V 1 0 04 B3 00 05 B1 = 502 1
()V 1 0 01 B3 00 05 B1 = well
(Lp/N;)V 1 1 2A B6 00 06 B1 = 502 1
(Lp/N;)V 2 1 04 2A B8 00 07 57 B1 = 502 2
(Lp/M;)V 2 1 01 2A B8 00 07 57 B1 = 502 2
(Lp/M;)V 2 1 04 2A B8 00 07 57 B1 = well
(Ljava/lang/Object;)V 1 1 2A B9 00 08 01 00 B1 = 502 1
(Lp/M;)V 1 1 2A B7 00 0A B1 = 502 1 # by super: of the class itself
(Lp/T;)V 1 1 2A B7 00 0A B1 = well
(Lp/T;)V 1 1 2A B7 00 09 B1 = well # private
()V 2 0 BB 00 01 59 B7 00 0B 57 B1 = well # a constructor of another class
()S 0 0 B1 = 502 0
()V 1 0 04 AC = 502 1
()J 1 0 04 AC = 502 1
(Lp/N;)Lp/M; 1 1 2A B0 = 502 1";

#[test]
fn stacks_have_one_height_and_their_room(rt: HostRuntime) {
    assert_eq!(rt; first_wrong(rt.alloc(), STACKS), "");
}

#[test]
fn operands_are_of_their_kind(rt: HostRuntime) {
    assert_eq!(rt; first_wrong(rt.alloc(), KINDS), "");
}

#[test]
fn arrays_hold_what_is_loaded_and_stored(rt: HostRuntime) {
    assert_eq!(rt; first_wrong(rt.alloc(), ARRAYS), "");
}

#[test]
fn receivers_and_results_are_of_their_class(rt: HostRuntime) {
    assert_eq!(rt; first_wrong(rt.alloc(), CLASSES), "");
}

/// What is known before an instruction of a method: ` at `, the number of the instruction, and `local` for the first
/// local, `top` for the top of the stack or `frame` for whether there is a frame. A cell is a reference of the types
/// that are answered.
const FRAMES: &str = "\
(ZLp/N;Lp/M;)V 2 3 1A 99 00 07 2B A7 00 04 2C 4B 2A B9 00 08 01 00 B1 at 6 local = p/M p/N # they share an interface
(ZLp/M;[S)V 2 3 1A 99 00 07 2B A7 00 04 2C 4B 2A 57 B1 at 6 local = [S p/M # an array beside a class
([[Lp/M;)V 2 1 2A 03 32 03 32 57 B1 at 3 top = [Lp/M;
([[Lp/M;)V 2 1 2A 03 32 03 32 57 B1 at 5 top = p/M
([SLp/N;Lp/M;)V 2 3 2B 4B 00 00 2C 4B 00 B1 57 B1 catch 2 8 8 at 8 local = p/M p/N # what the covered ones knew
()V 2 0 B1 B1 at 0 frame = there
()V 2 0 B1 B1 at 1 frame = none";

/// Whether the cell is a reference of these types.
fn is_refs(cell: Option<&Cell>, names: &str) -> bool {
    let types = match cell {
        Some(Cell::Refs(types)) => types.items(),
        _ => return false,
    };
    let mut rest = names;
    for name in types {
        let (wanted, more) = cut(rest, " ");
        if name.items() != wanted.as_bytes() {
            return false;
        }
        rest = more;
    }
    rest.is_empty()
}

/// Whether a frame has what is wanted.
fn is_known(frame: &Option<Frame>, of: &str, wanted: &str) -> bool {
    let frame = match frame {
        Some(frame) => frame,
        None => return of == "frame" && wanted == "none",
    };
    match of {
        "local" => is_refs(frame.locals.items().first(), wanted),
        "top" => is_refs(frame.stack.get(0), wanted),
        "frame" => wanted == "there",
        _ => false,
    }
}

/// Goes on by so many instructions.
fn go_on(alloc: Global, walk: &mut TypeWalk<'_>, count: u32) -> Result<(), NoMemory> {
    for _ in 0..count {
        if let Some(_) = walk.place() {
            walk.advance(alloc)?;
        }
    }
    Ok(())
}

/// Whether the frame before an instruction of a method has what is wanted.
fn has(alloc: Global, draft: TestMethod<'_>, spot: &str, wanted: &str) -> Result<bool, Fault> {
    let (at, of) = cut(spot, " ");
    let world = package(alloc, draft)?;
    let code = first_code(alloc, &world)?;
    let types = infer(alloc, b"T.class", &world, &code)?;
    let method = Method::new(&world, &code);
    let mut walk = TypeWalk::new(&method, &types);
    go_on(alloc, &mut walk, number(at)?)?;
    match walk.place() {
        Some(_) => Ok(is_known(walk.frame(), of, wanted)),
        None => Ok(false),
    }
}

fn is_had(alloc: Global, case: &str) -> Result<bool, Fault> {
    let (question, wanted) = question_and_answer(case);
    let (method, spot) = cut(question, " at ");
    let (words, _) = code_and_catch(method);
    let code = bytes_of(alloc, words)?;
    let draft = draft_of(method, code.as_slice())?;
    has(alloc, draft, spot, wanted)
}

/// The first case whose frame has something else; nothing where there is none.
fn first_other(alloc: Global, cases: &str) -> &str {
    for case in cases.lines() {
        match is_had(alloc, case) {
            Ok(true) => {}
            _ => return case,
        }
    }
    ""
}

#[test]
fn frames_are_known(rt: HostRuntime) {
    assert_eq!(rt; first_other(rt.alloc(), FRAMES), "");
}
