//! The way upwards from a class, by the supers that export files list. Each name is looked at once.

ghost use Rattle.std.specs.Prelude.{◌≡◌, ◌||◌, ◌++◌, ◌∷◌, [], ℕ, List, suc, Some, None, true, false, IfOk, OnOk};
ghost use Rattle.std.specs.Prelude.{if◌then◌else◌};
ghost use Rattle.std.specs.Str.{bytes_eq};
ghost use Rattle.cjc_card_semantics.specs.Machine.Classes.{or_else};
ghost use Rattle.cjc_card_calls.specs.Files.Climbs.{climbed};
ghost use Rattle.cjc_card_calls.specs.Files.Files.{classes_at, line_of};
ghost use Rattle.cjc_card_calls.specs.Files.Named.{is_passed, mark_under};

use crate::files::named::Named;
use crate::files::steps::sum;
use cjc_card_frame::jvm_step::frame::Pile;
use cjc_card_link::Name;
use cjc_card_semantics::bytes::{Bytes, NoMemory, Row};
use cjc_card_semantics::export_file::ExportClass;
use std::alloc::Global;
use std::collections::HashMap;

/// Names that were passed.
#[derive(Drop)]
pub(crate) struct Passed<'a> {
    kept: HashMap<Name<'a>, bool>,
}

impl<'a> Passed<'a> {
    // None yet.
    fn new(alloc: Global) -> Passed<'a>
        ensures { (x : List ℕ) → is_passed result x ≡ false }
    {
        Passed {
            kept: HashMap::new(alloc),
        }
    }

    // Whether a name was passed.
    fn has(&self, name: &[u8]) -> bool
        ensures { result ≡ is_passed self.now name.now }
    {
        self.kept.get(&Name { bytes: name }).is_some()
    }

    // Keeps a name.
    fn keep(&mut self, name: &'a [u8]) -> Result<(), NoMemory>
        ensures { OnOk result ((x : List ℕ) → mark_under self.new x ≡ or_else (mark_under self.old x)
            (if bytes_eq name.now x then Some true else None)) }
    {
        match self.kept.get(&Name { bytes: name }).copied() {
            Some(_) => Ok(()),
            None => {
                self.kept.insert(Name { bytes: name }, true)?;
                Ok(())
            }
        }
    }

    // A name is passed.
    fn note(&mut self, name: &'a [u8]) -> Result<(), NoMemory>
        ensures { OnOk result ((x : List ℕ) → is_passed self.new x ≡ bytes_eq name.now x || is_passed self.old x) }
    {
        self.keep(name)?;
        Ok(())
    }
}

/// On the way upwards: the classes that were met, the names that were passed, and those that are left to be looked at.
#[derive(Drop)]
pub(crate) struct Climb<'a> {
    line: Vec<&'a ExportClass>,
    passed: Passed<'a>,
    left: Pile<Name<'a>>,
}

// Puts names on top, the first of them last.
fn put_names<'a>(left: &mut Pile<Name<'a>>, names: &'a [Bytes]) -> Result<(), NoMemory>
    ensures { OnOk result (left.new ≡ names.now ++ left.old) }
{
    let count = names.len();
    for done in 0..count {
        let bytes = names[count - 1 - done].items();
        left.push(Name { bytes })?;
    }
    Ok(())
}

// A class alone, whose supers are left.
fn begin<'a>(alloc: Global, class: &'a ExportClass) -> Result<Climb<'a>, NoMemory>
    ensures line { IfOk result (λ climb. climb.line.items ≡ class.entry ∷ []) }
    ensures passed { IfOk result (λ climb. (x : List ℕ) → is_passed climb.passed x ≡ false) }
    ensures left { IfOk result (λ climb. climb.left ≡ class.now.supers) }
{
    let mut line = Vec::new(alloc);
    line.push(class)?;
    let mut left = Pile::new(alloc);
    put_names(&mut left, class.supers.items())?;
    Ok(Climb {
        line,
        passed: Passed::new(alloc),
        left,
    })
}

// The classes that were met.
fn into_line<'a>(climb: Climb<'a>) -> Row<&'a ExportClass>
    ensures { result ≡ climb.entry.line.items }
{
    let Climb {
        line,
        passed: _passed,
        left: _left,
    } = climb;
    Row::of(line)
}

// Puts a class at the end, and its supers on top.
fn meet<'a>(climb: &mut Climb<'a>, class: &'a ExportClass) -> Result<(), NoMemory>
    ensures line { OnOk result (climb.new.line.items ≡ climb.old.line.items ++ class.entry ∷ []) }
    ensures left { OnOk result (climb.new.left ≡ class.now.supers ++ climb.old.left) }
    ensures passed { OnOk result (climb.new.passed ≡ climb.old.passed) }
{
    climb.line.push(class)?;
    put_names(&mut climb.left, class.supers.items())?;
    Ok(())
}

// One step upwards.
fn step<'a>(names: &Named<'a>, climb: &mut Climb<'a>) -> Result<(), NoMemory>
    ensures { OnOk result ((n : ℕ) → climbed names.now n climb.new ≡ climbed names.now (suc n) climb.old) }
{
    match climb.left.pop() {
        None => Ok(()),
        Some(name) => {
            if climb.passed.has(name.bytes) {
                return Ok(());
            }
            climb.passed.note(name.bytes)?;
            match names.class(name.bytes) {
                None => Ok(()),
                Some(class) => meet(climb, class),
            }
        }
    }
}

/// A class, and what stands above it.
pub(crate) fn line<'a>(
    alloc: Global,
    names: &Named<'a>,
    class: &'a ExportClass,
) -> Result<Row<&'a ExportClass>, NoMemory>
    ensures { IfOk result (λ line. classes_at line ≡ line_of names.now class.now) }
{
    let steps = sum(class.supers.items().len() as u64, names.super_count())?;
    let mut climb = begin(alloc, class)?;
    for done in 0..steps {
        if climb.left.len() == 0 {
            return Ok(into_line(climb));
        }
        step(names, &mut climb)?;
    }
    Ok(into_line(climb))
}
