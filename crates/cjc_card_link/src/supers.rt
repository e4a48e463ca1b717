//! What stands above a class: its superclass and superinterfaces, and all that stand above those (Java Card Virtual
//! Machine Specification 2.2.2, sections 5.7, 6.8 and 7.5). Each class above is met once.

ghost use Rattle.std.specs.Prelude.{◌≡◌, ◌++◌, ◌∷◌, [], ℕ, suc, Some, map, option_map, option_to_list, IfOk, OnOk};
ghost use Rattle.cjc_card_semantics.specs.Machine.Classes.{IsClass, all_supers, class_of as class_by_ref};
ghost use Rattle.cjc_card_semantics.specs.Machine.Classes.{external_named, object_above, object_class, some_of, steps};
ghost use Rattle.cjc_card_semantics.specs.Machine.Classes.{supers, upwards};
ghost use Rattle.cjc_card_frame.specs.Objects.{class_of};
ghost use Rattle.cjc_card_link.specs.Infos.{info_by};
ghost use Rattle.cjc_card_link.specs.Climbs.{AreMet, climbed};
ghost use Rattle.cjc_card_link.specs.Tables.{AreKept, loaded_of};

use crate::infos::Info;
use crate::met::Met;
use crate::tables::Tables;
use cjc_card_frame::heap::Class;
use cjc_card_frame::jvm_step::frame::Pile;
use cjc_card_semantics::capread::{ClassEntry, ClassRef, ImplementedInterface};
use cjc_check_index::bytes::{Bytes, NoMemory, Row};
use std::alloc::Global;

/// On the way upwards: the classes that were met, in their order, and those that are left to be looked at.
#[derive(Drop)]
pub(crate) struct Climb {
    line: Vec<Class>,
    met: Met,
    left: Pile<Class>,
}

// Puts a class on top, where there is one.
fn put_some(left: &mut Pile<Class>, class: Option<Class>) -> Result<(), NoMemory>
    ensures { OnOk result (map class_of left.new ≡ option_to_list (option_map class_of class)
        ++ map class_of left.old) }
{
    match class {
        Some(class) => {
            left.push(class)?;
            Ok(())
        }
        None => Ok(()),
    }
}

// Before the first step.
fn begin(alloc: Global, class: Class) -> Result<Climb, NoMemory>
    ensures met { IfOk result (λ climb. AreMet climb) }
    ensures line { IfOk result (λ climb. climb.line.items ≡ []) }
    ensures left { IfOk result (λ climb. climb.left ≡ class ∷ []) }
{
    let mut left = Pile::new(alloc);
    left.push(class)?;
    Ok(Climb {
        line: Vec::new(alloc),
        met: Met::new(alloc),
        left,
    })
}

// The classes that were met.
fn line_of(climb: Climb) -> Row<Class>
    ensures { result ≡ climb.line.items }
{
    let Climb {
        line,
        met: _met,
        left: _left,
    } = climb;
    Row::of(line)
}

// Keeps a class that was not met.
fn meet(climb: &mut Climb, class: Class) -> Result<(), NoMemory>
    requires { AreMet climb.old }
    ensures met { OnOk result (AreMet climb.new) }
    ensures line { OnOk result (climb.new.line.items ≡ climb.old.line.items ++ (class ∷ [])) }
    ensures left { OnOk result (climb.new.left ≡ climb.old.left) }
{
    climb.met.note(class)?;
    climb.line.push(class)?;
    Ok(())
}

impl<'a> Tables<'a> {
    /// java/lang/Object.
    pub fn object_class(&self) -> Option<Class>
        requires { AreKept self.now }
        ensures { option_map class_of result ≡ object_class (loaded_of self.now) }
    {
        self.class_named(b"java/lang/Object")
    }

    // Puts the classes of class_refs on top, the first of them last.
    fn put_refs(&self, left: &mut Pile<Class>, part: u32, refs: &[ClassRef]) -> Result<(), NoMemory>
        requires { AreKept self.now }
        ensures { OnOk result (map class_of left.new ≡ some_of (map (class_by_ref (loaded_of self.now) part) refs.now)
            ++ map class_of left.old) }
    {
        let count = refs.len();
        for done in 0..count {
            put_some(left, self.class_in(part, refs[count - 1 - done]))?;
        }
        Ok(())
    }

    // Puts the interfaces of a class on top, the first of them last.
    fn put_maps(
        &self,
        left: &mut Pile<Class>,
        part: u32,
        maps: &[ImplementedInterface],
    ) -> Result<(), NoMemory>
        requires { AreKept self.now }
        ensures { OnOk result (map class_of left.new
            ≡ some_of (map (λ m. class_by_ref (loaded_of self.now) part m.interface) maps.now)
            ++ map class_of left.old) }
    {
        let count = maps.len();
        for done in 0..count {
            put_some(left, self.class_in(part, maps[count - 1 - done].interface))?;
        }
        Ok(())
    }

    // Puts imported classes on top, the first of them last.
    fn put_names(&self, left: &mut Pile<Class>, names: &[Bytes]) -> Result<(), NoMemory>
        ensures { OnOk result (map class_of left.new ≡ some_of (map (external_named (loaded_of self.now)) names.now)
            ++ map class_of left.old) }
    {
        let count = names.len();
        for done in 0..count {
            put_some(left, self.external_named(names[count - 1 - done].items()))?;
        }
        Ok(())
    }

    // Puts on top what a class lists.
    fn put_class(
        &self,
        left: &mut Pile<Class>,
        part: u32,
        entry: &ClassEntry,
    ) -> Result<(), NoMemory>
        requires { AreKept self.now }
        ensures { OnOk result (map class_of left.new
            ≡ (some_of (map (class_by_ref (loaded_of self.now) part) (all_supers (Some (IsClass entry.now))))
            ++ object_above (loaded_of self.now) (Some (IsClass entry.now))) ++ map class_of left.old) }
    {
        self.put_maps(left, part, entry.interfaces.items())?;
        put_some(left, self.class_in(part, entry.superclass))
    }

    // Puts on top what an info lists, an interface's java/lang/Object below it.
    fn put_info(
        &self,
        left: &mut Pile<Class>,
        part: u32,
        info: Option<Info<'_>>,
    ) -> Result<(), NoMemory>
        requires { AreKept self.now }
        ensures { OnOk result (map class_of left.new
            ≡ (some_of (map (class_by_ref (loaded_of self.now) part) (all_supers (option_map info_by info.entry)))
            ++ object_above (loaded_of self.now) (option_map info_by info.entry)) ++ map class_of left.old) }
    {
        match info {
            None => Ok(()),
            Some(Info::IsInterface(entry)) => {
                put_some(left, self.object_class())?;
                self.put_refs(left, part, entry.superinterfaces.items())
            }
            Some(Info::IsClass(entry)) => self.put_class(left, part, entry),
        }
    }

    // Puts what stands directly above a class on top.
    fn put_supers(&self, left: &mut Pile<Class>, class: Class) -> Result<(), NoMemory>
        requires { AreKept self.now }
        ensures { OnOk result (map class_of left.new ≡ supers (loaded_of self.now) (class_of class)
            ++ map class_of left.old) }
    {
        match class {
            Class::Own(part, offset) => {
                self.put_info(left, part, self.info(part, u64::from(offset)))
            }
            Class::External(tree, token) => match self.external(tree, token) {
                None => Ok(()),
                Some(class) => {
                    self.put_names(left, class.interfaces.items())?;
                    self.put_names(left, class.supers.items())
                }
            },
        }
    }

    // One step upwards.
    fn step(&self, climb: &mut Climb) -> Result<(), NoMemory>
        requires tables { AreKept self.now }
        requires met { AreMet climb.old }
        ensures met { OnOk result (AreMet climb.new) }
        ensures step { OnOk result ((n : ℕ) → climbed (loaded_of self.now) n climb.new ≡ climbed (loaded_of self.now)
            (suc n) climb.old) }
    {
        match climb.left.pop() {
            None => Ok(()),
            Some(class) => {
                if climb.met.has(class) {
                    return Ok(());
                }
                meet(climb, class)?;
                self.put_supers(&mut climb.left, class)
            }
        }
    }

    /// A class, and what stands above it, in so many steps as reach all.
    pub fn upwards(&self, alloc: Global, count: u64, class: Class) -> Result<Row<Class>, NoMemory>
        requires tables { AreKept self.now }
        requires count { count ≡ steps (loaded_of self.now) }
        ensures { IfOk result (λ line. map class_of line ≡ upwards (loaded_of self.now) (class_of class)) }
    {
        let mut climb = begin(alloc, class)?;
        for done in 0..count {
            if climb.left.len() == 0 {
                return Ok(line_of(climb));
            }
            self.step(&mut climb)?;
        }
        Ok(line_of(climb))
    }
}
