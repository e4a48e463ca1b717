//! Rule 735: classes that inherit, from another package of the group, methods that they cannot implement. `linking`
//! asks it. Nothing here knows a place.

ghost use Rattle.std.specs.Prelude.{◌≡◌, option_map, IfOk};
ghost use Rattle.std.specs.List.{find, list_any};
ghost use Rattle.cjc_group.specs.Implementing.{class_file, class_limit, declared_in, is_left_open};
ghost use Rattle.cjc_group.specs.Implementing.{is_no_implementation, is_package_visible, is_selected, is_unimplemented};
ghost use Rattle.cjc_group.specs.Implementing.{lacks_implementation, leaves_open, method_in, selected_in, upwards};

use crate::member::Member;
use cjc_bytes::{NoMemory, Row, is_abstract, is_private, is_protected, is_public, is_static};
use cjc_world::classfile::{ClassTree, MethodTree};
use std::alloc::Global;
use std::marker::Model;

/// A class of the group, with the place of its package.
#[derive(Drop)]
pub(crate) struct Declared<'w, 'a> {
    part: usize,
    class: &'w ClassTree<'a>,
}

impl<'w, 'a> Model for Declared<'w, 'a> {
    ghost use Rattle.cjc_group.specs.Implementing.{Declared as OfGroup};

    ghost Value = { OfGroup };

    ghost view = { λ d. record { part = d.part; class = d.class.now } };
}

impl<'w, 'a> Declared<'w, 'a> {
    fn part(&self) -> usize
        ensures { result ≡ self.now.part }
    {
        self.part
    }

    fn class(&self) -> &'w ClassTree<'a>
        ensures { result.now ≡ self.now.class }
    {
        self.class
    }
}

/// A package's class file of a name.
pub(crate) fn class_file<'w, 'a>(name: &[u8], member: &Member<'w, 'a>) -> Option<&'w ClassTree<'a>>
    ensures { option_map (λ c. c.now) result ≡ class_file name.now member.now }
{
    let world = member.world();
    let class = world.class_named(name)?;
    if class.is_imported() {
        return None;
    }
    world.classes().items().get(class.number() as usize)
}

/// The class of a name in the first package that has it.
#[tactic(auto, using(crate::proofs::Chains::declared_next, crate::proofs::Chains::declared_found, crate::proofs::Chains::declared_ends))]
fn declared_in<'w, 'a>(group: &[Member<'w, 'a>], name: &[u8]) -> Option<Declared<'w, 'a>>
    ensures { result ≡ declared_in group.now name.now }
{
    for (part, member) in group.iter().enumerate() {
        if let Some(class) = class_file(name, member) {
            return Some(Declared { part, class });
        }
    }
    None
}

/// The class of a name and its superclasses, up to the first that is of no package of the group.
fn upwards<'w, 'a>(
    alloc: Global,
    group: &[Member<'w, 'a>],
    name: &'w [u8],
) -> Result<Row<Declared<'w, 'a>>, NoMemory>
    ensures { IfOk result (λ line. line ≡ upwards group.now class_limit name.now) }
{
    let mut line = Row::new(alloc);
    let mut next = name;
    for done in 0..16384u32 {
        match declared_in(group, next) {
            None => return Ok(line),
            Some(class) => {
                next = class.class().superclass.items();
                line.push(class)?;
            }
        }
    }
    Ok(line)
}

fn is_package_visible(flags: u16) -> bool
    ensures { result ≡ is_package_visible flags }
{
    !is_public(flags) && !is_protected(flags) && !is_private(flags)
}

fn is_selected(name: &[u8], desc: &[u8], method: &MethodTree<'_>) -> bool
    ensures { result ≡ is_selected name.now desc.now method.now }
{
    !is_private(method.flags)
        && !is_static(method.flags)
        && method.name.items() == name
        && method.desc.items() == desc
}

fn find_method<'w, 'a>(
    name: &[u8],
    desc: &[u8],
    methods: &'w [MethodTree<'a>],
) -> Option<&'w MethodTree<'a>>
    ensures { option_map (λ m. m.now) result ≡ find (λ m. is_selected name.now desc.now m) methods.now }
{
    methods.iter().find(|m| is_selected(name, desc, m))
}

/// A method that selection may find, of a class that is of this package.
fn method_in<'w, 'a>(
    part: usize,
    name: &[u8],
    desc: &[u8],
    class: &Declared<'w, 'a>,
) -> Option<&'w MethodTree<'a>>
    ensures { option_map (λ m. m.now) result ≡ method_in part name.now desc.now class.now }
{
    if class.part() == part {
        find_method(name, desc, class.class().methods.items())
    } else {
        None
    }
}

/// What selection finds for a package-visible method of a package.
#[tactic(auto, using(crate::proofs::Chains::selected_next, crate::proofs::Chains::selected_found, crate::proofs::Chains::selected_ends))]
fn selected_in<'w, 'a>(
    part: usize,
    name: &[u8],
    desc: &[u8],
    line: &[Declared<'w, 'a>],
) -> Option<&'w MethodTree<'a>>
    ensures { option_map (λ m. m.now) result ≡ selected_in part name.now desc.now line.now }
{
    for class in line {
        if let Some(method) = method_in(part, name, desc, class) {
            return Some(method);
        }
    }
    None
}

fn is_no_implementation(method: Option<&MethodTree<'_>>) -> bool
    ensures { result ≡ is_no_implementation (option_map (λ m. m.now) method.entry) }
{
    match method {
        None => true,
        Some(method) => is_abstract(method.flags),
    }
}

fn is_unimplemented(part: usize, line: &[Declared<'_, '_>], method: &MethodTree<'_>) -> bool
    ensures { result ≡ is_unimplemented part line.now method.now }
{
    is_package_visible(method.flags)
        && is_abstract(method.flags)
        && is_no_implementation(selected_in(part, method.name.items(), method.desc.items(), line))
}

/// Whether one of these methods is so.
fn are_unimplemented(part: usize, line: &[Declared<'_, '_>], methods: &[MethodTree<'_>]) -> bool
    ensures { result ≡ list_any (λ m. is_unimplemented part line.now m) methods.now }
{
    methods.iter().any(|m| is_unimplemented(part, line, m))
}

fn leaves_open(part: usize, line: &[Declared<'_, '_>], class: &Declared<'_, '_>) -> bool
    ensures { result ≡ leaves_open part line.now class.now }
{
    class.part() != part && are_unimplemented(class.part(), line, class.class().methods.items())
}

fn is_left_open(part: usize, line: &[Declared<'_, '_>]) -> bool
    ensures { result ≡ is_left_open part line.now }
{
    line.iter().any(|d| leaves_open(part, line, d))
}

/// Whether a superclass of a class leaves open what only another package than this can implement.
fn inherits_open(
    alloc: Global,
    group: &[Member<'_, '_>],
    part: usize,
    class: &ClassTree<'_>,
) -> Result<bool, NoMemory>
    ensures { IfOk result (λ left. left ≡ is_left_open part (upwards group.now class_limit class.now.superclass)) }
{
    let line = upwards(alloc, group, class.superclass.items())?;
    Ok(is_left_open(part, line.items()))
}

/// 735 of a class of the package at this place.
pub(crate) fn lacks_implementation(
    alloc: Global,
    group: &[Member<'_, '_>],
    part: usize,
    class: &ClassTree<'_>,
) -> Result<bool, NoMemory>
    ensures { IfOk result (λ lacks. lacks ≡ lacks_implementation group.now part class.now) }
{
    if is_abstract(class.flags) {
        return Ok(false);
    }
    inherits_open(alloc, group, part, class)
}
