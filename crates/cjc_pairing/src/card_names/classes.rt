//! The names of classes and of their members, in the order of Class and Descriptor (Java Card Virtual Machine
//! Specification 2.2.2, sections 6.8 and 6.13).

ghost use Rattle.std.specs.Prelude.{◌≡◌, ◌++◌, map, IfOk, OnOk};
ghost use Rattle.std.specs.List.{flat_map};
ghost use Rattle.cjc_card_link.specs.World.Classes.{all_classes};
ghost use Rattle.cjc_card_link.specs.World.Order.{class_order};
ghost use Rattle.cjc_card_link.specs.Names.{class_names_of};
ghost use Rattle.cjc_classes.specs.LowerComponents.Paired.Naming.{class_names};
ghost use Rattle.cjc_pairing.specs.CardNames.Working.Classes.{names_at, names_of};

use crate::card_names::fields::field_names;
use crate::card_names::methods::{interface_names, method_names};
use cjc_card_link::ClassNames;
use cjc_card_link::classfile::ClassTree;
use cjc_classes::bytes::{Bytes, NoMemory, Row};
use cjc_classes::class_order::classes::class_order;
use cjc_classes::tokens::Tokens;
use cjc_classes::world::World;
use std::alloc::Global;

/// The names of the class of a number.
fn names_of(
    alloc: Global,
    world: &World<'_>,
    tokens: &Tokens,
    number: u32,
    class: &ClassTree<'_>,
) -> Result<ClassNames, NoMemory>
    ensures { IfOk result (λ names. class_names_of names ≡ names_of world.now tokens.now number class.now) }
{
    let name = Bytes::copy_of(alloc, class.name.items())?;
    let methods = method_names(alloc, class)?;
    let fields = field_names(alloc, tokens, number, class)?;
    let interface_methods = interface_names(alloc, world, number, class)?;
    Ok(ClassNames {
        name,
        methods,
        fields,
        interface_methods,
    })
}

/// Puts the names of the class of a number at the end, where there is one.
fn put_class(
    alloc: Global,
    names: &mut Row<ClassNames>,
    world: &World<'_>,
    tokens: &Tokens,
    number: u32,
) -> Result<(), NoMemory>
    ensures { OnOk result (map class_names_of names.new ≡ map class_names_of names.old
        ++ names_at world.now tokens.now number) }
{
    match world.classes().items().get(number as usize) {
        Some(class) => names.push(names_of(alloc, world, tokens, number, class)?),
        None => Ok(()),
    }
}

fn put_classes(
    alloc: Global,
    names: &mut Row<ClassNames>,
    world: &World<'_>,
    tokens: &Tokens,
    numbers: &[u32],
) -> Result<(), NoMemory>
    ensures { OnOk result (map class_names_of names.new ≡ map class_names_of names.old
        ++ flat_map (names_at world.now tokens.now) numbers.now) }
{
    for number in numbers {
        put_class(alloc, names, world, tokens, *number)?;
    }
    Ok(())
}

/// The names of the classes and interfaces of a package that has these tokens, in the order of Class: the
/// methods of each as Descriptor lists them, its instance fields by token, and of an interface its methods by
/// token.
pub fn class_names(
    alloc: Global,
    world: &World<'_>,
    tokens: &Tokens,
) -> Result<Row<ClassNames>, NoMemory>
    ensures { IfOk result (λ names. map class_names_of names ≡ map (class_names world.now tokens.now)
        (class_order (all_classes world.now))) }
{
    let interfaces = class_order(alloc, world, true)?;
    let classes = class_order(alloc, world, false)?;
    let mut names = Row::new(alloc);
    put_classes(alloc, &mut names, world, tokens, interfaces.items())?;
    put_classes(alloc, &mut names, world, tokens, classes.items())?;
    Ok(names)
}
