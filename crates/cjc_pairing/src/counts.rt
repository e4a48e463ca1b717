//! How many methods the classes of a package have, those that they got counted, in the order of Descriptor
//! (Java Card Virtual Machine Specification 2.2.2, section 6.13).

ghost use Rattle.std.specs.Prelude.{◌≡◌, ◌+◌, ◌++◌, ◌<◌, length, map, count_by, IfOk, OnOk};
ghost use Rattle.std.specs.List.{flat_map};
ghost use Rattle.cjc_card_link.specs.World.Classes.{all_classes};
ghost use Rattle.cjc_card_link.specs.World.Order.{class_order, methods_of_class};
ghost use Rattle.cjc_pairing.specs.Working.Counts.{count_at, count_in, is_written};

use cjc_card_link::classfile::{ClassTree, MethodTree};
use cjc_classes::bytes::{NoMemory, Row};
use cjc_classes::class_order::classes::class_order;
use cjc_classes::world::World;
use std::alloc::Global;

const INITIALISER: &[u8] = b"<clinit>";

/// Whether a method is no <clinit>.
fn is_written(method: &MethodTree<'_>) -> bool
    ensures { result ≡ is_written method.now }
{
    method.name.items() != INITIALISER
}

/// How many methods a class file has without <clinit>.
fn own_count(methods: &[MethodTree<'_>]) -> usize
    ensures { result ≡ count_by is_written methods.now }
{
    methods.iter().filter(|method| is_written(method)).count()
}

/// A sum; no memory has as many items as 64 bits don't count.
pub(crate) fn sum(a: u64, b: u64) -> Result<u64, NoMemory>
    ensures { IfOk result (λ n. n ≡ a + b) }
{
    match a.checked_add(b) {
        Some(n) => Ok(n),
        None => Err(NoMemory),
    }
}

/// The methods of the class of a number.
fn method_count(world: &World<'_>, number: u32, class: &ClassTree<'_>) -> Result<u64, NoMemory>
    requires { number < length world.now.classes }
    ensures { IfOk result (λ n. n ≡ count_in world.now number class.now) }
{
    let own = own_count(class.methods.items());
    let added = world.added(number).items().len();
    sum(own as u64, added as u64)
}

/// Puts the methods of the class of a number at the end, where there is one.
fn put_count(counts: &mut Row<u64>, world: &World<'_>, number: u32) -> Result<(), NoMemory>
    ensures { OnOk result (counts.new ≡ counts.old ++ count_at world.now number) }
{
    match world.classes().items().get(number as usize) {
        Some(class) => counts.push(method_count(world, number, class)?),
        None => Ok(()),
    }
}

fn put_counts(counts: &mut Row<u64>, world: &World<'_>, numbers: &[u32]) -> Result<(), NoMemory>
    ensures { OnOk result (counts.new ≡ counts.old ++ flat_map (count_at world.now) numbers.now) }
{
    for number in numbers {
        put_count(counts, world, *number)?;
    }
    Ok(())
}

/// How many methods each class and interface has.
pub(crate) fn method_counts(alloc: Global, world: &World<'_>) -> Result<Row<u64>, NoMemory>
    ensures { let w = all_classes world.now in IfOk result (λ counts. counts ≡ map (λ c. length (methods_of_class w c))
        (class_order w)) }
{
    let interfaces = class_order(alloc, world, true)?;
    let classes = class_order(alloc, world, false)?;
    let mut counts = Row::new(alloc);
    put_counts(&mut counts, world, interfaces.items())?;
    put_counts(&mut counts, world, classes.items())?;
    Ok(counts)
}
