//! Rule 308 of a package: at its classes, and in the codes of its initialisers, which are read on the way.

ghost use Rattle.std.specs.Prelude.{◌≡◌, ◌++◌, IfNone, IfOk, Ok, option_map};
ghost use Rattle.cjc_bytes.specs.Breaks.{IsFirstOf, each};
ghost use Rattle.cjc_bytes.specs.Order.{FilePlace};
ghost use Rattle.cjc_bytes.specs.Told.{break_of, spot_of};
ghost use Rattle.cjc_subset.specs.Places.{at_class};
ghost use Rattle.cjc_bytes.specs.Order.{file_of};
ghost use Rattle.std.specs.List.{list_any};
ghost use Rattle.cjc_clinit.specs.Fields.{has_unfit_value};
ghost use Rattle.cjc_clinit.specs.Initialiser.{is_initialiser};
ghost use Rattle.cjc_clinit.specs.Rules.{is_wrong_class};
ghost use Rattle.cjc_clinit.specs.Working.Reading.{after_code, after_codes, class_breaks, code_breaks, image_breaks};
ghost use Rattle.cjc_clinit.specs.Working.Reading.{offset_break, puts};

use crate::fields::has_unfit_value;
use crate::puts::{after_code, is_initialiser};
use crate::stage::Held;
use cjc_bytes::{Break, NoMemory, Row, RulePlace, broken, file_of, first, is_interface};
use cjc_subset::bytecode::MethodCode;
use cjc_subset::classfile::{ClassTree, FieldTree, MethodTree};
use cjc_subset::world::{ArrayCell, World};
use cjc_subset::{class_spot, method_spot};
use std::alloc::Global;

fn has_initialiser(methods: &[MethodTree<'_>]) -> bool
    ensures { result ≡ list_any is_initialiser methods.now }
{
    methods.iter().any(|method| is_initialiser(method))
}

fn has_unfit_values(fields: &[FieldTree]) -> bool
    ensures { result ≡ list_any has_unfit_value fields.now }
{
    fields.iter().any(|field| has_unfit_value(field))
}

/// Whether a class is an interface with an initialiser, or has a ConstantValue that does not fit.
fn is_wrong_class(class: &ClassTree<'_>) -> bool
    ensures { result ≡ is_wrong_class class.now }
{
    (is_interface(class.flags) && has_initialiser(class.methods.items()))
        || has_unfit_values(class.fields.items())
}

/// Rule 308 at a class itself.
#[tactic(auto, unfolding(crate::specs::Working::Reading::class_breaks))]
fn class_break<'w>(class: &ClassTree<'_>, spot: RulePlace<'w>) -> Option<Break<'w>>
    ensures { (f : FilePlace) → spot_of spot.entry ≡ at_class f class.now
        → IsFirstOf (class_breaks f class.now) (option_map break_of result) }
{
    broken(is_wrong_class(class), spot, 308)
}

/// Rule 308 at the first class that breaks it itself.
fn classes_break<'w>(world: &'w World<'_>) -> Option<Break<'w>>
    ensures { IsFirstOf (each (λ n c. class_breaks (file_of world.now.lines n) c) world.now.classes)
        (option_map break_of result) }
{
    let mut least = None;
    let classes = world.classes().items();
    for (number, class) in classes.iter().enumerate() {
        let file = file_of(world.lines().items(), number);
        let spot = class_spot(file, class);
        least = first(least, class_break(class, spot));
    }
    least
}

/// Rule 308 at an offset of the method of a code.
#[tactic(auto, unfolding(crate::specs::Working::Reading::offset_break))]
fn offset_break<'w>(world: &'w World<'_>, code: &MethodCode, offset: u32) -> Option<Break<'w>>
    ensures { IsFirstOf (offset_break world.now code.now offset) (option_map break_of result) }
{
    let class = world.classes().items().get(code.class as usize)?;
    let place = code.method as usize;
    let method = class.methods.items().get(place)?;
    let file = file_of(world.lines().items(), code.class as usize);
    let spot = class_spot(file, class);
    Some(Break {
        rule: 308,
        spot: method_spot(spot, class, place, method, offset),
    })
}

/// Reads the code of a method. Rule 308 where it is no initialiser; else what is put is as after it.
fn code_break<'w>(
    alloc: Global,
    world: &'w World<'_>,
    code: &MethodCode,
    rows: &mut [Row<Held>],
    arrays: &mut Row<ArrayCell>,
) -> Result<Option<Break<'w>>, NoMemory>
    ensures first { IfOk result (λ b. IsFirstOf (code_breaks world.now code.now) (option_map break_of b)) }
    ensures puts { IfOk result (λ b. IfNone b (after_code world.now (puts rows.old arrays.old) code.now
        ≡ Ok (puts rows.new arrays.new))) }
{
    match after_code(alloc, world, code, rows, arrays)? {
        None => Ok(None),
        Some(offset) => Ok(offset_break(world, code, offset)),
    }
}

/// The same for the codes of all methods.
fn codes_break<'w>(
    alloc: Global,
    world: &'w World<'_>,
    codes: &[MethodCode],
    rows: &mut [Row<Held>],
    arrays: &mut Row<ArrayCell>,
) -> Result<Option<Break<'w>>, NoMemory>
    ensures first { IfOk result (λ b. IsFirstOf (each (λ _ code. code_breaks world.now code) codes.now)
        (option_map break_of b)) }
    ensures puts { IfOk result (λ b. IfNone b (after_codes world.now (puts rows.old arrays.old) codes.now
        ≡ Ok (puts rows.new arrays.new))) }
{
    let mut least = None;
    for code in codes {
        let broken = code_break(alloc, world, code, rows, arrays)?;
        least = first(least, broken);
    }
    Ok(least)
}

/// What of rule 308 a package breaks first. Where it breaks nothing, what is put is as after all initialisers.
#[tactic(auto, unfolding(crate::specs::Working::Reading::image_breaks))]
pub(crate) fn image_break<'w>(
    alloc: Global,
    world: &'w World<'_>,
    codes: &[MethodCode],
    rows: &mut [Row<Held>],
    arrays: &mut Row<ArrayCell>,
) -> Result<Option<Break<'w>>, NoMemory>
    ensures first { IfOk result (λ b. IsFirstOf (image_breaks world.now codes.now) (option_map break_of b)) }
    ensures puts { IfOk result (λ b. IfNone b (after_codes world.now (puts rows.old arrays.old) codes.now
        ≡ Ok (puts rows.new arrays.new))) }
{
    let in_classes = classes_break(world);
    let in_codes = codes_break(alloc, world, codes, rows, arrays)?;
    Ok(first(in_classes, in_codes))
}
