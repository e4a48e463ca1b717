//! Rule 417: the parameters of a method of a class, with the receiver, need more than 255 words, or what is written for
//! it in int mode has no room. Called before code is selected, since no header could be written for such a method.

ghost use Rattle.std.specs.Prelude.{◌≡◌, ◌∷◌, ◌&&◌, ◌||◌, [], All, length, map, Some, false, IfNone, IfOk, IfErr};
ghost use Rattle.std.specs.Prelude.{OnOk, option_map};
ghost use Rattle.cjc_bytes.specs.Breaks.{IsFirstOf, IsFirstRefusal, each};
ghost use Rattle.cjc_bytes.specs.Told.{break_of, spot_of};
ghost use Rattle.cjc_world.specs.ClassFile.Code.{CodeTree};
ghost use Rattle.cjc_world.specs.ClassFile.declared.tree.ClassTree.{ClassTree as ClassFile};
ghost use Rattle.cjc_world.specs.ClassFile.declared.tree.MethodTree.{MethodTree as ClassMethod};
ghost use Rattle.cjc_world.specs.Classes.{Class, Member, all_classes, class_at};
ghost use Rattle.cjc_components.specs.Descriptor.{method_in};
ghost use Rattle.cjc_components.specs.Limits.{has_many_words, method_spot, of_methods};
ghost use Rattle.cjc_components.specs.Package.{Package};
ghost use Rattle.cjc_int_package.specs.Limits.{lacks_int_room, lacks_room, word_breaks_by_modes};
ghost use Rattle.cjc_int_package.specs.Modes.{Tables, is_int};
ghost use Rattle.cjc_narrow.specs.Types.Flow.{body_of};
ghost use Rattle.cjc_narrow.specs.Types.Tables.{IsMethodOf, IsOfPackage, IsTypeTable};
ghost use Rattle.cjc_pool.specs.JvmSemantics.OnePackage.{method_at};
ghost use Rattle.cjc_methods.specs.Ready.{AreReady, AreTold, IsOwn, states};
ghost use Rattle.cjc_methods.specs.Words.{HasIntRoom, HasRoom};
ghost use Rattle.cjc_methods.specs.Working.Places.{class_places};
ghost use Rattle.cjc_methods.specs.Working.Methods.{IsLike};
ghost use Rattle.cjc_methods.specs.Working.Spots.{spot_in, word_breaks_in};

use crate::method::{Signature, method_in};
use crate::places::class_places;
use crate::selecting::{Sources, place_of};
use cjc_bytes::{
    Break, Fault, NoMemory, Part, PlaceRef, RulePlace, answer, broken, file_of, first,
};
use cjc_int_mode::modes::Mode;
use cjc_int_mode::room;
use cjc_narrow::bytecode::MethodCode;
use cjc_narrow::select::argument_words;
use cjc_narrow::types::TypeTable;
use cjc_world::{Found, World};
use std::alloc::Global;

/// The most words of arguments that a header can say.
const MOST_WORDS: u64 = 255;

/// The place of an offset in the code of a method; one that its class gets stands at the class.
fn spot_in<'w>(
    world: &'w World<'_>,
    member: Found,
    method: Signature<'w>,
    offset: u32,
) -> RulePlace<'w>
    requires { IsOwn world.now member }
    ensures { (c : Class) (m : Member) → class_at (all_classes world.now) member.imported member.class ≡ Some c
        → IsLike method.entry m → spot_of result ≡ spot_in world.now c member m offset }
{
    let class = &world.classes().items()[member.class as usize];
    let file = file_of(world.lines().items(), member.class as usize);
    let spot = RulePlace::of_class(file, 1, class.name.items());
    if (member.member as usize) < class.fields.items().len() + class.methods.items().len() {
        RulePlace {
            member: u128::from(member.member) + 1,
            place: PlaceRef {
                part: Part::Method(method.name, method.desc),
                offset,
                ..spot.place
            },
            ..spot
        }
    } else {
        spot
    }
}

/// Whether a method with code is in int mode, and what is written for it there has no room.
fn lacks_room(
    alloc: Global,
    world: &World<'_>,
    code: &MethodCode,
    types: &TypeTable,
    mode: Mode,
) -> Result<bool, NoMemory>
    requires code { IsOfPackage world.now code.now }
    requires types { (c : ClassFile) (m : ClassMethod) (t : CodeTree) → IsMethodOf world.now code.now c m t
        → IsTypeTable (all_classes world.now) (body_of c m t code.now.insns) types.now }
    ensures { (c : ClassFile) (m : ClassMethod) (t : CodeTree) → IsMethodOf world.now code.now c m t
        → IfOk result (λ lacks. lacks ≡ (is_int mode
        && lacks_room (body_of c m t code.now.insns) (states code.now c m t types.now))) }
{
    match mode {
        Mode::Short => Ok(false),
        Mode::Int => {
            let has_room = room(alloc, world, code, types, Mode::Int)?;
            Ok(!has_room)
        }
    }
}

/// Whether a member is in int mode, and what is written for it there has no room.
fn lacks_int_room(
    alloc: Global,
    world: &World<'_>,
    sources: Sources<'_>,
    member: Found,
) -> Result<bool, NoMemory>
    requires ready { AreReady world.now sources.codes.now sources.types.now }
    requires count { length sources.modes.now ≡ length sources.codes.now }
    requires places { sources.places.now ≡ class_places 0 world.now.classes }
    requires own { IsOwn world.now member }
    ensures told { (t : Tables) → AreTold world.now sources.entry.codes.now sources.entry.types.now
        sources.entry.modes.now t → IfOk result (λ lacks. lacks ≡ lacks_int_room t world.now
        (method_at world.now member)) }
    ensures room { IfOk result (λ lacks. lacks ≡ false → HasIntRoom world.now sources.entry.codes.now
        sources.entry.types.now sources.entry.modes.now member) }
{
    match place_of(world, sources, member) {
        Some(place) => {
            let place = place as usize;
            lacks_room(
                alloc,
                world,
                &sources.codes[place],
                &sources.types[place],
                sources.modes[place],
            )
        }
        None => Ok(false),
    }
}

/// Whether a method has no room: for its arguments or, in int mode, for what is written for it.
fn has_no_room(
    alloc: Global,
    world: &World<'_>,
    sources: Sources<'_>,
    member: Found,
) -> Result<bool, NoMemory>
    requires ready { AreReady world.now sources.codes.now sources.types.now }
    requires count { length sources.modes.now ≡ length sources.codes.now }
    requires places { sources.places.now ≡ class_places 0 world.now.classes }
    requires own { IsOwn world.now member }
    ensures told { (t : Tables) → AreTold world.now sources.entry.codes.now sources.entry.types.now
        sources.entry.modes.now t → (c : Class)
        → class_at (all_classes world.now) member.imported member.class ≡ Some c
        → IfOk result (λ none. none ≡ (has_many_words (method_in (all_classes world.now) c member.member)
        || lacks_int_room t world.now (method_at world.now member))) }
    ensures room { IfOk result (λ none. none ≡ false → HasRoom world.now sources.entry.codes.now
        sources.entry.types.now sources.entry.modes.now member) }
{
    let method = method_in(world, member);
    let words = argument_words(method.flags, method.desc)?;
    if words <= MOST_WORDS {
        return lacks_int_room(alloc, world, sources, member);
    }
    Ok(true)
}

/// Rule 417 at a method. The file of its class is asked for only where it is broken.
fn words_break<'w>(
    alloc: Global,
    world: &'w World<'_>,
    sources: Sources<'_>,
    member: Found,
) -> Result<Option<Break<'w>>, NoMemory>
    requires ready { AreReady world.now sources.codes.now sources.types.now }
    requires count { length sources.modes.now ≡ length sources.codes.now }
    requires places { sources.places.now ≡ class_places 0 world.now.classes }
    requires own { IsOwn world.now member }
    ensures first { (t : Tables) → AreTold world.now sources.entry.codes.now sources.entry.types.now
        sources.entry.modes.now t → IfOk result (λ b. IsFirstOf (word_breaks_in t world.now member)
        (option_map break_of b)) }
    ensures room { IfOk result (λ b. IfNone b (HasRoom world.now sources.entry.codes.now sources.entry.types.now
        sources.entry.modes.now member)) }
{
    let none = has_no_room(alloc, world, sources, member)?;
    if none {
        let method = method_in(world, member);
        let spot = spot_in(world, member, method, 0);
        return Ok(broken(true, spot, 417));
    }
    Ok(None)
}

/// The first of the methods that break rule 417.
fn first_break<'w>(
    alloc: Global,
    world: &'w World<'_>,
    sources: Sources<'_>,
    members: &[Found],
) -> Result<Option<Break<'w>>, NoMemory>
    requires ready { AreReady world.now sources.codes.now sources.types.now }
    requires count { length sources.modes.now ≡ length sources.codes.now }
    requires places { sources.places.now ≡ class_places 0 world.now.classes }
    requires own { All (IsOwn world.now) members.now }
    ensures first { (t : Tables) → AreTold world.now sources.entry.codes.now sources.entry.types.now
        sources.entry.modes.now t → IfOk result (λ b. IsFirstOf (each (λ _ f. word_breaks_in t world.now f) members.now)
        (option_map break_of b)) }
    ensures room { IfOk result (λ b. IfNone b (All (HasRoom world.now sources.entry.codes.now sources.entry.types.now
        sources.entry.modes.now) members.now)) }
{
    let mut least = None;
    for member in members {
        let broken = words_break(alloc, world, sources, *member)?;
        least = first(least, broken);
    }
    Ok(least)
}

/// Tests the methods of a package, which are these members, for rule 417.
///
/// # Errors
///
/// The first that breaks it, in the order of refusals.
pub fn test_words(
    alloc: Global,
    world: &World<'_>,
    codes: &[MethodCode],
    types: &[TypeTable],
    modes: &[Mode],
    members: &[Found],
) -> Result<(), Fault>
    requires ready { AreReady world.now codes.now types.now }
    requires count { length modes.now ≡ length codes.now }
    requires own { All (IsOwn world.now) members.now }
    ensures room { OnOk result (All (HasRoom world.now codes.now types.now modes.now) members.now) }
    ensures unbroken { (t : Tables) (p : Package) → AreTold world.now codes.now types.now modes.now t
        → p.files ≡ world.now → map (λ m. m.member) p.methods ≡ members.now
        → OnOk result (of_methods p (word_breaks_by_modes t p) ≡ []) }
    ensures refused { (t : Tables) (p : Package) → AreTold world.now codes.now types.now modes.now t
        → p.files ≡ world.now → map (λ m. m.member) p.methods ≡ members.now
        → IfErr result (IsFirstRefusal (of_methods p (word_breaks_by_modes t p))) }
{
    let places = class_places(alloc, world.classes().items())?;
    let sources = Sources {
        codes,
        types,
        modes,
        places: places.items(),
    };
    let broken = first_break(alloc, world, sources, members)?;
    answer(alloc, broken)
}

/// The place of an offset in the code of a method of a package, for whoever tells a rule that it breaks. One that
/// its class gets has no place of its own, and stands at the class.
pub fn method_spot<'w>(world: &'w World<'_>, member: Found, offset: u32) -> RulePlace<'w>
    requires { IsOwn world.now member }
    ensures { (p : Package) (c : Class) → p.files ≡ world.now → class_at (all_classes world.now) member.imported
        member.class ≡ Some c → spot_of result ≡ method_spot p c member (method_in (all_classes world.now) c
        member.member) offset }
{
    let method = method_in(world, member);
    spot_in(world, member, method, offset)
}
