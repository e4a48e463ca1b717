//! A package by its methods, laid out. The rules that speak of them are tested here: 417, then 311, 414 and 415.
//! Whether a method is in int mode is told beside the package.

ghost use Rattle.std.specs.Prelude.{◌≡◌, All, IfOk, IfErr};
ghost use Rattle.std.specs.List.{list_any};
ghost use Rattle.cjc_judge.specs.Rules.{has_applets};
ghost use Rattle.cjc_methods.specs.JvmSemantics.OnePackage.{method_at};
ghost use Rattle.cjc_methods.specs.LowerIntPackage.Components.{is_in_int_mode};
ghost use Rattle.cjc_methods.specs.LowerIntPackage.Modes.{Tables};
ghost use Rattle.cjc_methods.specs.Ready.{AreTold, IsListed};
ghost use Rattle.cjc_methods.specs.Tokens.Tokens.{assigned};
ghost use Rattle.cjc_shape.specs.Prepared.{BreaksNothing};
ghost use Rattle.cjc_shape.specs.Whole.Working.Shaped.{IsShaped, Stopped};
ghost use Rattle.cjc_exported.specs.World.Classes.{all_classes};
ghost use Rattle.cjc_exported.specs.World.Order.{method_order};

use cjc_exported::export_file::export_of;
use cjc_judge::{Judged, image_of};
use cjc_methods::bytes::{Fault, NoMemory, Row};
use cjc_methods::class_order::classes::class_order;
use cjc_methods::export_file::{ExportTree, pool_size};
use cjc_methods::layouts::{Methods, lay_out, methods_are_of_a_package};
use cjc_methods::tokens::Tokens;
use cjc_methods::world::{Found, StaticImage, World};
use cjc_methods::{
    any_in_int_mode, method_order, methods_are_own, methods_can_be_laid_out, narrow_codes,
    test_words,
};
use cjc_narrow_proof::intervals::range_laws::least_ranges_exist;
use std::alloc::Global;

/// A package whose methods are laid out.
pub struct Shaped<'a> {
    /// The tokens of its classes and members, and of those that export files describe.
    pub tokens: &'a Tokens,
    /// What its static fields hold at first.
    pub image: StaticImage,
    pub methods: Methods,
    /// Its export file.
    pub export: ExportTree,
    /// A method that is written is in int mode.
    pub in_int_mode: bool,
}

impl Drop for Shaped<'_> {
    fn drop(self) {
        let Shaped {
            tokens: _tokens,
            image: _image,
            methods: _methods,
            export: _export,
            in_int_mode: _in_int_mode,
        } = self;
    }
}

/// The methods of a package in the order of Method.
fn members_of(alloc: Global, world: &World<'_>) -> Result<Row<Found>, NoMemory>
    ensures made { IfOk result (λ members. members ≡ method_order (all_classes world.now)) }
    ensures listed { IfOk result (All (IsListed world.now)) }
{
    let order = class_order(alloc, world, false)?;
    methods_are_own();
    method_order(alloc, world, order.items())
}

/// The tokens that were assigned when the package was tested for 413.
fn tokens_in<'a>(judged: &'a Judged<'_>) -> &'a Tokens
    requires { BreaksNothing judged.now }
    ensures { result.now ≡ assigned (has_applets judged.now.list.now) judged.now.world }
{
    match &judged.tokens {
        Some(tokens) => tokens,
        None => unreachable!(),
    }
}

/// Whether one of the methods of a package, which are these members, is in int mode.
fn is_any_in_int_mode(
    alloc: Global,
    judged: &Judged<'_>,
    members: &[Found],
) -> Result<bool, NoMemory>
    requires sound { BreaksNothing judged.now }
    requires listed { All (IsListed judged.now.world) members.now }
    ensures { (t : Tables) → AreTold judged.now.world judged.now.codes judged.now.types judged.now.modes t
        → IfOk result (λ any. any ≡ list_any (λ f. is_in_int_mode t (method_at judged.now.world f)) members.now) }
{
    any_in_int_mode(
        alloc,
        &judged.world,
        judged.codes.items(),
        judged.types.items(),
        judged.modes.items(),
        members,
    )
}

/// The package with its methods laid out, of one that breaks no rule of its files.
///
/// # Errors
///
/// The first of these: 417; where no method breaks it, 311, 414 or 415, in the order of refusals.
pub fn shape<'a>(alloc: Global, judged: &'a Judged<'_>) -> Result<Shaped<'a>, Fault>
    requires { BreaksNothing judged.now }
    ensures shaped { IfOk result (IsShaped judged.now) }
    ensures refused { IfErr result (Stopped judged.now.list.now judged.now.files.now) }
{
    least_ranges_exist();
    methods_can_be_laid_out();
    methods_are_of_a_package();
    let members = members_of(alloc, &judged.world)?;
    test_words(
        alloc,
        &judged.world,
        judged.codes.items(),
        judged.types.items(),
        judged.modes.items(),
        members.items(),
    )?;
    let in_int_mode = is_any_in_int_mode(alloc, judged, members.items())?;
    let tokens = tokens_in(judged);
    let image = image_of(alloc, &judged.world, &judged.codes)?;
    let codes = narrow_codes(
        alloc,
        &judged.world,
        judged.codes.items(),
        judged.types.items(),
        judged.modes.items(),
        members.items(),
    )?;
    let export = export_of(alloc, judged.list, &judged.world, tokens)?;
    let exported = pool_size(alloc, &export)?;
    let methods = lay_out(
        alloc,
        judged.list.name.items(),
        &judged.world,
        members.items(),
        codes,
        exported,
    )?;
    Ok(Shaped {
        tokens,
        image,
        methods,
        export,
        in_int_mode,
    })
}
