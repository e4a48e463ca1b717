//! The parts that writing starts from, made one after the other. Only the last may break a rule: 417.

ghost use Rattle.std.specs.Prelude.{◌≡◌, ◌⊎◌, ℕ, List as Items, [], Option, All, map, IfOk, IfErr, OnOk};
ghost use Rattle.cjc_bytes.specs.Breaks.{IsFirstRefusal};
ghost use Rattle.cjc_bytes.specs.declared.fault.Fault.TheVariants as faults;
ghost use Rattle.cjc_jvm_semantics.specs.Linked.{Method};
ghost use Rattle.cjc_clinit.specs.Image.{IsImage};
ghost use Rattle.cjc_components.specs.Limits.{of_methods, word_breaks};
ghost use Rattle.cjc_components.specs.Package.{Package};
ghost use Rattle.cjc_components.specs.Written.{code_at};
ghost use Rattle.cjc_judge.specs.Rules.{has_applets};
ghost use Rattle.cjc_methods.specs.Ready.{AreReady, AreRows, IsOwn};
ghost use Rattle.cjc_methods.specs.Words.{HasRoom};
ghost use Rattle.cjc_narrow.specs.Rows.Selected.{near_fields};
ghost use Rattle.cjc_ncode.specs.PoolOrder.{pool_order};
ghost use Rattle.cjc_tokens.specs.Tokens.{assigned};
ghost use Rattle.cjc_types.specs.declared.state.State.{State as Before};
ghost use Rattle.cjc_world.specs.Classes.{all_classes};
ghost use Rattle.cjc_world.specs.Order.{method_order};
ghost use Rattle.cjc_shape.specs.Prepared.{IsPrepared, IsSound};

use cjc_bytes::{Fault, NoMemory, Row};
use cjc_judge::{Judged, settings};
use cjc_list::List;
use cjc_methods::{methods_are_own, narrow_codes, test_words};
use cjc_ncode::NMethod;
use cjc_order::classes::class_order;
use cjc_tokens::{Tokens, assign};
use cjc_world::{Found, StaticImage, World};
use std::alloc::Global;

/// What writing a package starts from.
pub struct Prepared {
    /// The tokens of its classes and members, and of those that export files describe.
    pub tokens: Tokens,
    /// What its static fields hold at first.
    pub image: StaticImage,
    /// Its methods in the order of Method.
    pub methods: Row<Found>,
    /// The narrow code of each.
    pub codes: Row<NMethod>,
}

impl Drop for Prepared {
    fn drop(self) {
        let Prepared {
            tokens: _tokens,
            image: _image,
            methods: _methods,
            codes: _codes,
        } = self;
    }
}

impl Prepared {
    /// Its tokens, its image, its methods and their code.
    pub fn into_parts(self) -> (Tokens, StaticImage, Row<Found>, Row<NMethod>)
        ensures tokens { result.0 ≡ self.tokens }
        ensures image { result.1 ≡ self.image }
        ensures methods { result.2 ≡ self.methods }
        ensures codes { result.3 ≡ self.codes }
    {
        let Prepared {
            tokens,
            image,
            methods,
            codes,
        } = self;
        (tokens, image, methods, codes)
    }
}

/// The tokens of a package.
fn tokens_of(alloc: Global, list: &List, judged: &Judged<'_>) -> Result<Tokens, Fault>
    requires { (files : Items (Items ℕ)) × IsSound list.now files judged.now }
    ensures made { IfOk result (λ t. let j = judged.now in t ≡ assigned (has_applets list.now) j.world) }
    ensures memory { IfErr result (λ e. e ≡ faults.NoMemory) }
{
    let settings = settings(alloc, list)?;
    assign(alloc, &judged.world, &settings)
}

/// What the static fields of a package hold at first.
fn image_of(alloc: Global, list: &List, judged: &Judged<'_>) -> Result<StaticImage, Fault>
    requires { (files : Items (Items ℕ)) × IsSound list.now files judged.now }
    ensures made { IfOk result (λ i. let j = judged.now in IsImage j.world j.codes i) }
    ensures memory { IfErr result (λ e. e ≡ faults.NoMemory) }
{
    cjc_clinit::image(alloc, &judged.world, &judged.codes)
}

/// The methods of a package in the order of Method.
fn methods_of(alloc: Global, world: &World<'_>) -> Result<Row<Found>, NoMemory>
    ensures made { IfOk result (λ methods. methods ≡ method_order (all_classes world.now)) }
    ensures own { IfOk result (All (IsOwn world.now)) }
{
    let order = class_order(alloc, world, false)?;
    methods_are_own();
    cjc_methods::method_order(alloc, world, order.items())
}

/// The narrow code of these methods of a package.
fn codes_of(
    alloc: Global,
    list: &List,
    judged: &Judged<'_>,
    methods: &[Found],
) -> Result<Row<NMethod>, NoMemory>
    requires sound { (files : Items (Items ℕ)) × IsSound list.now files judged.now }
    requires own { (let j = judged.now in All (IsOwn j.world) methods.now) }
    requires room { (let j = judged.now in All (HasRoom j.world) methods.now) }
    ensures { (rows : Method → Items (Option Before)) → (let j = judged.now in AreRows j.world j.codes j.types rows
        → IfOk result (λ ns. ns ≡ map (code_at j.world (near_fields (pool_order ns)) rows) methods.now)) }
{
    narrow_codes(
        alloc,
        &judged.world,
        judged.codes.items(),
        judged.types.items(),
        methods,
    )
}

/// What writing a package starts from, where it breaks no rule of its files.
///
/// # Errors
///
/// Rule 417: the first method whose parameters, with the receiver, need more than 255 words.
pub fn prepare(alloc: Global, list: &List, judged: &Judged<'_>) -> Result<Prepared, Fault>
    requires { (files : Items (Items ℕ)) × IsSound list.now files judged.now }
    ensures prepared { IfOk result (IsPrepared list.now judged.now) }
    ensures unbroken { (p : Package) → (let j = judged.now in p.files ≡ j.world → map (λ m. m.member) p.methods
        ≡ method_order (all_classes j.world) → OnOk result (of_methods p (word_breaks p) ≡ [])) }
    ensures refused { (p : Package) → (let j = judged.now in p.files ≡ j.world → map (λ m. m.member) p.methods
        ≡ method_order (all_classes j.world) → IfErr result (IsFirstRefusal (of_methods p (word_breaks p)))) }
{
    let methods = methods_of(alloc, &judged.world)?;
    test_words(alloc, &judged.world, methods.items())?;
    let tokens = tokens_of(alloc, list, judged)?;
    let image = image_of(alloc, list, judged)?;
    let codes = codes_of(alloc, list, judged, methods.items())?;
    Ok(Prepared {
        tokens,
        image,
        methods,
        codes,
    })
}
