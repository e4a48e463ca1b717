//! Whether a class of which objects are made has an abstract method for one of its tokens (Java Card Virtual Machine
//! Specification 2.2.2, section 6.8).

ghost use Rattle.std.specs.Prelude.{◌≡◌, ◌+◌, ◌++◌, ◌||◌, ◌<◌, ◌^◌, ℕ, Bool, drop, length, map, not, IfOk, OnOk};
ghost use Rattle.std.specs.List.{flat_map};
ghost use Rattle.cjc_bytes.specs.AccessFlags.{acc_abstract, has, is_interface};
ghost use Rattle.cjc_card_acts.specs.CardSemantics.Machine.Dispatch.{Hidden, Open};
ghost use Rattle.cjc_check_rules.specs.Classes.{first_class};
ghost use Rattle.cjc_check_rules.specs.Complete.{class_info_size, class_size};
ghost use Rattle.cjc_check_rules.specs.Spots.{beside, first};
ghost use Rattle.cjc_verify.specs.Infos.{has_abstract_method};
ghost use Rattle.cjc_verify.specs.Named.{is_unmade};
ghost use Rattle.cjc_verify.specs.Abstracts.{abstract_beside, all_abstract_beside, any_between, is_abstract_token};
ghost use Rattle.cjc_verify.specs.Abstracts.{unmade_at};

use crate::infos::walks::behind;
use crate::named::is_abstract_selection;
use crate::package::Package;
use cjc_bytes::{ACC_ABSTRACT, NoMemory, Row, has, is_interface};
use cjc_capread::{ClassEntry, ClassInfo};
use cjc_card_calls::calls::dispatched_on;
use cjc_card_calls::card_frame::heap::Class;
use cjc_card_calls::card_frame::parts::Token;
use cjc_card_calls::check_index::lookup::{Comparison, first_beside, first_class, unless};
use cjc_check_rules::ComponentPlace;
use cjc_world::World;
use std::alloc::Global;

/// The tag of Class.
const CLASS: u8 = 6;

/// Whether a public or protected method of a class is abstract, by its token.
fn is_abstract_open(pair: &Package<'_>, at: u32, token: u8) -> bool
    ensures { result ≡ is_abstract_token pair.now at (Open token) }
{
    let receiver = Some(Class::Own(0, at));
    let token = Token::Open(token);
    let found = dispatched_on(pair.tables, pair.files, receiver, token);
    is_abstract_selection(pair, found)
}

/// Whether a package-visible method of a class is abstract, by its token without the high bit.
fn is_abstract_hidden(pair: &Package<'_>, at: u32, token: u8) -> bool
    ensures { result ≡ is_abstract_token pair.now at (Hidden 0 token) }
{
    let receiver = Some(Class::Own(0, at));
    let token = Token::Hidden(0, token);
    let found = dispatched_on(pair.tables, pair.files, receiver, token);
    is_abstract_selection(pair, found)
}

/// Whether one of the public or protected methods is abstract.
fn any_open(pair: &Package<'_>, at: u32) -> bool
    ensures { result ≡ any_between 0 128 (λ (token : ℕ). is_abstract_token pair.now at (Open token)) }
{
    for token in 0..128 {
        if is_abstract_open(pair, at, token) {
            return true;
        }
    }
    false
}

/// Whether one of the package-visible methods is abstract.
fn any_hidden(pair: &Package<'_>, at: u32) -> bool
    ensures { result ≡ any_between 0 128 (λ (token : ℕ). is_abstract_token pair.now at (Hidden 0 token)) }
{
    for token in 0..128 {
        if is_abstract_hidden(pair, at, token) {
            return true;
        }
    }
    false
}

/// Whether one of the tokens of a class means an abstract method.
#[tactic(auto, using(crate::proofs::InfosLaws::Abstracts::any_of_both))]
fn has_abstract_method(pair: &Package<'_>, at: u32) -> bool
    ensures { result ≡ has_abstract_method pair.now at }
{
    any_open(pair, at) || any_hidden(pair, at)
}

/// Whether no objects are made of a class of these flags.
fn is_unmade(flags: u16) -> bool
    ensures { result ≡ is_unmade flags }
{
    is_interface(flags) || has(flags, ACC_ABSTRACT)
}

/// Puts whether no objects are made of the class of a number at the end.
fn put_unmade(row: &mut Row<bool>, world: &World<'_>, number: u32) -> Result<(), NoMemory>
    ensures { OnOk result (row.new ≡ row.old ++ unmade_at world.now number) }
{
    match world.classes().items().get(number as usize) {
        Some(class) => row.push(is_unmade(class.flags)),
        None => Ok(()),
    }
}

/// Of each class of these numbers whether no objects are made of it.
pub(crate) fn unmade_of(
    alloc: Global,
    world: &World<'_>,
    order: &[u32],
) -> Result<Row<bool>, NoMemory>
    ensures { IfOk result (λ row. row ≡ flat_map (unmade_at world.now) order.now) }
{
    let mut row = Row::new(alloc);
    for number in order {
        put_unmade(&mut row, world, *number)?;
    }
    Ok(row)
}

/// Whether classes of which objects are made have no abstract method.
#[derive(Drop)]
struct Abstracts<'a> {
    pair: &'a Package<'a>,
}

impl Comparison<ClassEntry, bool> for Abstracts<'_> {
    ghost broken = { λ s. abstract_beside s.pair.now };

    ghost fits = { λ s. Unit {0} };

    fn first_between(&self, at: u32, item: &ClassEntry, other: &bool) -> Option<ComponentPlace> {
        unless(*other || !has_abstract_method(self.pair, at), CLASS, at)
    }
}

/// The first class of which objects are made and that has an abstract method.
pub(crate) fn all_abstract_beside(
    pair: &Package<'_>,
    class: &ClassInfo,
    unmade: &[bool],
) -> Option<ComponentPlace>
    requires { 3 + class_info_size class.now < 2 ^ 32 }
    ensures { result ≡ first (all_abstract_beside pair.now class.now unmade.now) }
{
    let unmade = behind(unmade, class.interfaces.items().len());
    let abstracts = Abstracts { pair };
    first_beside(
        &abstracts,
        first_class(class),
        class.classes.items(),
        unmade,
    )
}
