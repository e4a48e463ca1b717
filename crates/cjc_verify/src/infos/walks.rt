//! All infos of Class beside those that are wanted: the first item that differs.

ghost use Rattle.std.specs.Prelude.{◌≡◌, ◌+◌, ◌<◌, ◌^◌, length, drop};
ghost use Rattle.cjc_check_rules.specs.Classes.{first_class, first_interface};
ghost use Rattle.cjc_check_rules.specs.Complete.{class_info_size, class_size, interface_size};
ghost use Rattle.cjc_check_rules.specs.Spots.{beside, first, in_info, unless};
ghost use Rattle.cjc_verify.specs.Infos.{head_of};
ghost use Rattle.cjc_verify.specs.Wanted.{all_beside, all_tables_beside, class_beside, interface_beside};
ghost use Rattle.cjc_verify.specs.Wanted.{tables_beside, tables_differ};

use crate::infos::items::{class_differs, interface_differs, tables_differ};
use crate::infos::wanted::Wanted;
use cjc_capread::{ClassEntry, ClassInfo, InterfaceEntry};
use cjc_card_calls::check_index::lookup::{Comparison, earlier, first_beside, first_class, unless};
use cjc_check_rules::ComponentPlace;

/// The tag of Class.
const CLASS: u8 = 6;

/// Whether infos are those that are wanted, their tables and maps aside.
struct Infos;

impl Comparison<InterfaceEntry, Wanted> for Infos {
    ghost broken = { λ s. interface_beside };

    ghost fits = { λ s. Unit {0} };

    #[tactic(auto, unfolding(cjc_check_rules::specs::Spots::first))]
    fn first_between(
        &self,
        at: u32,
        item: &InterfaceEntry,
        other: &Wanted,
    ) -> Option<ComponentPlace> {
        match other {
            Wanted::Interface(wanted) => interface_differs(at, item, wanted),
            Wanted::Class(_) => unless(false, CLASS, at),
        }
    }
}

impl Comparison<ClassEntry, Wanted> for Infos {
    ghost broken = { λ s. class_beside };

    ghost fits = { λ s. Unit {0} };

    #[tactic(auto, unfolding(cjc_check_rules::specs::Spots::first))]
    fn first_between(&self, at: u32, item: &ClassEntry, other: &Wanted) -> Option<ComponentPlace> {
        match other {
            Wanted::Interface(_) => unless(false, CLASS, at),
            Wanted::Class(wanted) => class_differs(at, item, wanted),
        }
    }
}

/// The first item of the tables or the maps of a class that differs.
#[tactic(auto, using(crate::proofs::InfosLaws::Rising::first_item))]
fn table_item(at: u32, own: &ClassEntry, wanted: &ClassEntry) -> Option<ComponentPlace>
    requires { 3 + at + class_size own.now < 2 ^ 32 }
    ensures { result ≡ first (head_of (tables_differ at own.now wanted.now)) }
{
    tables_differ(at, own, wanted)
}

/// Whether the tables and maps of classes are those that are wanted.
struct Tables;

impl Comparison<ClassEntry, Wanted> for Tables {
    ghost broken = { λ s. tables_beside };

    ghost fits = { λ s. Unit {0} };

    #[tactic(auto, unfolding(cjc_check_rules::specs::Spots::first))]
    fn first_between(&self, at: u32, item: &ClassEntry, other: &Wanted) -> Option<ComponentPlace> {
        match other {
            Wanted::Interface(_) => None,
            Wanted::Class(wanted) => table_item(at, item, wanted),
        }
    }
}

/// What is wanted behind the first so many.
#[tactic(auto, using(std::proofs::lemmas::List::drop_all))]
pub(crate) fn behind<T>(wanted: &[T], count: usize) -> &[T]
    ensures { result.now ≡ drop count wanted.now }
{
    if count < wanted.len() {
        &wanted[count..]
    } else {
        &[]
    }
}

/// Where the interfaces differ first.
fn interfaces_differ(class: &ClassInfo, wanted: &[Wanted]) -> Option<ComponentPlace>
    requires { 3 + class_info_size class.now < 2 ^ 32 }
    ensures { result ≡ first (beside interface_size interface_beside first_interface class.now.interfaces wanted.now) }
{
    first_beside(&Infos, 2, class.interfaces.items(), wanted)
}

/// Where the classes differ first.
fn classes_differ(class: &ClassInfo, wanted: &[Wanted]) -> Option<ComponentPlace>
    requires { 3 + class_info_size class.now < 2 ^ 32 }
    ensures { result ≡ first (beside class_size class_beside (first_class class.now) class.now.classes
        (drop (length class.now.interfaces) wanted.now)) }
{
    let wanted = behind(wanted, class.interfaces.items().len());
    first_beside(&Infos, first_class(class), class.classes.items(), wanted)
}

/// Where the flags, the superclass, the interfaces or the items on instance fields of an info differ first.
#[tactic(auto, using(cjc_check_rules::proofs::Firsts::first_append))]
pub(crate) fn all_beside(class: &ClassInfo, wanted: &[Wanted]) -> Option<ComponentPlace>
    requires { 3 + class_info_size class.now < 2 ^ 32 }
    ensures { result ≡ first (all_beside class.now wanted.now) }
{
    earlier(
        interfaces_differ(class, wanted),
        classes_differ(class, wanted),
    )
}

/// Where the tables or the maps of a class differ first.
pub(crate) fn all_tables_beside(class: &ClassInfo, wanted: &[Wanted]) -> Option<ComponentPlace>
    requires { 3 + class_info_size class.now < 2 ^ 32 }
    ensures { result ≡ first (all_tables_beside class.now wanted.now) }
{
    let wanted = behind(wanted, class.interfaces.items().len());
    first_beside(&Tables, first_class(class), class.classes.items(), wanted)
}
