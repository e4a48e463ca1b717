//! Rule 309: each applet line names a class that can be an applet's, and no AID twice. `checking` knows its
//! place among the rules.

ghost use Rattle.std.specs.Prelude.{◌≡◌, Some};
ghost use Rattle.std.specs.List.{list_any};
ghost use Rattle.std.specs.Str.{bytes_eq};
ghost use Rattle.cjc_world.specs.Classes.{all_classes, declared, method_of_class};
ghost use Rattle.cjc_subset.specs.Applets.{has_unfit_applets, is_install, is_unfit_applet, is_unfit_class, repeats_aid};

use cjc_bytes::{AppletLine, is_abstract, is_public, is_static};
use cjc_code::classfile::{ClassTree, MethodTree};
use cjc_world::{Known, World};

const APPLET: &[u8] = b"javacard/framework/Applet";

const INSTALL: &[u8] = b"install";

const INSTALL_DESC: &[u8] = b"([BSB)V";

fn is_install(method: &MethodTree<'_>) -> bool
    ensures { result ≡ is_install (method_of_class method.now) }
{
    method.name.items() == INSTALL
        && method.desc.items() == INSTALL_DESC
        && is_public(method.flags)
        && is_static(method.flags)
}

fn has_install(methods: &[MethodTree<'_>]) -> bool
    ensures { result ≡ list_any (λ m. is_install (method_of_class m)) methods.now }
{
    methods.iter().any(|method| is_install(method))
}

/// Whether a class of the package can't be an applet's.
#[tactic(auto, using(crate::proofs::Any::any_of_map))]
fn is_unfit_class(world: &World<'_>, number: u32, class: &ClassTree<'_>) -> bool
    ensures { result ≡ is_unfit_class (all_classes world.now) (Some (declared number class.now)) }
{
    is_abstract(class.flags)
        || !world.is_below(class.superclass.items(), APPLET)
        || !has_install(class.methods.items())
}

/// Whether the class of this name can't be an applet's.
#[tactic(auto, unfolding(crate::specs::Applets::is_unfit_applet))]
fn is_unfit_applet(world: &World<'_>, name: &[u8]) -> bool
    ensures { result ≡ is_unfit_applet (all_classes world.now) name.now }
{
    match world.class_named(name) {
        Some(Known::Declared(number, class)) => is_unfit_class(world, number, class),
        _ => true,
    }
}

fn any_unfit(world: &World<'_>, applets: &[AppletLine]) -> bool
    ensures { result ≡ list_any (λ a. is_unfit_applet (all_classes world.now) a.class) applets.now }
{
    applets
        .iter()
        .any(|applet| is_unfit_applet(world, applet.class.items()))
}

fn has_aid(applets: &[AppletLine], aid: &[u8]) -> bool
    ensures { result ≡ list_any (λ b. bytes_eq b.aid aid.now) applets.now }
{
    applets.iter().any(|applet| applet.aid.items() == aid)
}

/// Whether an AID stands in two applet lines.
#[tactic(auto, unfolding(crate::specs::Applets::repeats_aid))]
fn repeats_aid(applets: &[AppletLine]) -> bool
    ensures { result ≡ repeats_aid applets.now }
{
    for (place, applet) in applets.iter().enumerate() {
        if has_aid(&applets[place + 1..], applet.aid.items()) {
            return true;
        }
    }
    false
}

/// Whether an applet line breaks rule 309.
#[tactic(auto, unfolding(crate::specs::Applets::has_unfit_applets))]
pub(crate) fn has_unfit_applets(world: &World<'_>, applets: &[AppletLine]) -> bool
    ensures { result ≡ has_unfit_applets (all_classes world.now) applets.now }
{
    any_unfit(world, applets) || repeats_aid(applets)
}
