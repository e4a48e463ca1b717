//! Rules 401 and 404 to 407, each as one test of a method, a class or the package. `checking` knows their
//! places and their order, and tests 402, 408 and 409 by a length alone.

ghost use Rattle.std.specs.Prelude.{◌≡◌, sum_by};
ghost use Rattle.cjc_subset.specs.Limits.{cells, handlers, handlers_of_class, has_deep_stack, has_many_cells};
ghost use Rattle.cjc_subset.specs.Limits.{has_many_exported, has_many_handlers, has_many_locals};
ghost use Rattle.cjc_subset.specs.Working.Sums.{left_of};

use crate::naming::catches_of;
use cjc_bytes::{Settings, is_static};
use cjc_code::classfile::{ClassTree, FieldTree, MethodTree};
use cjc_world::{Known, World};

const INT: &[u8] = b"I";

/// How many there may be of exported classes, cells of a class, and handlers.
const MOST: usize = 255;

// ---- 401

/// Whether more than 255 classes get a token.
#[tactic(auto, unfolding(crate::specs::Limits::has_many_exported))]
pub(crate) fn has_many_exported(world: &World<'_>, settings: &Settings) -> bool
    ensures { result ≡ has_many_exported world.now settings.now }
{
    let applets = settings.applets.items().len() > 0;
    let classes = world.classes().items();
    classes
        .iter()
        .filter(|class| world.is_exported(applets, Known::Declared(0, class)))
        .count()
        > MOST
}

// ---- 404 and 405

/// Whether the code of a method has more than 255 local variables.
pub(crate) fn has_many_locals(method: &MethodTree<'_>) -> bool
    ensures { result ≡ has_many_locals method.now.code }
{
    match &method.code {
        Some(code) => code.max_locals > 255,
        None => false,
    }
}

/// Whether the code of a method has an operand stack of more than 255 words.
pub(crate) fn has_deep_stack(method: &MethodTree<'_>) -> bool
    ensures { result ≡ has_deep_stack method.now.code }
{
    match &method.code {
        Some(code) => code.max_stack > 255,
        None => false,
    }
}

// ---- 406

fn cells(field: &FieldTree) -> usize
    ensures { result ≡ cells field.now }
{
    if is_static(field.flags) {
        0
    } else if field.desc.items() == INT {
        2
    } else {
        1
    }
}

/// What is left of an allowance of cells, or None where the fields take more.
fn cells_left(fields: &[FieldTree], allowance: usize) -> Option<usize>
    ensures { result ≡ left_of allowance (sum_by cells fields.now) }
{
    let mut left = allowance;
    for field in fields {
        left = left.checked_sub(cells(field))?;
    }
    Some(left)
}

/// Whether a class declares more than 255 cells of instance fields.
#[tactic(auto, unfolding(crate::specs::Limits::has_many_cells))]
pub(crate) fn has_many_cells(class: &ClassTree<'_>) -> bool
    ensures { result ≡ has_many_cells class.now }
{
    cells_left(class.fields.items(), MOST).is_none()
}

// ---- 407

/// What is left of an allowance of handlers, or None where the methods have more.
fn handlers_left(methods: &[MethodTree<'_>], allowance: usize) -> Option<usize>
    ensures { result ≡ left_of allowance (sum_by handlers methods.now) }
{
    let mut left = allowance;
    for method in methods {
        left = left.checked_sub(catches_of(method).len())?;
    }
    Some(left)
}

fn all_handlers_left(classes: &[ClassTree<'_>], allowance: usize) -> Option<usize>
    ensures { result ≡ left_of allowance (sum_by handlers_of_class classes.now) }
{
    let mut left = allowance;
    for class in classes {
        left = handlers_left(class.methods.items(), left)?;
    }
    Some(left)
}

/// Whether all exception tables together have more than 255 entries.
#[tactic(auto, unfolding(crate::specs::Limits::has_many_handlers))]
pub(crate) fn has_many_handlers(world: &World<'_>) -> bool
    ensures { result ≡ has_many_handlers world.now }
{
    all_handlers_left(world.classes().items(), MOST).is_none()
}
