//! Rules 411 and 416 on components that are made, before anything is written. Called by `building`.

ghost use Rattle.std.specs.Prelude.{◌≡◌, [], sum_by, IfErr, OnOk};
ghost use Rattle.cjc_captree.specs.Bytes.Breaks.{IsFirstRefusal};
ghost use Rattle.cjc_shape_proof.specs.Components.Components.{components_of};
ghost use Rattle.cjc_shape_proof.specs.Components.Limits.{size_breaks};
ghost use Rattle.cjc_shape_proof.specs.Components.Methods.{handler_count};
ghost use Rattle.cjc_shape_proof.specs.Components.Package.{Package, codes};

use cjc_captree::capread::CapTree;
use cjc_captree::limits::{size_break, widest_method};
use cjc_captree::ncode::NMethod;
use cjc_shape_proof::bytes::{Fault, answer};
use std::alloc::Global;

/// The handlers of all methods.
fn handler_count(caps: &CapTree) -> usize
    ensures { (p : Package) → caps.now ≡ components_of p → result ≡ sum_by handler_count p.methods }
{
    match &caps.method {
        Some(method) => method.handlers.items().len(),
        None => 0,
    }
}

/// Tests the components of a package, whose methods have this narrow code. `list` is the name of the list.
pub(crate) fn test_sizes(
    alloc: Global,
    list: &[u8],
    methods: &[NMethod],
    caps: &CapTree,
) -> Result<(), Fault>
    ensures unbroken { (p : Package) → (let named = p.list in list.now ≡ named.name) → methods.now ≡ codes p
        → caps.now ≡ components_of p → OnOk result (size_breaks p ≡ []) }
    ensures refused { (p : Package) → (let named = p.list in list.now ≡ named.name) → methods.now ≡ codes p
        → caps.now ≡ components_of p → IfErr result (IsFirstRefusal (size_breaks p)) }
{
    let widest = widest_method(handler_count(caps), methods)?;
    answer(alloc, size_break(list, caps, widest))
}
