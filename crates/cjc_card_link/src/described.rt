//! The lengths of methods by the offsets of their headers, as Descriptor lists them (Java Card Virtual Machine
//! Specification 2.2.2, section 6.13).

ghost use Rattle.std.specs.Prelude.{◌≡◌, ◌==◌, ℕ, option_map, if◌then◌else◌, Some, None, IfOk, OnOk};
ghost use Rattle.cjc_card_semantics.specs.Machine.Classes.{or_else};
ghost use Rattle.cjc_card_semantics.specs.Machine.Methods.{method_among};
ghost use Rattle.cjc_card_link.specs.Described.{AreSmall, bytes_among, bytes_in, bytes_of, is_class_ref};
ghost use Rattle.cjc_card_link.specs.Indices.{number_under};

use crate::indices::Numbers;
use crate::infos::{Info, Infos};
use cjc_card_semantics::capread::{ClassDescriptor, ClassRef, MethodDescriptor};
use cjc_check_index::bytes::NoMemory;
use std::alloc::Global;

// More bytes than a component has.
const TOO_MANY: u64 = 1 << 30;

// Whether a class_ref is to a class of the package that is no interface.
fn is_class_ref(infos: &Infos<'_>, class: ClassRef) -> bool
    ensures { result ≡ is_class_ref infos.now class }
{
    match class {
        ClassRef::Inside(offset) => match infos.at(offset) {
            Some(Info::IsClass(_)) => true,
            Some(Info::IsInterface(_)) => false,
            None => false,
        },
        ClassRef::Outside { .. } => false,
    }
}

// Keeps the length of a method, unless one is kept for its offset. No memory is there for methods of 2^30 bytes.
fn note_method(counts: &mut Numbers, method: MethodDescriptor) -> Result<(), NoMemory>
    requires small { AreSmall counts.old }
    ensures kept { OnOk result ((x : ℕ) → number_under counts.new x ≡ or_else (number_under counts.old x)
        (if method.offset == x then Some method.bytecode_count else None)) }
    ensures small { OnOk result (AreSmall counts.new) }
{
    if method.offset >= TOO_MANY {
        return Err(NoMemory);
    }
    if method.bytecode_count >= TOO_MANY {
        return Err(NoMemory);
    }
    counts.note(method.offset, method.bytecode_count)?;
    Ok(())
}

// Keeps the lengths of methods.
fn note_methods(counts: &mut Numbers, methods: &[MethodDescriptor]) -> Result<(), NoMemory>
    requires small { AreSmall counts.old }
    ensures kept { OnOk result ((x : ℕ) → number_under counts.new x ≡ or_else (number_under counts.old x)
        (option_map bytes_of (method_among methods.now x))) }
    ensures small { OnOk result (AreSmall counts.new) }
{
    for method in methods {
        note_method(counts, *method)?;
    }
    Ok(())
}

// Keeps the lengths of a class's methods; the offsets of an interface's methods say nothing.
fn note_class(
    counts: &mut Numbers,
    infos: &Infos<'_>,
    class: &ClassDescriptor,
) -> Result<(), NoMemory>
    requires small { AreSmall counts.old }
    ensures kept { OnOk result ((x : ℕ) → number_under counts.new x ≡ or_else (number_under counts.old x)
        (bytes_in infos.now class.now x)) }
    ensures small { OnOk result (AreSmall counts.new) }
{
    if is_class_ref(infos, class.this_class) {
        note_methods(counts, class.methods.items())
    } else {
        Ok(())
    }
}

/// The lengths of the methods of classes.
pub(crate) fn lengths(
    alloc: Global,
    infos: &Infos<'_>,
    classes: &[ClassDescriptor],
) -> Result<Numbers, NoMemory>
    ensures kept { IfOk result (λ r. (x : ℕ) → number_under r x ≡ bytes_among infos.now classes.now x) }
    ensures small { IfOk result (λ r. AreSmall r) }
{
    let mut counts = Numbers::new(alloc);
    for class in classes {
        note_class(&mut counts, infos, class)?;
    }
    Ok(counts)
}
