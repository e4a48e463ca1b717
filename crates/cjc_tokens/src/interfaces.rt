//! The interfaces that a class implements, and the tokens of an interface's methods: those of its
//! superinterfaces first, each signature once.

ghost use Rattle.std.specs.Prelude.{◌≡◌, ◌+◌, ◌<◌, ◌++◌, ◌==◌, [], ◌∷◌, map, length, position, if◌then◌else◌, false};
ghost use Rattle.std.specs.Prelude.{true, IfOk, IfSome, OnOk, Some};
ghost use Rattle.cjc_world.specs.Classes.{all_classes, method_of_class, method_of_export};
ghost use Rattle.cjc_world.specs.Supertypes.{supertypes};
ghost use Rattle.cjc_world.specs.Working.Known.{class_of};
ghost use Rattle.cjc_world.specs.Interfaces.{gathered, known};
ghost use Rattle.cjc_world.specs.Working.Places.{at_places};
ghost use Rattle.cjc_world.specs.Added.{by_token, methods_of, own_methods, with_token, without_initialiser};
ghost use Rattle.cjc_tokens.specs.Members.{is_initialiser, signature_of};
ghost use Rattle.cjc_tokens.specs.Methods.{interface_methods};
ghost use Rattle.cjc_tokens.specs.Slots.{new_in, with_new};
ghost use Rattle.cjc_tokens.specs.Working.{above_where, asked, listed_method, signs};

use crate::growing::GrowingRow;
use crate::slot::{Slot, is_initialiser};
use cjc_bytes::NoMemory;
use cjc_world::classfile::MethodTree;
use cjc_world::export_file::ExportMethod;
use cjc_world::{Known, World, lookup_laws};
use std::alloc::Global;

/// Puts a method at the end that is there not yet, unless it is an initialiser.
fn put_method<'w>(row: &mut GrowingRow<'w>, name: &'w [u8], desc: &'w [u8]) -> Result<(), NoMemory>
    ensures { OnOk result (signs row.new.items ≡ with_new (signs row.old.items) (listed_method name.now desc.now)) }
{
    if is_initialiser(name) {
        Ok(())
    } else {
        row.put_name(name, desc)
    }
}

fn put_declared<'w>(row: &mut GrowingRow<'w>, methods: &'w [MethodTree<'_>]) -> Result<(), NoMemory>
    ensures { OnOk result (signs row.new.items ≡ with_new (signs row.old.items)
        (map signature_of (without_initialiser (map method_of_class methods.now)))) }
{
    for method in methods {
        let name = method.name.items();
        let desc = method.desc.items();
        put_method(row, name, desc)?;
    }
    Ok(())
}

#[tactic(auto, using(cjc_world::proofs::Places::position_within))]
fn token_place(methods: &[ExportMethod], token: usize) -> Option<usize>
    ensures place { result ≡ position (λ m. m.token == token) methods.now }
    ensures within { IfSome result (λ i. i < length methods.now) }
{
    methods
        .iter()
        .position(|method| method.token as usize == token)
}

/// Puts the method of a token.
fn put_token<'w>(
    row: &mut GrowingRow<'w>,
    methods: &'w [ExportMethod],
    token: usize,
) -> Result<(), NoMemory>
    ensures { OnOk result (signs row.new.items ≡ with_new (signs row.old.items)
        (map signature_of (without_initialiser (with_token token (map method_of_export methods.now))))) }
{
    match token_place(methods, token) {
        None => Ok(()),
        Some(place) => {
            let method = &methods[place];
            let name = method.name.items();
            let desc = method.desc.items();
            put_method(row, name, desc)
        }
    }
}

/// Puts the methods of an export file by their tokens.
fn put_exported<'w>(row: &mut GrowingRow<'w>, methods: &'w [ExportMethod]) -> Result<(), NoMemory>
    ensures { OnOk result (signs row.new.items ≡ with_new (signs row.old.items)
        (map signature_of (without_initialiser (by_token (length methods.now) 0 (map method_of_export methods.now))))) }
{
    for token in 0..methods.len() {
        put_token(row, methods, token)?;
    }
    Ok(())
}

/// Puts a class's own methods, those of an export file by their tokens.
fn put_own<'w>(row: &mut GrowingRow<'w>, class: Known<'w, '_>) -> Result<(), NoMemory>
    ensures { OnOk result (signs row.new.items ≡ with_new (signs row.old.items)
        (map signature_of (own_methods (class_of class.entry)))) }
{
    match class {
        Known::Declared(_, class) => put_declared(row, class.methods.items()),
        Known::Imported(_, class) => put_exported(row, class.methods.items()),
    }
}

/// Puts the methods of the classes at some places.
fn put_places<'w>(
    world: &'w World<'_>,
    places: &[u32],
    row: &mut GrowingRow<'w>,
) -> Result<(), NoMemory>
    ensures { OnOk result (signs row.new.items ≡ with_new (signs row.old.items)
        (map signature_of (methods_of (at_places (all_classes world.now) places.now)))) }
{
    for place in places {
        if let Some(class) = world.class_in(*place) {
            put_own(row, class)?;
        }
    }
    Ok(())
}

/// Puts the methods of the interfaces of a class, each interface's superinterfaces before it.
fn put_above<'w>(
    alloc: Global,
    world: &'w World<'_>,
    class: Known<'w, '_>,
    row: &mut GrowingRow<'w>,
) -> Result<(), NoMemory>
    ensures { OnOk result (signs row.new.items ≡ with_new (signs row.old.items)
        (asked false (supertypes (all_classes world.now) (class_of class.entry).supers)
        ++ asked true (supertypes (all_classes world.now) (class_of class.entry).interfaces))) }
{
    lookup_laws();
    world.acyclic();
    let places = world.interfaces(alloc, class)?;
    put_places(world, places.items(), row)?;
    Ok(())
}

fn put_above_where<'w>(
    alloc: Global,
    world: &'w World<'_>,
    class: Known<'w, '_>,
    row: &mut GrowingRow<'w>,
) -> Result<(), NoMemory>
    ensures { OnOk result (signs row.new.items ≡ with_new (signs row.old.items) (above_where (all_classes world.now)
        (class_of class.entry))) }
{
    if class.is_imported() {
        Ok(())
    } else {
        put_above(alloc, world, class, row)
    }
}

/// The methods of an interface by token.
pub fn interface_methods<'w>(
    alloc: Global,
    world: &'w World<'_>,
    class: Known<'w, '_>,
) -> Result<Vec<Option<Slot<'w>>>, NoMemory>
    ensures { IfOk result (λ row. signs row.items ≡ map Some (interface_methods (all_classes world.now)
        (class_of class.entry))) }
{
    let mut row = GrowingRow::new(alloc, Vec::new(alloc))?;
    put_above_where(alloc, world, class, &mut row)?;
    put_own(&mut row, class)?;
    Ok(row.into_row())
}
