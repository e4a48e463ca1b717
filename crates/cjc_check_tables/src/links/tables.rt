//! The method tables of classes (Java Card Virtual Machine Specification 2.2.2, section 6.8.2). It knows
//! classes by `names` and methods by `methods`.

ghost use Rattle.std.specs.Prelude.{◌≡◌, ◌+◌, ◌*◌, ◌<◌, ◌≤◌, ◌^◌, IfOk, length, reverse};
ghost use Rattle.cjc_check_index.specs.Lookup.Indexed.{IsIndexed};
ghost use Rattle.cjc_check_tables.specs.Links.Leaving.{HasPublicTable, HasTables, IsLeaving, leaves_among};
ghost use Rattle.cjc_check_index.specs.Lookup.MethodStarts.{HasMethods};
ghost use Rattle.cjc_check_index.specs.Lookup.Parts.{complete_of};
ghost use Rattle.cjc_check_rules.specs.Classes.{classes_at};
ghost use Rattle.cjc_check_rules.specs.Complete.{AreSmall, class_size};
ghost use Rattle.cjc_check_rules.specs.Spots.{along, first};
ghost use Rattle.cjc_check_rules.specs.Tables.{in_tables, leaves, package_spot, public_spot, table_spots};

use cjc_capread::bytes::{NoMemory, Row};
use cjc_capread::{ClassEntry, ClassRef};
use cjc_check_index::lookup::{Methods, Names, Test, earlier, first_along, first_class, unless};
use cjc_check_rules::ComponentPlace;
use std::alloc::Global;

/// The tag of Class.
const CLASS: u8 = 6;

/// Whether upwards from a class_ref some class is imported, as far as the first classes go, of which it is known.
fn leaves(names: &Names<'_>, leaving: &[bool], class: ClassRef) -> bool
    requires ready { IsIndexed names.now }
    requires known { IsLeaving names.now.parts.now.class.now leaving.now }
    requires within { length leaving.now ≤ length names.now.parts.now.class.now.classes }
    ensures { result ≡ leaves_among names.now.parts.now.class.now (length leaving.now) class }
{
    match class {
        ClassRef::Inside(offset) => match names.classes.binary_search(&offset) {
            Ok(at) => {
                if at < leaving.len() {
                    leaving[at]
                } else {
                    false
                }
            }
            Err(_) => false,
        },
        ClassRef::Outside { .. } => true,
    }
}

/// Of each class whether upwards from its superclass some class is imported.
pub fn leaving_of(alloc: Global, names: &Names<'_>) -> Result<Row<bool>, NoMemory>
    requires { IsIndexed names.now }
    ensures each { IfOk result (λ r. IsLeaving names.now.parts.now.class.now r) }
    ensures all { IfOk result (λ r. length r ≡ length names.now.parts.now.class.now.classes) }
{
    let mut leaving = Row::new(alloc);
    for class in names.parts.class.classes.items() {
        let is_leaving = leaves(names, leaving.items(), class.superclass);
        leaving.push(is_leaving)?;
    }
    Ok(leaving)
}

/// The methods of classes, and of each class whether upwards some class is imported.
#[derive(Drop)]
pub struct Tables<'a> {
    pub methods: &'a Methods<'a>,
    pub leaving: &'a [bool],
}

/// The public table of a class.
#[derive(Drop)]
struct PublicTable<'a> {
    methods: &'a Methods<'a>,
    class: &'a ClassEntry,
    /// Whether upwards from the class's superclass some class is imported.
    leaves: bool,
}

impl Test<u64> for PublicTable<'_> {
    ghost broken = { λ s. public_spot (complete_of s.methods.now.names.now.parts.now) s.class.now };

    ghost fits = { λ s. HasPublicTable s };

    fn first_in(&self, at: u32, item: &u64) -> Option<ComponentPlace> {
        let is_entry = if *item == 0xFFFF {
            self.leaves
        } else {
            self.methods.is_method_start(*item)
        };
        unless(is_entry, CLASS, at)
    }
}

/// The package table of a class.
#[derive(Drop)]
struct PackageTable<'a> {
    methods: &'a Methods<'a>,
}

impl Test<u64> for PackageTable<'_> {
    ghost broken = { λ s. package_spot (complete_of s.methods.now.names.now.parts.now) };

    ghost fits = { λ s. HasMethods s.methods.now };

    fn first_in(&self, at: u32, item: &u64) -> Option<ComponentPlace> {
        let is_entry = *item != 0xFFFF && self.methods.is_method_start(*item);
        unless(is_entry, CLASS, at)
    }
}

/// Whether upwards from a class_ref some class is imported.
fn leaves_upwards(tables: &Tables<'_>, class: ClassRef) -> bool
    requires { HasTables tables.now }
    ensures { result ≡ leaves (reverse (classes_at tables.now.methods.now.names.now.parts.now.class.now)) class }
{
    leaves(tables.methods.names, tables.leaving, class)
}

/// The first entry of a class's public table, the class beginning at an offset, that is none.
#[tactic(auto, using(cjc_check_rules::proofs::Arrays::two_each))]
fn in_public_table(tables: &Tables<'_>, class: &ClassEntry, at: u32) -> Option<ComponentPlace>
    requires ready { HasTables tables.now }
    requires small { 3 + at + class_size class.now < 2 ^ 32 }
    ensures { result ≡ first (along (λ x. 2) (public_spot (complete_of tables.now.methods.now.names.now.parts.now)
        class.now) (at + 10) class.now.public_methods) }
{
    let leaves = leaves_upwards(tables, class.superclass);
    let table = PublicTable {
        methods: tables.methods,
        class,
        leaves,
    };
    first_along(&table, at + 10, class.public_methods.items())
}

/// The first entry of a class's package table, the class beginning at an offset, that is none.
#[tactic(auto, using(cjc_check_rules::proofs::Arrays::two_each))]
fn in_package_table(tables: &Tables<'_>, class: &ClassEntry, at: u32) -> Option<ComponentPlace>
    requires ready { HasTables tables.now }
    requires small { 3 + at + class_size class.now < 2 ^ 32 }
    ensures { result ≡ first (along (λ x. 2) (package_spot (complete_of tables.now.methods.now.names.now.parts.now))
        (at + 10 + 2 * length class.now.public_methods) class.now.package_methods) }
{
    let table = PackageTable {
        methods: tables.methods,
    };
    let begin = at + 10 + 2 * class.public_methods.items().len() as u32;
    first_along(&table, begin, class.package_methods.items())
}

impl Test<ClassEntry> for Tables<'_> {
    ghost broken = { λ s. in_tables (complete_of s.methods.now.names.now.parts.now) };

    ghost fits = { λ s. HasTables s };

    #[tactic(auto, using(cjc_check_rules::proofs::Firsts::first_append))]
    fn first_in(&self, at: u32, item: &ClassEntry) -> Option<ComponentPlace> {
        let public = in_public_table(self, item, at);
        earlier(public, in_package_table(self, item, at))
    }
}

/// Where 706 is broken first: an entry of a table.
pub fn table_spot(tables: &Tables<'_>) -> Option<ComponentPlace>
    requires ready { HasTables tables.now }
    requires small { AreSmall (complete_of tables.now.methods.now.names.now.parts.now) }
    ensures { result ≡ first (table_spots (complete_of tables.now.methods.now.names.now.parts.now)) }
{
    let class = tables.methods.names.parts.class;
    first_along(tables, first_class(class), class.classes.items())
}
