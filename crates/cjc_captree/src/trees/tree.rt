//! The tree of all components. Each step puts some of them into it, and borrows what they are made from.

ghost use Rattle.std.specs.Prelude.{◌≡◌, Some, length, replicate, IfOk, OnOk};
ghost use Rattle.cjc_exported.specs.World.Classes.{all_classes};
ghost use Rattle.cjc_classes.specs.VTable.Tables.{class_tables};
ghost use Rattle.cjc_exported.specs.Components.Class.{class_info};
ghost use Rattle.cjc_exported.specs.Components.Components.{applet, components_of, directory_with, header, import};
ghost use Rattle.cjc_exported.specs.Components.Components.{method};
ghost use Rattle.cjc_exported.specs.Components.Components.{reference_location};
ghost use Rattle.cjc_exported.specs.Components.Descriptor.{descriptor};
ghost use Rattle.cjc_exported.specs.Components.Exports.{export};
ghost use Rattle.cjc_exported.specs.Components.Names.{class_ref, pool_entries};
ghost use Rattle.cjc_exported.specs.Components.Package.{Package};
ghost use Rattle.cjc_exported.specs.Components.Statics.{static_field};
ghost use Rattle.cjc_classes.specs.Descriptor.Fits.{AreFit};
ghost use Rattle.cjc_captree.specs.Trees.Given.{AreGiven, HasTokens};
ghost use Rattle.cjc_captree.specs.Trees.Working.{AreNames, HasComponents};

use crate::extents::offsets_are_of_the_package;
use crate::limits::uses_int;
use crate::trees::given::Given;
use crate::trees::names::{Names, names_of};
use crate::trees::sizes::sizes_of;
use cjc_classes::bytes::{NoMemory, Row};
use cjc_classes::capread::{
    CapTree, ConstantPool, Descriptor, Directory, Export, Header, Method, ReferenceLocation,
};
use cjc_classes::class_info::class_info;
use cjc_classes::descriptor::{Parts, descriptor, key_cells, static_field};
use cjc_classes::directory::{applet, directory, header, import};
use cjc_classes::pool_entries::pool_entries;
use cjc_classes::type_info::Types;
use cjc_exported::export_file::{Offsets, export};
use std::alloc::Global;

const NO_SIZES: [u64; 12] = [0, 0, 0, 0, 0, 0, 0, 0, 0, 0, 0, 0];

/// A tree that has its methods, and nothing else yet.
fn with_methods(alloc: Global, method: Method, locations: ReferenceLocation) -> CapTree
    ensures method { result.method ≡ Some method }
    ensures locations { result.locations ≡ Some locations }
{
    CapTree {
        header: Header {
            flags: 0,
            minor: 0,
            major: 0,
            aid: Row::new(alloc),
            name: Row::new(alloc),
        },
        directory: Directory {
            component_sizes: Row::new(alloc),
            image_size: 0,
            array_init_count: 0,
            array_init_size: 0,
            import_count: 0,
            applet_count: 0,
        },
        applet: None,
        import: None,
        pool: None,
        class: None,
        method: Some(method),
        statics: None,
        locations: Some(locations),
        export: None,
        descriptor: None,
    }
}

// ---- tags 1, 3, 4 and 10

fn export_of(alloc: Global, given: &Given<'_>, names: &Names) -> Result<Option<Export>, NoMemory>
    ensures { (p : Package) → AreGiven p given.now → AreNames p names.now → IfOk result (λ e. e ≡ export p) }
{
    offsets_are_of_the_package();
    let offsets = Offsets {
        refs: names.numbered.items(),
        cells: names.cells.items(),
        methods: names.offsets.items(),
    };
    export(alloc, given.list, given.world, offsets)
}

fn header_of(alloc: Global, given: &Given<'_>, exports: &Option<Export>) -> Result<Header, NoMemory>
    ensures { (p : Package) → AreGiven p given.now → exports.now ≡ export p → IfOk result (λ h. h ≡ header p) }
{
    let ints = uses_int(given.world)?;
    header(alloc, given.list, ints, exports)
}

/// What tells of the package as a whole.
fn put_package(
    alloc: Global,
    given: &Given<'_>,
    names: &Names,
    tree: &mut CapTree,
) -> Result<(), NoMemory>
    ensures { (p : Package) → AreGiven p given.now → AreNames p names.now
        → OnOk result (tree.new ≡ record tree.old {
          export = export p;
          header = header p;
          applet = applet p;
          import = Some (import p);
        }) }
{
    offsets_are_of_the_package();
    let export = export_of(alloc, given, names)?;
    let header = header_of(alloc, given, &export)?;
    let applet = applet(alloc, given.world, given.list, names.offsets.items())?;
    let import = import(alloc, given.world)?;
    tree.export = export;
    tree.header = header;
    tree.applet = applet;
    tree.import = Some(import);
    Ok(())
}

// ---- tags 5, 6, 8 and 11

fn pool_of(alloc: Global, given: &Given<'_>, names: &Names) -> Result<ConstantPool, NoMemory>
    requires { length given.now.key_tokens.now ≡ length given.now.keys.now }
    ensures { (p : Package) → AreGiven p given.now → AreNames p names.now
        → IfOk result (λ pool. pool ≡ record { entries = pool_entries p }) }
{
    offsets_are_of_the_package();
    let cells = key_cells(alloc, given.image, given.keys)?;
    let entries = pool_entries(
        alloc,
        given.world,
        &names.refs,
        given.tokens,
        names.offsets.items(),
        given.keys,
        given.key_tokens,
        cells.items(),
    )?;
    Ok(ConstantPool { entries })
}

fn descriptor_of(alloc: Global, given: &Given<'_>, names: &Names) -> Result<Descriptor, NoMemory>
    ensures { (p : Package) → AreGiven p given.now → AreNames p names.now → IfOk result (λ d. d ≡ descriptor p) }
{
    let order = names.order.items();
    let types = Types::of(alloc, &names.refs, given.world, order, given.keys)?;
    let parts = Parts {
        world: given.world,
        tokens: given.tokens,
        refs: &names.refs,
        order,
        keys: given.keys,
        cells: names.cells.items(),
        extents: given.extents,
        types: &types,
    };
    let made = descriptor(alloc, &parts);
    let Parts {
        world: _world,
        tokens: _tokens,
        refs: _refs,
        order: _order,
        keys: _keys,
        cells: _cells,
        extents: _extents,
        types: _types,
    } = parts;
    made
}

/// What tells of classes and members.
fn put_members(
    alloc: Global,
    given: &Given<'_>,
    names: &Names,
    tree: &mut CapTree,
) -> Result<(), NoMemory>
    requires tables { names.now.tables.rows ≡ class_tables (all_classes given.now.world.now) }
    requires tokens { length given.now.key_tokens.now ≡ length given.now.keys.now }
    requires image { AreFit given.now.image.now }
    ensures { (p : Package) → AreGiven p given.now → AreNames p names.now
        → OnOk result (tree.new ≡ record tree.old {
          pool = Some (record { entries = pool_entries p });
          class = Some (class_info (class_ref p) p);
          statics = Some (static_field p.image);
          descriptor =
              Some (descriptor p);
        }) }
{
    offsets_are_of_the_package();
    let pool = pool_of(alloc, given, names)?;
    tree.pool = Some(pool);
    let class = class_info(
        alloc,
        given.world,
        &names.tables,
        &names.refs,
        names.offsets.items(),
    )?;
    tree.class = Some(class);
    let statics = static_field(alloc, given.image)?;
    tree.statics = Some(statics);
    let descriptor = descriptor_of(alloc, given, names)?;
    tree.descriptor = Some(descriptor);
    Ok(())
}

// ---- tag 2

/// Directory without sizes.
fn counts_of(alloc: Global, tree: &CapTree) -> Result<Directory, NoMemory>
    ensures { (p : Package) → HasComponents p tree.now → IfOk result (λ d. d ≡ directory_with (replicate 12 0) p) }
{
    let sizes = Row::of(Vec::from_slice(alloc, &NO_SIZES)?);
    match (&tree.statics, &tree.import) {
        (Some(statics), Some(import)) => directory(sizes, statics, import, &tree.applet),
        _ => Err(NoMemory),
    }
}

/// Directory, of a tree that has all others: its own size is the same whatever sizes it has.
fn put_directory(alloc: Global, tree: &mut CapTree) -> Result<(), NoMemory>
    ensures { (p : Package) → HasComponents p tree.old → OnOk result (tree.new ≡ components_of p) }
{
    let counts = counts_of(alloc, tree)?;
    tree.directory = counts;
    let sizes = sizes_of(alloc, tree)?;
    tree.directory.component_sizes = sizes;
    Ok(())
}

// ---- all

/// All components of a package, whose Method and ReferenceLocation these are. Only want of memory is an error.
pub fn components(
    alloc: Global,
    given: &Given<'_>,
    bodies: Method,
    locations: ReferenceLocation,
) -> Result<CapTree, NoMemory>
    requires tokens { HasTokens given.now }
    requires keys { length given.now.key_tokens.now ≡ length given.now.keys.now }
    requires image { AreFit given.now.image.now }
    ensures { (p : Package) → AreGiven p given.now → bodies ≡ method p → locations ≡ reference_location p
        → IfOk result (λ tree. tree ≡ components_of p) }
{
    let names = names_of(alloc, given)?;
    let mut tree = with_methods(alloc, bodies, locations);
    put_package(alloc, given, &names, &mut tree)?;
    put_members(alloc, given, &names, &mut tree)?;
    put_directory(alloc, &mut tree)?;
    Ok(tree)
}
