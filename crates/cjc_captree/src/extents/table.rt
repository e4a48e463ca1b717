//! Where each method of the package stands in Method as their layouts and offsets say. What the crate is called
//! for.

ghost use Rattle.std.specs.Prelude.{◌≡◌, ◌+◌, length, map, IfOk};
ghost use Rattle.cjc_exported.specs.World.Files.{Files};
ghost use Rattle.cjc_exported.specs.Components.Methods.{placed_methods};
ghost use Rattle.cjc_exported.specs.Components.Package.{Package};
ghost use Rattle.cjc_classes.specs.Descriptor.Made.{extents_of};
ghost use Rattle.cjc_methods.specs.Layouts.Laid.{AreLaid, laid_methods};
ghost use Rattle.cjc_captree.specs.Working.Tables.{extent_by_layout, extents_by, found_in, nowhere, table_of};

use crate::extents::rows::{empty_rows, put};
use cjc_classes::bytes::{NoMemory, Row};
use cjc_classes::descriptor::Extent;
use cjc_classes::layout::Layout;
use cjc_classes::world::World;
use cjc_methods::layouts::{Laid, Methods};
use std::alloc::Global;

/// A method by its layout, at an offset and behind so many handlers.
fn extent_by_layout(at: u32, handlers: u64, layout: &Layout) -> Extent
    ensures { result ≡ extent_by_layout at handlers layout.now }
{
    let count = layout.handlers.items().len();
    Extent {
        offset: u64::from(at),
        bytecode_count: u64::from(layout.length),
        handler_count: count as u64,
        first_handler: if count == 0 { 0 } else { handlers },
    }
}

/// So many handlers and those of a method.
fn with_handlers(count: u64, layout: &Layout) -> Result<u64, NoMemory>
    ensures { IfOk result (λ n. n ≡ count + (let l = layout.now in length l.handlers)) }
{
    match count.checked_add(layout.handlers.items().len() as u64) {
        None => Err(NoMemory),
        Some(sum) => Ok(sum),
    }
}

/// Of methods at these offsets, one after the other.
fn extents_by(alloc: Global, offsets: &[u32], laid: &[Laid]) -> Result<Row<Extent>, NoMemory>
    requires { length offsets.now ≡ length laid.now }
    ensures { IfOk result (λ row. row ≡ extents_by 0 offsets.now laid.now) }
{
    let mut row = Row::new(alloc);
    let mut handlers = 0;
    for k in 0..laid.len() {
        row.push(extent_by_layout(offsets[k], handlers, &laid[k].layout))?;
        handlers = with_handlers(handlers, &laid[k].layout)?;
    }
    Ok(row)
}

/// Puts the extents of methods at their places; the first methods last, so that of equal ones the first counts.
fn put_extents(alloc: Global, rows: &mut [Row<Extent>], laid: &[Laid], extents: &[Extent])
    requires { length extents.now ≡ length laid.now }
    ensures { (files : Files) → rows.old ≡ table_of files (λ _. nowhere)
        → rows.new ≡ table_of files (found_in laid.now extents.now) }
{
    let mut k = laid.len();
    while k > 0 {
        k -= 1;
        let member = laid[k].member;
        put(
            alloc,
            rows,
            member.class as usize,
            member.member as usize,
            extents[k],
        );
    }
}

/// By the number of a class and of its member where each method of the package stands, as Descriptor tells it.
/// Fields are counted first, then methods, then those that the class got. The methods stand at these offsets,
/// which `cjc_methods::layouts::offsets` gives.
pub fn extents(
    alloc: Global,
    world: &World<'_>,
    methods: &Methods,
    offsets: &[u32],
) -> Result<Row<Row<Extent>>, NoMemory>
    requires laid { AreLaid methods.now }
    requires count { length offsets.now ≡ length methods.now.codes }
    ensures { (p : Package) → p.files ≡ world.now → p.methods ≡ laid_methods methods.now
        → offsets.now ≡ map (λ q. q.offset) (placed_methods p) → IfOk result (λ rows. rows ≡ extents_of p) }
{
    let laid = methods.laid.items();
    let extents = extents_by(alloc, offsets, laid)?;
    let mut rows = empty_rows(alloc, world)?;
    put_extents(alloc, &mut rows, laid, extents.items());
    Ok(Row::of(rows))
}
