//! What Descriptor is made of. Called by `fields`, `methods` and `classes`. It knows no order and no rule.

ghost use Rattle.std.specs.Prelude.{◌≡◌, false, unwrap_or};
ghost use Rattle.cjc_world.specs.declared.found.Found.{Found as Member};
ghost use Rattle.cjc_tokens.specs.Tokens.{token_of_member};
ghost use Rattle.cjc_classes.specs.Descriptor.Working.Described.{extent_in, number_in, token_in};

use crate::class_info::ClassRefs;
use crate::type_info::Types;
use cjc_bytes::Row;
use cjc_components::ncode::PoolKey;
use cjc_tokens::Tokens;
use cjc_world::{Found, World};

/// Where a method stands in Method; all are 0 of one that stands nowhere, as those of interfaces.
#[derive(Clone, Copy)]
pub struct Extent {
    /// The offset of its header in bytes from the start of the info of Method.
    pub offset: u64,
    /// The bytes of its code, without its header.
    pub bytecode_count: u64,
    pub handler_count: u64,
    /// The index of its first handler, 0 where it has none.
    pub first_handler: u64,
}

/// What is made of a package before its Descriptor.
pub struct Parts<'a> {
    pub world: &'a World<'a>,
    pub tokens: &'a Tokens,
    /// The class_ref of each name.
    pub refs: &'a ClassRefs,
    /// The numbers of the package's classes in the order of Class.
    pub order: &'a [u32],
    /// The keys of the constant pool.
    pub keys: &'a [PoolKey],
    /// By the number of a class and of its field the offset of the field's cell.
    pub cells: &'a [Row<u64>],
    /// By the number of a class and of its member where a method stands in Method. Fields are counted first,
    /// then methods, then those that the class got.
    pub extents: &'a [Row<Extent>],
    pub types: &'a Types,
}

/// The offset of the cell of a field; 0 where none is told.
pub(crate) fn cell_of(cells: &[Row<u64>], class: u32, field: usize) -> u64
    ensures { result ≡ number_in cells.now class field }
{
    match cells.get(class as usize) {
        Some(row) => match row.items().get(field) {
            Some(offset) => *offset,
            None => 0,
        },
        None => 0,
    }
}

/// Where a method stands.
pub(crate) fn extent_of(extents: &[Row<Extent>], class: u32, member: usize) -> Extent
    ensures { result ≡ extent_in extents.now class member }
{
    let nowhere = Extent {
        offset: 0,
        bytecode_count: 0,
        handler_count: 0,
        first_handler: 0,
    };
    match extents.get(class as usize) {
        Some(row) => match row.items().get(member) {
            Some(extent) => *extent,
            None => nowhere,
        },
        None => nowhere,
    }
}

/// The token of a member of the package; 0xFF is none.
pub(crate) fn token_of(tokens: &Tokens, class: u32, member: u32) -> u8
    ensures { result ≡ token_in tokens.now class member }
{
    tokens
        .member_token(Found {
            imported: false,
            class,
            member,
        })
        .unwrap_or(0xFF)
}
