//! The fields whose index fits one byte. Called by whoever selects the short forms of field instructions.

ghost use Rattle.std.specs.Prelude.{◌≡◌, ◌++◌, take, IfOk, OnOk};
ghost use Rattle.std.specs.List.{flat_map};
ghost use Rattle.cjc_narrow.specs.Keys.Index.{field_of, near_fields};

use crate::keys::key::copy_member;
use crate::keys::walk::number;
use cjc_ncode::{NMethod, PoolKey};
use cjc_types::bytes::{MemberId, NoMemory, Row};
use std::alloc::Global;

/// How many indices fit one byte.
const NEAR: usize = 256;

fn first_keys(keys: &[PoolKey]) -> &[PoolKey]
    ensures { result.now ≡ take 256 keys.now }
{
    if keys.len() > NEAR {
        &keys[..NEAR]
    } else {
        keys
    }
}

fn put_field(alloc: Global, fields: &mut Row<MemberId>, key: &PoolKey) -> Result<(), NoMemory>
    ensures { OnOk result (fields.new ≡ fields.old ++ field_of key.now) }
{
    match key {
        PoolKey::Field(id) => {
            let own = copy_member(alloc, id)?;
            fields.push(own)?;
        }
        _ => {}
    }
    Ok(())
}

fn fields_of(alloc: Global, keys: &[PoolKey]) -> Result<Row<MemberId>, NoMemory>
    ensures { IfOk result (λ fields. fields ≡ flat_map field_of keys.now) }
{
    let mut fields = Row::new(alloc);
    for key in keys {
        put_field(alloc, &mut fields, key)?;
    }
    Ok(fields)
}

/// The instance fields whose index in the pool of these methods is at most 255, in its order.
pub fn near(alloc: Global, methods: &Row<NMethod>) -> Result<Row<MemberId>, NoMemory>
    ensures { IfOk result (λ fields. fields ≡ near_fields methods.now) }
{
    let numbers = number(alloc, methods.items())?;
    fields_of(alloc, first_keys(numbers.keys().items()))
}
