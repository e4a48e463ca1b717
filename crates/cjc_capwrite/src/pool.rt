//! The bytes of ConstantPool (6.7). Called by `files`. It tests no limit.

ghost use Rattle.std.specs.Prelude.{◌≡◌, ◌++◌, OnOk};
ghost use Rattle.std.specs.List.{flat_map};
ghost use Rattle.cjc_capwrite.specs.Pool.{entry_bytes, pool_bytes};

use crate::parts::{put_class_ref, put_count2, put_static_ref};
use cjc_capread::bytes::{NoMemory, Out};
use cjc_capread::{ConstantPool, PoolEntry};

#[tactic(auto, unfolding(crate::specs::Pool::entry_bytes))]
fn put_entry(out: &mut Out, entry: PoolEntry) -> Result<(), NoMemory>
    ensures { OnOk result (out.new ≡ out.old ++ entry_bytes entry) }
{
    match entry {
        PoolEntry::Classref(class) => {
            out.put1(1)?;
            put_class_ref(out, class)?;
            out.put1(0)
        }
        PoolEntry::InstanceFieldref { class, token } => {
            out.put1(2)?;
            put_class_ref(out, class)?;
            out.put1(token)
        }
        PoolEntry::VirtualMethodref { class, token } => {
            out.put1(3)?;
            put_class_ref(out, class)?;
            out.put1(token)
        }
        PoolEntry::SuperMethodref { class, token } => {
            out.put1(4)?;
            put_class_ref(out, class)?;
            out.put1(token)
        }
        PoolEntry::StaticFieldref(member) => {
            out.put1(5)?;
            put_static_ref(out, member)
        }
        PoolEntry::StaticMethodref(member) => {
            out.put1(6)?;
            put_static_ref(out, member)
        }
    }
}

fn put_entries(out: &mut Out, entries: &[PoolEntry]) -> Result<(), NoMemory>
    ensures { OnOk result (out.new ≡ out.old ++ flat_map entry_bytes entries.now) }
{
    for entry in entries {
        put_entry(out, *entry)?;
    }
    Ok(())
}

/// The content of a Constant Pool component: its entries behind their number.
#[tactic(auto, unfolding(crate::specs::Pool::pool_bytes))]
pub(crate) fn put_pool(out: &mut Out, pool: &ConstantPool) -> Result<(), NoMemory>
    ensures { OnOk result (out.new ≡ out.old ++ pool_bytes pool.now) }
{
    put_count2(out, pool.entries.items())?;
    put_entries(out, pool.entries.items())
}
