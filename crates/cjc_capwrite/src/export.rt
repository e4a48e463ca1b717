//! The bytes of Export (6.12). Called by `files`. It tests no limit.

ghost use Rattle.std.specs.Prelude.{◌≡◌, ◌++◌, OnOk};
ghost use Rattle.std.specs.List.{flat_map};
ghost use Rattle.cjc_capwrite.specs.Export.{exported_class_bytes, export_bytes};

use crate::parts::{put_count1, put_numbers, put_two};
use cjc_capread::bytes::{NoMemory, Out};
use cjc_capread::{Export, ExportedClass};

#[tactic(auto, unfolding(crate::specs::Export::exported_class_bytes))]
fn put_exported_class(out: &mut Out, class: &ExportedClass) -> Result<(), NoMemory>
    ensures { OnOk result (out.new ≡ out.old ++ exported_class_bytes class.now) }
{
    put_two(out, class.class_offset)?;
    put_count1(out, class.fields.items())?;
    put_count1(out, class.methods.items())?;
    put_numbers(out, class.fields.items())?;
    put_numbers(out, class.methods.items())
}

fn put_exported_classes(out: &mut Out, classes: &[ExportedClass]) -> Result<(), NoMemory>
    ensures { OnOk result (out.new ≡ out.old ++ flat_map exported_class_bytes classes.now) }
{
    for class in classes {
        put_exported_class(out, class)?;
    }
    Ok(())
}

/// The content of an Export component: the classes it exports.
#[tactic(auto, unfolding(crate::specs::Export::export_bytes))]
pub(crate) fn put_export(out: &mut Out, export: &Export) -> Result<(), NoMemory>
    ensures { OnOk result (out.new ≡ out.old ++ export_bytes export.now) }
{
    put_count1(out, export.classes.items())?;
    put_exported_classes(out, export.classes.items())
}
