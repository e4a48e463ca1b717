//! The whole of a conversion. The trees of the components are let go as soon as their files are made; what was read of
//! the package's files stands until the end.

ghost use Rattle.std.specs.Prelude.{◌≡◌, ◌⊎◌, ◌≤◌, ◌^◌, length, All, IfOk, IfErr};
ghost use Rattle.cjc_captree.specs.Bytes.declared.fault.Fault.TheVariants as faults;
ghost use Rattle.cjc_captree.specs.Bytes.declared.fault.Refusal.{Refusal as Broken};
ghost use Rattle.cjc_convert.specs.Conversion.{IsConvertedByModes};
ghost use Rattle.cjc_shape_proof.specs.LowerJudge.Spelt.{IsRead};
ghost use Rattle.cjc_shape_proof.specs.LowerShape.Whole.Conversion.{IsRefused};

use crate::building::build;
use crate::files::are_bytes;
use cjc_captree::capwrite::CapFiles;
use cjc_captree::list::List;
use cjc_shape_proof::bytes::{Bytes, Fault, Row};
use cjc_shape_proof::judge::{Group, judge};
use cjc_shape_proof::shape::whole::shape;
use cjc_shape_proof::writing::{
    aids_are_short, components_can_be_written, export_files_can_be_written,
};
use std::alloc::Global;

/// What a conversion writes.
#[derive(Drop)]
pub struct Converted {
    /// The component files.
    pub caps: CapFiles,
    /// The package's export file.
    pub export: Bytes,
}

/// What is written for the package of a list, whose files these are in list order, each of 512 MiB at most. Each method
/// is written by its mode.
///
/// # Errors
///
/// The first rule that the files break: 101 to 104, else one of 201 to 208, 301 to 310, 401 to 409 and 413, 501
/// to 503, 601 to 609; where they break none, 417; else 311, 414 or 415; else 411 or 416.
pub fn convert(alloc: Global, list: &List, files: &Row<Bytes>) -> Result<Converted, Fault>
    requires read { IsRead list.now }
    requires count { length files.now ≡ length list.now.lines }
    requires files { All (λ bytes. length bytes ≤ 2 ^ 29) files.now }
    ensures converted { IfOk result (IsConvertedByModes list.now files.now) }
    ensures refused { IfErr result (λ e. (e ≡ faults.NoMemory) ⊎ ((r : Broken) × IsRefused list.now files.now r
        × (e ≡ faults.Refused r))) }
{
    are_bytes(files);
    aids_are_short();
    components_can_be_written();
    export_files_can_be_written();
    let groups = [
        Group::Unsupported,
        Group::Initialisers,
        Group::Limits,
        Group::Tokens,
        Group::Ranges,
    ];

    // 101 to 104, 201 to 208, 301 to 310, 401 to 409, 413, 501 to 503, 601 to 609
    let judged = judge(alloc, list, files, &groups)?;
    // 417, 311, 414, 415
    let shaped = shape(alloc, &judged)?;
    let caps = {
        // 411, 416
        let cap = build(alloc, &judged, &shaped)?;
        cjc_captree::capwrite::write(alloc, list.name.items(), &cap)?
    };
    let export = cjc_captree::export_file::write(alloc, &shaped.export)?;
    Ok(Converted { caps, export })
}
