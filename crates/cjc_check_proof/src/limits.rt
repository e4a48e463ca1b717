//! What the rules and limits of the converter promise of a package's components: each number and count of them fits the
//! field that it is written to, so that the files that are written spell them. For whoever writes them. Nothing here
//! runs.
ghost use Rattle.std.specs.Prelude.{IfSome};
ghost use Rattle.cjc_pool.specs.CapWrite.Fits.{AppletFits, ClassInfoFits, DescriptorFits, DirectoryFits};
ghost use Rattle.cjc_pool.specs.CapWrite.Fits.{ExportFits};
ghost use Rattle.cjc_pool.specs.CapWrite.Fits.{HeaderFits, ImportFits, LocationsFit, MethodFits, PoolFits};
ghost use Rattle.cjc_pool.specs.CapWrite.Fits.{StaticFieldFits};
ghost use Rattle.cjc_pool.specs.CapWrite.Writable.{IsWritable};
ghost use Rattle.cjc_components.specs.Class.{class_info};
ghost use Rattle.cjc_components.specs.Components.{applet, header, import, method, reference_location};
ghost use Rattle.cjc_components.specs.Components.{components_of, directory_with, sizes};
ghost use Rattle.cjc_components.specs.Descriptor.{descriptor};
ghost use Rattle.cjc_components.specs.Exports.{export};
ghost use Rattle.cjc_components.specs.Names.{class_ref, pool_entries};
ghost use Rattle.cjc_components.specs.Package.{Package};
ghost use Rattle.cjc_components.specs.Statics.{static_field};
ghost use Rattle.cjc_check_proof.specs.Limits.Premises.{IsLimited};

/// The components of a package that keeps the rules and the limits fit: each by itself, and all of them.
pub fn components_fit()
    ensures header { (p : Package) → IsLimited p → HeaderFits (header p) }
    ensures applet { (p : Package) → IsLimited p → IfSome (applet p) AppletFits }
    ensures import { (p : Package) → IsLimited p → ImportFits (import p) }
    ensures pool { (p : Package) → IsLimited p → PoolFits (record { entries = pool_entries p }) }
    ensures class { (p : Package) → IsLimited p → ClassInfoFits (class_info (class_ref p) p) }
    ensures statics { (p : Package) → IsLimited p → StaticFieldFits (static_field p.image) }
    ensures locations { (p : Package) → IsLimited p → LocationsFit (reference_location p) }
    ensures export { (p : Package) → IsLimited p → IfSome (export p) ExportFits }
    ensures method { (p : Package) → IsLimited p → MethodFits (method p) }
    ensures descriptor { (p : Package) → IsLimited p → DescriptorFits (descriptor p) }
    ensures directory { (p : Package) → IsLimited p → DirectoryFits (directory_with (sizes p) p) }
    ensures all { (p : Package) → IsLimited p → IsWritable (components_of p) }
{}
