//! A package that breaks no rule has code for what its classes declare and inherit, where its export files are
//! sound. Definitions and laws alone: nothing here runs.
ghost use Rattle.std.specs.Prelude.{◌≡◌, ℕ, List, [], Some, false, true};
ghost use Rattle.cjc_bytes.specs.declared.settings.Settings.{Settings};
ghost use Rattle.cjc_jvm_semantics.specs.Effects.{Fault, exception_class};
ghost use Rattle.cjc_jvm_semantics.specs.OnePackage.{is_plain_import};
ghost use Rattle.cjc_world_proof.specs.Calls.Solid.{IsSolid};
ghost use Rattle.cjc_clinit.specs.Bytecode.declared.method_code.MethodCode.{MethodCode};
ghost use Rattle.cjc_world_proof.specs.Files.{ExportsAreSound, IsClean};
ghost use Rattle.cjc_world.specs.Classes.{Class, all_classes, class_named};
ghost use Rattle.cjc_world.specs.Files.{Files};
ghost use Rattle.cjc_world.specs.Rules.{breaks, throwable};
ghost use Rattle.cjc_world.specs.Subtype.{is_subtype, starts};

/// A package that breaks no rule of names and types, of files that were read, over sound export files: its
/// classes have code for what they declare and inherit, wherever objects may be of them.
pub fn clean_packages_are_solid()
    ensures { (list : List ℕ) (files : Files) (codes : List MethodCode) (settings : Settings)
        → IsClean list files codes settings → ((x : List ℕ) (c : Class) → class_named (all_classes files) x ≡ Some c
        → starts 91 x ≡ false) → IsSolid files }
{}

/// The exceptions of the machine's own are imported classes, no interfaces, and java/lang/Throwable stands above them.
pub fn exceptions_are_imported()
    ensures { (list : List ℕ) (files : Files) → breaks list files ≡ [] → ExportsAreSound files → (fault : Fault)
        → (is_plain_import (class_named (all_classes files) (exception_class fault)) ≡ true)
        × (is_subtype (all_classes files) (exception_class fault) throwable ≡ true) }
{}
