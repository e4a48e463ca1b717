//! Fields of interfaces. It has laws alone, for whoever proves that components which break no rule are never stuck.
ghost use Rattle.std.specs.Prelude.{◌≡◌, ℕ, List, []};
ghost use Rattle.cjc_intervals.specs.Bytecode.declared.method_code.MethodCode.{MethodCode};
ghost use Rattle.cjc_bytes.specs.declared.settings.Settings.{Settings};
ghost use Rattle.cjc_world.specs.Files.{Files};
ghost use Rattle.cjc_verify.specs.Subset.Checks.{check_breaks};
ghost use Rattle.cjc_verified_proof.specs.PackageTypes.{StaticInInterfaces};

/// Where no rule of the card's language is broken, interfaces have static fields alone.
pub fn fields_of_interfaces_are_static()
    ensures { (list : List ℕ) (files : Files) (codes : List MethodCode) (settings : Settings)
        → check_breaks list files codes settings ≡ [] → StaticInInterfaces files }
{}
