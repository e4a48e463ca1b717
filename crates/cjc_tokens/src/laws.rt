//! What tokens of the interfaces of a package mean, for every caller. Nothing here runs.

ghost use Rattle.std.specs.Prelude.{◌≡◌, ◌<◌, ℕ, Bool, true, slice_get, Some};
ghost use Rattle.cjc_world.specs.ClassFile.declared.tree.ClassTree.{ClassTree};
ghost use Rattle.cjc_bytes.specs.AccessFlags.{is_interface};
ghost use Rattle.cjc_world.specs.Classes.{all_classes, declared};
ghost use Rattle.cjc_world.specs.Files.{Files};
ghost use Rattle.cjc_world.specs.Lookup.{method_of_interface};
ghost use Rattle.cjc_tokens.specs.Members.{Signature};
ghost use Rattle.cjc_tokens.specs.Methods.{interface_methods};
ghost use Rattle.cjc_tokens.specs.Tokens.{assigned, method_of_token};

/// A token of an interface of the package means the method of the signature that stands at its place among the
/// methods of the interface: its own, else that of the first of its superinterfaces that declares one. Where
/// 413 is unbroken these are all its methods.
pub fn interface_laws()
    ensures { (applets : Bool) (files : Files) (n : ℕ) (c : ClassTree) (t : ℕ) (s : Signature)
        → slice_get files.classes n ≡ Some c → is_interface c.flags ≡ true → t < 128
        → slice_get (interface_methods (all_classes files) (declared n c)) t ≡ Some s
        → method_of_token (assigned applets files) n t ≡ method_of_interface (all_classes files) c.name s.name s.desc }
{}
