//! What holds of the tokens of a package, beside what cjc_tokens says of its own: for whoever calls methods by
//! token. Nothing here runs.
ghost use Rattle.std.specs.Prelude.{◌≡◌, ◌<◌, ◌++◌, ℕ, Bool, List, true, false, if◌then◌else◌, slice_get, Some};
ghost use Rattle.std.specs.List.{Contains};
ghost use Rattle.cjc_world.specs.ClassFile.declared.tree.ClassTree.{ClassTree};
ghost use Rattle.cjc_bytes.specs.AccessFlags.{is_interface};
ghost use Rattle.cjc_world.specs.Added.{asked_by, own_methods};
ghost use Rattle.cjc_world.specs.Classes.{Class, Member, all_classes, class_named, declared};
ghost use Rattle.cjc_world.specs.Files.{Files};
ghost use Rattle.cjc_world.specs.Supertypes.{IsAcyclic, supertypes};
ghost use Rattle.cjc_world.specs.Lookup.{method_of_interface};
ghost use Rattle.cjc_world.specs.declared.found.Found.{Found};
ghost use Rattle.cjc_tokens.specs.Members.{Signature, signature_of};
ghost use Rattle.cjc_tokens.specs.Methods.{interface_methods};
ghost use Rattle.cjc_tokens.specs.Tokens.{assigned, method_of_token};

/// Where no class stands above itself, each token of an interface means a method that is found: one of an
/// interface of the package or of an export file, and of the package by the tokens that are assigned. Each
/// method that an interface lists or inherits has a token.
pub fn interface_tokens_mean_methods()
    ensures found { (w : List Class) (c : Class) → IsAcyclic w → class_named w c.name ≡ Some c → (t : ℕ) (s : Signature)
        → slice_get (interface_methods w c) t ≡ Some s → (f : Found) × (method_of_interface w c.name s.name s.desc
        ≡ Some f) }
    ensures assigned { (applets : Bool) (files : Files) (n : ℕ) (c : ClassTree) → IsAcyclic (all_classes files)
        → class_named (all_classes files) c.name ≡ Some (declared n c) → slice_get files.classes n ≡ Some c
        → is_interface c.flags ≡ true → (t : ℕ) (s : Signature) → t < 128
        → slice_get (interface_methods (all_classes files) (declared n c)) t ≡ Some s → (f : Found)
        × (method_of_token (assigned applets files) n t ≡ Some f) }
    ensures listed { (w : List Class) (c : Class) (m : Member) → Contains (if c.is_imported then own_methods c
        else asked_by (supertypes w c.supers) (supertypes w c.interfaces) ++ own_methods c) m → (t : ℕ)
        × (slice_get (interface_methods w c) t ≡ Some (signature_of m)) }
{}
