//! Dispatch by the tables of class infos, and calls. It has laws alone, for whoever proves that components which break
//! no rule are never stuck.
ghost use Rattle.std.specs.Prelude.{◌≡◌, ◌<◌, ℕ, false, List, [], Some, Bool, length, nat_lt, slice_get};
ghost use Rattle.cjc_bytes.specs.AccessFlags.{is_interface};
ghost use Rattle.cjc_world.specs.ExportFile.Writable.{IsWritable};
ghost use Rattle.cjc_world.specs.ExportFile.declared.tree.ExportTree.{ExportTree};
ghost use Rattle.cjc_check_rules.specs.Complete.{Complete};
ghost use Rattle.cjc_check_rules.specs.PoolEntries.{pool_spots};
ghost use Rattle.cjc_verify.specs.List.Listed.{ListTree};
ghost use Rattle.cjc_world.specs.declared.image.StaticImage.{StaticImage};
ghost use Rattle.cjc_world.specs.Classes.{Class, all_classes, class_named};
ghost use Rattle.cjc_world.specs.Files.{Files};
ghost use Rattle.cjc_tokens.specs.Lines.{line_of};
ghost use Rattle.cjc_tokens.specs.Members.{Signature};
ghost use Rattle.cjc_tokens.specs.Slots.{hidden_slots, slots, token};
ghost use Rattle.cjc_token_proof.specs.VTable.Laws.{Under};
ghost use Rattle.cjc_components.specs.Paired.Pairs.{ArePaired};
ghost use Rattle.cjc_token_proof.specs.Calls.Dispatching.{DispatchAgrees};
ghost use Rattle.cjc_token_proof.specs.Tables.Sound.{IsSound};
ghost use Rattle.cjc_verify.specs.Named.{own_virtual_desc};
ghost use Rattle.cjc_verify.specs.Pairs.{pair_of};
ghost use Rattle.cjc_verify.specs.Verified.{IsVerified};
ghost use Rattle.cjc_verify_proof.specs.Frames.{Program};
ghost use Rattle.cjc_verified_proof.specs.Dispatching.{FilesAgree, IsHiddenBy, IsReachedBy, TablesFit, naming_of};
ghost use Rattle.cjc_verified_proof.specs.Dispatching.{offset_in};
ghost use Rattle.cjc_verified_proof.specs.Dispatching.{package_of};
ghost use Rattle.cjc_verified_proof.specs.Checked.{Checked, HasCode, IsChecked, pair};
ghost use Rattle.cjc_verified_proof.specs.Entries.{AreRefs};
ghost use Rattle.cjc_verified_proof.specs.Kept.{KeepsCalls};
ghost use Rattle.cjc_verified_proof.specs.Programs.{CallsSuit, IsProgramOf};
ghost use Rattle.cjc_verified_proof.specs.Selecting.{DispatchFits};
ghost use Rattle.cjc_verified_proof.specs.Suited.{AreStanding, HaveSorts};

/// Where no rule of the type checker is broken, dispatch by the tables of Class on an object of a class gives what the
/// class tables of the files give, and a token of a class at or above its class reaches a method of the same name and
/// descriptor there: a public or protected one, and a package-visible one, which is of the package.
pub fn tables_dispatch()
    ensures alike { (name : List ℕ) (list : ListTree) (files : Files) (image : StaticImage) (c : Complete)
        → IsSound name files → ArePaired files image c → IsVerified (pair_of (nat_lt 0 (length list.applets)) files
        image c)
        → FilesAgree (package_of list files image) → ((k : Class) → class_named (all_classes files) k.name ≡ Some k
        → k.is_imported ≡ false → is_interface k.flags ≡ false → TablesFit (pair_of (nat_lt 0 (length list.applets))
        files
        image c) (all_classes files) k) → (x : List ℕ) (k : Class) → class_named (all_classes files) x ≡ Some k
        → is_interface k.flags ≡ false → (z : List ℕ) × DispatchAgrees (all_classes files) (naming_of (pair_of
        (nat_lt 0 (length list.applets)) files image c) (package_of list files image)) (offset_in (pair_of
        (nat_lt 0 (length list.applets)) files image c)) x z }
    ensures shown { (name : List ℕ) (list : ListTree) (files : Files) (image : StaticImage) (c : Complete)
        → IsSound name files → ArePaired files image c → IsVerified (pair_of (nat_lt 0 (length list.applets)) files
        image c)
        → FilesAgree (package_of list files image) → ((k : Class) → class_named (all_classes files) k.name ≡ Some k
        → k.is_imported ≡ false → is_interface k.flags ≡ false → TablesFit (pair_of (nat_lt 0 (length list.applets))
        files
        image c) (all_classes files) k) → (x y : List ℕ) (k d : Class) → class_named (all_classes files) x ≡ Some k
        → is_interface k.flags ≡ false → class_named (all_classes files) y ≡ Some d → Under (all_classes files) x y
        → (s : Signature) (t : ℕ) → token (slots (line_of (all_classes files) y)) s ≡ Some t
        → IsReachedBy (pair_of (nat_lt 0 (length list.applets)) files image c) (package_of list files image) x t s }
    ensures hidden { (name : List ℕ) (list : ListTree) (files : Files) (image : StaticImage) (c : Complete)
        → IsSound name files → ArePaired files image c → IsVerified (pair_of (nat_lt 0 (length list.applets)) files
        image c)
        → FilesAgree (package_of list files image) → ((k : Class) → class_named (all_classes files) k.name ≡ Some k
        → k.is_imported ≡ false → is_interface k.flags ≡ false → TablesFit (pair_of (nat_lt 0 (length list.applets))
        files
        image c) (all_classes files) k) → (x y : List ℕ) (k d : Class) → class_named (all_classes files) x ≡ Some k
        → is_interface k.flags ≡ false → class_named (all_classes files) y ≡ Some d → Under (all_classes files) x y
        → (s : Signature) (t : ℕ) → token (hidden_slots (line_of (all_classes files) y)) s ≡ Some t
        → IsHiddenBy (pair_of (nat_lt 0 (length list.applets)) files image c) (package_of list files image) x t s }
{}

/// The token of an entry that names a public or protected method of a class of the package reaches, on an object of
/// that class or of a subclass, a method with the descriptor that the entry's type is by 721.
pub fn entries_reach_their_descriptors()
    ensures { (name : List ℕ) (list : ListTree) (files : Files) (image : StaticImage) (c : Complete)
        → IsSound name files → ArePaired files image c → IsVerified (pair_of (nat_lt 0 (length list.applets)) files
        image c)
        → FilesAgree (package_of list files image) → ((k : Class) → class_named (all_classes files) k.name ≡ Some k
        → k.is_imported ≡ false → is_interface k.flags ≡ false → TablesFit (pair_of (nat_lt 0 (length list.applets))
        files
        image c) (all_classes files) k) → (x y : List ℕ) (k d : Class) → class_named (all_classes files) x ≡ Some k
        → is_interface k.flags ≡ false → class_named (all_classes files) y ≡ Some d → d.is_imported ≡ false
        → is_interface d.flags ≡ false → Under (all_classes files) x y → (t : ℕ) → t < 128 → (desc : List ℕ)
        → own_virtual_desc (pair_of (nat_lt 0 (length list.applets)) files image c) t d ≡ Some desc → (s : Signature)
        × IsReachedBy (pair_of (nat_lt 0 (length list.applets)) files image c) (package_of list files image) x t s
        × (s.desc ≡ desc) }
{}

/// Each call is what its act says: of a static method, a constructor or a private method, and by dispatch where that
/// keeps the descriptors that entries of the constant pool and tokens of interfaces name.
pub fn calls_suit()
    ensures { (applets : Bool) (files : Files) (image : StaticImage) (c : Complete) (program : Program)
        → IsVerified (pair_of applets files image c)
        → (let d = c.descriptor in let q = c.pool in length d.pool_types ≡ length q.entries)
        → ((e : ℕ) (t : ExportTree) → slice_get files.exports e ≡ Some t → IsWritable t)
        → pool_spots c files.exports ≡ [] → AreStanding (pair_of applets files image c) program
        → HaveSorts (pair_of applets files image c) → AreRefs c → DispatchFits (pair_of applets files image c) program
        → CallsSuit (pair_of applets files image c) program }
{}

/// Dispatch keeps the descriptors that entries of the constant pool and tokens of interfaces name, in a package that is
/// checked, where the files keep what dispatch rests on.
pub fn dispatch_fits()
    ensures { (c : Checked) → IsChecked c → HasCode c → KeepsCalls c → (program : Program)
        → IsProgramOf (pair c) program → DispatchFits (pair c) program }
{}
