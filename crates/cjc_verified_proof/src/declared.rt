//! Class infos: each has slots for the instance fields of its class, of their kinds. It has laws alone, for whoever
//! proves that components which break no rule are never stuck.
ghost use Rattle.std.specs.Prelude.{◌≡◌, Bool, ℕ, false, List, Option};
ghost use Rattle.cjc_capread.specs.declared.tree.ClassRef.{ClassRef};
ghost use Rattle.cjc_capread.specs.declared.tree.PoolEntry.TheVariants.{Classref};
ghost use Rattle.cjc_card_semantics.specs.Script.declared.value.Value.{Value};
ghost use Rattle.cjc_intervals.specs.Types.declared.cell.Cell.{Cell};
ghost use Rattle.cjc_card_semantics.specs.Bytecode.Effects.{Memory, effect};
ghost use Rattle.cjc_card_semantics.specs.Bytecode.Meanings.{Makes};
ghost use Rattle.cjc_card_semantics.specs.Machine.Classes.{Class, Field};
ghost use Rattle.cjc_card_semantics.specs.Machine.Operations.{or_undone};
ghost use Rattle.cjc_card_semantics.specs.Machine.Operations as machine;
ghost use Rattle.cjc_card_semantics.specs.Machine.Statics.{Image};
ghost use Rattle.cjc_card_semantics.specs.Machine.ByToken.{classes};
ghost use Rattle.cjc_card_acts.specs.CardTypes.{MemberType, is_type_of};
ghost use Rattle.cjc_verify.specs.Frames.Acts.{stack_behind};
ghost use Rattle.cjc_verify.specs.Instructions.{using};
ghost use Rattle.cjc_verify.specs.Named.{names_unmade};
ghost use Rattle.cjc_verify_proof.specs.Words.{AreWords, AreLocals};
ghost use Rattle.cjc_verify_proof.specs.Acts.{Passes};
ghost use Rattle.cjc_verify_proof.specs.Heaps.{object_is};
ghost use Rattle.cjc_verified_proof.specs.Entries.{IsRef};
ghost use Rattle.cjc_check_rules.specs.Complete.{Complete};
ghost use Rattle.cjc_world.specs.declared.image.StaticImage.{StaticImage};
ghost use Rattle.cjc_world.specs.Files.{Files};
ghost use Rattle.cjc_token_proof.specs.Tables.Sound.{IsSound, AreTyped, AreFieldDescs};
ghost use Rattle.cjc_verify.specs.Pairs.{pair_of};
ghost use Rattle.cjc_verify.specs.Verified.{IsVerified};
ghost use Rattle.cjc_verify_proof.specs.Memories.{AreDeclared, Goes, IsMemory, SupersStand};
ghost use Rattle.cjc_verified_proof.specs.PackageTypes.{StaticInInterfaces, field_types};

/// Each instance field of a package has a slot in the info of its class, null at first where it is a reference, else 0,
/// where no rule of the type checker is broken and the package is one of read files that keep the rules of names.
pub fn fields_have_slots()
    ensures { (applets : Bool) (list : List ℕ) (files : Files) (image : StaticImage) (c : Complete)
        → IsSound list files → AreTyped files → AreFieldDescs files → StaticInInterfaces files
        → IsVerified (pair_of applets files image c)
        → (let p = pair_of applets files image c in AreDeclared p.loaded (field_types p)) }
{}

/// new pushes a reference to a new object, and memory holds what it may afterwards, where the state before it breaks no
/// rule and the class is neither abstract nor an interface.
pub fn new_goes()
    ensures { (applets : Bool) (list : List ℕ) (files : Files) (image : StaticImage) (c : Complete)
        → IsSound list files → AreTyped files → AreFieldDescs files → StaticInInterfaces files
        → IsVerified (pair_of applets files image c)
        → (let p = pair_of applets files image c in SupersStand p.loaded → (room next : ℕ) (lc : List Cell)
        (lv : List (Option Value)) (m : Memory Class Field (List Image)) → AreLocals (object_is p.loaded m.heap) lc lv
        → IsMemory p.loaded (field_types p) m → (r : ClassRef) (t : MemberType) → IsRef r → names_unmade p r ≡ false
        → (cs : List Cell) (vs : List Value) → AreWords (object_is p.loaded m.heap) cs vs
        → Passes (is_type_of p.loaded) room (using p Makes t (Classref r)) lc cs
        → Goes p.loaded (field_types p) next (stack_behind (using p Makes t (Classref r)) lc cs) lc m
        (effect (classes p.loaded) (or_undone (machine.using p.loaded 0 Makes (Classref r))) room next lv m vs)) }
{}
