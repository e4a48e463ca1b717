//! Calls of a package by token are its calls by name: what class infos, maps, export files and the entries of
//! Method say of methods is what the look-ups of narrow code find. Whoever writes components cites it. It has
//! definitions and laws alone, and does not know how a table or code was made.
ghost use Rattle.std.specs.Prelude.{◌≡◌, ◌<◌, ◌≤◌, ℕ, List, Bool, Some, false};
ghost use Rattle.cjc_card_semantics.specs.Machine.Classes.{depth};
ghost use Rattle.cjc_card_semantics.specs.Machine.Dispatch.{above, tower};
ghost use Rattle.cjc_world.specs.declared.found.Found.{Found};
ghost use Rattle.cjc_bytes.specs.AccessFlags.{is_abstract, is_interface};
ghost use Rattle.cjc_bytes.specs.declared.fault.MemberId.{MemberId};
ghost use Rattle.cjc_world.specs.Classes.{Class, class_named};
ghost use Rattle.cjc_world.specs.Supertypes.{IsAcyclic};
ghost use Rattle.cjc_ncode.specs.Lowering.Naming.{Naming};
ghost use Rattle.cjc_token_proof.specs.ByToken.Supers.{SaysKinds};
ghost use Rattle.cjc_vtable.specs.Laws.{KeepsInterfaces, KeepsRules};
ghost use Rattle.cjc_token_proof.specs.Calls.Dispatching.{DispatchAgrees, SaysTables, SaysTower};
ghost use Rattle.cjc_world.specs.declared.image.StaticImage.{StaticImage};
ghost use Rattle.cjc_world.specs.Files.{Files};
ghost use Rattle.cjc_jvm_semantics.specs.Linked.{Method};
ghost use Rattle.cjc_components.specs.LowerNarrow.Rows.Package.{named};
ghost use Rattle.cjc_ncode.specs.Lowering.Agreement.{MethodsAgree};
ghost use Rattle.cjc_ncode.specs.Lowering.Placed.{Placed};
ghost use Rattle.cjc_token_proof.specs.Calls.Reaching.{BeginsAtOffsets, SaysReceiver, VirtualCallsReach};
ghost use Rattle.cjc_token_proof.specs.Calls.Reaching.{placed_methods, SaysFixed, FixedCallsReach, SaysSuper};
ghost use Rattle.cjc_token_proof.specs.Calls.Reaching.{SuperCallsReach, InterfaceCallReaches, SaysOutside};
ghost use Rattle.cjc_token_proof.specs.Calls.Selecting.{SaysInterface, SelectionsAgree};

use cjc_vtable::dispatch_laws;
use cjc_world::lookup_laws;

/// Dispatch by token on an object of a class gives by class infos and export files what it gives by class
/// tables and maps: a public or protected method, a package-visible one, and one of an interface. An imported
/// one is the event of the first imported class.
pub fn dispatch_agrees()
    ensures { (w : List Class) → IsAcyclic w → (n : Naming) (offset : Found → ℕ) → ((f : Found) → offset f < 0xFFFF)
        → SaysKinds w n → (height : ℕ) (x z : List ℕ) → SaysTower w n offset height x z → height ≤ depth n.loaded
        → DispatchAgrees w n offset x z }
{
    lookup_laws();
}

/// Where a call by name selects a method on an object of a class, which is no interface, the call by token
/// selects it, by its offset or as the event of the first imported class: a virtual call by the token that the
/// method has where it is found, and a call of an interface's method by its place among the methods of the
/// interface.
pub fn selections_agree()
    ensures { (w : List Class) → KeepsRules w → KeepsInterfaces w → (n : Naming) (offset : Found
        → ℕ) (x z : List ℕ) (c : Class) → class_named w x ≡ Some c → is_interface c.flags ≡ false
        → DispatchAgrees w n offset x z → SelectionsAgree w n offset x z }
{
    dispatch_laws();
}

/// The look-ups of narrow code that give methods of a package give them where they stand, whichever places they have.
pub fn methods_are_placed()
    ensures { (files : Files) (image : StaticImage) (place : Method → Placed)
        → MethodsAgree (named files image (λ m. (let p = place m in p.method))) (placed_methods files place) }
{}

/// A virtual call of a method of a class, on an object of a class, reaches by token the method that it reaches
/// by name, at its place, or makes the same event, where each method of Method begins at its offset.
pub fn virtual_calls_reach()
    ensures { (files : Files) (w : List Class) (n : Naming) (offset : Found → ℕ) (place : Method → Placed)
        → BeginsAtOffsets files w n offset place → (x z : List ℕ) → SaysReceiver w x z → SelectionsAgree w n offset x z
        → VirtualCallsReach files w n place x }
{}

/// A call of a static method, a constructor or a private method reaches by token the method that it reaches by
/// name, or makes the same event, where the card has at its offset, or as an imported one, what is found from
/// the class that code names.
pub fn fixed_calls_reach()
    ensures { (files : Files) (w : List Class) (n : Naming) (offset : Found → ℕ) (place : Method → Placed)
        → BeginsAtOffsets files w n offset place → (on : Bool) (m : MemberId) → SaysFixed w n offset on m
        → FixedCallsReach files w n place on m }
{}

/// The same of a call of a superclass's method, which is selected from the superclass of the class that holds the code.
pub fn super_calls_reach()
    ensures { (files : Files) (w : List Class) (n : Naming) (offset : Found → ℕ) (place : Method → Placed)
        → BeginsAtOffsets files w n offset place → (m : MemberId) (super z : List ℕ) → SaysSuper w n m super z
        → SelectionsAgree w n offset super z → SuperCallsReach files w n place m }
{}

/// The same of a call of an interface's method: on an object of a class of the package that is not abstract,
/// and on one of an imported class, where it is the event of the interface.
pub fn interface_calls_reach()
    ensures inside { (files : Files) (w : List Class) (n : Naming) (offset : Found → ℕ) (place : Method → Placed)
        → BeginsAtOffsets files w n offset place → (x z : List ℕ) → SaysReceiver w x z → SelectionsAgree w n offset x z
        → (m : MemberId) (c : Class) → class_named w x ≡ Some c → c.is_imported ≡ false → is_abstract c.flags ≡ false
        → SaysInterface w n m c → InterfaceCallReaches files w n place x m }
    ensures outside { (files : Files) (w : List Class) (n : Naming) (place : Method
        → Placed) (x : List ℕ) (m : MemberId) → SaysOutside w n x m → InterfaceCallReaches files w n place x m }
{}

/// What stands above the tables of a class of the package are the tables of its superclass: a call of a
/// superclass's method is dispatched from there.
pub fn superclass_stands_above()
    ensures { (w : List Class) (n : Naming) (offset : Found → ℕ) (height : ℕ) (x super z : List ℕ) (c : Class)
        → SaysTables w n offset x c super → SaysTower w n offset height super z → height < depth n.loaded
        → above (tower n.loaded (n.class x)) ≡ tower n.loaded (n.class super) }
{}
