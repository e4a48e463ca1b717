//! What holds of dispatch by class tables and interface maps, for every caller. Nothing here runs.

ghost use Rattle.std.specs.Prelude.{List};
ghost use Rattle.cjc_world.specs.Classes.{Class};
ghost use Rattle.cjc_vtable.specs.Laws.{ImportedCallsAgree, InterfaceCallsAgree, KeepsImported, KeepsInterfaces};
ghost use Rattle.cjc_vtable.specs.Laws.{KeepsRules, TokensAreOnce, VirtualCallsAgree};

use cjc_world::lookup_laws;

/// Dispatch by token on an object of a class, which is no interface, is selection by name, in every world that
/// keeps what it rests on: `KeepsRules` for calls by a method of a class, `KeepsInterfaces` beside it for those
/// by a method of an interface, and `KeepsImported` beside it for those of a package-visible method of an
/// imported class.
pub fn dispatch_laws()
    ensures virtual_calls { (w : List Class) → KeepsRules w → VirtualCallsAgree w }
    ensures interface_calls { (w : List Class) → KeepsRules w → KeepsInterfaces w → InterfaceCallsAgree w }
    ensures imported_calls { (w : List Class) → KeepsRules w → KeepsImported w → ImportedCallsAgree w }
{
    lookup_laws();
}

/// A method of a class that is no interface keeps its token in subclasses, and a token is one method's.
pub fn token_laws()
    ensures { (w : List Class) → KeepsRules w → TokensAreOnce w }
{
    lookup_laws();
}
