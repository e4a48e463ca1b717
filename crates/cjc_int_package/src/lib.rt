//! What is written for a package some of whose methods are in int mode: the code of each by its mode, its components,
//! and its limits. Definitions, and a law of one of them; nothing here runs.
#![tactic(auto)]

ghost use Rattle.std.specs.Prelude.{List, Option, not};
ghost use Rattle.cjc_components.specs.LowerTypes.Flow.{Body};
ghost use Rattle.cjc_components.specs.LowerTypes.declared.state.State.{State};
ghost use Rattle.cjc_int_mode.specs.Room.{IsRoom};
ghost use Rattle.cjc_int_mode.specs.declared.modes.Mode.TheVariants as modes;
ghost use Rattle.cjc_int_package.specs.Limits.{lacks_room};

/// The test of room in int mode tells exactly whether there is room for a method's arguments, locals, scratch pairs and
/// operand stack.
pub fn room_is_told()
    ensures { (b : Body) (types : List (Option State)) → IsRoom b types modes.Int (not (lacks_room b types)) }
{}
