//! What stands above a class, and what look-ups of members find on the way upwards, in worlds whose classes
//! list what is of their kind. Definitions and laws alone: nothing here runs.
ghost use Rattle.std.specs.Prelude.{◌≡◌, ◌⊎◌, List, ℕ, Some, false, true};
ghost use Rattle.cjc_bytes.specs.AccessFlags.{is_interface};
ghost use Rattle.cjc_world.specs.Classes.{Class, class_named};
ghost use Rattle.cjc_world.specs.Lookup.{find_field, find_method, own_field, own_method};
ghost use Rattle.cjc_world.specs.declared.found.Found.{Found};
ghost use Rattle.cjc_world.specs.Upwards.{Below, IsOrdered, OnLine};

/// A class that stands at or above another is that class or a superclass of it over steps, where neither is an
/// interface.
pub fn classes_stand_on_lines()
    ensures { (w : List Class) → IsOrdered w → (x y : List ℕ) (c d : Class) → Below w x y → class_named w x ≡ Some c
        → is_interface c.flags ≡ false → class_named w y ≡ Some d → is_interface d.flags ≡ false → OnLine w x d }
{}

/// What a look-up finds is declared by the class from which it goes, or by one above it: a method by a
/// superclass or an interface.
pub fn members_are_found_above()
    ensures methods { (w : List Class) → IsOrdered w → (x name desc : List ℕ) (f : Found) → find_method w x name desc
        ≡ Some f → (d : Class) × Below w x d.name × (class_named w d.name ≡ Some d)
        × (own_method false name desc d ≡ Some f) × (OnLine w x d ⊎ (is_interface d.flags ≡ true)) }
    ensures fields { (w : List Class) → IsOrdered w → (x name desc : List ℕ) (f : Found) → find_field w x name desc
        ≡ Some f → (d : Class) × Below w x d.name × (class_named w d.name ≡ Some d) × (own_field name desc d ≡ Some f) }
{}
