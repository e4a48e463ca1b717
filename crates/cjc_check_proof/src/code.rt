//! What is written for a package is consistent, as far as it is code, indices, handlers and pool entries: which
//! sentences on the components hold of all that the definitions of components give, one law a sentence. The converter's
//! promise rests on them. Nothing here runs.
ghost use Rattle.std.specs.Prelude.{◌≡◌, ℕ, [], Some, slice_get, true};
ghost use Rattle.cjc_check_rules.specs.Complete.{complete};
ghost use Rattle.cjc_check_rules.specs.Codes.{codes, whole_spots};
ghost use Rattle.cjc_check_rules.specs.Instructions.{index_spots, jump_spots};
ghost use Rattle.cjc_check_rules.specs.Handlers.{handler_spots, stop_spots};
ghost use Rattle.cjc_check_rules.specs.Members.{is_method_start};
ghost use Rattle.cjc_check_rules.specs.PoolEntries.{pool_spots};
ghost use Rattle.cjc_check_rules.specs.Locations.{location_spots};
ghost use Rattle.cjc_world.specs.declared.found.Found.{Found as Place};
ghost use Rattle.cjc_world.specs.Order.{class_order, method_order};
ghost use Rattle.cjc_components.specs.Package.{Package, world};
ghost use Rattle.cjc_components.specs.Methods.{method_offset};
ghost use Rattle.cjc_components.specs.Names.{names};
ghost use Rattle.cjc_components.specs.Components.{components_of, method};
ghost use Rattle.cjc_token_proof.specs.Components.OwnNames.{HaveOwnNames};
ghost use Rattle.cjc_check_proof.specs.Code.Caught.{HandlersLie};
ghost use Rattle.cjc_check_proof.specs.Code.Codes.{codes_of};
ghost use Rattle.cjc_check_proof.specs.Code.Ends.{AllStayInside};
ghost use Rattle.cjc_token_proof.specs.Components.Methods.{HasMethods};
ghost use Rattle.cjc_token_proof.specs.Components.Whole.{exports_of, whole};
ghost use Rattle.cjc_check_proof.specs.Code.Kinds.{AllHaveKinds};
ghost use Rattle.cjc_check_proof.specs.Code.Members.{AllAreNamed};
ghost use Rattle.cjc_check_proof.specs.Code.Written.{AllWritable};

/// No component but Applet and Export is absent.
pub fn components_are_whole()
    ensures { (p : Package) → complete (components_of p) ≡ Some (whole p) }
{}

/// The methods, cut by the counts of Descriptor, fill the bytes of Method and are whole instructions: those of the
/// package's narrow code where they are laid. So it is where no two classes of the package have one name, its methods
/// stand in their order, and bytes can say them.
pub fn methods_are_cut()
    ensures whole { (p : Package) → HaveOwnNames (class_order (world p)) → HasMethods p
        → AllWritable (names p) p.methods → whole_spots (whole p) ≡ [] }
    ensures codes { (p : Package) → HaveOwnNames (class_order (world p)) → HasMethods p
        → AllWritable (names p) p.methods → codes (whole p) ≡ codes_of p }
{}

/// Jumps land on instructions of their method, and no method goes on behind its last instruction: where the jumps of
/// narrow code lead to its instructions, and its last one does not go on.
pub fn jumps_land_in_code()
    ensures { (p : Package) → HaveOwnNames (class_order (world p)) → HasMethods p → AllWritable (names p) p.methods
        → AllStayInside p.methods → jump_spots (whole p) ≡ [] }
{}

/// ReferenceLocation lists exactly the places where indices into the constant pool stand.
pub fn index_places_are_listed()
    ensures { (p : Package) → HaveOwnNames (class_order (world p)) → HasMethods p → AllWritable (names p) p.methods
        → location_spots (whole p) ≡ [] }
{}

/// Each index operand names an entry of the tag that its opcode needs: where what instructions name is of the kind that
/// their opcodes use.
pub fn indices_name_entries()
    ensures { (p : Package) → HaveOwnNames (class_order (world p)) → HasMethods p → AllWritable (names p) p.methods
        → AllHaveKinds p.methods → index_spots (whole p) ≡ [] }
{}

/// No handler has a lower target than the one before it; its range and its target are instructions of one method, and
/// its catch index is 0 or that of a Classref: where the bounds and targets of handlers are places of their code.
pub fn handlers_stand_in_code()
    ensures { (p : Package) → HaveOwnNames (class_order (world p)) → HasMethods p → AllWritable (names p) p.methods
        → HandlersLie p.methods → handler_spots (whole p) ≡ [] }
{}

/// A stop bit is 1 exactly where the range of no later handler meets this one's.
pub fn stop_bits_end_searches()
    ensures { (p : Package) → AllWritable (names p) p.methods → HandlersLie p.methods → stop_spots (method p) ≡ [] }
{}

/// Each method of a class of the package is a method start where Descriptor says that it stands.
pub fn methods_start_where_they_stand()
    ensures { (p : Package) → HaveOwnNames (class_order (world p)) → HasMethods p → (k : ℕ) (f : Place)
        → slice_get (method_order (world p)) k ≡ Some f → is_method_start (whole p) (method_offset p f) ≡ true }
{}

/// The entries of the constant pool name what is there: fields, static methods, constructors and private methods of the
/// package and of imported classes, which their keys name by name, and virtual methods that imported classes list; of
/// every other entry but a Classref it is asked that it names something by its tokens.
pub fn pool_entries_name_members()
    ensures { (p : Package) → HaveOwnNames (class_order (world p)) → HasMethods p → AllAreNamed p
        → pool_spots (whole p) (exports_of p) ≡ [] }
{}
