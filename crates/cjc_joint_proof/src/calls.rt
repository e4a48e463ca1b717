//! What the code of several packages names is known among all of them, and what their scripts call begins in the code
//! of the package that declares it. Whoever promises that a group runs alike cites it. It has definitions and laws
//! alone.
ghost use Rattle.std.specs.Prelude.{◌≡◌, ℕ, Bool, List, Option, Some, false, slice_get};
ghost use Rattle.cjc_card_semantics.specs.Bytes.AccessFlags.{is_interface};
ghost use Rattle.cjc_card_semantics.specs.Bytecode.Alike.{IsFound, reached_as, start_as};
ghost use Rattle.cjc_card_semantics.specs.Bytecode.Machine.{Reached, Start, Within};
ghost use Rattle.cjc_card_semantics.specs.Bytecode.Renaming.{KnownOperation, option_as, shape_as};
ghost use Rattle.cjc_card_semantics.specs.Bytes.declared.fault.MemberId.{MemberId};
ghost use Rattle.cjc_card_semantics.specs.ExportFile.declared.tree.ExportMethod.{ExportMethod};
ghost use Rattle.cjc_card_semantics.specs.Machine.Calls as Calls;
ghost use Rattle.cjc_card_semantics.specs.Machine.Operations.{Fixed, unbound_of};
ghost use Rattle.cjc_card_semantics.specs.Script.Sorts.{Shape};
ghost use Rattle.cjc_exported.specs.Components.Methods.{method_offset, placed_methods};
ghost use Rattle.cjc_exported.specs.Narrow.Rows.Package.{words, words_where};
ghost use Rattle.cjc_exported.specs.World.Classes.{Class, class_named};
ghost use Rattle.cjc_exported.specs.World.Lookup.{own_method};
ghost use Rattle.cjc_exported.specs.World.Supertypes.{IsAcyclic};
ghost use Rattle.cjc_exported.specs.World.declared.found.Found.{Found};
ghost use Rattle.cjc_link_semantics.specs.Components.ExportFile.{export_of};
ghost use Rattle.cjc_link_semantics.specs.Components.Names.{member_token};
ghost use Rattle.cjc_link_semantics.specs.Components.Package.{Package, world};
ghost use Rattle.cjc_link_semantics.specs.JvmSemantics.Group.{is_of_group};
ghost use Rattle.cjc_link_semantics.specs.JvmSemantics.Linked.{Method};
ghost use Rattle.cjc_link_semantics.specs.JvmSemantics.OnePackage.{is_initialiser};
ghost use Rattle.cjc_link_semantics.specs.Loaded.{group_loaded};
ghost use Rattle.cjc_token_proof.specs.Calls.Reaching.{BeginsAtOffsets, start_placed};
ghost use Rattle.cjc_token_proof.specs.NCode.ByLabel.{operation};
ghost use Rattle.cjc_token_proof.specs.NCode.ByLabel as ByLabel;
ghost use Rattle.cjc_token_proof.specs.NCode.Lowering.Agreement.{IsAmong, known_by};
ghost use Rattle.cjc_token_proof.specs.NCode.Lowering.Naming.{callee};
ghost use Rattle.cjc_token_proof.specs.NCode.Lowering.Placed.{Placed};
ghost use Rattle.cjc_token_proof.specs.NCode.declared.narrow.NInsn.{NInsn};
ghost use Rattle.cjc_token_proof.specs.Tables.Infos.{HasEntry};
ghost use Rattle.cjc_token_proof.specs.Tables.Loading.{loaded, naming};
ghost use Rattle.cjc_token_proof.specs.Tables.Sound.{IsSound};
ghost use Rattle.cjc_token_proof.specs.WrittenCalls.Standing.{place};
ghost use Rattle.cjc_joint_proof.specs.JointAlike.{IsCalled, IsOfGroup, JointReachAgree, callee_at, code_at, offset_at};
ghost use Rattle.cjc_joint_proof.specs.JointCalled.{EntriesBegin, EntriesStand, NamesAreKnown, NamesOutsideMethod};
ghost use Rattle.cjc_joint_proof.specs.JointCalled.{NamesOwnMethod, NamesSharedMethod, StandByPackage};
ghost use Rattle.cjc_joint_proof.specs.JointCalled.{called_together};
ghost use Rattle.cjc_joint_proof.specs.JointCode.{InPackage, of_package, operation_in};
ghost use Rattle.cjc_joint_proof.specs.JointFixed.{AreFixedNamed, ExportsMethod, JointSelectionsAgree};
ghost use Rattle.cjc_joint_proof.specs.JointNames.{joint_calls};
ghost use Rattle.cjc_joint_proof.specs.JointPackages.{AreLinked, class_together, files_together};
ghost use Rattle.cjc_joint_proof.specs.JointTables.{known_together, memories_together, world_together};
ghost use Rattle.cjc_joint_proof.specs.JointTogether.{NamesOwnFields, methods_together, naming_together};
ghost use Rattle.cjc_joint_proof.specs.Loading.{group_of};

/// What an instruction of a package's methods names is known among all packages: classes and calls as the package knows
/// them, and fields and static cells of its own classes, which are all that it names.
pub fn joint_operations_are_known()
    ensures { (packages : List Package) → AreLinked packages
        → ((q : ℕ) (p : Package) → slice_get packages q ≡ Some p → NamesOwnFields p)
        → ((q : ℕ) (p : Package) → slice_get packages q ≡ Some p → NamesAreKnown p)
        → (m : InPackage Placed) (k : ℕ) (insn : NInsn)
        → IsOfGroup (group_loaded (group_of packages)) (methods_together packages) m
        → (let p = m.item in let n = p.method in slice_get n.insns k ≡ Some insn)
        → KnownOperation (known_by (known_together packages)) (IsCalled (called_together packages))
        (operation_in m.part (operation insn)) }
{}

/// Whether a call that a package makes has a receiver is the same by name and by token.
pub fn joint_calls_take_objects_alike()
    ensures { (packages : List Package) (m : InPackage ByLabel.Callee)
        → Calls.on_object (callee_at (naming_together packages) m) ≡ ByLabel.on_object m.item }
{}

/// A static method that a script calls by a class of a package begins by token as by name, in the code of that package,
/// where each package's begin so by themselves; and it is one of the methods of the group.
pub fn joint_entries_are_called()
    ensures alike { (packages : List Package) → AreLinked packages → (at : Method → Placed)
        → StandByPackage packages at
        → ((q : ℕ) (p : Package) → slice_get packages q ≡ Some p → EntriesBegin p) → (id : MemberId)
        → Calls.called (group_loaded (group_of packages)) id
        ≡ option_as (start_as (code_at (naming_together packages)) (offset_at (naming_together packages)))
        (let calls = joint_calls (files_together packages) (start_placed at) in calls.called id) }
    ensures there { (packages : List Package) → AreLinked packages → (at : Method → Placed)
        → StandByPackage packages at
        → ((q : ℕ) (p : Package) → slice_get packages q ≡ Some p → EntriesStand p) → (id : MemberId)
        (start : Start (InPackage Placed))
        → (let calls = joint_calls (files_together packages) (start_placed at) in calls.called id ≡ Some start)
        → IsOfGroup (group_loaded (group_of packages)) (methods_together packages) start.code }
{}

/// A static method, a constructor or a private method that a package declares and calls is in the group that very
/// method, by name and by token, on whatever receiver; it takes by token the words that it takes by name, where it
/// does so in the package by itself; and where it stands in Method there, it is one of the methods of the group.
pub fn joint_own_calls_reach()
    ensures reach { (packages : List Package) → AreLinked packages → (at : Method → Placed)
        → StandByPackage packages at → (q : ℕ) (p : Package) → slice_get packages q ≡ Some p → (id : MemberId)
        → NamesOwnMethod p id → (on : Bool) (o : Option (Shape (List ℕ))) (r : Reached (InPackage Placed))
        → (let calls = joint_calls (files_together packages) (start_placed at)
        in calls.reached (of_package q (ByLabel.Fixed on id)) o ≡ r) → IsFound r
        → (let g = naming_together packages in Calls.reached g.loaded (callee_at g (of_package q (ByLabel.Fixed on id)))
        (option_as (shape_as (class_together packages)) o) ≡ reached_as (code_at g) (offset_at g) r) }
    ensures take { (packages : List Package) → AreLinked packages → (at : Method → Placed) → StandByPackage packages at
        → (q : ℕ) (p : Package) → slice_get packages q ≡ Some p → (id : MemberId) → NamesOwnMethod p id → (on : Bool)
        → ((n : ℕ) → words p.files (world p) (ByLabel.Fixed on id) ≡ Some n
        → Calls.words (loaded p) (callee (naming p) (ByLabel.Fixed on id)) ≡ Some n) → (n : ℕ)
        → (let calls = joint_calls (files_together packages) (start_placed at)
        in calls.words (of_package q (ByLabel.Fixed on id)) ≡ Some n)
        → (let g = naming_together packages
        in Calls.words g.loaded (callee_at g (of_package q (ByLabel.Fixed on id))) ≡ Some n) }
    ensures stand { (packages : List Package) → AreLinked packages → (at : Method → Placed)
        → StandByPackage packages at → (q : ℕ) (p : Package) → slice_get packages q ≡ Some p → (id : MemberId)
        → (c : NamesOwnMethod p id) → IsAmong (placed_methods p) (place p c.method) → (on : Bool)
        (o : Option (Shape (List ℕ))) (start : Start (InPackage Placed))
        → (let calls = joint_calls (files_together packages) (start_placed at)
        in calls.reached (of_package q (ByLabel.Fixed on id)) o ≡ Within start)
        → IsOfGroup (group_loaded (group_of packages)) (methods_together packages) start.code }
{}

/// A static method that a package calls of a class from outside makes in the group the event of its name, by name and
/// by token; and it takes by token the words that it takes by name, where it does so in the package by itself.
pub fn joint_outside_calls_reach()
    ensures reach { (packages : List Package) → AreLinked packages → (at : Method → Placed) → (q : ℕ) (p : Package)
        → slice_get packages q ≡ Some p → (id : MemberId) → NamesOutsideMethod packages p id → (on : Bool)
        (o : Option (Shape (List ℕ))) (r : Reached (InPackage Placed))
        → (let calls = joint_calls (files_together packages) (start_placed at)
        in calls.reached (of_package q (ByLabel.Fixed on id)) o ≡ r) → IsFound r
        → (let g = naming_together packages in Calls.reached g.loaded (callee_at g (of_package q (ByLabel.Fixed on id)))
        (option_as (shape_as (class_together packages)) o) ≡ reached_as (code_at g) (offset_at g) r) }
    ensures take { (packages : List Package) → AreLinked packages → (at : Method → Placed) → (q : ℕ) (p : Package)
        → slice_get packages q ≡ Some p → (id : MemberId) → NamesOutsideMethod packages p id → (on : Bool)
        → ((n : ℕ) → words p.files (world p) (ByLabel.Fixed on id) ≡ Some n
        → Calls.words (loaded p) (callee (naming p) (ByLabel.Fixed on id)) ≡ Some n) → (n : ℕ)
        → (let calls = joint_calls (files_together packages) (start_placed at)
        in calls.words (of_package q (ByLabel.Fixed on id)) ≡ Some n)
        → (let g = naming_together packages
        in Calls.words g.loaded (callee_at g (of_package q (ByLabel.Fixed on id))) ≡ Some n) }
{}

/// A static method that a package calls of a class of another package of the group is in the group that package's own,
/// by name and by token; it takes by token the words that it takes by name, where it does so in its package by itself;
/// and where it stands in Method there, it is one of the methods of the group.
pub fn joint_shared_calls_reach()
    ensures reach { (packages : List Package) → AreLinked packages → IsAcyclic (world_together packages)
        → (at : Method → Placed) → StandByPackage packages at → (q : ℕ) (p : Package)
        → slice_get packages q ≡ Some p → (id : MemberId) → NamesSharedMethod packages p id → (on : Bool)
        (o : Option (Shape (List ℕ))) (r : Reached (InPackage Placed))
        → (let calls = joint_calls (files_together packages) (start_placed at)
        in calls.reached (of_package q (ByLabel.Fixed on id)) o ≡ r) → IsFound r
        → (let g = naming_together packages in Calls.reached g.loaded (callee_at g (of_package q (ByLabel.Fixed on id)))
        (option_as (shape_as (class_together packages)) o) ≡ reached_as (code_at g) (offset_at g) r) }
    ensures take { (packages : List Package) → AreLinked packages → IsAcyclic (world_together packages)
        → (at : Method → Placed) → StandByPackage packages at → (q : ℕ) (p : Package)
        → slice_get packages q ≡ Some p → (id : MemberId) → (c : NamesSharedMethod packages p id) → (on : Bool)
        → ((n : ℕ) → words_where on id (Some c.met_hit) ≡ Some n
        → Calls.words (loaded c.exporter) (Fixed on 0 (method_offset c.exporter c.met)) ≡ Some n) → (n : ℕ)
        → (let calls = joint_calls (files_together packages) (start_placed at)
        in calls.words (of_package q (ByLabel.Fixed on id)) ≡ Some n)
        → (let g = naming_together packages
        in Calls.words g.loaded (callee_at g (of_package q (ByLabel.Fixed on id))) ≡ Some n) }
    ensures stand { (packages : List Package) → AreLinked packages → IsAcyclic (world_together packages)
        → (at : Method → Placed) → StandByPackage packages at → (q : ℕ) (p : Package)
        → slice_get packages q ≡ Some p → (id : MemberId) → (c : NamesSharedMethod packages p id)
        → IsAmong (placed_methods c.exporter) (place c.exporter c.method) → (on : Bool)
        (o : Option (Shape (List ℕ))) (start : Start (InPackage Placed))
        → (let calls = joint_calls (files_together packages) (start_placed at)
        in calls.reached (of_package q (ByLabel.Fixed on id)) o ≡ Within start)
        → IsOfGroup (group_loaded (group_of packages)) (methods_together packages) start.code }
{}

/// Each static method, constructor and private method that the code of a package calls is one of its own, of another
/// package of the group, or from outside; so all calls agree where those do that are selected by their receivers.
pub fn joint_calls_reach()
    ensures { (packages : List Package) → AreLinked packages → IsAcyclic (world_together packages)
        → (at : Method → Placed) → StandByPackage packages at → AreFixedNamed packages
        → JointSelectionsAgree (naming_together packages) (methods_together packages) (memories_together packages)
        (joint_calls (files_together packages) (start_placed at)) (known_by (known_together packages))
        (IsCalled (called_together packages))
        → JointReachAgree (naming_together packages) (methods_together packages) (memories_together packages)
        (joint_calls (files_together packages) (start_placed at)) (known_by (known_together packages))
        (IsCalled (called_together packages)) }
{}

/// A static method, a constructor or a private method that the code of a package names by its class: one of a class
/// file of the package stands there and begins on the card at its offset, where the methods of Method do; one of a
/// class from outside is the entry that its token means; and one of a class of another package of the group is the
/// public or protected method that the class declares there, which Export has under the token.
pub fn fixed_methods_are_named()
    ensures own { (list : List ℕ) (p : Package) → IsSound list p.files → IsAcyclic (world p)
        → BeginsAtOffsets p.files (world p) (naming p) (method_offset p) (place p) → (id : MemberId) (d : Class)
        (f : Found) → class_named (world p) id.class ≡ Some d → d.is_imported ≡ false → is_interface d.flags ≡ false
        → is_initialiser id.name ≡ false → own_method false id.name id.desc d ≡ Some f → NamesOwnMethod p id }
    ensures outside { (packages : List Package) → AreLinked packages → (p : Package) → IsAcyclic (world p)
        → (id : MemberId) (c : Class) → class_named (world p) id.class ≡ Some c → (h : HasEntry p c) (f : Found)
        → own_method false id.name id.desc c ≡ Some f
        → is_of_group (files_together packages) (let t = h.tree in t.name) ≡ false → (m : ExportMethod)
        → (let e = h.entry in unbound_of e.methods (member_token p (Some f)) ≡ Some m) → m.name ≡ id.name
        → m.desc ≡ id.desc → NamesOutsideMethod packages p id }
    ensures shared { (packages : List Package) → AreLinked packages → (p : Package) → IsAcyclic (world p)
        → (id : MemberId) (c : Class) → class_named (world p) id.class ≡ Some c → (h : HasEntry p c) (f : Found)
        → own_method false id.name id.desc c ≡ Some f → (r : ℕ) (e : Package) → slice_get packages r ≡ Some e
        → h.tree ≡ export_of e → BeginsAtOffsets e.files (world e) (naming e) (method_offset e) (place e)
        → ExportsMethod p e h.entry id f → is_initialiser id.name ≡ false → NamesSharedMethod packages p id }
{}
