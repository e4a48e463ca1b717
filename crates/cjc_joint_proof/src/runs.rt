//! Runs of packages that are loaded together, from their first state: components by token do what narrow code does by
//! name, where calls reach the same. Whoever promises that a group runs alike cites it. It has definitions and laws
//! alone, and does not know how tables or code came to be.
ghost use Rattle.std.specs.Prelude.{◌≡◌, ◌≢◌, ℕ, List, Some, slice_get};
ghost use Rattle.cjc_card_semantics.specs.Bytecode.Alike.{KnownState, state_as};
ghost use Rattle.cjc_card_semantics.specs.Bytecode.Machine.{start};
ghost use Rattle.cjc_card_semantics.specs.Machine.ByToken as card;
ghost use Rattle.cjc_card_semantics.specs.Script.declared.report.Outcome.TheVariants.{Stuck};
ghost use Rattle.cjc_card_semantics.specs.Script.declared.script.Script.{Script};
ghost use Rattle.cjc_exported.specs.Narrow.Rows.Package.{first_memory};
ghost use Rattle.cjc_exported.specs.World.declared.image.StaticImage.{StaticImage};
ghost use Rattle.cjc_link_semantics.specs.Components.Package.{Package};
ghost use Rattle.cjc_link_semantics.specs.JvmSemantics.Group.{joint, joint_image};
ghost use Rattle.cjc_link_semantics.specs.JvmSemantics.Linked.{Method};
ghost use Rattle.cjc_link_semantics.specs.Loaded.{group_loaded};
ghost use Rattle.cjc_token_proof.specs.Calls.Reaching.{start_placed};
ghost use Rattle.cjc_token_proof.specs.NCode.Lowering.Agreement.{known_by};
ghost use Rattle.cjc_token_proof.specs.NCode.Lowering.Placed.{Placed};
ghost use Rattle.cjc_token_proof.specs.NCode.declared.narrow.NMethod.{NMethod};
ghost use Rattle.cjc_token_proof.specs.WrittenCalls.Standing.{AreReady};
ghost use Rattle.cjc_joint_proof.specs.Begun.{AreBegun, all_images};
ghost use Rattle.cjc_joint_proof.specs.JointAlike.{IsCalled, IsOfGroup, JointCallsAgree, JointReachAgree, joint_names};
ghost use Rattle.cjc_joint_proof.specs.JointCalled.{EntriesBegin, EntriesStand, NamesAreKnown, StandByPackage};
ghost use Rattle.cjc_joint_proof.specs.JointCalled.{called_together};
ghost use Rattle.cjc_joint_proof.specs.JointCode as JointCode;
ghost use Rattle.cjc_joint_proof.specs.JointNames.{joint_calls, joint_labels, joint_named};
ghost use Rattle.cjc_joint_proof.specs.JointPackages.{AreLinked, files_together};
ghost use Rattle.cjc_joint_proof.specs.JointTables.{KeepSupers, known_together, memories_together};
ghost use Rattle.cjc_joint_proof.specs.JointTogether.{NamesOwnFields, methods_together, naming_together};
ghost use Rattle.cjc_joint_proof.specs.Loading.{AllLead, group_of, member_of};

use cjc_token_proof::written_calls::methods_stand;

/// The first state of packages that are loaded together is by token what it is by name, and all that is there is known.
pub fn joint_runs_begin_alike()
    ensures alike { (packages : List Package) → AreLinked packages → AreBegun packages → (script : Script)
        → card.start (group_loaded (group_of packages)) script
        ≡ state_as (joint_names (naming_together packages) (memories_together packages)) (start (first_memory (joint
        (files_together packages)) (joint_image (all_images packages))) script) }
    ensures known { (packages : List Package) → AreLinked packages → AreBegun packages → (script : Script)
        → KnownState (joint_names (naming_together packages) (memories_together packages))
        (known_by (known_together packages)) (IsOfGroup (group_loaded (group_of packages)) (methods_together packages))
        (IsCalled (called_together packages)) (start (first_memory (joint (files_together packages)) (joint_image
        (all_images packages))) script) }
{}

/// Of what both runs ask of calls, dispatch alone is left to be shown: how many words calls take, what they reach, and
/// what scripts send. What instructions name, which calls have a receiver, what there is, and what scripts call agrees,
/// where each package by itself keeps what is asked of it.
pub fn joint_calls_agree_where_they_reach()
    ensures { (packages : List Package) (at : Method → Placed) (first : Package) → slice_get packages 0 ≡ Some first
        → AreLinked packages → KeepSupers packages → AreBegun packages → StandByPackage packages at
        → ((q : ℕ) (p : Package) → slice_get packages q ≡ Some p → NamesOwnFields p)
        → ((q : ℕ) (p : Package) → slice_get packages q ≡ Some p → NamesAreKnown p)
        → ((q : ℕ) (p : Package) → slice_get packages q ≡ Some p → EntriesBegin p)
        → ((q : ℕ) (p : Package) → slice_get packages q ≡ Some p → EntriesStand p)
        → (image : StaticImage) (code : Method → NMethod) → JointReachAgree (naming_together packages)
        (methods_together packages) (memories_together packages) (joint_calls (files_together packages) (start_placed
        at)) (known_by (known_together packages)) (IsCalled (called_together packages))
        → JointCallsAgree (naming_together packages) (methods_together packages) (memories_together packages)
        (joint_named (files_together packages) image code) (joint_calls (files_together packages) (start_placed at))
        (known_by (known_together packages)) (IsCalled (called_together packages)) }
{}

/// Components of packages that link with one another run by token as their narrow code runs by name, for every script
/// and every number of instructions, where narrow code is not stuck: of all that both runs ask, what is left to be
/// shown is that calls agree.
pub fn joint_components_run_as_narrow_code()
    ensures { (packages : List Package) (at : Method → Placed) (first : Package) → slice_get packages 0 ≡ Some first
        → AreLinked packages → KeepSupers packages → AreBegun packages
        → ((q : ℕ) (p : Package) → slice_get packages q ≡ Some p → AllLead (group_of packages) (member_of p))
        → ((q : ℕ) (p : Package) → slice_get packages q ≡ Some p → NamesOwnFields p)
        → ((q : ℕ) (p : Package) → slice_get packages q ≡ Some p → AreReady p)
        → (let files = files_together packages in let image = joint_image (all_images packages) in
        let code = λ (m : Method). (let p = at m in p.method) in
        JointCallsAgree (naming_together packages) (methods_together packages) (memories_together packages)
        (joint_named files image code) (joint_calls files (start_placed at)) (known_by (known_together packages))
        (IsCalled (called_together packages)) → (script : Script) (n : ℕ)
        → ((place : ℕ) → (let r = JointCode.run (joint_named files image code) (joint_labels files code) script n
        in r.outcome) ≢ Stuck place)
        → card.run (group_loaded (group_of packages)) script n
        ≡ JointCode.run (joint_named files image code) (joint_labels files code) script n) }
{
    methods_stand();
}
