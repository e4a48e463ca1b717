//! Narrow code of several packages together, by label and name, where a call names what its package has for the name;
//! and their components, by token and offset: both run alike where the tables of classes, tokens, static cells and
//! names agree. Whoever promises that a group runs alike cites it. It has definitions and laws alone, and does not know
//! how tables or code came to be.
ghost use Rattle.std.specs.Prelude.{◌≡◌, ℕ, Bool, List};
ghost use Rattle.cjc_card_semantics.specs.Bytes.declared.fault.MemberId.{MemberId};
ghost use Rattle.cjc_card_semantics.specs.Bytecode.Alike.{IsFree, KnownState, RunsAgree, RunsStickAlike, state_as};
ghost use Rattle.cjc_card_semantics.specs.Bytecode.Machine.{State, run};
ghost use Rattle.cjc_card_semantics.specs.Bytecode.Renaming.{KnownOperation};
ghost use Rattle.cjc_card_semantics.specs.Machine.ByToken.{by_token};
ghost use Rattle.cjc_exported.specs.World.Files.{Files};
ghost use Rattle.cjc_link_semantics.specs.JvmSemantics.Linked.{Method};
ghost use Rattle.cjc_token_proof.specs.Calls.Reaching.{start_placed};
ghost use Rattle.cjc_token_proof.specs.NCode.ByLabel.{Callee, Named, Resolved};
ghost use Rattle.cjc_token_proof.specs.NCode.Lowering.Agreement.{Cells, KnownNames, Memories, everything, known_by};
ghost use Rattle.cjc_token_proof.specs.NCode.Lowering.Placed.{Placed};
ghost use Rattle.cjc_token_proof.specs.NCode.declared.narrow.NMethod.{NMethod};
ghost use Rattle.cjc_token_proof.specs.Tables.Tables.{ClassTablesAgree};
ghost use Rattle.cjc_joint_proof.specs.JointAlike.{AllHold, AnyCall, AnyMethod, IsCalled, IsOfGroup, JointCallsAgree};
ghost use Rattle.cjc_joint_proof.specs.JointAlike.{JointMethodsAgree, JointNaming, joint_code_alone, joint_names};
ghost use Rattle.cjc_joint_proof.specs.JointAlike.{naming_at};
ghost use Rattle.cjc_joint_proof.specs.JointCode.{InPackage, JointCalls, by_label_in, by_place_in, of_package};
ghost use Rattle.cjc_joint_proof.specs.JointCode.{operation_in};
ghost use Rattle.cjc_joint_proof.specs.JointNames.{joint_calls, joint_labels};

/// Methods told apart by where they stand in their packages run as by their code alone: equal reports for every script
/// and every number of instructions where the first are not stuck; and they are not stuck where their code alone is
/// not.
pub fn joint_methods_run_as_by_label()
    ensures reports { (l : Named) (labels : JointCalls NMethod) (places : JointCalls Placed)
        → JointMethodsAgree labels places → RunsAgree joint_code_alone (known_by everything) AnyMethod AnyCall
        (by_place_in l places) (by_label_in l labels) }
    ensures sticks { (l : Named) (labels : JointCalls NMethod) (places : JointCalls Placed)
        → JointMethodsAgree labels places → RunsStickAlike joint_code_alone (known_by everything) AnyMethod AnyCall
        (by_place_in l places) (by_label_in l labels) }
{}

/// Where each package of a group holds its methods, and the tables agree with the look-ups by name, each call's with
/// those of the package that makes it, narrow code and components of the group are alike: equal reports from every
/// known state and for every number of instructions where narrow code is not stuck, of placed methods and by label.
pub fn joint_runs_agree()
    ensures placed { (g : JointNaming) (placed : ℕ → List Placed) (memories : Memories) (l : Named)
        (calls : JointCalls Placed) (known : KnownNames) (called : InPackage Callee → Bool) → AllHold g placed
        → ((q : ℕ) → ClassTablesAgree (naming_at g q) memories l (known_by known))
        → JointCallsAgree g placed memories l calls (known_by known) (IsCalled called)
        → RunsAgree (joint_names g memories) (known_by known) (IsOfGroup g.loaded placed) (IsCalled called)
        (by_place_in l calls) (by_token g.loaded) }
    ensures labels { (g : JointNaming) (placed : ℕ → List Placed) (memories : Memories) (l : Named)
        (labels : JointCalls NMethod) (places : JointCalls Placed) (known : KnownNames)
        (called : InPackage Callee → Bool) → AllHold g placed
        → ((q : ℕ) → ClassTablesAgree (naming_at g q) memories l (known_by known))
        → JointCallsAgree g placed memories l places (known_by known) (IsCalled called)
        → JointMethodsAgree labels places → (k : ℕ) (s : State (InPackage Placed) (List ℕ) MemberId Cells)
        → KnownState (joint_names g memories) (known_by known) (IsOfGroup g.loaded placed) (IsCalled called) s
        → IsFree joint_code_alone (known_by everything) AnyMethod AnyCall (run (by_label_in l labels) k (state_as
        joint_code_alone s)) → run (by_token g.loaded) k (state_as (joint_names g memories) s)
        ≡ run (by_label_in l labels) k (state_as joint_code_alone s) }
{}

/// What is known of an operation of a package's code is known of it among all packages.
pub fn operations_are_known_together()
    ensures { (known : KnownNames) (called : InPackage Callee → Bool) (q : ℕ) (operation : Resolved)
        → KnownOperation (known_by known) (λ m. IsCalled called (of_package q m)) operation
        → KnownOperation (known_by known) (IsCalled called) (operation_in q operation) }
{}

/// The look-ups by name of a group that give methods give them where they stand, whichever places they have.
pub fn joint_methods_are_placed()
    ensures { (group : List Files) (place : Method → Placed)
        → JointMethodsAgree (joint_labels group (λ m. (let p = place m in p.method)))
        (joint_calls group (start_placed place)) }
{}
