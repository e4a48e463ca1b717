//! A package's narrow code by name and label, and its components by token and offset, do the same: what names of fields,
//! static fields, classes and methods are by the class files is what their cells, slots, class infos and tokens are on the
//! card. Whoever writes components cites it. It has definitions and laws alone, and does not know how a table, a layout
//! or code was made.
#![tactic(auto)]

ghost use Rattle.std.specs.Prelude.{◌≡◌, ℕ, true, Bool, List};
ghost use Rattle.cjc_bytes.specs.declared.fault.MemberId.{MemberId};
ghost use Rattle.cjc_lower.specs.Naming.{Naming};
ghost use Rattle.cjc_by_token.specs.Cells.{CellsAgree, HasCells, Order};
ghost use Rattle.cjc_by_token.specs.Objects.{HasObjects, ObjectsAgree};

/// What instructions and reports ask of static fields is the same by name and in the static field image, whose cells are
/// references and numbers behind them, each field's once: each letter reads and puts what the field holds.
pub fn static_fields_agree()
    ensures { (o : Order) (all : List MemberId) → HasCells o all → CellsAgree o all }
{}

/// What instructions and reports ask of an object is the same by name and by token, where its class and superclasses declare
/// its fields: each field's slot has what the field holds, a new object's too, and a report shows the fields by the names
/// of the class infos.
pub fn objects_agree()
    ensures { (n : Naming) (may_name : MemberId → Bool) (c : List ℕ) (fields : List MemberId) → HasObjects n may_name c fields → ObjectsAgree n may_name c fields }
{}
