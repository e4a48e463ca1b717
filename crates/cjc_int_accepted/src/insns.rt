//! What is written for each reached instruction of a method in int mode stands, and so the method has a table of frames
//! that breaks no rule.
ghost use Rattle.std.specs.Prelude.{List, Option, Some, length, slice_get, ℕ, ◌<◌, ◌≡◌};
ghost use Rattle.cjc_accepted_proof.specs.Accepted.{HasTable};
ghost use Rattle.cjc_accepted_proof.specs.Coded.{card_type, label_at, step_of};
ghost use Rattle.cjc_accepted_proof.specs.Frames.{AreFew};
ghost use Rattle.cjc_accepted_proof.specs.Written.{written_pair};
ghost use Rattle.cjc_check_proof.specs.Code.Codes.{code_at};
ghost use Rattle.cjc_check_proof.specs.Code.Written.{AllWritable};
ghost use Rattle.cjc_check_proof.specs.NCode.Lowering.Placed.{HandlersStand};
ghost use Rattle.cjc_check_proof.specs.TokenProof.Tables.Loading.{components, part};
ghost use Rattle.cjc_int_accepted.specs.Headers.{InsnsStand, IsReadInIntMode};
ghost use Rattle.cjc_int_accepted.specs.Insns.{IsServedMethod};
ghost use Rattle.cjc_int_mode.specs.Intervals.Frames.{RangeState};
ghost use Rattle.cjc_int_mode.specs.Written.{written_in_int_mode};
ghost use Rattle.cjc_ncode.specs.Written.{Resolution};
ghost use Rattle.cjc_types.specs.ClassFile.Code.{CodeTree};
ghost use Rattle.cjc_types.specs.Flow.{Body as BodyByName};
ghost use Rattle.cjc_types.specs.declared.state.State.{State};
ghost use Rattle.cjc_verify.specs.Bodies.{Body, type_of_body};
ghost use Rattle.cjc_verify.specs.CardActs.CardTypes.{ValueType};
ghost use Rattle.cjc_verify.specs.Components.Methods.{placed_at};
ghost use Rattle.cjc_verify.specs.Components.Names.{names};
ghost use Rattle.cjc_verify.specs.Components.Package.{LaidMethod, Package};

use crate::tables::methods_in_int_mode_have_tables;

/// What is written for each reached instruction of a method in int mode stands between its frames, where the type
/// checker reads of the method what is written, its type table is closed and breaks no rule, and its instructions and
/// handlers name what the card has; so the method has a table of frames that is closed and breaks no rule.
pub fn methods_in_int_mode_stand()
    ensures insns { (p : Package) (offset : ℕ) (laid : LaidMethod) (r : Resolution) (code : CodeTree) (b : BodyByName)
        (rows : List (Option State)) (ranges : List (Option RangeState)) (result : ValueType) (v : Body)
        → IsReadInIntMode (card_type p) (written_pair p) r code b rows ranges v
        → IsServedMethod p r b rows result laid
        → InsnsStand p r b rows ranges (step_of p result offset laid) (label_at p offset laid) laid v }
    ensures tables { (p : Package) (number offset : ℕ) (laid : LaidMethod)
        (is_laid : slice_get p.methods number ≡ Some laid) (can : AllWritable (names p) p.methods)
        (stand : HandlersStand (names p) (placed_at offset laid) (part p)) (r : Resolution) (code : CodeTree)
        (b : BodyByName) (rows : List (Option State)) (ranges : List (Option RangeState))
        → laid.code ≡ written_in_int_mode r code b rows ranges → (result : ValueType) (v : Body)
        → v.instructions ≡ (let c = code_at (names p) offset laid in c.instructions)
        → (let t = type_of_body (components p) v in t.result) ≡ result
        → IsReadInIntMode (card_type p) (written_pair p) r code b rows ranges v → AreFew (card_type p)
        → 0 < length b.insns → IsServedMethod p r b rows result laid → b.catches ≡ code.catches → HasTable p v }
{
    methods_in_int_mode_have_tables();
}
