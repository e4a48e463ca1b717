//! The narrow code of a method (Java Card Virtual Machine Specification 2.2.2, chapter 7): what is written for each
//! instruction that is reached, with labels and names in place of offsets, indices and tokens. Called for each method
//! of a package, first to know the constant pool and again by its indices. It knows no token, and of types which
//! instructions are reached.
ghost use Rattle.std.specs.Prelude.{◌≡◌, ℕ, suc, Bool, List, slice_get, Some, drop};
ghost use Rattle.cjc_ncode.specs.declared.narrow.PairRole.TheVariants.{Opens};
ghost use Rattle.cjc_narrow.specs.declared.select.pairs.PairStep.{PairStep};
ghost use Rattle.cjc_narrow.specs.Pairs.Fusible.{FusesAll, IsClosed};
ghost use Rattle.cjc_narrow.specs.Pairs.Roles.{roles_from};
ghost use Rattle.cjc_types.specs.Bytes.declared.fault.MemberId.{MemberId as Member};
ghost use Rattle.cjc_types.specs.World.Files.{Files};
ghost use Rattle.cjc_ncode.specs.PoolOrder.{pool_order};
ghost use Rattle.cjc_narrow.specs.Select.Forms.{Selection, all_selected};

mod code;
mod method;
mod names;
mod pairs;

pub use code::put_source;
pub use method::{argument_words, select};
pub use names::{Names, put_call, put_field};
pub use pairs::{PairKind, PairStep, Wait};

/// Each aload_0 that opens a pair stands before the field instruction that closes it, and execution comes from the one
/// to the other alone, under the same handlers.
pub fn opened_pairs_close()
    ensures { (opened : Bool) (steps : List PairStep) (k : ℕ) → slice_get (roles_from opened steps) k ≡ Some Opens
        → (n : ℕ) × IsClosed (drop (suc k) steps) n }
{}

/// Each aload_0 and field instruction that may be written as one are, and no others.
pub fn fusible_pairs_are_fused()
    ensures { (steps : List PairStep) → FusesAll steps }
{}

/// The methods of a package need the same pool whichever instance fields their code reads with an index of one byte. So
/// code can be selected once to know the pool, and again by the indices that it has.
pub fn selecting_again_leaves_the_pool()
    ensures { (files : Files) (before after : List Member) (methods : List Selection)
        → pool_order (all_selected files before methods) ≡ pool_order (all_selected files after methods) }
{}
