//! The table of a method whose instructions are those of blocks, each written for one instruction of a class file.
ghost use Rattle.std.specs.Prelude.{Some, length, map, List};
ghost use Rattle.cjc_types.specs.Fixpoint.Tables.{IsClosed};
ghost use Rattle.cjc_frames.specs.Acts.{Subtype};
ghost use Rattle.cjc_frames.specs.Flow.{Body, frame_flow};
ghost use Rattle.cjc_accepted_proof.specs.Blocks.{AreBlocks, Block, frames_of};
ghost use Rattle.cjc_accepted_proof.specs.Tables.{BreaksNone};

/// The frames of blocks make a table that is closed under the card's instructions and breaks no rule, where each block
/// stands between its frames and they lead to each other as their instructions do.
pub fn frames_of_blocks_make_tables()
    ensures closed { (is_of : Subtype) (b : Body) (blocks : List Block) → AreBlocks is_of b blocks
        → IsClosed (frame_flow b) (length b.steps) (map Some (frames_of blocks)) }
    ensures unbroken { (is_of : Subtype) (b : Body) (blocks : List Block) → AreBlocks is_of b blocks
        → BreaksNone is_of b (map Some (frames_of blocks)) }
{}
