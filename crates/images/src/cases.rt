//! What the definitions of the block image come to.
ghost use Rattle.images.specs.Damage.{DamageTold};
ghost use Rattle.images.specs.ZeroBlocks.{ZeroBlocks};

/// How blocks 0 and 1 of zero words end.
pub fn zero_blocks()
    ensures { ZeroBlocks }
{}

/// Damage of one word of a block, its number or its check is always told.
pub fn damage_told()
    ensures { DamageTold }
{}
