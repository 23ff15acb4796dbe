// What the definitions mean, as theorems that the check asks for.
ghost use Rattle.blocks.specs.Meaning.{BlockStands};
ghost use Rattle.blocks.specs.Repeating.{Kinds};

/// The typed block of any bytes is too long; or is declined at its first wrong word; or by 6, 7 or 8, in this order;
/// or tells what its words say, with every value.
pub fn block_stands()
    ensures { BlockStands }
{}

/// What is found in a slot is what a word of the block says, and nothing where no word says it. A word is repeated
/// when as many earlier words have its address or G group as may stand in a block, five for M and one for any other.
/// The instruction of a block is its first frame name, G25 or G26.
pub fn kinds_stand()
    ensures { Kinds }
{}
