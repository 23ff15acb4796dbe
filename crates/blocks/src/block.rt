// From a block's bytes to a typed block.
ghost use Rattle.std.specs.Prelude.{◌≡◌, MatchResult};
ghost use Rattle.blocks.specs.Block.{block_of};
ghost use Rattle.blocks.specs.Gathers.{Gathers, Stops};
ghost use Rattle.blocks.specs.Order.{empty_order};
ghost use Rattle.blocks.specs.Slots.{empty_slots};

use crate::gathered::{Gathered, Order, Slots};
use crate::rules::judge;
use crate::types::Block;
use reader::reader::BlockReader;
use units::fault::Fault;

/// How many bytes a block may have.
const BLOCK_BYTES: usize = 512;

// What the words say by themselves and beside one another, gathered in place: 2 to 5.
fn gather(bytes: &[u8], g: &mut Gathered) -> Result<(), Fault>
    requires { (g.old.slots ≡ empty_slots) × (g.old.order ≡ empty_order) }
    ensures { MatchResult result (λ _. Gathers bytes.now g.new) (Stops bytes.now) }
{
    for read in BlockReader::new(bytes) {
        if let Some(x) = read?.item() {
            if !g.slots.put(x) {
                return Err(Fault::Repeated { place: x.place });
            }
            g.order.note(x);
        }
    }
    Ok(())
}

/// The typed block, or the first of its faults: 1 to 8. `inch` tells whether inches are in force before the block.
// A bool, not a unit: inches or not is all that the rules ask.
pub fn typed_block(bytes: &[u8], inch: bool) -> Result<Block, Fault>
    ensures { result ≡ block_of bytes.now inch }
{
    if bytes.len() > BLOCK_BYTES {
        return Err(Fault::TooLong);
    }
    let mut g = Gathered {
        slots: Slots::empty(),
        order: Order::empty(),
    };
    gather(bytes, &mut g)?;
    judge(inch, &g)
}
