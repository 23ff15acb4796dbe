// Working a block.
ghost use Rattle.std.specs.Prelude.{◌≡◌, Some, Ok};
ghost use Rattle.translator.specs.State.{state_of, point_of, still};
ghost use Rattle.translator.specs.Work.{on_change, handed_over, ordinary_at, limited, obeyed, running, worked, replied, left_by};
ghost use Rattle.workpiece.specs.Changes.{changed};
ghost use Rattle.workpiece.specs.Setup.{setup_of};
ghost use Rattle.blocks.specs.declared.types.Block.TheVariants.{Frame, Ordinary as ordinary};

use super::Translator;
use crate::reply::Reply;
use blocks::block::typed_block;
use blocks::types::{Block, FrameChange, Ordinary};
use frames::image::Image;
use machine::end::MachineEnd;
use units::axis::{Point, Side};
use units::fault::Fault;
use units::quantity::Length;
use workpiece::modes::is_inch;
use workpiece::plan::Plan;
use workpiece::setup::Setup;

fn point_of(image: Image) -> Point
    ensures { result ≡ point_of image }
{
    let [x, y, z] = image.at;
    Point { x, y, z }
}

// The reply where no axis moved.
pub fn still_at(setup: &Setup) -> Reply
    ensures { result ≡ still (setup_of setup.now) }
{
    Reply {
        moved: [false; 3],
        image: setup.image,
    }
}

impl<E: MachineEnd> Translator<E> {
    fn change_frame(&mut self, change: FrameChange, place: usize) -> Result<Reply, Fault>
        ensures told { result ≡ replied (obeyed (state_of E.meaning self.old) (Frame change place)) }
        ensures left { state_of E.meaning self.new ≡ left_by (state_of E.meaning self.old) (obeyed (state_of E.meaning self.old) (Frame change place)) }
    {
        self.setup
            .change_frame(change)
            .map_err(|fault| fault.at(place))?;
        Ok(still_at(&self.setup))
    }

    fn write_limits(&mut self, side: Side, values: [Option<Length>; 3]) -> Reply
        ensures told { result ≡ (limited (state_of E.meaning self.old) side values).reply }
        ensures left { state_of E.meaning self.new ≡ (limited (state_of E.meaning self.old) side values).left }
    {
        self.pile.write_limits(side, values);
        still_at(&self.setup)
    }

    // The three targets go to the pile; only what it takes is stored.
    fn hand_over(&mut self, block: &Ordinary, plan: Plan, place: usize) -> Result<Reply, Fault>
        ensures told { result ≡ replied (handed_over (state_of E.meaning self.old) block.now place plan) }
        ensures left { state_of E.meaning self.new ≡ left_by (state_of E.meaning self.old) (handed_over (state_of E.meaning self.old) block.now place plan) }
    {
        let to = point_of(plan.image);
        self.pile.take_move(to).map_err(|fault| fault.at(place))?;
        self.setup.settle(block, plan);
        Ok(Reply::from(plan))
    }

    fn move_axes(&mut self, block: &Ordinary, place: usize) -> Result<Reply, Fault>
        ensures told { result ≡ replied (ordinary_at (state_of E.meaning self.old) block.now (Some place)) }
        ensures left { state_of E.meaning self.new ≡ left_by (state_of E.meaning self.old) (ordinary_at (state_of E.meaning self.old) block.now (Some place)) }
    {
        let plan = self.setup.plan(block).map_err(|fault| fault.at(place))?;
        self.hand_over(block, plan, place)
    }

    fn ordinary(&mut self, block: &Ordinary) -> Result<Reply, Fault>
        ensures told { result ≡ replied (obeyed (state_of E.meaning self.old) (ordinary block.now)) }
        ensures left { state_of E.meaning self.new ≡ left_by (state_of E.meaning self.old) (obeyed (state_of E.meaning self.old) (ordinary block.now)) }
    {
        match block.first {
            Some(place) => self.move_axes(block, place),
            None => {
                self.setup.select(block);
                Ok(still_at(&self.setup))
            }
        }
    }

    fn obey(&mut self, block: &Block) -> Result<Reply, Fault>
        ensures told { result ≡ replied (obeyed (state_of E.meaning self.old) block.now) }
        ensures left { state_of E.meaning self.new ≡ left_by (state_of E.meaning self.old) (obeyed (state_of E.meaning self.old) block.now) }
    {
        match block {
            Block::Frame { change, place } => self.change_frame(*change, *place),
            Block::Limit { side, values, .. } => Ok(self.write_limits(*side, *values)),
            Block::Ordinary(ordinary) => self.ordinary(ordinary),
        }
    }

    fn run(&mut self, block: &Block) -> Result<Reply, Fault>
        ensures told { result ≡ replied (running (state_of E.meaning self.old) (Ok block.now)) }
        ensures left { state_of E.meaning self.new ≡ left_by (state_of E.meaning self.old) (running (state_of E.meaning self.old) (Ok block.now)) }
    {
        if self.setup.ended {
            return Err(Fault::Ended);
        }
        self.obey(block)
    }

    /// Works a block: which axes it moved, with targets and spreads, or why it is declined; a declined block changes nothing.
    pub fn block(&mut self, bytes: &[u8]) -> Result<Reply, Fault>
        ensures told { result ≡ replied (worked (state_of E.meaning self.old) bytes.now) }
        ensures left { state_of E.meaning self.new ≡ left_by (state_of E.meaning self.old) (worked (state_of E.meaning self.old) bytes.now) }
    {
        let block = typed_block(bytes, is_inch(self.setup.modes.unit))?;
        self.run(&block)
    }
}
