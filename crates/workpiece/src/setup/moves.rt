// Planning the move of an ordinary block, and what it leaves.
ghost use Rattle.std.specs.Prelude.{◌≡◌};
ghost use Rattle.workpiece.specs.Setup.{setup_of};
ghost use Rattle.workpiece.specs.Moves.{planned, machine_plan, workpiece_plan, moved as moved_by};

use crate::force::MachineCoordinates;
use crate::modes::is_incremental;
use crate::places::all_open;
use crate::plan::Plan;
use crate::setup::Setup;
use crate::setup::select::opened_by;
use blocks::types::Ordinary;
use units::fault::Fault;

impl Setup {
    fn workpiece_plan(&self, block: &Ordinary) -> Result<Plan, Fault>
        ensures { result ≡ workpiece_plan (setup_of self.now) block.now }
    {
        let force = self.force.selected(block.selections.settable);
        let values = opened_by(self.force, force, self.values);
        let distance = self.modes.selected(block.selections).distance;
        self.frames
            .reckon(force, distance, block.words, values, self.image)
    }

    // Chain and settable frame are set aside while the guard lives.
    fn machine_plan(&mut self, block: &Ordinary, place: usize) -> Result<Plan, Fault>
        ensures told { result ≡ machine_plan (setup_of self.old) block.now place }
        ensures same { setup_of self.new ≡ setup_of self.old }
    {
        let distance = self.modes.selected(block.selections).distance;
        if is_incremental(distance) {
            return Err(Fault::IncrementalMachine { place });
        }
        let guard = MachineCoordinates::over(&mut self.force);
        let plan = self.frames.reckon(
            guard.standing(),
            distance,
            block.words,
            all_open(),
            self.image,
        )?;
        Ok(plan.opening_all())
    }

    /// What an ordinary block with axis words moves, under its own selections; 11 to 14 in their order, told at place 0 but for 11.
    pub fn plan(&mut self, block: &Ordinary) -> Result<Plan, Fault>
        ensures told { result ≡ planned (setup_of self.old) block.now }
        ensures same { setup_of self.new ≡ setup_of self.old }
    {
        match block.machine {
            Some(place) => self.machine_plan(block, place),
            None => self.workpiece_plan(block),
        }
    }

    /// A move that the machine took: selections, values, targets and spreads.
    pub fn settle(&mut self, block: &Ordinary, plan: Plan)
        ensures { setup_of self.new ≡ moved_by (setup_of self.old) block.now plan }
    {
        self.select(block);
        let Plan { values, image, .. } = plan;
        self.values = values;
        self.image = image;
    }
}
