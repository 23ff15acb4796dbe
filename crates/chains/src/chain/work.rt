// Making, replacing and lengthening a chain, in place.
ghost use Rattle.std.specs.Prelude.{◌≡◌, ℕ, ◌<◌, ◌≤◌, Bool, true, false, cond, List, [], ◌∷◌, ◌++◌, length};
ghost use Rattle.chains.specs.declared.step.Step.TheVariants.{Turn};
ghost use Rattle.chains.specs.Chains.{steps_of, appended, replied, left_by, step_at, merged_step};

use crate::chain::Chain;
use crate::step::Step;
use units::fault::Fault;

/// The one step of two turns in one plane, the second innermost.
fn merged(last: Step, step: Step) -> Option<Step>
    ensures { result ≡ merged_step last step }
{
    match (last, step) {
        (Step::Turn(p, a), Step::Turn(q, b)) => (p == q).then(|| Step::Turn(p, a.plus(b))),
        _ => None,
    }
}

impl Chain {
    /// The most steps that a chain has.
    pub const MOST: usize = 8;

    /// No step.
    // Written out: a step has no default for the array.
    pub fn empty() -> Chain
        ensures { steps_of result ≡ [] }
    {
        Chain {
            steps: [Step::Mirror([false; 3]); 8],
            count: 0,
        }
    }

    /// The number of steps.
    pub fn count(&self) -> usize
        ensures { result ≡ length (steps_of self.now) }
    {
        self.count
    }

    /// Its steps, the outermost first.
    pub fn steps(&self) -> &[Step]
        ensures { result.now ≡ steps_of self.now }
    {
        &self.steps[..self.count]
    }

    /// The nth step, from 1, the outermost; none where there is none.
    pub fn step(&self, n: usize) -> Option<Step>
        ensures { result ≡ step_at (steps_of self.now) n }
    {
        self.steps().get(n.checked_sub(1)?).copied()
    }

    // One innermost step more, as it is.
    fn push(&mut self, step: Step)
        requires { self.old.count < 8 }
        ensures { steps_of self.new ≡ steps_of self.old ++ step ∷ [] }
    {
        self.steps[self.count] = step;
        self.count += 1;
    }

    /// No step any more.
    pub fn clear(&mut self)
        ensures { steps_of self.new ≡ [] }
    {
        self.count = 0;
    }

    /// That one step in place of all.
    pub fn replace(&mut self, step: Step)
        ensures { steps_of self.new ≡ step ∷ [] }
    {
        self.clear();
        self.push(step);
    }

    /// One innermost step more; a turn onto an innermost turn of the same plane adds to its angle instead.
    /// A ninth step gets 10, and the chain stays as it was.
    pub fn append(&mut self, step: Step) -> Result<(), Fault>
        ensures told { result ≡ replied (appended (steps_of self.old) step) }
        ensures left { steps_of self.new ≡ left_by (steps_of self.old) (appended (steps_of self.old) step) }
    {
        if let Some(turn) = self.steps().last().and_then(|last| merged(*last, step)) {
            self.steps[self.count - 1] = turn;
            return Ok(());
        }
        if self.count == Chain::MOST {
            return Err(Fault::ChainFull { place: 0 });
        }
        self.push(step);
        Ok(())
    }
}
