// What is in force of frames, and the guard that sets it aside for G53.
ghost use Rattle.std.specs.Prelude.{◌≡◌};
ghost use Rattle.workpiece.specs.Force.{machine_only, start_force, selected_force};

use reader::functions::Settable;

/// Which settable frame is in force, and whether the chain is.
#[derive(Clone, Copy)]
pub struct InForce {
    pub settable: Settable,
    pub chained: bool,
}

impl InForce {
    /// G500 and the chain, as at the start and after a reset.
    pub fn start() -> InForce
        ensures { result ≡ start_force }
    {
        InForce {
            settable: Settable::G500,
            chained: true,
        }
    }

    /// What is in force after a block's selection of a settable frame.
    pub fn selected(self, settable: Option<Settable>) -> InForce
        ensures { result ≡ selected_force settable self }
    {
        InForce {
            settable: settable.unwrap_or(self.settable),
            ..self
        }
    }
}

/// While it lives, neither a settable frame nor the chain is in force.
pub struct MachineCoordinates<'a> {
    force: &'a mut InForce,
    aside: InForce,
}

impl<'a> MachineCoordinates<'a> {
    /// Sets both aside.
    pub fn over(force: &'a mut InForce) -> MachineCoordinates<'a>
        ensures kept { result.aside ≡ force.old }
        ensures aside { result.force.now ≡ machine_only }
        ensures same { result.force.ghost_name ≡ force.entry.ghost_name }
    {
        let aside = *force;
        *force = InForce {
            settable: Settable::G500,
            chained: false,
        };
        MachineCoordinates { force, aside }
    }

    /// What is in force while the guard lives.
    pub fn standing(&self) -> InForce
        ensures { result ≡ self.now.force.now }
    {
        *self.force
    }
}

impl Drop for MachineCoordinates<'_> {
    /// Puts both back.
    fn drop(self)
        ensures { self.exit.0.now ≡ self.entry.aside }
    {
        *self.force = self.aside;
        let MachineCoordinates { force: _, aside: _ } = self;
    }
}
