// The reply of a box on top of others.
ghost use Rattle.std.specs.Prelude.{◌≡◌, nat_lt};
ghost use Rattle.units.specs.Faults.{decline_of};
ghost use Rattle.machine.specs.Joined.{deeper, joined, OnTop};

use units::fault::Fault;

// The same fault, one level further down.
fn deepened(fault: Fault) -> Fault
    ensures { result ≡ deeper fault }
{
    match fault {
        Fault::Outside { place, axis, level } => Fault::Outside {
            place,
            axis,
            level: level.saturating_add(1),
        },
        other => other,
    }
}

fn is_lower(one: Fault, other: Fault) -> bool
    ensures { result ≡ nat_lt (decline_of one).axis (decline_of other).axis }
{
    one.decline().axis < other.decline().axis
}

fn join(top: Result<(), Fault>, below: Result<(), Fault>) -> Result<(), Fault>
    ensures { result ≡ joined top below }
{
    match (top, below) {
        (Ok(()), _) => below.map_err(deepened),
        (Err(d), Err(e)) if is_lower(e, d) => Err(deepened(e)),
        (Err(_), _) => top,
    }
}

/// What a move gets from a box on top of others, from what it gets from that box alone and what it gets from the others.
pub fn on_top(top: Result<(), Fault>, below: Result<(), Fault>) -> Result<(), Fault>
    ensures { OnTop top below result }
{
    join(top, below)
}
