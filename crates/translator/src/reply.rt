// What a translator replies and tells.
ghost use Rattle.std.specs.Prelude.{◌≡◌};

use chains::chain::Chain;
use frames::image::Image;
use units::axis::Point;
use workpiece::plan::Plan;

/// Which axes a block moved, and the three targets with their spreads.
#[derive(Clone, Copy)]
pub struct Reply {
    pub moved: [bool; 3],
    pub image: Image,
}

impl From<Plan> for Reply {
    ghost from_gives = { λ plan reply. reply ≡ record { moved = plan.moved; image = plan.image } };

    fn from(plan: Plan) -> Reply {
        let Plan { moved, image, .. } = plan;
        Reply { moved, image }
    }
}

/// Targets with spreads, what the end holds, and the chain.
#[derive(Clone, Copy)]
pub struct Reading {
    pub image: Image,
    pub held: Point,
    pub chain: Chain,
}
