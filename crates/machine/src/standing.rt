// What the replies and the roundings mean, proved.
ghost use Rattle.machine.specs.Standing.{RepliesStand, RoundingsStand};

/// A move is taken exactly where each coordinate is within every box; otherwise it is told the lowest axis outside some box, and the
/// level of the first such box for that axis, at most 255.
pub fn replies_stand()
    ensures { RepliesStand }
{}

/// The scale end rounds to the nearest multiple, ties away from zero; the count end to the nearest count, ties to the lower one.
pub fn roundings_stand()
    ensures { RoundingsStand }
{}
