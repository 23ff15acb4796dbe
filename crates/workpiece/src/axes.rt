// Values by axis, in the order X, Y, Z.
ghost use Rattle.std.specs.Prelude.{◌≡◌, false, slice_index_or};
ghost use Rattle.workpiece.specs.Axes.{EachAxis};
ghost use Rattle.workpiece.specs.Plans.{first_of};

use units::axis::Axis;

/// What the function gives of the two values of each axis.
// Written out: the proof of a closure over the index that calls the function does not close.
pub fn each_axis<A: Copy, B: Copy, C, F: Fn(A, B) -> C>(a: [A; 3], b: [B; 3], of: F) -> [C; 3]
    requires { F.IsAlwaysCallable of }
    ensures { EachAxis (F.post of) a b result }
{
    [of(a[0], b[0]), of(a[1], b[1]), of(a[2], b[2])]
}

/// The first axis that has the property.
// Pushing tests its axes one by one, by a rule of the project; here all three are known.
pub fn first_of(has: [bool; 3]) -> Option<Axis>
    ensures { result ≡ first_of (slice_index_or has 0 false) (slice_index_or has 1 false) (slice_index_or has 2 false) }
{
    match has {
        [true, _, _] => Some(Axis::X),
        [_, true, _] => Some(Axis::Y),
        [_, _, true] => Some(Axis::Z),
        _ => None,
    }
}
