// Workpiece values: where an axis stands, or that it is open.
ghost use Rattle.std.specs.Prelude.{◌≡◌};
ghost use Rattle.workpiece.specs.Places.{opened_at, opened as opened_where, all_open, standing as standing_by, placed_at};

use crate::axes::each_axis;
use reader::functions::Distance;
use units::quantity::Length;

/// No axis has a value.
pub fn all_open() -> [Option<Length>; 3]
    ensures { result ≡ all_open }
{
    [None; 3]
}

fn opened_at(touched: bool, value: Option<Length>) -> Option<Length>
    ensures { result ≡ opened_at touched value }
{
    if touched { None } else { value }
}

/// The touched axes lose their values.
pub fn opened(touched: [bool; 3], values: [Option<Length>; 3]) -> [Option<Length>; 3]
    ensures { result ≡ opened_where touched values }
{
    each_axis(touched, values, opened_at)
}

/// Where an axis stands after its word, in units; none where it is open. The sum of G91 may be out of range.
pub fn standing(distance: Distance, word: Option<Length>, value: Option<Length>) -> Option<i64>
    ensures { result ≡ standing_by distance word value }
{
    match (distance, word) {
        (_, None) => value.map(|v| v.units),
        (Distance::Absolute, Some(w)) => Some(w.units),
        (Distance::Incremental, Some(w)) => value.map(|v| v.units + w.units),
    }
}

/// The same as a workpiece value, where it is in range.
pub fn placed_at(units: Option<i64>) -> Option<Length>
    ensures { result ≡ placed_at units }
{
    units.and_then(Length::new)
}
