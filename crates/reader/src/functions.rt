// The G and M functions, by modal group.
ghost use Rattle.std.specs.Prelude.{Some};
ghost use Rattle.reader.specs.Printed.{g_text};

use std::fmt;
use units::axis::{Plane, Side};

/// G0 and G1.
#[derive(Clone, Copy, PartialEq, Eq, Debug)]
pub enum Motion {
    Rapid,
    Linear,
}

// Each is written by its number, as `g_number` tells it; an impl for each type, since the gate takes none from a macro of one's own.
impl fmt::Display for Motion {
    ghost use Rattle.reader.specs.declared.functions.GFunction.{GFunction};

    ghost output = { λ x. Some (g_text (GFunction.Motion x)) };

    fn fmt<W: fmt::Write>(&self, f: &mut fmt::Formatter<W>) -> fmt::Result {
        let number: u16 = match self {
            Motion::Rapid => 0,
            Motion::Linear => 1,
        };
        write!(f, "G{number}")
    }
}

/// The settable frame: none with G500, else that of G54 to G59.
#[derive(Clone, Copy, PartialEq, Eq, Debug)]
pub enum Settable {
    G500,
    G54,
    G55,
    G56,
    G57,
    G58,
    G59,
}

impl fmt::Display for Settable {
    ghost use Rattle.reader.specs.declared.functions.GFunction.{GFunction};

    ghost output = { λ x. Some (g_text (GFunction.Settable x)) };

    fn fmt<W: fmt::Write>(&self, f: &mut fmt::Formatter<W>) -> fmt::Result {
        let number: u16 = match self {
            Settable::G500 => 500,
            Settable::G54 => 54,
            Settable::G55 => 55,
            Settable::G56 => 56,
            Settable::G57 => 57,
            Settable::G58 => 58,
            Settable::G59 => 59,
        };
        write!(f, "G{number}")
    }
}

/// G70 and G71.
#[derive(Clone, Copy, PartialEq, Eq, Debug)]
pub enum LengthUnit {
    Inch,
    Millimetre,
}

impl fmt::Display for LengthUnit {
    ghost use Rattle.reader.specs.declared.functions.GFunction.{GFunction};

    ghost output = { λ x. Some (g_text (GFunction.Unit x)) };

    fn fmt<W: fmt::Write>(&self, f: &mut fmt::Formatter<W>) -> fmt::Result {
        let number: u16 = match self {
            LengthUnit::Inch => 70,
            LengthUnit::Millimetre => 71,
        };
        write!(f, "G{number}")
    }
}

/// G90 and G91.
#[derive(Clone, Copy, PartialEq, Eq, Debug)]
pub enum Distance {
    Absolute,
    Incremental,
}

impl fmt::Display for Distance {
    ghost use Rattle.reader.specs.declared.functions.GFunction.{GFunction};

    ghost output = { λ x. Some (g_text (GFunction.Distance x)) };

    fn fmt<W: fmt::Write>(&self, f: &mut fmt::Formatter<W>) -> fmt::Result {
        let number: u16 = match self {
            Distance::Absolute => 90,
            Distance::Incremental => 91,
        };
        write!(f, "G{number}")
    }
}

/// A G function under its group. `Machine` is G53, `Limit` G25 and G26.
#[derive(Clone, Copy, PartialEq, Eq, Debug)]
pub enum GFunction {
    Motion(Motion),
    Plane(Plane),
    Settable(Settable),
    Machine,
    Unit(LengthUnit),
    Distance(Distance),
    Limit(Side),
}

/// M2 and M30 end the programme; any other is passed over.
#[derive(Clone, Copy, PartialEq, Eq, Debug)]
pub enum MFunction {
    End,
    Other,
}
