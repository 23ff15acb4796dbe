// What is read.
ghost use Rattle.std.specs.Prelude.{◌≡◌, Some};
ghost use Rattle.reader.specs.Words.{item_of, text_of};

use crate::functions::{GFunction, MFunction};
use units::axis::Axis;

/// TRANS, ROT, SCALE, MIRROR and their additive forms.
#[derive(Clone, Copy)]
pub enum FrameName {
    Trans,
    Rot,
    Scale,
    Mirror,
    Atrans,
    Arot,
    Ascale,
    Amirror,
}

/// Addresses whose words are read and passed over.
#[derive(Clone, Copy)]
pub enum Passed {
    F,
    S,
    T,
    D,
}

/// The address of a word: its leading letters.
#[derive(Clone, Copy)]
pub enum Address {
    N,
    G,
    M,
    Passed(Passed),
    Axis(Axis),
    Rpl,
    Name(FrameName),
}

/// A number as it is written: its digits without the point, and how many follow the point.
#[derive(Clone, Copy)]
pub struct Number {
    pub value: i64,
    pub decimals: usize,
}

/// What a word says, without its bytes and its place.
// Beside `Word`, so that what is gathered of a block lends nothing from its bytes.
#[derive(Clone, Copy)]
pub enum Said {
    Name(FrameName),
    Axis(Axis, Number),
    Rpl(Number),
    G(GFunction),
    M(MFunction),
    N,
    Passed(Passed),
}

/// What a word says, and where it stands.
#[derive(Clone, Copy)]
pub struct Item {
    pub says: Said,
    pub place: usize,
}

/// A piece of a block as it stands: a longest run without space or `;`, or the comment.
#[derive(Clone, Copy)]
pub enum Piece<'a> {
    Run { text: &'a [u8], place: usize },
    Comment { text: &'a [u8], place: usize },
}

/// A word or the comment: what it says, its part of the block, and its place.
// Each case holds its own part and place: a rule of the project.
#[derive(Clone, Copy)]
pub enum Word<'a> {
    Name {
        name: FrameName,
        text: &'a [u8],
        place: usize,
    },
    Axis {
        axis: Axis,
        number: Number,
        text: &'a [u8],
        place: usize,
    },
    Rpl {
        number: Number,
        text: &'a [u8],
        place: usize,
    },
    G {
        function: GFunction,
        text: &'a [u8],
        place: usize,
    },
    M {
        function: MFunction,
        text: &'a [u8],
        place: usize,
    },
    N {
        text: &'a [u8],
        place: usize,
    },
    Passed {
        address: Passed,
        text: &'a [u8],
        place: usize,
    },
    Comment {
        text: &'a [u8],
        place: usize,
    },
}

impl Said {
    // The word that says this, in its part of the block and at its place.
    pub(crate) fn word<'a>(self, text: &'a [u8], place: usize) -> Word<'a>
        ensures item { item_of result ≡ Some (record { says = self; place = place }) }
        ensures text { text_of result ≡ text.now }
    {
        match self {
            Said::Name(name) => Word::Name { name, text, place },
            Said::Axis(axis, number) => Word::Axis {
                axis,
                number,
                text,
                place,
            },
            Said::Rpl(number) => Word::Rpl {
                number,
                text,
                place,
            },
            Said::G(function) => Word::G {
                function,
                text,
                place,
            },
            Said::M(function) => Word::M {
                function,
                text,
                place,
            },
            Said::N => Word::N { text, place },
            Said::Passed(address) => Word::Passed {
                address,
                text,
                place,
            },
        }
    }
}

impl Word<'_> {
    /// What a word says, without its bytes; the comment says nothing.
    pub fn item(self) -> Option<Item>
        ensures { result ≡ item_of self.entry }
    {
        let (says, place) = match self {
            Word::Name { name, place, .. } => (Said::Name(name), place),
            Word::Axis {
                axis,
                number,
                place,
                ..
            } => (Said::Axis(axis, number), place),
            Word::Rpl { number, place, .. } => (Said::Rpl(number), place),
            Word::G {
                function,
                place,
                ..
            } => (Said::G(function), place),
            Word::M {
                function,
                place,
                ..
            } => (Said::M(function), place),
            Word::N { place, .. } => (Said::N, place),
            Word::Passed { address, place, .. } => (Said::Passed(address), place),
            Word::Comment { .. } => return None,
        };
        Some(Item { says, place })
    }
}

// Why what follows an address is declined: an unlisted G number, or its first wrong byte.
#[derive(Clone, Copy, PartialEq, Eq, Debug)]
pub enum Ailment {
    Unlisted,
    At(usize),
}

impl From<usize> for Ailment {
    ghost use Rattle.std.specs.Prelude.{◌≡◌};
    ghost use Rattle.reader.specs.declared.types.Ailment.TheVariants.{At};

    ghost from_gives = { λ i a. a ≡ At i };

    fn from(wrong: usize) -> Ailment {
        Ailment::At(wrong)
    }
}
