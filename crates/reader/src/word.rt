// One word of a block.
ghost use Rattle.std.specs.Prelude.{◌≡◌, ◌+◌, ◌^◌, ◌<◌, ◌≤◌, true, [], ◌∷◌, map, length, take, Decides, MatchOption, MatchResult, ◌≢◌};
ghost use Rattle.std.specs.Char.{to_ascii_uppercase};
ghost use Rattle.reader.specs.declared.functions.GFunction.{GFunction as GFunctions};
ghost use Rattle.reader.specs.declared.types.Address.{Address as Addresses};
ghost use Rattle.reader.specs.declared.types.FrameName.{FrameName as FrameNames};
ghost use Rattle.reader.specs.Words.{in_word, Clean, FirstBad, letters_of, tail_of, spelled, frame_name, Names, Follows, said, Says, g_number, m_function, WordIs, Declined};
ghost use Rattle.reader.specs.Shapes.{IsCode};
ghost use Rattle.reader.specs.Following.{Ill, NWord};

use crate::functions::{Distance, GFunction, LengthUnit, MFunction, Motion, Settable};
use crate::number::{read_code, read_number, read_turn};
use crate::types::{Address, Ailment, FrameName, Passed, Said, Word};
use units::axis::{Axis, Plane, Side};
use units::fault::Fault;

fn allowed(b: u8) -> bool
    ensures { result ≡ in_word b }
{
    b.is_ascii_alphanumeric() || b == b'+' || b == b'-' || b == b'.' || b == b'='
}

fn wrong_byte(s: &[u8]) -> Option<usize>
    ensures { MatchOption result (Clean s.now) (FirstBad s.now) }
{
    s.iter().position(|&b| !allowed(b))
}

fn letters(s: &[u8]) -> usize
    ensures value { result ≡ letters_of s.now }
    ensures within { result ≤ length s.now }
{
    s.iter().take_while(|b| b.is_ascii_alphabetic()).count()
}

// Capital and small letters mean the same.
fn capital(b: u8) -> u8
    ensures { result ≡ to_ascii_uppercase b }
{
    b.to_ascii_uppercase()
}

fn spells(s: &[u8], name: &[u8]) -> bool
    requires { map to_ascii_uppercase name.now ≡ name.now }
    ensures { Decides result (map to_ascii_uppercase s.now ≡ name.now) }
{
    s.eq_ignore_ascii_case(name)
}

// The addresses of one letter.
fn letter(c: char) -> Option<Address>
    ensures { MatchOption result ((a : Addresses) → c ∷ [] ≢ spelled a) (λ a. c ∷ [] ≡ spelled a) }
{
    match c {
        'N' => Some(Address::N),
        'G' => Some(Address::G),
        'M' => Some(Address::M),
        'F' => Some(Address::Passed(Passed::F)),
        'S' => Some(Address::Passed(Passed::S)),
        'T' => Some(Address::Passed(Passed::T)),
        'D' => Some(Address::Passed(Passed::D)),
        'X' => Some(Address::Axis(Axis::X)),
        'Y' => Some(Address::Axis(Axis::Y)),
        'Z' => Some(Address::Axis(Axis::Z)),
        _ => None,
    }
}

fn frame_name(s: &[u8]) -> Option<FrameName>
    ensures { MatchOption result ((f : FrameNames) → map to_ascii_uppercase s.now ≢ frame_name f) (λ f. map to_ascii_uppercase s.now ≡ frame_name f) }
{
    if spells(s, b"TRANS") {
        Some(FrameName::Trans)
    } else if spells(s, b"ROT") {
        Some(FrameName::Rot)
    } else if spells(s, b"SCALE") {
        Some(FrameName::Scale)
    } else if spells(s, b"MIRROR") {
        Some(FrameName::Mirror)
    } else if spells(s, b"ATRANS") {
        Some(FrameName::Atrans)
    } else if spells(s, b"AROT") {
        Some(FrameName::Arot)
    } else if spells(s, b"ASCALE") {
        Some(FrameName::Ascale)
    } else if spells(s, b"AMIRROR") {
        Some(FrameName::Amirror)
    } else {
        None
    }
}

/// The address that letters spell.
pub fn address(s: &[u8]) -> Option<Address>
    ensures { MatchOption result ((a : Addresses) → Names s.now a → ⊥) (Names s.now) }
{
    match s {
        [b] => letter(capital(*b) as char),
        _ if spells(s, b"RPL") => Some(Address::Rpl),
        _ => frame_name(s).map(Address::Name),
    }
}

/// The G function of a number.
pub fn g_function(code: u32) -> Option<GFunction>
    ensures { MatchOption result ((g : GFunctions) → code ≡ g_number g → ⊥) (λ g. code ≡ g_number g) }
{
    match code {
        0 => Some(GFunction::Motion(Motion::Rapid)),
        1 => Some(GFunction::Motion(Motion::Linear)),
        17 => Some(GFunction::Plane(Plane::Xy)),
        18 => Some(GFunction::Plane(Plane::Zx)),
        19 => Some(GFunction::Plane(Plane::Yz)),
        25 => Some(GFunction::Limit(Side::Lower)),
        26 => Some(GFunction::Limit(Side::Upper)),
        53 => Some(GFunction::Machine),
        54 => Some(GFunction::Settable(Settable::G54)),
        55 => Some(GFunction::Settable(Settable::G55)),
        56 => Some(GFunction::Settable(Settable::G56)),
        57 => Some(GFunction::Settable(Settable::G57)),
        58 => Some(GFunction::Settable(Settable::G58)),
        59 => Some(GFunction::Settable(Settable::G59)),
        70 => Some(GFunction::Unit(LengthUnit::Inch)),
        71 => Some(GFunction::Unit(LengthUnit::Millimetre)),
        90 => Some(GFunction::Distance(Distance::Absolute)),
        91 => Some(GFunction::Distance(Distance::Incremental)),
        500 => Some(GFunction::Settable(Settable::G500)),
        _ => None,
    }
}

fn m_function(code: u32) -> MFunction
    ensures { result ≡ m_function code }
{
    if code == 2 || code == 30 {
        MFunction::End
    } else {
        MFunction::Other
    }
}

fn follow_g(tail: &[u8]) -> Result<Said, Ailment>
    ensures { MatchResult result (λ v. (said v ≡ Address.G) × Follows Address.G tail.now × Says tail.now v) (Ill Address.G tail.now) }
{
    let code = read_code(tail)?;
    g_function(code).map(Said::G).ok_or(Ailment::Unlisted)
}

fn follow_passed(address: Passed, tail: &[u8]) -> Result<Said, Ailment>
    ensures { MatchResult result (λ v. (v ≡ Said.Passed address) × Follows (Address.Passed address) tail.now) (Ill (Address.Passed address) tail.now) }
{
    match address {
        Passed::T | Passed::D => {
            read_code(tail)?;
        }
        Passed::F | Passed::S => {
            read_number(tail)?;
        }
    }
    Ok(Said::Passed(address))
}

// What follows the address: what it says, or what is wrong with it.
fn follow(a: Address, tail: &[u8]) -> Result<Said, Ailment>
    ensures { MatchResult result (λ v. (said v ≡ a) × Follows a tail.now × Says tail.now v) (Ill a tail.now) }
{
    match a {
        Address::N => {
            read_code(tail)?;
            Ok(Said::N)
        }
        Address::G => follow_g(tail),
        Address::M => Ok(Said::M(m_function(read_code(tail)?))),
        Address::Passed(address) => follow_passed(address, tail),
        Address::Axis(axis) => Ok(Said::Axis(axis, read_number(tail)?)),
        Address::Rpl => Ok(Said::Rpl(read_turn(tail)?)),
        Address::Name(name) => match tail {
            [] => Ok(Said::Name(name)),
            _ => Err(Ailment::At(0)),
        },
    }
}

// The leading letters, and what follows them.
fn split(text: &[u8]) -> (&[u8], &[u8])
    ensures front { result.0.now ≡ take (letters_of text.now) text.now }
    ensures tail { result.1.now ≡ tail_of text.now }
    ensures len { length result.0.now ≡ letters_of text.now }
    ensures whole { length result.0.now + length result.1.now ≡ length text.now }
{
    text.split_at(letters(text))
}

// A word, or its fault if it has no byte that is not allowed.
fn shaped_word(text: &[u8], place: usize) -> Result<Word<'_>, Fault>
    requires { place + length text.now < 2 ^ 64 }
    ensures { MatchResult result (WordIs text.now place) (λ f. Clean text.now → Declined text.now place f) }
{
    let (front, tail) = split(text);
    let a = address(front).ok_or(Fault::Unknown { place })?;
    let said = follow(a, tail).map_err(|ailment| match ailment {
        Ailment::Unlisted => Fault::Unknown { place },
        Ailment::At(i) => Fault::Shape {
            place: place + front.len() + i,
        },
    })?;
    Ok(said.word(text, place))
}

// Is it an N word: the letter, and 1 to 8 digits?
fn is_n_word(text: &[u8]) -> bool
    ensures { result ≡ true → NWord text.now }
{
    match text {
        [b'N' | b'n', digits @ ..] => read_code(digits).is_ok(),
        _ => false,
    }
}

/// What a word says, or its fault: 2, then 4, then 3. A wrong byte is looked for only in a word that is not well shaped.
pub(crate) fn read_word(text: &[u8], place: usize) -> Result<Word<'_>, Fault>
    requires { place + length text.now < 2 ^ 64 }
    ensures { MatchResult result (WordIs text.now place) (Declined text.now place) }
{
    if is_n_word(text) {
        return Ok(Word::N { text, place });
    }
    shaped_word(text, place).map_err(|fault| match wrong_byte(text) {
        Some(i) => Fault::Byte { place: place + i },
        None => fault,
    })
}
