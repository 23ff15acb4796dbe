//! Blocks with their answers, worked out by hand from the rules.
#![tactic(auto)]

use blocks::block::typed_block;
use blocks::types::{Block, FrameChange};

/// The number and the place of a block's decline; none where it is right.
pub fn told(bytes: &[u8]) -> Option<(u8, usize)> {
    let decline = typed_block(bytes, false).err()?.decline();
    Some((decline.number, decline.place))
}

/// The X word of an ordinary block in units; none where it has none, or the block is another.
pub fn x_units(bytes: &[u8], inch: bool) -> Option<i64> {
    match typed_block(bytes, inch) {
        Ok(Block::Ordinary(o)) => o.words[0].map(|x| x.units),
        _ => None,
    }
}

/// What a frame instruction does, and its place; none where the block is another.
pub fn frame(bytes: &[u8]) -> Option<(FrameChange, usize)> {
    match typed_block(bytes, false) {
        Ok(Block::Frame { change, place }) => Some((change, place)),
        _ => None,
    }
}

#[cfg(test)]
mod tests {
    use crate::{frame, told, x_units};
    use blocks::block::typed_block;
    use blocks::types::{
        Block, Distance, FrameChange, FrameStep, LengthUnit, Motion, Ordinary, Selections, Settable,
    };
    use std::test::Fail;
    use units::axis::{Plane, Side};
    use units::quantity::Angle;

    #[test]
    fn words(rt: HostRuntime) {
        assert!(rt; told(b"") == None);
        assert!(rt; told(b"X1#") == Some((2, 2)));
        assert!(rt; told(b"G0 G1 #") == Some((5, 3)));
        assert!(rt; told(b"Q #") == Some((4, 0)));
        assert!(rt; told(b"TRANS1") == Some((3, 5)));
        assert!(rt; told(b"RPL30") == Some((3, 3)));
        assert!(rt; told(b"X12345678901") == Some((3, 11)));
        assert!(rt; told(b"G00000002") == Some((4, 0)));
        assert!(rt; told(b"G25 G26 X1") == Some((5, 4)));
        assert!(rt; told(b"M1 M2 M3 M4 M5 M6") == Some((5, 15)));
    }

    #[test]
    fn rules(rt: HostRuntime) {
        assert!(rt; told(b"G90 N5 TRANS X1") == Some((6, 0)));
        assert!(rt; told(b"TRANS X1 M2") == Some((6, 9)));
        assert!(rt; told(b"RPL=3 TRANS") == Some((7, 6)));
        assert!(rt; told(b"G1 RPL=3") == Some((7, 3)));
        assert!(rt; told(b"Y1 X1.000000 Z1.000000") == Some((8, 3)));
        assert!(rt; told(b"ROT RPL=360") == Some((8, 4)));
    }

    #[test]
    fn lengths(rt: HostRuntime) {
        assert!(rt; x_units(b"x9999.99999", false) == Some(999_999_999));
        assert!(rt; x_units(b"X-.5", false) == Some(-50_000));
        assert!(rt; x_units(b"X393.7007", true) == Some(999_999_778));
        assert!(rt; x_units(b"X1 G71", true) == Some(100_000));
    }

    #[test]
    fn selections(rt: HostRuntime) -> Result<(), Fail> {
        match typed_block(b"n5 G0 G18 G500 G53 G70 G91 X1 M30", false) {
            Ok(
                Block::Ordinary(
                    Ordinary {
                        selections: Selections {
                            motion: Some(Motion::Rapid),
                            plane: Some(Plane::Zx),
                            settable: Some(Settable::G500),
                            unit: Some(LengthUnit::Inch),
                            distance: Some(Distance::Incremental),
                        },
                        machine,
                        first,
                        ends,
                        ..
                    },
                ),
            ) => {
                assert!(rt; machine == Some(15) && first == Some(27) && ends);
                Ok(())
            },
            _ => Err(Fail::new("an ordinary block")),
        }
    }

    #[test]
    fn instructions(rt: HostRuntime) -> Result<(), Fail> {
        assert!(rt; matches!(frame(b"N1 ROT"), Some((FrameChange::Empty, 3))));
        assert!(rt;
            matches!(
                frame(b"RPL=-359.9999 ROT"),
                Some((
                    FrameChange::Replace(FrameStep::Turn(Angle { ticks: 1 })),
                    14
                )),
            )
        );
        assert!(rt;
            matches!(
                frame(b"AROT RPL=90"),
                Some((
                    FrameChange::Append(FrameStep::Turn(Angle { ticks: 900_000 })),
                    0
                )),
            )
        );
        match typed_block(b"G26 Z-2", false) {
            Ok(
                Block::Limit {
                    side: Side::Upper,
                    values,
                    place,
                },
            ) => {
                assert!(rt; values[2].map(|z| z.units) == Some(-200_000) && place == 0);
                Ok(())
            }
            _ => Err(Fail::new("upper limits")),
        }
    }
}
