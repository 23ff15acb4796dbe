// Each number stands for itself: it was worked out by hand or by an exact computation elsewhere.
use crate::pile::visit_pile;
use machine::area::WorkArea;
use machine::bounds::Bounds;
use machine::count::CountEnd;
use machine::end::MachineEnd;
use machine::motors::Increments;
use machine::position::held_position;
use machine::scale::ScaleEnd;
use std::process::Abort;
use std::test::Fail;
use units::axis::{Point, Side};
use units::fault::Fault;
use units::quantity::Length;

fn made<T>(r: Result<T, Fault>) -> Result<T, Fail> {
    r.map_err(|_| Fail::new("declined"))
}

// The number of the decline, with axis and level.
fn reply(r: Result<(), Fault>) -> Option<(u8, u8, u8)> {
    let d = r.err()?.decline();
    Some((d.number, d.axis, d.level))
}

// The number of the decline.
fn declined<T: Drop>(r: Result<T, Fault>) -> Option<u8> {
    r.err().map(|fault| fault.decline().number)
}

fn point(at: (i64, i64, i64)) -> Point {
    Point {
        x: at.0,
        y: at.1,
        z: at.2,
    }
}

fn all(v: i64) -> Point {
    Point { x: v, y: v, z: v }
}

fn bounds(lower: (i64, i64, i64), upper: (i64, i64, i64)) -> Result<Bounds, Fault> {
    Bounds::new(point(lower), point(upper))
}

fn cube(lower: i64, upper: i64) -> Result<Bounds, Fail> {
    made(Bounds::new(all(lower), all(upper)))
}

fn check_held<E: MachineEnd>(rt: &impl Abort, end: &E, at: (i64, i64, i64)) {
    assert_eq!(rt; held_position(end), point(at));
}

// What a move would get: number, axis and level, or none where it would be taken.
fn check_asked<E: MachineEnd>(
    rt: &impl Abort,
    end: &E,
    rows: &[((i64, i64, i64), Option<(u8, u8, u8)>)],
) {
    for (to, told) in rows {
        assert_eq!(rt; reply(end.ask_move(point(*to))), *told);
    }
}

// A move, what it gets, and what is then held.
fn check_moved<E: MachineEnd>(
    rt: &impl Abort,
    end: &mut E,
    rows: &[((i64, i64, i64), Option<(u8, u8, u8)>, (i64, i64, i64))],
) {
    for (to, told, held) in rows {
        assert_eq!(rt; reply(end.take_move(point(*to))), *told);
        check_held(rt, end, *held);
    }
}

// Both ends moved to a coordinate.
fn check_rounded(
    rt: &impl Abort,
    increment: u32,
    to: i64,
    scale: i64,
    count: i64,
) -> Result<(), Fail> {
    let whole = cube(-2_000_000_000, 2_000_000_000)?;
    let mut one = made(ScaleEnd::new(increment, whole))?;
    check_moved(rt, &mut one, &[((to, to, to), None, (scale, scale, scale))]);
    let mut other = made(CountEnd::new(
        Increments {
            x: increment,
            y: 1,
            z: 100_000,
        },
        whole,
    ))?;
    check_moved(rt, &mut other, &[((to, to, 50_000), None, (count, to, 0))]);
    Ok(())
}

#[test]
fn roundings(rt: HostRuntime) -> Result<(), Fail> {
    let rows = [
        (1, 2_000_000_000, 2_000_000_000, 2_000_000_000),
        (1, -2_000_000_000, -2_000_000_000, -2_000_000_000),
        (100_000, 2_000_000_000, 2_000_000_000, 2_000_000_000),
        (100_000, 50_000, 100_000, 0),
        (100_000, 49_999, 0, 0),
        (100_000, -49_999, 0, 0),
        (100_000, -50_000, -100_000, -100_000),
        (100_000, 150_000, 200_000, 100_000),
        (3, 1, 0, 0),
        (3, 2, 3, 3),
        (3, -1, 0, 0),
        (3, -2, -3, -3),
        (3, 1_000_000_000, 999_999_999, 999_999_999),
        (2, 1, 2, 0),
        (2, -1, -2, -2),
        (10, 25, 30, 20),
        (99_773, 2_000_000_000, 2_000_049_558, 2_000_049_558),
        (99_773, -2_000_000_000, -2_000_049_558, -2_000_049_558),
    ];
    for (increment, to, scale, count) in &rows {
        check_rounded(&rt, *increment, *to, *scale, *count)?;
    }
    Ok(())
}

#[test]
fn limits_in_range(rt: HostRuntime) {
    let rows = [
        (
            (-2_000_000_000, -2_000_000_000, -2_000_000_000),
            (2_000_000_000, 2_000_000_000, 2_000_000_000),
            None,
        ),
        ((2_000_000_000, 0, 0), (-2_000_000_000, 0, 0), None),
        ((0, 0, -2_000_000_001), (0, 0, 0), Some(17)),
        ((0, 2_000_000_001, 0), (0, 0, 0), Some(17)),
        ((0, 0, 0), (2_000_000_001, 0, 0), Some(17)),
        ((0, 0, 0), (0, i64::MIN, 0), Some(17)),
        ((0, 0, i64::MAX), (0, 0, 0), Some(17)),
    ];
    for (lower, upper, told) in &rows {
        assert_eq!(rt; declined(bounds(*lower, *upper)), *told);
    }
}

#[test]
fn increments_in_range(rt: HostRuntime) -> Result<(), Fail> {
    let origin = cube(0, 0)?;
    for (increment, told) in &[
        (0, Some(17)),
        (1, None),
        (100_000, None),
        (100_001, Some(17)),
        (u32::MAX, Some(17)),
    ] {
        assert_eq!(rt; declined(ScaleEnd::new(*increment, origin)), *told);
    }
    for (increments, told) in &[
        (
            Increments {
                x: 1,
                y: 100_000,
                z: 7,
            },
            None,
        ),
        (Increments { x: 0, y: 1, z: 1 }, Some(17)),
        (Increments { x: 1, y: 0, z: 1 }, Some(17)),
        (
            Increments {
                x: 1,
                y: 1,
                z: 100_001,
            },
            Some(17),
        ),
    ] {
        assert_eq!(rt; declined(CountEnd::new(*increments, origin)), *told);
    }
    Ok(())
}

#[test]
fn limits_belong_to_the_box(rt: HostRuntime) -> Result<(), Fail> {
    let mut end = made(ScaleEnd::new(10, made(bounds((-5, 0, 10), (5, 0, 20)))?))?;
    check_asked(
        &rt,
        &end,
        &[
            ((-5, 0, 10), None),
            ((5, 0, 20), None),
            ((-6, 0, 10), Some((15, 1, 0))),
            ((5, 1, 20), Some((15, 2, 0))),
            ((5, 0, 21), Some((15, 3, 0))),
            ((0, 1, 0), Some((15, 2, 0))),
            ((i64::MIN, i64::MAX, 0), Some((15, 1, 0))),
        ],
    );
    check_held(&rt, &end, (0, 0, 0));
    // what is held may lie outside the box
    check_moved(
        &rt,
        &mut end,
        &[
            ((5, 0, 15), None, (10, 0, 20)),
            ((5, 0, 9), Some((15, 3, 0)), (10, 0, 20)),
        ],
    );
    // no point is within this box
    let mut none = made(ScaleEnd::new(1, cube(1, -1)?))?;
    check_moved(&rt, &mut none, &[((0, 0, 0), Some((15, 1, 0)), (0, 0, 0))]);
    Ok(())
}

#[test]
fn questions(rt: HostRuntime) -> Result<(), Fail> {
    let end = made(CountEnd::new(
        Increments { x: 3, y: 4, z: 5 },
        cube(-2_000_000_000, 2_000_000_000)?,
    ))?;
    let pile = WorkArea::over(made(bounds((-1, -2, -3), (4, 5, 6)))?, end);
    assert_eq!(rt; pile.box_count(), 2);
    for r in &[
        (0, 1, -1, 4),
        (0, 2, -2, 5),
        (0, 3, -3, 6),
        (1, 3, -2_000_000_000, 2_000_000_000),
    ] {
        assert_eq!(rt; made(pile.limit(r.0, r.1, Side::Lower))?, r.2);
        assert_eq!(rt; made(pile.limit(r.0, r.1, Side::Upper))?, r.3);
    }
    for r in &[(2, 1), (usize::MAX, 1), (0, 0), (1, 4)] {
        assert_eq!(rt; declined(pile.limit(r.0, r.1, Side::Lower)), Some(17));
    }
    for r in &[(1, 3), (2, 4), (3, 5)] {
        assert_eq!(rt; made(pile.increment(r.0))?, r.1);
        assert_eq!(rt; made(pile.held(r.0))?, 0);
    }
    for axis in &[0, 4, 255] {
        assert_eq!(rt; declined(pile.increment(*axis)), Some(17));
        assert_eq!(rt; declined(pile.held(*axis)), Some(17));
    }
    Ok(())
}

#[test]
fn piles(rt: HostRuntime) -> Result<(), Fail> {
    let end = made(ScaleEnd::new(10, cube(-100, 100)?))?;
    let mut pile = WorkArea::over(cube(-200, 200)?, WorkArea::over(cube(-50, 50)?, end));
    assert_eq!(rt; pile.box_count(), 3);
    // Y is outside the middle box, Z outside the top one: the lower axis is told
    check_asked(
        &rt,
        &pile,
        &[
            ((0, 60, 300), Some((15, 2, 1))),
            ((0, 0, 201), Some((15, 3, 0))),
            ((50, 50, -50), None),
        ],
    );
    check_moved(
        &rt,
        &mut pile,
        &[
            ((0, 60, 300), Some((15, 2, 1)), (0, 0, 0)),
            ((201, 0, 0), Some((15, 1, 0)), (0, 0, 0)),
            ((7, 0, 0), None, (10, 0, 0)),
        ],
    );
    let way = [
        Point { x: 1, y: 2, z: 3 },
        Point {
            x: 25,
            y: -25,
            z: 50,
        },
        Point { x: 0, y: 0, z: 51 },
        Point { x: 9, y: 9, z: 9 },
    ];
    let seen = visit_pile(&mut pile, &way);
    assert_eq!(rt; seen.taken, 2);
    assert_eq!(rt; reply(seen.end), Some((15, 3, 1)));
    check_held(&rt, &pile, (30, -30, 50));
    Ok(())
}

#[test]
fn written_limits(rt: HostRuntime) -> Result<(), Fail> {
    let end = made(ScaleEnd::new(10, cube(-100, 100)?))?;
    let mut pile = WorkArea::over(cube(-200, 200)?, end);
    check_moved(&rt, &mut pile, &[((-12, 15, 100), None, (-10, 20, 100))]);
    // as G25 X0 and G26 Z40 write them
    pile.write_limits(Side::Lower, [Length::new(0), None, None]);
    pile.write_limits(Side::Upper, [None, None, Length::new(40)]);
    check_asked(
        &rt,
        &pile,
        &[
            ((-1, 0, 0), Some((15, 1, 0))),
            ((0, -101, 41), Some((15, 2, 1))),
            ((0, -100, 41), Some((15, 3, 0))),
            ((100, -100, -100), None),
        ],
    );
    let below = pile.into_below();
    assert_eq!(rt; below.box_count(), 1);
    check_asked(&rt, &below, &[((-1, 0, 41), None)]);
    check_held(&rt, &below, (-10, 20, 100));
    Ok(())
}
