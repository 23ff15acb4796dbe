// Worked out by hand.
use crate::{Outcome, without_places, work_into_rolls};

fn seen(
    told: Result<(), (u8, usize)>,
    moves: usize,
    declines: usize,
    moved: Option<(usize, i64)>,
    declined: Option<(usize, u8)>,
) -> Outcome {
    Outcome {
        told,
        moves,
        declines,
        moved,
        declined,
    }
}

fn same(text: &[u8], moves_used: usize, declines_used: usize, want: Outcome) -> bool {
    work_into_rolls(text, moves_used, declines_used) == Ok(want)
}

#[test]
fn lines_and_their_ends(rt: HostRuntime) {
    // no text, one empty block, a last line without its byte 10
    assert!(rt; same(b"", 0, 0, seen(Ok(()), 0, 0, None, None)));
    assert!(rt; same(b"\n", 0, 0, seen(Ok(()), 0, 0, None, None)));
    let moved = seen(Ok(()), 1, 0, Some((4, 500_000)), None);
    assert!(rt; same(b"G90\nX5", 0, 0, moved));
    assert!(rt; same(b"G90\nX5\n", 0, 0, moved));
    // a carriage return belongs to a word
    assert!(rt; same(b"\nX5\r\n", 0, 0, seen(Ok(()), 0, 1, None, Some((1, 2)))));
}

#[test]
fn full_rolls(rt: HostRuntime) {
    // tested before each next block, not after the last
    let moved = Some((1, 500_000));
    assert!(rt; same(b"\nX5", 3, 0, seen(Ok(()), 4, 0, moved, None)));
    assert!(rt; same(b"\nX5\n", 3, 0, seen(Ok(()), 4, 0, moved, None)));
    assert!(rt; same(b"\nX5\nG90\n", 3, 0, seen(Err((16, 4)), 4, 0, moved, None)));
    assert!(rt;
        same(
            b"\nQ\nG90\n",
            0,
            3,
            seen(Err((16, 3)), 0, 4, None, Some((1, 4)))
        )
    );
    assert!(rt; same(b"G90", 4, 0, seen(Err((16, 0)), 4, 0, None, None)));
    assert!(rt; same(b"", 4, 4, seen(Ok(()), 4, 4, None, None)));
    let none = seen(Ok(()), 0, 0, None, None);
    assert!(rt; without_places(b"") == Ok(none));
    assert!(rt; without_places(b"\n") == Ok(seen(Err((16, 0)), 0, 0, None, None)));
}

#[test]
fn after_the_end(rt: HostRuntime) {
    // a block after M30 gets 9
    let want = seen(Ok(()), 1, 1, None, Some((7, 9)));
    assert!(rt; same(b"X5 M30\nX6\n", 0, 0, want));
}

#[test]
fn long_texts(rt: HostRuntime) {
    let none = seen(Ok(()), 0, 0, None, None);
    let most = [10u8; 65_536];
    assert!(rt; same(&most, 0, 0, none));
    let more = [10u8; 65_537];
    assert!(rt; same(&more, 0, 0, seen(Err((17, 0)), 0, 0, None, None)));
    // a line of 512 spaces is an empty block, one of 513 bytes gets 1
    let mut line = [32u8; 515];
    line[0] = 10;
    line[513] = 10;
    assert!(rt; same(&line, 0, 0, none));
    line[513] = 32;
    line[514] = 10;
    assert!(rt; same(&line, 0, 0, seen(Ok(()), 0, 1, None, Some((1, 1)))));
}
