// What no clause says: hulls worked out by hand or by a script in exact fractions, and that shapes cross threads.
ghost use Rattle.std.specs.Prelude.{◌≤◌, IfSome};
ghost use Rattle.cores.specs.Room.{IsInRoom};

use crate::shapes::is_send_and_sync;
use copper_shape::{Edge, Shape, dist_sq, edge_hulls};
use cores::Kind;
use grid_num::Point;
use octagon::Oct;
use std::test::Fail;

// A place in whole hundredths of a millimetre, in halves.
fn at(x: i16, y: i16) -> Point
    ensures { IsInRoom 1000000000 result }
{
    Point {
        x: x as i64 * 20_000,
        y: y as i64 * 20_000,
    }
}

// A place in whole hundredths of a millimetre, in nanometres.
fn nm(x: i16, y: i16) -> Point
    ensures { IsInRoom 500000000 result }
{
    Point {
        x: x as i64 * 10_000,
        y: y as i64 * 10_000,
    }
}

fn bounds(hull: &Oct) -> [i64; 8] {
    [
        hull.x0(),
        hull.x1(),
        hull.y0(),
        hull.y1(),
        hull.s0(),
        hull.s1(),
        hull.d0(),
        hull.d1(),
    ]
}

#[test]
fn a_via_has_one_round_hull(rt: HostRuntime) -> Result<(), Fail> {
    // size 0.6 mm at (5 5): the round of 150,000 units, whose slanted sides are at 212,133 since that squared is the
    // first square from 45,000,000,000 on
    let via = Shape::disc(at(500, 500), 600_000);
    is_send_and_sync(&via);
    let hulls = via.hulls(rt.alloc())?;
    assert_eq!(rt; hulls.len(), 1);
    assert_eq!(rt;
        bounds(&hulls[0]),
        [
            2_350_000, 2_650_000, 2_350_000, 2_650_000, 4_787_867, 5_212_133, -212_133, 212_133
        ]
    );
    // the same via 1 nm further to the right and 3 nm up, off the grid: its cell has four grid points
    let moved = Shape::disc(
        Point {
            x: 10_000_002,
            y: 9_999_994,
        },
        600_000,
    );
    let hulls = moved.hulls(rt.alloc())?;
    assert_eq!(rt; hulls.len(), 1);
    assert_eq!(rt;
        bounds(&hulls[0]),
        [
            2_350_000, 2_650_001, 2_349_998, 2_649_999, 4_787_865, 5_212_133, -212_132, 212_136
        ]
    );
    Ok(())
}

#[test]
fn slanted_tracks_have_a_hull_for_each_piece(rt: HostRuntime) -> Result<(), Fail> {
    // from (0 0), in hundredths of a millimetre: 0.2 mm of the longer side begin a piece, up to 64
    for (x, y, count) in [
        (200, 100, 10),
        (-100, 200, 10),
        (201, 100, 11),
        (20, 10, 1),
        (21, -10, 2),
        (1260, 1, 63),
        (1, -1270, 64),
        (32767, 1, 64),
        (500, 0, 1),
        (0, -500, 1),
        (500, 500, 1),
        (-500, 500, 1),
        (0, 0, 1),
    ] {
        let track = Shape::capsule(at(0, 0), at(x, y), 250_000);
        let hulls = track.hulls(rt.alloc())?;
        assert_eq!(rt; hulls.len(), count, "({x} {y})");
    }
    Ok(())
}

#[test]
fn an_arc_of_the_board_edge_has_the_disc_on_its_chord(rt: HostRuntime) -> Result<(), Fail> {
    // a corner of the board from (0 2) to (2 0) mm: the chord is 2,828,427.1 nm long, so the disc round (1 1) has a
    // radius of 2,828,428 halves, or 707,107 units; its slanted sides are at 1,000,001
    let arc = Edge {
        from: nm(0, 200),
        to: nm(200, 0),
        bow: true,
    };
    is_send_and_sync(&arc);
    let hulls = edge_hulls(rt.alloc(), &arc)?;
    assert_eq!(rt; hulls.len(), 1);
    assert_eq!(rt;
        bounds(&hulls[0]),
        [
            -207_107, 1_207_107, -207_107, 1_207_107, -1, 2_000_001, -1_000_001, 1_000_001
        ]
    );
    // the segment between the same ends has the one octagon that is just its points
    let side = Edge { bow: false, ..arc };
    let hulls = edge_hulls(rt.alloc(), &side)?;
    assert_eq!(rt; hulls.len(), 1);
    assert_eq!(rt;
        bounds(&hulls[0]),
        [
            0, 1_000_000, 0, 1_000_000, 1_000_000, 1_000_000, -1_000_000, 1_000_000
        ]
    );
    Ok(())
}

// Whether the two touch, if they lie where that may be asked.
fn touch(first: &Shape, second: &Shape) -> Option<bool> {
    if !first.core().has_room() || !second.core().has_room() {
        return None;
    }
    if first.radius() > 200_000_000 || second.radius() > 200_000_000 {
        return None;
    }
    Some(first.touches(second))
}

#[test]
fn touching_is_told_to_the_nanometre(rt: HostRuntime) -> Result<(), Fail> {
    // a track from (0 0) to (2 1) mm, 0.25 mm wide, and a via of 0.75 mm at (2.3 1.4): from the track's end the via is
    // 0.3 and 0.4 mm away, so 0.5 mm, the sum of both radii; 1 nm further to the right they don't touch
    let track = Shape::capsule(
        Point { x: 0, y: 0 },
        Point {
            x: 4_000_000,
            y: 2_000_000,
        },
        250_000,
    );
    for (x, touching) in [(4_600_000, true), (4_600_002, false)] {
        let via = Shape::disc(Point { x, y: 2_800_000 }, 750_000);
        assert_eq!(rt; touch(&track, &via), Some(touching), "{x}");
        assert_eq!(rt; touch(&via, &track), Some(touching), "{x}");
    }
    // the inside of a pad counts; two round pads of 1 mm, whose centres are 0.707107 mm apart in x and in y, so a bit over
    // 1 mm, don't touch, though their hulls share a point
    let pad = Shape::box_round(Point { x: 0, y: 0 }, 2_000_000, 2_000_000, 0);
    let speck = Shape::disc(Point { x: 1, y: 1 }, 0);
    assert_eq!(rt; touch(&pad, &speck), Some(true));
    let first = Shape::disc(Point { x: 0, y: 0 }, 1_000_000);
    let second = Shape::disc(
        Point {
            x: 1_414_214,
            y: 1_414_214,
        },
        1_000_000,
    );
    assert_eq!(rt; touch(&first, &second), Some(false));
    let near = first.hulls(rt.alloc())?;
    let far = second.hulls(rt.alloc())?;
    let near = near.first().ok_or("a hull")?;
    let far = far.first().ok_or("a hull")?;
    assert!(rt; near.meets(far));
    assert!(rt; dist_sq(Point { x: 0, y: 0 }, Point { x: 3, y: -4 }) == 25);
    Ok(())
}

#[test]
fn pads_are_made_of_cores_and_radii(rt: HostRuntime) -> Result<(), Fail> {
    // a pad of 2 mm by 1 mm at (5 5), lengths in halves: as rect, as oval, and as roundrect of ratio 0.25, whose
    // radius is 2 * 1,000,000 / 4
    let center = Point {
        x: 10_000_000,
        y: 10_000_000,
    };
    let rect = Shape::box_round(center, 2_000_000, 1_000_000, 0);
    let hulls = rect.hulls(rt.alloc())?;
    assert_eq!(rt; hulls.len(), 1);
    assert_eq!(rt;
        bounds(&hulls[0]),
        [
            2_000_000, 3_000_000, 2_250_000, 2_750_000, 4_250_000, 5_750_000, -750_000, 750_000
        ]
    );
    let oval = Shape::capsule(at(450, 500), at(550, 500), 1_000_000);
    let hulls = oval.hulls(rt.alloc())?;
    assert_eq!(rt; hulls.len(), 1);
    assert_eq!(rt;
        bounds(&hulls[0]),
        [
            2_000_000, 3_000_000, 2_250_000, 2_750_000, 4_396_446, 5_603_554, -603_554, 603_554
        ]
    );
    let round = Shape::box_round(center, 1_500_000, 500_000, 500_000);
    assert_eq!(rt; round.radius(), 500_000);
    let hulls = round.hulls(rt.alloc())?;
    assert_eq!(rt; hulls.len(), 1);
    assert_eq!(rt;
        bounds(&hulls[0]),
        [
            2_000_000, 3_000_000, 2_250_000, 2_750_000, 4_323_223, 5_676_777, -676_777, 676_777
        ]
    );
    // a piece of a fill: the corners in halves are four times those in units
    let piece = Shape::of_oct(&Oct::ball(100));
    let Kind::Area(core) = piece.core().kind() else {
        return Err("an area".into());
    };
    assert_eq!(rt;
        (core.x0, core.y1, core.s1, core.d0),
        (-400, 400, 568, -568)
    );
    assert_eq!(rt; piece.radius(), 0);
    let hulls = piece.hulls(rt.alloc())?;
    assert!(rt; hulls.len() == 1 && hulls[0] == Oct::ball(100));
    Ok(())
}
