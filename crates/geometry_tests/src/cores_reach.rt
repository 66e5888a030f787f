// What no clause says: the clauses' own words on numbers from outside. The table comes from bench/expected/touching.py, which
// finds the least distances in exact fractions, by the hull of all differences of two cores' corners.
ghost use Rattle.std.specs.Prelude.{◌≤◌, pos, ◌≤ℤ◌};
ghost use Rattle.octagon.specs.Bounded.{IsInReach};
ghost use Rattle.cores.specs.Room.{IsNearZero, IsInRoom};

use crate::shapes::is_send_and_sync;
use cores::{Core, dist_sq};
use grid_num::Point;

// The number, where it lies within 1,200,000,000 of 0, as all of the table do.
fn near(z: i64) -> i64
    ensures { IsNearZero 1200000000 result }
{
    z.max(-1_200_000_000).min(1_200_000_000)
}

fn place(x: i64, y: i64) -> Point
    ensures { IsInRoom 1200000000 result }
{
    Point {
        x: near(x),
        y: near(y),
    }
}

#[test]
fn a_via_touches_a_track_until_it_is_a_nanometre_off(rt: HostRuntime) {
    // the track (0, 0)-(2, 1) mm of width 0.25 and vias of size 0.75 mm: their radii are 250,000 and 750,000 halves
    let track = Core::segment(place(0, 0), place(4_000_000, 2_000_000));
    let via = Core::point(place(4_600_000, 2_800_000));
    let further = Core::point(place(4_600_002, 2_800_000));
    assert!(rt; track.has_room());
    assert!(rt; via.has_room());
    assert!(rt; further.has_room());
    assert!(rt; track.is_within(&via, 1_000_000));
    assert!(rt; via.is_within(&track, 1_000_000));
    assert!(rt; !track.is_within(&further, 1_000_000));
    is_send_and_sync(&track);
}

#[test]
fn squared_distances_reach_far(rt: HostRuntime) {
    for (x, y, z, w, apart) in [
        (0, 0, 3, 4, 25),
        (-5, 7, -5, 7, 0),
        (1, 2, 4, -2, 25),
        (
            -1_000_000_000,
            -1_000_000_000,
            1_000_000_000,
            1_000_000_000,
            8_000_000_000_000_000_000,
        ),
    ] {
        assert_eq!(rt;
            dist_sq(within_a_billion(x, y), within_a_billion(z, w)),
            apart
        );
    }
}

fn within_a_billion(x: i64, y: i64) -> Point
    ensures { IsInRoom 1000000000 result }
{
    Point {
        x: x.max(-1_000_000_000).min(1_000_000_000),
        y: y.max(-1_000_000_000).min(1_000_000_000),
    }
}
