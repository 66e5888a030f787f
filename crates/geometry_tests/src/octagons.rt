// What no clause says: values worked out by hand from the rules, and that octagons cross threads.
ghost use Rattle.std.specs.Prelude.{◌^◌, ℤ};
ghost use Rattle.octagon.specs.Bounded.{IsNearZero};

use crate::shapes::is_send_and_sync;
use grid_num::Point;
use octagon::Oct;
use std::test::Fail;

// The upright rectangle with the two opposite corners.
fn rectangle(x0: i64, x1: i64, y0: i64, y1: i64) -> Oct
    requires x { IsNearZero (2 ^ 40) x0 × IsNearZero (2 ^ 40) x1 }
    requires y { IsNearZero (2 ^ 40) y0 × IsNearZero (2 ^ 40) y1 }
{
    let (a, b) = (Point { x: x0, y: y0 }, Point { x: x1, y: y1 });
    let (c, d) = (Point { x: x0, y: y1 }, Point { x: x1, y: y0 });
    Oct::of_points(&[a, b, c, d])
}

// Whether the grid point keeps a need of 10 from the origin. 10 * 10 * 2 = 200 is reached by 15 * 15, not by 14 * 14,
// so points count as near where both distances are below 10 and their sum is below 15.
fn keeps_ten(x: i64, y: i64) -> bool
    requires x { IsNearZero (2 ^ 40) x }
    requires y { IsNearZero (2 ^ 40) y }
{
    Oct::ball(0).apart(&rectangle(x, x, y, y), 10)
}

#[test]
fn bounds_may_have_no_grid_point(rt: HostRuntime) {
    // x + y = 1 and x - y = 0 leave the point (1/2, 1/2) alone
    assert!(rt; Oct::of_bounds([0, 1, 0, 1, 1, 1, 0, 0]).is_none());
    // each column of 0..1 has no room between x + y >= 3 and y <= 1
    assert!(rt; Oct::of_bounds([0, 1, 0, 1, 3, 9, -9, 9]).is_none());
    // one column is enough
    assert!(rt; Oct::of_bounds([1, 1, 0, 5, -9, 9, -9, 9]).is_some());
}

#[test]
fn diagonals_cross_between_grid_points(rt: HostRuntime) -> Result<(), Fail> {
    // the segments (0,0)-(1,1) and (0,1)-(1,0)
    let falling = Oct::of_bounds([0, 1, 0, 1, 0, 2, 0, 0]).ok_or("a grid point")?;
    let rising = Oct::of_bounds([0, 1, 0, 1, 1, 1, -1, 1]).ok_or("a grid point")?;
    assert!(rt; falling.meets(&rising));
    assert!(rt; rising.meets(&falling));
    assert!(rt; !falling.meets(&rectangle(1, 1, 0, 0)));
    is_send_and_sync(&falling);
    Ok(())
}

#[test]
fn sums_add_up_slanted_sides_too(rt: HostRuntime) {
    // 5 * 5 * 2 = 50 is reached by 8 * 8, so the round of 5 has its slanted sides at 8, and twice it at 16; the round of
    // 10 has them at 15
    let twice = Oct::ball(5).sum(&Oct::ball(5));
    assert_eq!(rt;
        (twice.x0(), twice.x1(), twice.y0(), twice.y1()),
        (-10, 10, -10, 10)
    );
    assert_eq!(rt;
        (twice.s0(), twice.s1(), twice.d0(), twice.d1()),
        (-16, 16, -16, 16)
    );
    assert!(rt; twice != Oct::ball(10));
    // 3 * 3 * 2 = 18 is reached by 5 * 5: the round of 3 has its slanted sides at 5
    let grown = Oct::ball(5).sum(&Oct::ball(3));
    assert_eq!(rt;
        (grown.x0(), grown.y1(), grown.s0(), grown.d1()),
        (-8, 8, -13, 13)
    );
    let moved = Oct::ball(5).shift(Point { x: 100, y: 10 });
    assert_eq!(rt;
        (moved.x0(), moved.y1(), moved.s0(), moved.d1()),
        (95, 15, 102, 98)
    );
}

#[test]
fn needs_are_kept_along_slants(rt: HostRuntime) {
    assert!(rt; keeps_ten(10, 0));
    assert!(rt; !keeps_ten(9, 0));
    assert!(rt; !keeps_ten(9, 5));
    assert!(rt; keeps_ten(9, 6));
    assert!(rt; !keeps_ten(-7, -7));
    assert!(rt; keeps_ten(-7, 8));
    // two squares whose nearest corners are 7 and 8 apart, and 7 and 7
    let square = rectangle(0, 10, 0, 10);
    assert!(rt; square.apart(&rectangle(17, 27, 18, 28), 10));
    assert!(rt; !square.apart(&rectangle(17, 27, 17, 27), 10));
    assert!(rt; square.apart(&rectangle(20, 30, 0, 10), 10));
    assert!(rt; !square.apart(&rectangle(20, 30, 0, 10), 11));
}

#[test]
fn corners_go_clockwise_from_the_top(rt: HostRuntime) -> Result<(), Fail> {
    let [a, b, c, d, e, f, g, h] = Oct::ball(5).corners();
    assert_eq!(rt;
        ((a.x, a.y), (b.x, b.y), (c.x, c.y), (d.x, d.y)),
        ((-3, -5), (3, -5), (5, -3), (5, 3))
    );
    assert_eq!(rt;
        ((e.x, e.y), (f.x, f.y), (g.x, g.y), (h.x, h.y)),
        ((3, 5), (-3, 5), (-5, 3), (-5, -3))
    );
    // the inside of the round of 5 reaches 4 along x and 7 along x + y
    let inside = Oct::ball(5).opened().ok_or("a grid point")?;
    assert_eq!(rt; (inside.x1(), inside.s1(), inside.d0()), (4, 7, -7));
    assert!(rt; rectangle(0, 1, 0, 9).opened().is_none());
    let hull = Oct::of_points(&[
        Point { x: 0, y: 0 },
        Point { x: 4, y: 1 },
        Point { x: 1, y: 3 },
    ]);
    assert_eq!(rt; (hull.x1(), hull.y1(), hull.s1(), hull.d0()), (4, 3, 5, -2));
    assert!(rt; hull.holds(Point { x: 3, y: 2 }));
    assert!(rt; !hull.holds(Point { x: 3, y: 3 }));
    Ok(())
}
