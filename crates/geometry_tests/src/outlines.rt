// What no clause says: vertices and answers worked out by hand from the rules, and that outlines cross threads.
ghost use Rattle.std.specs.Prelude.{◌^◌};
ghost use Rattle.outline_slab.specs.Rules.{IsInSpan, IsPointWithin};

use crate::shapes::is_send_and_sync;
use grid_num::Point;
use outline_slab::{Outline, OutlineError, OutlineFault};
use std::alloc::Global;
use std::test::Fail;

// A corner, in whole hundredths of a millimetre.
fn at(x: i16, y: i16) -> Point
    ensures { IsInSpan result }
{
    Point {
        x: x as i64 * 10000,
        y: y as i64 * 10000,
    }
}

// Whether the vertices are refused for just that fault.
fn is_refused(answer: Result<Outline, OutlineError>, fault: OutlineFault) -> bool {
    matches!(answer, Err(OutlineError::Bad(found)) if found == fault)
}

#[test]
fn corners_off_the_rules_are_refused(rt: HostRuntime) {
    let a = rt.alloc();
    let short = [at(0, 0), at(1000, 0)];
    assert!(rt; is_refused(Outline::make(a, &short), OutlineFault::Short));

    // (0 0) (10 0) (10 10) (0.000001 10): the last x is one nanometre
    let odd = [
        at(0, 0),
        at(1000, 0),
        at(1000, 1000),
        Point { x: 1, y: 10000000 },
    ];
    assert!(rt; is_refused(Outline::make(a, &odd), OutlineFault::OffGrid { index: 3 }));

    // (0 0) (10 0) (10 5) (0 10): from (10 5) to (0 10) is off a multiple of 45 degrees
    let steep = [at(0, 0), at(1000, 0), at(1000, 500), at(0, 1000)];
    assert!(rt;
        is_refused(
            Outline::make(a, &steep),
            OutlineFault::OffAngle { index: 2 }
        )
    );

    // a vertex that is given twice makes an edge without length
    let twice = [at(0, 0), at(1000, 0), at(1000, 0), at(0, 1000)];
    assert!(rt;
        is_refused(
            Outline::make(a, &twice),
            OutlineFault::OffAngle { index: 1 }
        )
    );
}

#[test]
fn edges_that_share_a_point_are_refused(rt: HostRuntime) {
    let a = rt.alloc();
    // (0 0) (10 10) (10 0) (0 10): the diagonals cross in the middle
    let bow = [at(0, 0), at(1000, 1000), at(1000, 0), at(0, 1000)];
    assert!(rt;
        is_refused(
            Outline::make(a, &bow),
            OutlineFault::Crossing {
                first: 0,
                second: 2
            }
        )
    );

    // there and back: edge 1 goes back along edge 0
    let spike = [at(0, 0), at(1000, 0), at(500, 0), at(500, 500), at(0, 500)];
    assert!(rt;
        is_refused(
            Outline::make(a, &spike),
            OutlineFault::Crossing {
                first: 0,
                second: 1
            }
        )
    );

    // the tip of a notch from below touches the middle of the top edge
    let touched = [at(0, 0), at(1000, 0), at(1000, 500), at(500, 0), at(0, 500)];
    assert!(rt;
        is_refused(
            Outline::make(a, &touched),
            OutlineFault::Crossing {
                first: 0,
                second: 2
            }
        )
    );
}

// A square of 10 mm with a notch of 45 degrees in its top, in hundredths of a millimetre:
//
//   0,0 1,0                       1000,0
//    |_| \                       / |
//    |     \                   /   |
//    |       \               /     |
//    |         500,499_501,499     |
//    |_____________________________|
//   0,1000                        1000,1000
const NOTCHED: [(i16, i16); 7] = [
    (0, 0),
    (0, 1000),
    (1000, 1000),
    (1000, 0),
    (501, 499),
    (500, 499),
    (1, 0),
];

fn notched(alloc: Global) -> Option<Outline> {
    let [a, b, c, d, e, f, g] = NOTCHED;
    let points = [
        at(a.0, a.1),
        at(b.0, b.1),
        at(c.0, c.1),
        at(d.0, d.1),
        at(e.0, e.1),
        at(f.0, f.1),
        at(g.0, g.1),
    ];
    Outline::make(alloc, &points).ok()
}

#[test]
fn notches_and_slants_are_outlines(rt: HostRuntime) -> Result<(), Fail> {
    let outline = notched(rt.alloc()).ok_or("an outline")?;
    is_send_and_sync(&outline);
    // 5.01 mm and 4.99 mm are 2,505,000 and 2,495,000 units of 2 nm
    assert!(rt;
        outline.vertices().contains(&Point {
            x: 2505000,
            y: 2495000
        })
    );
    let frame = outline.frame();
    assert_eq!(rt;
        (frame.x0(), frame.x1(), frame.y0(), frame.y1()),
        (0, 5000000, 0, 5000000)
    );
    assert_eq!(rt;
        (frame.s0(), frame.s1(), frame.d0(), frame.d1()),
        (0, 10000000, -5000000, 5000000)
    );
    Ok(())
}
