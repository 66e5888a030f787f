// What no clause says: that the calls succeed, values worked out by hand or by an independent script, and that sets
// cross threads.

use crate::shapes::{generated, is_send_and_sync, meets_all, oct_of, rectangle, stated};
use grid_num::Point;
use scan_rows::Rows;
use std::alloc::{AllocError, Global};
use std::test::Fail;

// A set of points of the window from (0, 0) to (79, 79), point by point.
#[derive(Drop)]
struct Plain {
    held: Vec<bool>,
}

impl Plain {
    fn empty(alloc: Global) -> Result<Plain, AllocError> {
        let mut held = Vec::new(alloc);
        for _ in 0..80 * 80 {
            held.push(false)?;
        }
        Ok(Plain { held })
    }

    // Sets what the set says of the points within the bounds.
    fn set(&mut self, bounds: &[i64; 8], to: bool) {
        for (i, held) in self.held.iter_mut().enumerate() {
            let at = i as i64;
            if meets_all(bounds, at % 80, at / 80) {
                *held = to;
            }
        }
    }

    // How many points it has.
    fn count(&self) -> u128 {
        let mut n = 0u128;
        for held in &self.held {
            if *held {
                n = n.wrapping_add(1);
            }
        }
        n
    }

    // The first place where the set says something else.
    fn first_other(&self, rows: &Rows) -> Option<usize> {
        for (i, held) in self.held.iter().enumerate() {
            let at = i as i64;
            if rows.has(Point {
                x: at % 80,
                y: at / 80,
            }) != *held
            {
                return Some(i);
            }
        }
        None
    }
}

// Octagons are put in and taken out in turn, two in for one out; after each step every point of the window is asked for.
#[test]
fn operations_agree_with_a_plain_list_of_points(rt: HostRuntime) -> Result<(), Fail> {
    let a = rt.alloc();
    for seed in 0..12u32 {
        let mut rows = Rows::empty(a);
        let mut plain = Plain::empty(a)?;
        for step in 0..9u32 {
            let bounds = generated(seed.wrapping_mul(1000).wrapping_add(step));
            let Some(oct) = oct_of(bounds) else {
                continue;
            };
            if step % 3 == 2 {
                rows.minus(&oct).ok().ok_or("no memory")?;
                plain.set(&bounds, false);
            } else {
                let one = Rows::of_oct(a, &oct).ok().ok_or("no memory")?;
                let mut more = Vec::new(a);
                more.push(one)?;
                rows.union_all(&more).ok().ok_or("no memory")?;
                plain.set(&bounds, true);
            }
            assert!(rt; plain.first_other(&rows).is_none(), "at {seed}, {step}");
            assert_eq!(rt; rows.count(), plain.count(), "at {seed}, {step}");
        }
    }
    Ok(())
}

// Lists of octagons at once: put together, and taken out of the rest.
#[test]
fn lists_agree_with_a_plain_list_of_points(rt: HostRuntime) -> Result<(), Fail> {
    let a = rt.alloc();
    for seed in 100..112u32 {
        let mut some = Vec::new(a);
        let mut others = Vec::new(a);
        let mut plain = Plain::empty(a)?;
        for step in 0..6u32 {
            let bounds = generated(seed.wrapping_mul(1000).wrapping_add(step));
            if let Some(oct) = oct_of(bounds) {
                some.push(oct)?;
                plain.set(&bounds, true);
            }
        }
        let mut rows = Rows::of_octs(a, &some).ok().ok_or("no memory")?;
        assert!(rt; plain.first_other(&rows).is_none(), "at {seed}");
        assert_eq!(rt; rows.count(), plain.count(), "at {seed}");
        for step in 6..12u32 {
            let bounds = generated(seed.wrapping_mul(1000).wrapping_add(step));
            if let Some(oct) = oct_of(bounds) {
                others.push(oct)?;
                plain.set(&bounds, false);
            }
        }
        rows.minus_all(&others).ok().ok_or("no memory")?;
        assert!(rt; plain.first_other(&rows).is_none(), "at {seed}");
        assert_eq!(rt; rows.count(), plain.count(), "at {seed}");
    }
    Ok(())
}

#[test]
fn common_points_count_once(rt: HostRuntime) -> Result<(), Fail> {
    let a = rt.alloc();
    let nothing = Rows::empty(a);
    assert_eq!(rt; nothing.count(), 0);
    assert!(rt; !nothing.has(Point { x: 0, y: 0 }));
    is_send_and_sync(&nothing);
    // two squares of 10 by 10 points that share a column, and one of 4 by 4 points inside the first
    let left = rectangle(0, 9, 0, 9).ok_or("a grid point")?;
    let right = rectangle(9, 18, 0, 9).ok_or("a grid point")?;
    let inner = rectangle(3, 6, 3, 6).ok_or("a grid point")?;
    let mut rows = Rows::of_octs(a, &[left, right, inner])
        .ok()
        .ok_or("no memory")?;
    assert_eq!(rt; rows.count(), 190);
    assert!(rt; rows.has(Point { x: 9, y: 9 }));
    assert!(rt; !rows.has(Point { x: 19, y: 9 }));
    assert!(rt;
        !rows.has(Point {
            x: i64::MAX,
            y: i64::MIN
        })
    );
    // without the right square its column goes too
    rows.minus(&right).ok().ok_or("no memory")?;
    assert_eq!(rt; rows.count(), 90);
    assert!(rt; rows.has(Point { x: 8, y: 9 }));
    assert!(rt; !rows.has(Point { x: 9, y: 9 }));
    rows.minus_all(&[inner, inner]).ok().ok_or("no memory")?;
    assert_eq!(rt; rows.count(), 74);
    rows.minus(&left).ok().ok_or("no memory")?;
    assert_eq!(rt; rows.count(), 0);
    Ok(())
}

// `bench/expected/points.py` counts the same set row by row.
#[test]
fn forty_octagons_leave_what_a_script_counts(rt: HostRuntime) -> Result<(), Fail> {
    let a = rt.alloc();
    let square = oct_of([
        0, 4_999_999, 0, 4_999_999, 0, 9_999_998, -4_999_999, 4_999_999,
    ])
    .ok_or("a grid point")?;
    let mut rows = Rows::of_oct(a, &square).ok().ok_or("no memory")?;
    assert_eq!(rt; rows.count(), 25_000_000_000_000);
    let mut holes = Vec::new(a);
    for i in 0..40u32 {
        holes.push(stated(i).ok_or("a grid point")?)?;
    }
    rows.minus_all(&holes).ok().ok_or("no memory")?;
    assert_eq!(rt; rows.count(), 688_108_837_427);
    for (x, y, held) in [
        (0, 0, true),
        (0, 174_999, true),
        (0, 175_000, false),
        (4_941_007, 400_000, false),
        (4_941_008, 400_000, true),
        (5_000_000, 0, false),
    ] {
        assert_eq!(rt; rows.has(Point { x, y }), held, "at {x}, {y}");
    }
    Ok(())
}
