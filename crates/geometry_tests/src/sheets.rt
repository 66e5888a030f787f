// Sheets of 20,000 octagons. Octagons are in units of 2 nm, strips in nanometres.
use crate::shapes::{grid, sheet};
use std::test::Fail;

#[test]
fn twenty_thousand_apart(rt: HostRuntime) -> Result<(), Fail> {
    let a = rt.alloc();
    let apart = sheet(a, &grid(a, 60)?)?.ok_or("a sheet")?;
    // three slabs in each of the 125 rows
    assert_eq!(rt; apart.strips().len(), 125 * 3 * 160);
    // 3,600 square units less four corners of 50; a square unit is 4 square nanometres
    assert_eq!(rt; apart.area2(), 20_000 * 2 * 4 * 3400);
    Ok(())
}

// Each overlaps its neighbours by 10, so that together they are a plate. Its four corners are cut off, and where two neighbours
// meet along its edge there is a notch of 25 square units, down to where their cuts cross, 5 units from the edge. So the
// first and the last slab have 160 strips, and every other slab has one.
#[test]
fn twenty_thousand_overlapping(rt: HostRuntime) -> Result<(), Fail> {
    let a = rt.alloc();
    let plate = sheet(a, &grid(a, 110)?)?.ok_or("a sheet")?;
    assert_eq!(rt; plate.strips().len(), 126 * 3 - 1 - 2 + 2 * 160);
    assert_eq!(rt;
        plate.area2(),
        2 * 4 * (16_010 * 12_510 - 4 * 50 - 25 * (2 * 159 + 2 * 124))
    );
    Ok(())
}
