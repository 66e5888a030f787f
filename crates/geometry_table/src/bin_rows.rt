// Which octagons meet another one.
use bins::Bins;
use geometry_tests::shapes::octagon;
use grid_num::Memory;
use octagon::Oct;
use std::alloc::{AllocError, Global};

// The octagons of the bounds.
fn octagons(alloc: Global, all: &[[i32; 8]]) -> Result<Vec<Oct>, Memory> {
    let mut octs = Vec::new(alloc);
    'each: for bounds in all {
        if let Some(oct) = octagon(*bounds) {
            octs.push(oct)?;
        }
    }
    Ok(octs)
}

// The places of those that meet the octagon.
fn met(alloc: Global, all: &[[i32; 8]], oct: &Oct) -> Result<Vec<u32>, Memory> {
    let octs = octagons(alloc, all)?;
    let bins = Bins::of(alloc, &octs)?;
    let mut met = Vec::new(alloc);
    bins.meeting(oct, &mut met)?;
    Ok(met)
}

/// Says the places of the octagons that meet the one of these bounds.
pub fn meeting(
    alloc: Global,
    all: &[[i32; 8]],
    bounds: Option<[i32; 8]>,
) -> Result<Option<String>, AllocError> {
    let Some(oct) = bounds.and_then(octagon) else {
        return Ok(None);
    };
    let Ok(met) = met(alloc, all, &oct) else {
        return Ok(None);
    };
    let mut text = format!(in alloc; "meeting")?;
    for place in &met {
        let word = format!(in alloc; " {place}")?;
        text.push_str(word.as_str())?;
    }
    text.push('\n')?;
    Ok(Some(text))
}
