// The classes of linked things: from each thing that has no label yet, all that can be reached is labelled. Each thing is asked
// once for those that are linked to it.
ghost use Rattle.std.specs.Prelude.{◌≡◌, ◌+◌, ◌<◌, length, get_or, IfOk};
ghost use Rattle.std.specs.List.{All};
ghost use Rattle.spreading.specs.Labels.{AreLinks, AreLabels};
ghost use Rattle.spreading.specs.Inner.Flood.{ArePartly, AreSpread};

use crate::Links;
use grid_num::Memory;
use std::alloc::Global;

/// For each thing the least number of its class: of all that links reach from it.
///
/// # Errors
///
/// Want of memory, which 2^32 things or more are taken for.
pub fn labels<L: Links>(alloc: Global, links: &L) -> Result<Vec<u32>, Memory>
    requires ready { L.is_ready links.now }
    requires links { AreLinks (L.count_of links.now) (L.are_linked links.now) }
    ensures { IfOk result (λ labels. AreLabels (L.count_of links.now) (L.are_linked links.now) labels.items) }
{
    let count = u32::try_from(links.count()).map_err(|_| Memory)?;
    let mut labels = vec![in alloc; count; count as usize]?;
    'each: for first in 0..count {
        labels = with_class(alloc, links, labels, first)?;
    }
    Ok(labels)
}

// The labels once the class of the thing has its label too.
fn with_class<L: Links>(
    alloc: Global,
    links: &L,
    labels: Vec<u32>,
    first: u32,
) -> Result<Vec<u32>, Memory>
    requires ready { L.is_ready links.now }
    requires links { AreLinks (L.count_of links.now) (L.are_linked links.now) }
    requires first { first < L.count_of links.now }
    requires partly { ArePartly (L.count_of links.now) (L.are_linked links.now) first labels.items }
    ensures { IfOk result (λ new. ArePartly (L.count_of links.now) (L.are_linked links.now) (first + 1) new.items) }
{
    if (labels[first as usize] as usize) < labels.len() {
        return Ok(labels);
    }
    flooded(alloc, links, labels, first)
}

// The labels once all that can be reached from the thing has its number as a label.
fn flooded<L: Links>(
    alloc: Global,
    links: &L,
    labels: Vec<u32>,
    first: u32,
) -> Result<Vec<u32>, Memory>
    requires ready { L.is_ready links.now }
    requires links { AreLinks (L.count_of links.now) (L.are_linked links.now) }
    requires first { first < L.count_of links.now }
    requires partly { ArePartly (L.count_of links.now) (L.are_linked links.now) first labels.items }
    requires bare { get_or labels.items first 0 ≡ L.count_of links.now }
    ensures { IfOk result (λ new. ArePartly (L.count_of links.now) (L.are_linked links.now) (first + 1) new.items) }
{
    let mut labels = labels;
    let mut members = Vec::new(alloc);
    let mut linked = Vec::new(alloc);
    labels[first as usize] = first;
    members.push(first)?;
    let mut done = 0;
    'each: while done < members.len() {
        links.linked(members[done], &mut linked)?;
        spread(&linked, first, &mut labels, &mut members)?;
        done += 1;
    }
    Ok(labels)
}

// Gives the label to those that have none, and adds them to the members.
fn spread(
    linked: &[u32],
    label: u32,
    labels: &mut Vec<u32>,
    members: &mut Vec<u32>,
) -> Result<(), Memory>
    requires linked { All (λ j. j < length labels.old.items) linked.now }
    requires label { label < length labels.old.items }
    ensures { IfOk result (λ _. AreSpread linked.now label labels.old.items members.old.items labels.new.items members.new.items) }
{
    let count = labels.len();
    'each: for j in linked {
        if labels[*j as usize] as usize == count {
            labels[*j as usize] = label;
            members.push(*j)?;
        }
    }
    Ok(())
}
