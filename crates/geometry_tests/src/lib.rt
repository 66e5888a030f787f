//! Tests of mathematics and geometry: values worked out by hand or by scripts, large inputs, and that values cross threads.
//! `geometry_table`, in which what is a table of numbers stands, uses its `shapes`.
//! Units are those of the crates that are tried.
#![tactic(auto)]

#[cfg(test)]
mod bands;
#[cfg(test)]
mod copper;
#[cfg(test)]
mod cores_reach;
#[cfg(test)]
mod drawn_rings;
#[cfg(test)]
mod lengths;
#[cfg(test)]
mod lines;
#[cfg(test)]
mod octagons;
#[cfg(test)]
mod outline_areas;
#[cfg(test)]
mod outlines;
#[cfg(test)]
mod row_sets;
#[cfg(test)]
mod row_strips;
pub mod shapes;
#[cfg(test)]
mod sheets;
#[cfg(test)]
mod stacked;
