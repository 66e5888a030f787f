//! Cases of the pool and of workers: how a pool goes on, and what no clause says of threads.
//! Nothing stands above it, and nothing here runs but tests, so no crate that they try is proved a second time.
//! Boards are read from texts, in millimetres; each file draws its own.
#![tactic(auto)]

#[cfg(test)]
mod boards;
#[cfg(test)]
mod gates;
#[cfg(test)]
mod handed_on;
#[cfg(test)]
mod histories;
