//! What no clause says of real files, tried: that they are made, grown and read.
//! Nothing stands above it, and nothing here runs but the test. What runs leave and say is in the table of `run_table`.
//! Lengths and places are in bytes.
#![tactic(auto)]

#[cfg(test)]
mod real_files;
