//! Runs of scripts with readers and writers that cut and fail, one that finds no memory at first, and the texts of the
//! faults.
#![tactic(auto)]

#[cfg(test)]
mod growths;
#[cfg(test)]
mod runs;
