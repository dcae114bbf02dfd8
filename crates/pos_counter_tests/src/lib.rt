//! What only tests can say of a counter: drivers that find no memory, disks that fail or lie, and crashes, which very
//! peripherals are handed back, what is answered where memory is ample, and the texts of the faults.
#![tactic(auto)]

#[cfg(test)]
mod counters;
#[cfg(test)]
mod drivers;
#[cfg(test)]
mod exchanges;
#[cfg(test)]
mod growths;
#[cfg(test)]
mod liar;
#[cfg(test)]
mod lies;
#[cfg(test)]
mod moves;
#[cfg(test)]
mod orders;
#[cfg(test)]
mod requests;
#[cfg(test)]
mod rows;
#[cfg(test)]
mod stopped_call;
#[cfg(test)]
mod stops;
