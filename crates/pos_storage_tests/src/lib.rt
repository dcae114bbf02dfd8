//! Tests of the totals disk, from its bytes to the files of a store: layouts, crashes, faults and refused growths.
#![tactic(auto)]

#[cfg(test)]
mod directories;
#[cfg(test)]
mod disks;
#[cfg(test)]
mod images;
#[cfg(test)]
mod shared_disks;
#[cfg(test)]
mod stores;
#[cfg(test)]
mod surveys;
