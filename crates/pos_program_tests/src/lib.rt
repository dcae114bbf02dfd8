//! What only tests can say of the program's disks: a disk in a real file, mirrors, calls of the system that fail or
//! move too few bytes, and that a call which may lack memory answers where there is enough. tests/program.sh tries the
//! program's words, files and texts.
#![tactic(auto)]

#[cfg(test)]
mod disks;
#[cfg(test)]
mod mirrors;
