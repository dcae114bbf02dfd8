//! Tests of the totals: a stop at each call of the disk, crashes behind it, refused growths, and texts.
#![tactic(auto)]

#[cfg(test)]
mod changes;
#[cfg(test)]
mod growths;
#[cfg(test)]
mod long;
#[cfg(test)]
mod stops;
#[cfg(test)]
mod two_files;
