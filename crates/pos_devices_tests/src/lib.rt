//! What only tests can say of the devices: that a call which may lack memory answers where there is enough, that a
//! refused growth changes nothing, the texts of faults, and that the bytes of real ones are as their manuals say.
#![tactic(auto)]

#[cfg(test)]
mod ample;
#[cfg(test)]
mod devices;
#[cfg(test)]
mod driven;
#[cfg(test)]
mod escpos;
#[cfg(test)]
mod growths;
#[cfg(test)]
mod steps;
#[cfg(test)]
mod wire;
#[cfg(test)]
mod wrappers;
