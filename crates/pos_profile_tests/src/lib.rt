//! What only tests can say of profiles and registries: the texts of faults and mistakes, that a call which may lack
//! memory answers where there is enough, and that a refused growth changes nothing.
#![tactic(auto)]

#[cfg(test)]
mod profiles;
#[cfg(test)]
mod registries;
