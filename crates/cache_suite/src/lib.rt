//! Tests of the objects of the cache and of the records of runs, over the memory world.
#![tactic(auto)]

#[cfg(test)]
mod cache;
#[cfg(test)]
mod places;
#[cfg(test)]
mod runs;
#[cfg(test)]
mod values;
