//! Tests of the crates below the turns: paths, texts, names, faults, listings, the config, the lock, values, files of
//! parameters, and variables.
#![tactic(auto)]

#[cfg(test)]
mod base;
#[cfg(test)]
mod config;
#[cfg(test)]
mod folder;
#[cfg(test)]
mod listing;
#[cfg(test)]
mod lock;
#[cfg(test)]
mod params_files;
#[cfg(test)]
mod values;
#[cfg(test)]
mod vars;
