//! Tests of the worlds. The same calls are drawn for the world in memory and for real files, and both give
//! the same answers, and so does naming what stands there. What only real files have, as links, pipes and failures,
//! is played from scripts.
#![tactic(auto)]

#[cfg(test)]
mod asked;
#[cfg(test)]
mod calls;
#[cfg(test)]
mod folder_tests;
#[cfg(test)]
mod folders;
#[cfg(test)]
mod jobs;
#[cfg(test)]
mod layout;
#[cfg(test)]
mod memory;
#[cfg(test)]
mod names;
#[cfg(test)]
mod scripts;
#[cfg(test)]
mod tests;
#[cfg(test)]
mod told;
