//! Tests of the graph of stages, and of what a workspace says beyond `dvc.yaml`.
#![tactic(auto)]

#[cfg(test)]
mod graph;
#[cfg(test)]
mod workspace;
