// The graph of the stages that a `dvc.yaml` says.
use dvc_base::{FaultKind, Node};
use stage_graph::Graph;
use std::alloc::Global;
use template_expand::{Stage, expand};
use yaml_profile::parse;

// `report` reads the folder in which `fill` makes a file.
const FOLDER: &[u8] = b"stages:
  report:
    cmd: make report
    deps: [results]
    outs: [report.txt]
  fill:
    cmd: make fill
    outs: [results/a.txt]
";

const ROUND: &[u8] = b"stages:
  a: {cmd: make a, deps: [c.txt], outs: [a.txt]}
  b: {cmd: make b, deps: [a.txt], outs: [b.txt]}
  c: {cmd: make c, deps: [b.txt], outs: [c.txt]}
";

// All texts here are shorter, and so have few lines and few stages.
const SHORT: usize = 4096;

fn has_order(alloc: Global, text: &[u8], order: &[u32]) -> bool {
    if text.len() > SHORT {
        return false;
    }
    match parse(alloc, text) {
        Ok(node) => node_has_order(alloc, &node, order),
        Err(_) => false,
    }
}

fn node_has_order(alloc: Global, node: &Node, order: &[u32]) -> bool {
    match expand(alloc, node, &[]) {
        Ok(stages) => stages_have_order(alloc, stages.as_slice(), order),
        Err(_) => false,
    }
}

fn stages_have_order(alloc: Global, stages: &[Stage], order: &[u32]) -> bool {
    if stages.len() > SHORT {
        return false;
    }
    match Graph::make(alloc, stages, &[], &[], &[]) {
        Ok(graph) => graph.order() == order && brings(alloc, &graph, &[0], order),
        Err(_) => false,
    }
}

fn brings(alloc: Global, graph: &Graph, chosen: &[u32], want: &[u32]) -> bool {
    match graph.above(alloc, chosen) {
        Ok(stages) => stages.as_slice() == want,
        Err(_) => false,
    }
}

fn is_refused(alloc: Global, text: &[u8], kind: FaultKind) -> bool {
    if text.len() > SHORT {
        return false;
    }
    match parse(alloc, text) {
        Ok(node) => node_is_refused(alloc, &node, kind),
        Err(_) => false,
    }
}

fn node_is_refused(alloc: Global, node: &Node, kind: FaultKind) -> bool {
    match expand(alloc, node, &[]) {
        Ok(stages) => stages_are_refused(alloc, stages.as_slice(), kind),
        Err(_) => false,
    }
}

fn stages_are_refused(alloc: Global, stages: &[Stage], kind: FaultKind) -> bool {
    if stages.len() > SHORT {
        return false;
    }
    match Graph::make(alloc, stages, &[], &[], &[]) {
        Ok(_) => false,
        Err(fault) => fault.kind() == kind,
    }
}

#[test]
fn a_stage_comes_behind_what_is_made_in_a_folder_that_it_reads(rt: HostRuntime) {
    assert!(rt; has_order(rt.alloc(), FOLDER, &[1, 0]));
}

#[test]
fn stages_in_a_round_have_no_order(rt: HostRuntime) {
    assert!(rt; is_refused(rt.alloc(), ROUND, FaultKind::Cycle));
}
