// A file of parameters in the memory world, read.
use dvc_base::{Bytes, Node, Rel};
use params::{ParamsFault, read_params};
use sim_world::{Pipe, SimWorld, Tree, Value};
use std::alloc::Global;
use std::process::Abort;
use std::test::Fail;

const PLACE: &str = "params.yaml";

// Texts of the file with how many pairs it holds.
const HELD: [(&str, usize); 3] = [
    ("depth: 3\nrate: {first: 0.10, last: [1, x]}\n", 2),
    ("{\"depth\": 3}", 1),
    ("", 0),
];

// Texts of the file with what is refused of it: a word of the fault, or the key.
const REFUSED: [(&str, &str); 3] = [
    ("depth: 3\ndepth: 4\n", "duplicate key"),
    ("depth: [3\n", "syntax"),
    ("- depth\n", ""),
];

#[test]
fn a_file_of_parameters_is_read(rt: HostRuntime) -> Result<(), Fail> {
    let mut world = SimWorld::new(rt.alloc(), Tree::new(rt.alloc()))?;
    read_each(&rt, rt.alloc(), &mut world)
}

fn read_each(rt: &impl Abort, alloc: Global, world: &mut SimWorld<Pipe>) -> Result<(), Fail> {
    assert!(rt; is_refused(alloc, world, "no file")?);
    for (text, pairs) in HELD {
        put(alloc, world, PLACE, text)?;
        assert!(rt; holds(alloc, world, pairs)?, "{text}");
    }
    for (text, word) in REFUSED {
        put(alloc, world, PLACE, text)?;
        assert!(rt; is_refused(alloc, world, word)?, "{text}");
    }
    put(alloc, world, "params.yaml/inner", "")?;
    assert!(rt; is_refused(alloc, world, "no file")?);
    Ok(())
}

// A value of 60 collections in one another has no room in `dvc.lock`.
#[test]
fn a_value_has_at_most_59_collections(rt: HostRuntime) -> Result<(), Fail> {
    let mut world = SimWorld::new(rt.alloc(), Tree::new(rt.alloc()))?;
    read_lists(&rt, rt.alloc(), &mut world)
}

fn read_lists(rt: &impl Abort, alloc: Global, world: &mut SimWorld<Pipe>) -> Result<(), Fail> {
    put_lists(alloc, world, 59)?;
    assert!(rt; holds(alloc, world, 2)?);
    put_lists(alloc, world, 60)?;
    assert!(rt; is_refused(alloc, world, "deep")?);
    Ok(())
}

fn holds(alloc: Global, world: &mut SimWorld<Pipe>, pairs: usize) -> Result<bool, Fail> {
    let at = Rel::root(alloc).join(alloc, PLACE)?;
    match read_params(alloc, world, &at) {
        Ok(node) => Ok(has_pairs(&node, pairs)),
        Err(_) => Ok(false),
    }
}

fn has_pairs(node: &Node, count: usize) -> bool {
    match node {
        Node::Pairs(pairs) => pairs.as_slice().len() == count,
        _ => false,
    }
}

fn is_refused(alloc: Global, world: &mut SimWorld<Pipe>, word: &str) -> Result<bool, Fail> {
    let at = Rel::root(alloc).join(alloc, PLACE)?;
    match read_params(alloc, world, &at) {
        Ok(_) => Ok(false),
        Err(fault) => Ok(says(&fault, word)),
    }
}

fn says(fault: &ParamsFault, word: &str) -> bool {
    match fault {
        ParamsFault::NoFile => word == "no file",
        ParamsFault::Yaml { fault } => word == fault.word(),
        ParamsFault::Schema { key } => word == key.as_str(),
        _ => false,
    }
}

fn put_lists(alloc: Global, world: &mut SimWorld<Pipe>, depth: usize) -> Result<(), Fail> {
    let opened = "[".repeat(alloc, depth)?;
    let closed = "]".repeat(alloc, depth)?;
    let text = format!(in alloc; "flat: 1\ndeep: {opened}{closed}\n")?;
    put(alloc, world, PLACE, text.as_str())
}

// Puts a file at the path, which isn't the root.
fn put(alloc: Global, world: &mut SimWorld<Pipe>, path: &str, text: &str) -> Result<(), Fail> {
    let at = Rel::root(alloc).join(alloc, path)?;
    if at.parts().is_empty() {
        return Err(Fail::new("no file is the root"));
    }
    let value = Value::File(Bytes::of(alloc, text.as_bytes())?);
    world.edit(&at, &value)?;
    Ok(())
}
