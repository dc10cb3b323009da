// A project in memory, made of texts.
use dvc_base::{Bytes, Rel, Text, Texts};
use sim_world::{Pipe, SimWorld, Tree, Value};
use std::alloc::Global;
use std::fs;
use std::rt::Runtime;
use std::test::Fail;

pub(crate) type Project = SimWorld<Pipe>;

/// A project that holds `in` alone.
pub(crate) fn new_project(alloc: Global) -> Result<Project, Fail> {
    let mut project = SimWorld::new(alloc, Tree::new(alloc))?;
    put(alloc, &mut project, "in", b"abc")?;
    Ok(project)
}

/// Puts a file.
pub(crate) fn put(
    alloc: Global,
    project: &mut Project,
    path: &str,
    text: &[u8],
) -> Result<(), Fail> {
    let value = Value::File(Bytes::of(alloc, text)?);
    edit(alloc, project, path, &value)
}

/// Puts the text of a file of this program's folder.
pub(crate) fn load<R: Runtime>(
    rt: &R,
    alloc: Global,
    project: &mut Project,
    path: &str,
    name: &str,
) -> Result<(), Fail> {
    let text = fs::read(rt, name)?;
    put(alloc, project, path, text.as_slice())
}

/// Removes what stands at the path.
pub(crate) fn remove(alloc: Global, project: &mut Project, path: &str) -> Result<(), Fail> {
    edit(alloc, project, path, &Value::Nothing)
}

fn edit(alloc: Global, project: &mut Project, path: &str, value: &Value) -> Result<(), Fail> {
    let at = path_of(alloc, path)?;
    if at.parts().is_empty() {
        return Err(Fail::new("the root is never edited"));
    }
    project.edit(&at, value)?;
    Ok(())
}

/// The path from the root.
pub(crate) fn path_of(alloc: Global, text: &str) -> Result<Rel, Fail> {
    Ok(Rel::root(alloc).join(alloc, text)?)
}

/// The words of a command line.
pub(crate) fn words_of(alloc: Global, line: &str) -> Result<Texts, Fail> {
    let mut words = Texts::new(alloc);
    for word in line.split_whitespace() {
        words.push(Text::of(alloc, word)?)?;
    }
    Ok(words)
}

/// How many jobs have run in the project.
pub(crate) fn jobs_of(project: &Project) -> usize {
    project.jobs().as_slice().len()
}
