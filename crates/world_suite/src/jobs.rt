// Jobs whose commands the rule of the memory world answers as `sh` does.
ghost use Rattle.std.specs.Prelude.{◌≡◌, [], ◌∷◌, IsTrue, IfOk};
ghost use Rattle.world_api.specs.Tree.{Tree};
ghost use Rattle.world_api.specs.Calls.{is_runnable, HasFolders};

use crate::told::Told;
use dvc_base::{ParamFiles, Rel, Text, Texts};
use std::alloc::Global;
use std::test::Fail;
use world_api::{Job, World};

// Two commands with a line feed between them. `quiet` is empty, so nothing is printed.
const COMMANDS: &[&str] = &[
    "cat in > out",
    "printf %s one > out\ncat out > two",
    "cat in > two\ncat two > out",
    "printf %s six > out\nexit 4",
    "exit 3\nexit 4",
    "exit 0\nprintf %s a/b-c.d_e > two",
    "cat quiet\nexit 255",
    "no-such-command",
];

/// Runs one of the jobs at the root, on outputs that were cleared. After a code that isn't 0 they hold
/// anything, and are cleared again.
pub(crate) fn run<W: World>(told: &mut Told, world: &mut W) -> Result<(), Fail> {
    let commands = told.pick(COMMANDS).copied().unwrap_or("exit 0");
    clear_outs(told.alloc, world)?;
    let job = job_of(told.alloc, commands)?;
    let exit = world.run(&job)?;
    if exit.code != 0 {
        clear_outs(told.alloc, world)?;
    }
    let code = exit.code;
    told.note(format_args!("run {commands:?}: {code}"))
}

fn clear_outs<W: World>(alloc: Global, world: &mut W) -> Result<(), Fail> {
    clear_out(alloc, world, "out")?;
    clear_out(alloc, world, "two")
}

fn clear_out<W: World>(alloc: Global, world: &mut W, out: &str) -> Result<(), Fail> {
    let at = Rel::root(alloc).join(alloc, out)?;
    if at.parts().is_empty() {
        return Err(Fail::new("an output is never the root"));
    }
    world.clear(&at)?;
    Ok(())
}

fn job_of(alloc: Global, commands: &str) -> Result<Job, Fail>
    ensures texts { IfOk result (λ job. IsTrue (is_runnable job)) }
    ensures folders { IfOk result (λ job. (t : Tree) → HasFolders job t) }
{
    Ok(Job {
        stage: Text::of(alloc, "stage")?,
        commands: lines_of(alloc, commands)?,
        dir: Rel::root(alloc),
        deps: two_texts(alloc, "in", "quiet")?,
        params: ParamFiles::new(alloc),
        outs: two_texts(alloc, "out", "two")?,
    })
}

pub(crate) fn lines_of(alloc: Global, text: &str) -> Result<Texts, Fail> {
    let mut texts = Texts::new(alloc);
    for line in text.lines() {
        texts.push(Text::of(alloc, line)?)?;
    }
    Ok(texts)
}

fn two_texts(alloc: Global, first: &str, second: &str) -> Result<Texts, Fail>
    ensures two { IfOk result (λ texts. texts ≡ first.now ∷ second.now ∷ []) }
{
    let mut texts = Texts::new(alloc);
    texts.push(Text::of(alloc, first)?)?;
    texts.push(Text::of(alloc, second)?)?;
    Ok(texts)
}
