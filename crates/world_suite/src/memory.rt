// The world in memory alone: that its calls succeed where there is memory, which no clause says, and what a few commands
// of the test rule mean.
ghost use Rattle.std.specs.Prelude.{◌≡◌, ◌∷◌, [], IfOk, IsTrue};
ghost use Rattle.world_api.specs.Tree.{Tree};
ghost use Rattle.world_api.specs.Calls.{is_runnable, HasFolders};

use dvc_base::{Bytes, NoMemory, Numbers, ParamFiles, Rel, Text, Texts};
use sim_world::{Given, Made, MemSink, PathValue, PathValues, Pipe, Rule, SimWorld, Tree, Value};
use std::alloc::Global;
use std::process::Abort;
use std::str;
use std::test::Fail;
use world_api::{Files, Job, Kind, ReadFiles, Shell, Sink};

// ---- the rule

// A command, the code with which it ends, and the bytes that it leaves at `x`, where `old` was made before.
const ANSWERS: &str = "cat a => 0 \"first\"
cat b => 0 \"second\"
cat a > x => 0 \"first\"
cat b > y => 0 \"old\"
cat x > x => 0 \"\"
printf %s a/B_1.2-3 > x => 0 \"a/B_1.2-3\"
cat c => 1 \"old\"
cat x => 1 \"old\"
cat c > x => 1 \"\"
cat a > z => 1 \"old\"
printf %s a > z => 1 \"old\"
exit 0 => 0 \"old\"
exit 7 => 7 \"old\"
exit 2147483647 => 2147483647 \"old\"
exit 2147483648 => 127 \"old\"
exit 07 => 127 \"old\"
exit => 127 \"old\"
cat  a => 127 \"old\"
cat * => 127 \"old\"
printf %s $A > x => 127 \"old\"
ls a => 127 \"old\"
 => 127 \"old\"";

#[test]
fn the_rule_answers_its_commands(rt: HostRuntime) -> Result<(), Fail> {
    for line in ANSWERS.lines() {
        answers(rt.alloc(), line)?;
    }
    Ok(())
}

fn answers(alloc: Global, line: &str) -> Result<(), Fail> {
    let (command, want) = line.split_once(" => ").unwrap_or((line, ""));
    let answer = answer(alloc, command)?;
    if answer.as_str() == want {
        return Ok(());
    }
    Err(Fail::new(format_args!("{line}: {answer}")))
}

fn answer(alloc: Global, command: &str) -> Result<String, Fail> {
    let mut made = old_made(alloc)?;
    let code = code_of(alloc, command, &mut made)?;
    let text = made_at(&made, "x").and_then(|bytes| str::from_utf8(bytes).ok());
    Ok(format!(in alloc; "{code} {:?}", text.unwrap_or("nothing"))?)
}

fn code_of(alloc: Global, command: &str, made: &mut Made) -> Result<i32, Fail> {
    let given = given(alloc, command)?;
    Ok(Pipe::answer(alloc, &given, made)?.code)
}

fn old_made(alloc: Global) -> Result<Made, NoMemory> {
    let mut outs = PathValues::new(alloc);
    push_file(alloc, &mut outs, "x", b"old")?;
    Ok(Made { outs })
}

fn given(alloc: Global, command: &str) -> Result<Given, NoMemory> {
    Ok(Given {
        command: Text::of(alloc, command)?,
        deps: deps(alloc)?,
        params: ParamFiles::new(alloc),
        outs: outs(alloc)?,
    })
}

fn deps(alloc: Global) -> Result<PathValues, NoMemory> {
    let mut deps = PathValues::new(alloc);
    push_file(alloc, &mut deps, "a", b"first")?;
    push_file(alloc, &mut deps, "b", b"second")?;
    Ok(deps)
}

fn outs(alloc: Global) -> Result<Texts, NoMemory> {
    let mut outs = Texts::new(alloc);
    outs.push(Text::of(alloc, "x")?)?;
    outs.push(Text::of(alloc, "y")?)?;
    Ok(outs)
}

fn push_file(
    alloc: Global,
    values: &mut PathValues,
    path: &str,
    bytes: &[u8],
) -> Result<(), NoMemory> {
    values.push(PathValue {
        path: Text::of(alloc, path)?,
        value: Value::File(Bytes::of(alloc, bytes)?),
    })
}

fn made_at<'a>(made: &'a Made, path: &str) -> Option<&'a [u8]> {
    for entry in made.outs.as_slice() {
        if entry.path.as_str() == path {
            return match &entry.value {
                Value::File(bytes) => Some(bytes.as_slice()),
                Value::Nothing | Value::Files(_) => None,
            };
        }
    }
    None
}

// ---- the world

#[test]
fn an_edit_is_seen(rt: HostRuntime) -> Result<(), Fail> {
    let mut world = SimWorld::new(rt.alloc(), Tree::new(rt.alloc()))?;
    edit_twice(&rt, rt.alloc(), &mut world)
}

fn edit_twice(rt: &impl Abort, alloc: Global, world: &mut SimWorld<Pipe>) -> Result<(), Fail> {
    put(rt, alloc, world, "data/raw")?;
    stands(rt, alloc, world, "data", Kind::Folder)?;
    stands(rt, alloc, world, "data/raw", Kind::File { size: 2 })?;

    // A file takes the folder's place, and what lay in it is gone.
    put(rt, alloc, world, "data")?;
    stands(rt, alloc, world, "data", Kind::File { size: 2 })?;
    stands(rt, alloc, world, "data/raw", Kind::Missing)?;

    // A folder takes the file's place.
    put(rt, alloc, world, "data/raw")?;
    stands(rt, alloc, world, "data", Kind::Folder)
}

#[test]
fn a_clear_is_seen(rt: HostRuntime) -> Result<(), Fail> {
    let mut world = SimWorld::new(rt.alloc(), Tree::new(rt.alloc()))?;
    put_and_clear(&rt, rt.alloc(), &mut world)
}

fn put_and_clear(rt: &impl Abort, alloc: Global, world: &mut SimWorld<Pipe>) -> Result<(), Fail> {
    put(rt, alloc, world, "data/raw")?;
    let file = path(alloc, "data/raw")?;
    assert!(rt; !file.parts().is_empty());
    world.clear(&file)?;
    stands(rt, alloc, world, "data/raw", Kind::Missing)?;
    assert_eq!(rt; world.starved(), 0);
    Ok(())
}

// Puts two bytes at the path, which isn't the root.
fn put(rt: &impl Abort, alloc: Global, world: &mut SimWorld<Pipe>, text: &str) -> Result<(), Fail> {
    let at = path(alloc, text)?;
    assert!(rt; !at.parts().is_empty());
    let value = Value::File(Bytes::of(alloc, b"12")?);
    world.edit(&at, &value)?;
    Ok(())
}

// Whether this stands at the path, as the tree and the world's call say.
fn stands(
    rt: &impl Abort,
    alloc: Global,
    world: &mut SimWorld<Pipe>,
    text: &str,
    kind: Kind,
) -> Result<(), Fail> {
    let at = path(alloc, text)?;
    assert!(rt; world.tree().kind(&at) == kind, "{text}");
    assert!(rt; world.kind(&at)? == kind, "{text}");
    Ok(())
}

fn path(alloc: Global, text: &str) -> Result<Rel, Fail> {
    Ok(Rel::root(alloc).join(alloc, text)?)
}

// ---- a run

#[test]
fn a_run_leaves_its_output(rt: HostRuntime) -> Result<(), Fail> {
    let mut world = SimWorld::new(rt.alloc(), Tree::new(rt.alloc()))?;
    run_twice(&rt, rt.alloc(), &mut world)
}

fn run_twice(rt: &impl Abort, alloc: Global, world: &mut SimWorld<Pipe>) -> Result<(), Fail> {
    put(rt, alloc, world, "a")?;
    runs(rt, alloc, world, "cat a > x", 0)?;
    runs(rt, alloc, world, "exit 3", 3)?;
    assert_eq!(rt; world.jobs().as_slice().len(), 2);
    Ok(())
}

// Whether the command ends with the code; the output holds what the first command left.
fn runs(
    rt: &impl Abort,
    alloc: Global,
    world: &mut SimWorld<Pipe>,
    command: &str,
    code: i32,
) -> Result<(), Fail> {
    let job = job(alloc, command)?;
    let exit = world.run(&job)?;
    assert_eq!(rt; exit.code, code);
    let output = path(alloc, "x")?;
    assert!(rt; world.tree().file(&output) == Some(b"12".as_slice()));
    Ok(())
}

// A job at the root, with the dependency `a` and the output `x`.
fn job(alloc: Global, command: &str) -> Result<Job, NoMemory>
    ensures texts { IfOk result (λ job. IsTrue (is_runnable job)) }
    ensures folders { IfOk result (λ job. (t : Tree) → HasFolders job t) }
{
    Ok(Job {
        stage: Text::of(alloc, "make")?,
        commands: one_text(alloc, command)?,
        dir: Rel::root(alloc),
        deps: one_text(alloc, "a")?,
        params: ParamFiles::new(alloc),
        outs: one_text(alloc, "x")?,
    })
}

fn one_text(alloc: Global, text: &str) -> Result<Texts, NoMemory>
    ensures one { IfOk result (λ texts. texts ≡ text.now ∷ []) }
{
    let mut texts = Texts::new(alloc);
    let text = Text::of(alloc, text)?;
    texts.push(text)?;
    Ok(texts)
}

// ---- the sink

#[test]
fn chosen_puts_fail(rt: HostRuntime) -> Result<(), Fail> {
    let mut fails = Numbers::new(rt.alloc());
    fails.push(2)?;
    let mut sink = MemSink::new(rt.alloc(), fails);
    put_three(&rt, &mut sink);
    Ok(())
}

fn put_three(rt: &impl Abort, sink: &mut MemSink) {
    assert!(rt; sink.put(b"one ").is_ok());
    assert!(rt; sink.put(b"two ").is_err());
    assert!(rt; sink.put(b"three").is_ok());
    assert!(rt; sink.bytes() == b"one three".as_slice());
    assert_eq!(rt; sink.starved(), 0);
}
