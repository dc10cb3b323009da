// The programs of a world in memory, which its rule answers.
ghost use Rattle.std.specs.Prelude.{◌≡◌, ◌++◌, ◌∷◌, [], IsTrue, IfOk, OnOk};
ghost use Rattle.world_api.specs.Tree.{value_at};
ghost use Rattle.world_api.specs.Effect.{path_from, given_values, invocation_of};
ghost use Rattle.world_api.specs.Outside.{tree_of};
ghost use Rattle.world_api.specs.Calls.{is_runnable, HasFolders};
ghost use Rattle.sim_world.specs.Answer.{answered, found, given_by, plain_value, plain_values, unmade};
ghost use Rattle.sim_world.specs.Call.{Makes, IsSame, Counted};
ghost use Rattle.sim_world.specs.Change.{changed, grown};
ghost use Rattle.sim_world.specs.declared.change.Change.TheVariants.{Started, Left, Ran};
ghost use Rattle.sim_world.specs.Run.{left_outs, out_changes, run_changes, MakesAll, RunsBy};

use crate::change::Change;
use crate::folder::value_of;
use crate::value::{check_values, find_value};
use crate::{Given, Made, PathValue, PathValues, Rule, SimWorld, Tree, Value};
use dvc_base::{Failed, NoMemory, Plain, Rel, Text};
use std::alloc::Global;
use world_api::{Exit, Job, Shell, World};

// A run says what history it makes. What the trait says of it follows from that.
impl<R: Rule> Shell for SimWorld<R> {
    ghost use Rattle.sim_world.specs.World.{history_in, counts_in};

    fn run(&mut self, job: &Job) -> Result<Exit, Failed>
        requires texts { IsTrue (is_runnable job.now) }
        requires folders { HasFolders job.now (tree_of (history_in self.old)) }
        ensures made { RunsBy R.effect job.now result (history_in self.old) (history_in self.new) }
        ensures count { Counted result (counts_in self.old) (counts_in self.new) }
    {
        let answer = self.log_run(job);
        self.counted(answer)
    }
}

impl<R: Rule> World for SimWorld<R> {}

impl<R: Rule> SimWorld<R> {
    ghost use Rattle.sim_world.specs.World.{history_in, counts_in};

    fn log_run(&mut self, job: &Job) -> Result<Exit, NoMemory>
        ensures made { RunsBy R.effect job.now result (history_in self.old) (history_in self.new) }
        ensures count { counts_in self.new ≡ counts_in self.old }
    {
        let mut made = nothing_made(self.alloc(), job)?;
        self.run_commands(job, &mut made)
    }

    // Runs the commands, which have made nothing yet.
    fn run_commands(&mut self, job: &Job, made: &mut Made) -> Result<Exit, NoMemory>
        requires { made.old.outs ≡ unmade job.now.outs }
        ensures made { RunsBy R.effect job.now result (history_in self.old) (history_in self.new) }
        ensures count { counts_in self.new ≡ counts_in self.old }
    {
        let exit = answer_job::<R>(self.alloc(), self.tree(), job, made)?;
        check_values(&made.outs);
        self.make_run(job, &exit, made)?;
        Ok(exit)
    }

    // Makes all that a run changes, in order, up to the first that is refused.
    fn make_run(&mut self, job: &Job, exit: &Exit, made: &Made) -> Result<(), NoMemory>
        ensures made { MakesAll result (run_changes job.now exit.now.code made.now)
            (history_in self.old) (history_in self.new) }
        ensures count { counts_in self.new ≡ counts_in self.old }
    {
        self.make_start(job)?;
        self.make_outs(job, exit, made)?;
        self.make_end(job)
    }

    fn make_start(&mut self, job: &Job) -> Result<(), NoMemory>
        ensures made { Makes result (grown (changed (Started job.now))) IsSame
            (history_in self.old) (history_in self.new) }
        ensures count { counts_in self.new ≡ counts_in self.old }
    {
        let job = job.copy(self.alloc())?;
        self.make(Change::Started { job })
    }

    fn make_end(&mut self, job: &Job) -> Result<(), NoMemory>
        ensures made { Makes result (grown (changed (Ran job.now))) IsSame
            (history_in self.old) (history_in self.new) }
        ensures count { counts_in self.new ≡ counts_in self.old }
    {
        let job = job.copy(self.alloc())?;
        self.make(Change::Ran { job })
    }

    // The outputs get what was made for them, if the commands ended well.
    fn make_outs(&mut self, job: &Job, exit: &Exit, made: &Made) -> Result<(), NoMemory>
        ensures made { MakesAll result (out_changes job.now exit.now.code made.now)
            (history_in self.old) (history_in self.new) }
        ensures count { counts_in self.new ≡ counts_in self.old }
    {
        if exit.code != 0 {
            return Ok(());
        }
        self.leave_made(job, made)
    }

    fn leave_made(&mut self, job: &Job, made: &Made) -> Result<(), NoMemory>
        ensures made { MakesAll result (left_outs job.now made.now)
            (history_in self.old) (history_in self.new) }
        ensures count { counts_in self.new ≡ counts_in self.old }
    {
        for out in job.outs.as_slice() {
            self.leave_out(&job.dir, out, made)?;
        }
        Ok(())
    }

    fn leave_out(&mut self, dir: &Rel, out: &Text, made: &Made) -> Result<(), NoMemory>
        ensures made { Makes result (grown (changed (Left (path_from dir.now out.now) (found made.now.outs out.now)))) IsSame
            (history_in self.old) (history_in self.new) }
        ensures count { counts_in self.new ≡ counts_in self.old }
    {
        let at = path_of(self.alloc(), dir, out)?;
        let value = find_value(self.alloc(), &made.outs, out.as_str())?;
        self.make(Change::Left { at, value })
    }
}

// What the commands of a job answer and make, after what was made before.
fn answer_job<R: Rule>(
    alloc: Global,
    tree: &Tree,
    job: &Job,
    made: &mut Made,
) -> Result<Exit, NoMemory>
    ensures told { IfOk result (λ exit.
        answered R.effect (given_by (invocation_of job.now tree.now)) job.now.commands made.old
        ≡ record { code = exit.code; made = made.new }) }
{
    let mut given = given_of(alloc, tree, job)?;
    answer_all::<R>(alloc, job.commands.as_slice(), &mut given, made)
}

// What the commands of a job are given; the command itself is filled in for each.
fn given_of(alloc: Global, tree: &Tree, job: &Job) -> Result<Given, NoMemory>
    ensures told { IfOk result (λ given. given ≡ given_by (invocation_of job.now tree.now)) }
{
    Ok(Given {
        command: Text::of(alloc, "")?,
        deps: values_of(alloc, tree, &job.dir, job.deps.as_slice())?,
        params: job.params.copy(alloc)?,
        outs: job.outs.copy(alloc)?,
    })
}

fn values_of(alloc: Global, tree: &Tree, dir: &Rel, texts: &[Text]) -> Result<PathValues, NoMemory>
    ensures told { IfOk result (λ values. values ≡ plain_values (given_values tree.now dir.now texts.now)) }
{
    let mut values = PathValues::new(alloc);
    for text in texts {
        push_value(alloc, &mut values, tree, dir, text)?;
    }
    Ok(values)
}

fn push_value(
    alloc: Global,
    values: &mut PathValues,
    tree: &Tree,
    dir: &Rel,
    text: &Text,
) -> Result<(), NoMemory>
    ensures pushed { OnOk result (values.new ≡ values.old ++ record { path = text.now; value = plain_value (value_at tree.now (path_from dir.now text.now)) } ∷ []) }
{
    let value = value_from(alloc, tree, dir, text)?;
    let path = text.copy(alloc)?;
    values.push(PathValue { path, value })
}

fn value_from(alloc: Global, tree: &Tree, dir: &Rel, text: &Text) -> Result<Value, NoMemory>
    ensures told { IfOk result (λ value. value ≡ plain_value (value_at tree.now (path_from dir.now text.now))) }
{
    let at = path_of(alloc, dir, text)?;
    value_of(alloc, tree, &at)
}

// The path that a text of a job names. A text that names none is refused here as if memory were short.
fn path_of(alloc: Global, dir: &Rel, text: &Text) -> Result<Rel, NoMemory>
    ensures named { IfOk result (λ path. path ≡ path_from dir.now text.now) }
{
    dir.join(alloc, text.as_str()).map_err(|_| NoMemory)
}

fn nothing_made(alloc: Global, job: &Job) -> Result<Made, NoMemory>
    ensures unmade { IfOk result (λ made. made.outs ≡ unmade job.now.outs) }
{
    let mut outs = PathValues::new(alloc);
    for out in job.outs.as_slice() {
        let path = out.copy(alloc)?;
        outs.push(PathValue {
            path,
            value: Value::Nothing,
        })?;
    }
    Ok(Made { outs })
}

// Answers the commands in order, up to the first that doesn't end with 0.
fn answer_all<R: Rule>(
    alloc: Global,
    commands: &[Text],
    given: &mut Given,
    made: &mut Made,
) -> Result<Exit, NoMemory>
    ensures told { IfOk result (λ exit. answered R.effect given.old commands.now made.old
        ≡ record { code = exit.code; made = made.new }) }
{
    for command in commands {
        given.command = command.copy(alloc)?;
        let exit = R::answer(alloc, given, made)?;
        if exit.code != 0 {
            return Ok(exit);
        }
    }
    Ok(Exit { code: 0 })
}
