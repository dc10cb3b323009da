// The stages of a `dvc.yaml`, one written stage after another.
ghost use Rattle.std.specs.Prelude.{◌≡◌, ◌<◌, ◌^◌, ◌++◌, ◌∷◌, [], codes, Ok, IfOk};
ghost use Rattle.stage_schema.specs.Refusal.{dotted, first_in};
ghost use Rattle.stage_schema.specs.Schema.{path_fault};
ghost use Rattle.stage_schema.specs.Stages.{stage_with};
ghost use Rattle.template_expand.specs.Answer.{IsAnswer, Leaves, folded_by, then_by};
ghost use Rattle.template_expand.specs.Expansion as spec;
ghost use Rattle.template_expand.specs.Made.{mades};
ghost use Rattle.template_expand.specs.Source.{made_in};

use crate::files::VarFile;
use crate::fill::fill_pairs;
use crate::made::{Made, Source, sources};
use crate::vars::{Vars, with_items};
use dvc_base::{NoMemory, Pair, Text};
use stage_schema::{
    ExpandFault, Stage, Stages, check_paths, check_stage, has_key, items_at, pairs_at, pairs_of,
    stage_with,
};
use std::alloc::Global;
use template_vars::{Scope, Variables};

/// What the walk goes by.
#[derive(Drop)]
pub(crate) struct Walk<'a> {
    /// How many stages there may be.
    pub(crate) limit: u64,
    pub(crate) files: &'a [VarFile],
    /// The variables of the whole file.
    pub(crate) top: &'a Vars,
}

// A written stage: its name, the variables that it sees, and the keys of what is made of it.
#[derive(Drop)]
struct Written<'a> {
    name: &'a str,
    vars: &'a Variables,
    body: &'a [Pair],
}

/// Adds the stages of the written ones, one after another.
pub(crate) fn put_all(
    alloc: Global,
    walk: &Walk<'_>,
    stages: &mut Stages,
    written: &[Pair],
) -> Result<(), ExpandFault>
    requires { walk.now.limit < 2 ^ 32 }
    ensures answer { Leaves result stages.new
        (folded_by (spec.with_written walk.now.limit walk.now.files.now walk.now.top.now) stages.old written.now) }
{
    for stage in written {
        put_written(alloc, walk, stages, stage)?;
    }
    Ok(())
}

fn put_written(
    alloc: Global,
    walk: &Walk<'_>,
    stages: &mut Stages,
    stage: &Pair,
) -> Result<(), ExpandFault>
    requires { walk.now.limit < 2 ^ 32 }
    ensures answer { Leaves result stages.new
        (spec.with_written walk.now.limit walk.now.files.now walk.now.top.now stages.old stage.now) }
{
    check_stage(alloc, stage)?;
    put_stage(
        alloc,
        walk,
        stages,
        stage.key.as_str(),
        pairs_of(&stage.value),
    )
}

fn put_stage(
    alloc: Global,
    walk: &Walk<'_>,
    stages: &mut Stages,
    name: &str,
    pairs: &[Pair],
) -> Result<(), ExpandFault>
    requires { walk.now.limit < 2 ^ 32 }
    ensures answer { Leaves result stages.new
        (spec.with_stage walk.now.limit walk.now.files.now walk.now.top.now stages.old name.now pairs.now) }
{
    let items = items_at(body_of(pairs), "vars");
    if items.is_empty() {
        return put_seen(alloc, walk, stages, name, &walk.top.variables, pairs);
    }
    let place = vars_place(alloc, name)?;
    put_own(alloc, walk, stages, name, pairs, place.as_str())
}

// The same with variables of the stage's own, whose refusals stand at this place.
fn put_own(
    alloc: Global,
    walk: &Walk<'_>,
    stages: &mut Stages,
    name: &str,
    pairs: &[Pair],
    place: &str,
) -> Result<(), ExpandFault>
    requires limit { walk.now.limit < 2 ^ 32 }
    requires place { place.now ≡ dotted (codes "stages" ∷ name.now ∷ codes "vars" ∷ []) }
    ensures answer { Leaves result stages.new
        (spec.with_stage walk.now.limit walk.now.files.now walk.now.top.now stages.old name.now pairs.now) }
{
    let items = items_at(body_of(pairs), "vars");
    let own = with_items(alloc, walk.files, place, walk.top, items)?;
    put_seen(alloc, walk, stages, name, &own.variables, pairs)
}

// The keys of what is made: those of `do`, where there is one.
fn body_of(pairs: &[Pair]) -> &[Pair]
    ensures exact { result.now ≡ spec.body_of pairs.now }
{
    if has_key(pairs, "foreach") {
        pairs_at(pairs, "do")
    } else {
        pairs
    }
}

fn vars_place(alloc: Global, name: &str) -> Result<Text, NoMemory>
    ensures exact { IfOk result (λ text. text ≡ dotted (codes "stages" ∷ name.now ∷ codes "vars" ∷ [])) }
{
    let mut text = String::from_str(alloc, "stages.")?;
    text.push_str(name)?;
    text.push_str(".vars")?;
    Ok(Text::from_string(text))
}

// Adds the stages that are made of a written one with these variables.
fn put_seen(
    alloc: Global,
    walk: &Walk<'_>,
    stages: &mut Stages,
    name: &str,
    vars: &Variables,
    pairs: &[Pair],
) -> Result<(), ExpandFault>
    requires { walk.now.limit < 2 ^ 32 }
    ensures answer { Leaves result stages.new
        (spec.with_mades walk.now.limit stages.old name.now vars.now (spec.body_of pairs.now)
        (mades name.now walk.now.top.now.variables vars.now pairs.now)) }
{
    let written = Written {
        name,
        vars,
        body: body_of(pairs),
    };
    match sources(alloc, name, &walk.top.variables, vars, pairs) {
        Ok(source) => put_mades(alloc, walk.limit, stages, &written, &source),
        Err(fault) => Err(fault),
    }
}

fn put_mades(
    alloc: Global,
    limit: u64,
    stages: &mut Stages,
    written: &Written<'_>,
    source: &Source<'_>,
) -> Result<(), ExpandFault>
    requires { limit < 2 ^ 32 }
    ensures answer { Leaves result stages.new
        (folded_by (spec.with_made limit written.now.name.now written.now.vars.now written.now.body.now)
        stages.old (made_in source.now)) }
{
    let count = source.count_to(limit + 1);
    for place in 0..count {
        let made = source.made_at(alloc, place)?;
        put_made(alloc, limit, stages, written, &made)?;
    }
    Ok(())
}

// The limit is met at the first stage past it.
fn put_made(
    alloc: Global,
    limit: u64,
    stages: &mut Stages,
    written: &Written<'_>,
    made: &Made,
) -> Result<(), ExpandFault>
    requires { limit < 2 ^ 32 }
    ensures answer { Leaves result stages.new
        (spec.with_made limit written.now.name.now written.now.vars.now written.now.body.now stages.old made.now) }
{
    if stages.as_slice().len() as u64 >= limit {
        return Err(ExpandFault::TooMany { count: limit + 1 });
    }
    stages.push(stage_made(alloc, written, made)?)?;
    Ok(())
}

fn stage_made(alloc: Global, written: &Written<'_>, made: &Made) -> Result<Stage, ExpandFault>
    ensures answer { IsAnswer result
        (spec.stage_made written.now.name.now written.now.vars.now written.now.body.now made.now) }
{
    let scope = Scope::of(&made.hiding, written.vars);
    let pairs = fill_pairs(alloc, &scope, written.body)?;
    filled_stage(alloc, written.name, made, pairs.as_slice())
}

// The stage of pairs whose texts are as they stand in the end.
fn filled_stage(
    alloc: Global,
    name: &str,
    made: &Made,
    pairs: &[Pair],
) -> Result<Stage, ExpandFault>
    ensures answer { IsAnswer result (spec.filled_stage name.now made.now pairs.now) }
{
    check_paths(alloc, name, pairs)?;
    let group = group_of(alloc, name, made)?;
    let name = made_name(alloc, name, made)?;
    Ok(stage_with(alloc, name, group, pairs)?)
}

// The name as it is written is the group of what is made of it.
fn group_of(alloc: Global, name: &str, made: &Made) -> Result<Text, NoMemory>
    ensures exact { IfOk result (λ group. group ≡ spec.group_of name.now made.now) }
{
    if made.suffix.as_str().is_empty() {
        Ok(Text::from_string(String::new(alloc)))
    } else {
        Text::of(alloc, name)
    }
}

fn made_name(alloc: Global, name: &str, made: &Made) -> Result<Text, NoMemory>
    ensures exact { IfOk result (λ text. text ≡ name.now ++ made.now.suffix) }
{
    let mut text = String::from_str(alloc, name)?;
    text.push_str(made.suffix.as_str())?;
    Ok(Text::from_string(text))
}
