// Stages and refusals in short.
use dvc_base::{NoMemory, Rel, Text, Writer};
use template_expand::{ExpandFault, Out, ParamWant, Stage};

/// Puts the stages, each with what it says; `none` where there is none.
pub(crate) fn show_stages(out: &mut Writer, stages: &[Stage]) -> Result<(), NoMemory> {
    if stages.is_empty() {
        return out.put(b"none");
    }
    for at in 0..stages.len() {
        put_between(out, at, " ")?;
        show_stage(out, &stages[at])?;
    }
    Ok(())
}

fn show_stage(out: &mut Writer, stage: &Stage) -> Result<(), NoMemory> {
    put(out, stage.name.as_str())?;
    show_group(out, stage.group.as_str())?;
    put(out, "{cmd: ")?;
    show_texts(out, stage.commands.as_slice())?;
    show_dir(out, stage.dir.text())?;
    show_deps(out, stage.deps.as_slice())?;
    show_params(out, stage.params.as_slice())?;
    show_outs(out, stage.outs.as_slice())?;
    show_flag(out, stage.frozen, "; frozen")?;
    show_flag(out, stage.always, "; always")?;
    put(out, "}")
}

// A stage that no template made is in no group.
fn show_group(out: &mut Writer, group: &str) -> Result<(), NoMemory> {
    if group.is_empty() {
        return Ok(());
    }
    put(out, " of ")?;
    put(out, group)
}

fn show_texts(out: &mut Writer, texts: &[Text]) -> Result<(), NoMemory> {
    for at in 0..texts.len() {
        put_between(out, at, ", ")?;
        put(out, texts[at].as_str())?;
    }
    Ok(())
}

fn show_dir(out: &mut Writer, dir: &str) -> Result<(), NoMemory> {
    if dir == "." {
        return Ok(());
    }
    put(out, "; dir: ")?;
    put(out, dir)
}

fn show_deps(out: &mut Writer, deps: &[Text]) -> Result<(), NoMemory> {
    if deps.is_empty() {
        return Ok(());
    }
    put(out, "; deps: ")?;
    show_texts(out, deps)
}

fn show_params(out: &mut Writer, params: &[ParamWant]) -> Result<(), NoMemory> {
    if params.is_empty() {
        return Ok(());
    }
    put(out, "; params: ")?;
    for at in 0..params.len() {
        put_between(out, at, ", ")?;
        show_param(out, &params[at])?;
    }
    Ok(())
}

// `*` stands for the whole file.
fn show_param(out: &mut Writer, param: &ParamWant) -> Result<(), NoMemory> {
    put(out, param.file.as_str())?;
    put(out, "[")?;
    show_flag(out, param.all, "*")?;
    show_texts(out, param.keys.as_slice())?;
    put(out, "]")
}

// `!` stands behind an output that isn't cached.
fn show_outs(out: &mut Writer, outs: &[Out]) -> Result<(), NoMemory> {
    if outs.is_empty() {
        return Ok(());
    }
    put(out, "; outs: ")?;
    for at in 0..outs.len() {
        put_between(out, at, ", ")?;
        put(out, outs[at].path.as_str())?;
        show_flag(out, !outs[at].cached, "!")?;
    }
    Ok(())
}

fn show_flag(out: &mut Writer, flag: bool, word: &str) -> Result<(), NoMemory> {
    if flag { put(out, word) } else { Ok(()) }
}

/// Puts a refusal with what it carries.
pub(crate) fn show_fault(out: &mut Writer, fault: &ExpandFault) -> Result<(), NoMemory> {
    match fault {
        ExpandFault::Schema { key } => put_quoted(out, "schema '", key.as_str()),
        ExpandFault::Unsupported { key } => put_quoted(out, "unsupported '", key.as_str()),
        ExpandFault::Outside { text, .. } => put_quoted(out, "outside '", text.as_str()),
        ExpandFault::TooMany { count } => put_count(out, *count),
        ExpandFault::NoVariable { key } => put_quoted(out, "no variable '", key.as_str()),
        ExpandFault::NotScalar { key } => put_quoted(out, "not scalar '", key.as_str()),
        ExpandFault::NoFile { file } => put_quoted(out, "no file '", file.text()),
        ExpandFault::NoKey { file, key } => put_no_key(out, file, key),
        ExpandFault::NoMemory => Err(NoMemory),
    }
}

fn put_no_key(out: &mut Writer, file: &Rel, key: &Text) -> Result<(), NoMemory> {
    put_quoted(out, "no key '", key.as_str())?;
    put_quoted(out, " in '", file.text())
}

fn put_quoted(out: &mut Writer, word: &str, text: &str) -> Result<(), NoMemory> {
    put(out, word)?;
    put(out, text)?;
    put(out, "'")
}

fn put_count(out: &mut Writer, count: u64) -> Result<(), NoMemory> {
    put(out, "too many ")?;
    out.put_number(count)
}

fn put_between(out: &mut Writer, at: usize, text: &str) -> Result<(), NoMemory> {
    if at > 0 { put(out, text) } else { Ok(()) }
}

fn put(out: &mut Writer, text: &str) -> Result<(), NoMemory> {
    out.put(text.as_bytes())
}
