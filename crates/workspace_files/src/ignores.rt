// The files of rules of paths to be ignored.
ghost use Rattle.std.specs.Prelude.{◌≡◌, ◌==◌, ◌<◌, ◌∷◌, length, IsTrue, IsErrOf};
ghost use Rattle.std.specs.List.{list_all, position_or_len};
ghost use Rattle.std.specs.Str.Lines.{lines, strip_carriage_return};
ghost use Rattle.dvc_base.specs.Answer.{fault_in, IsAnswer};
ghost use Rattle.dvc_base.specs.Fault.{MayBe, IsHonest};
ghost use Rattle.dvc_base.specs.declared.fault.Fault.TheVariants.{WorldFault};
ghost use Rattle.world_api.specs.Tree.{item_at};
ghost use Rattle.world_api.specs.History.{IsCaused};
ghost use Rattle.world_api.specs.Outside.{tree_of, IsUntouched};
ghost use Rattle.workspace_files.specs.Ignores as spec;
ghost use Rattle.workspace_files.specs.Ignores.{ignores_fault, ignore_fault, ignore_kinds};

use crate::read::read_text;
use dvc_base::{Fault, Plain, Rel};
use std::alloc::Global;
use world_api::ReadFiles;

/// Refuses the first of the files that has a rule. One that is missing has none.
pub fn check_ignores<F: ReadFiles>(
    alloc: Global,
    files: &mut F,
    ignores: &[Rel],
) -> Result<(), Fault>
    ensures answer { IsTrue F.tells →
        IsAnswer (fault_in result) (ignores_fault (tree_of (F.history files.old)) ignores.now) }
    ensures unchanged { IsUntouched F.tells (F.history files.old) (F.history files.new) }
    ensures kinds { MayBe ignore_kinds (fault_in result) }
    ensures honest { IsHonest F.tells (fault_in result) }
    ensures cause { IsCaused (F.faults files.old) (F.faults files.new) (IsErrOf result WorldFault) }
{
    for path in ignores {
        check_ignore(alloc, files, path)?;
    }
    Ok(())
}

fn check_ignore<F: ReadFiles>(alloc: Global, files: &mut F, at: &Rel) -> Result<(), Fault>
    ensures answer { IsTrue F.tells →
        IsAnswer (fault_in result) (ignore_fault at.now (item_at (tree_of (F.history files.old)) at.now)) }
    ensures unchanged { IsUntouched F.tells (F.history files.old) (F.history files.new) }
    ensures kinds { MayBe ignore_kinds (fault_in result) }
    ensures honest { IsHonest F.tells (fault_in result) }
    ensures cause { IsCaused (F.faults files.old) (F.faults files.new) (IsErrOf result WorldFault) }
{
    match read_text(alloc, files, at)? {
        Some(text) => check_text(alloc, at, text.as_slice()),
        None => Ok(()),
    }
}

fn check_text(alloc: Global, at: &Rel, text: &[u8]) -> Result<(), Fault>
    ensures answer { IsAnswer (fault_in result) (spec.rules_fault at.now text.now) }
    ensures kinds { MayBe spec.rule_kinds (fault_in result) }
{
    if has_rules(text) {
        return Err(Fault::IgnoreRules {
            file: at.copy(alloc)?,
        });
    }
    Ok(())
}

// Whether a line of the text has a rule.
#[tactic(auto, unfolding(crate::specs::Ignores::has_rules))]
fn has_rules(text: &[u8]) -> bool
    ensures exact { result ≡ spec.has_rules text.now }
{
    let mut rest = text;
    while !rest.is_empty() {
        let (line, behind) = cut_line(rest);
        if is_rule(line) {
            return true;
        }
        rest = behind;
    }
    false
}

// The first line, without what ends it, and what stands behind it.
fn cut_line(text: &[u8]) -> (&[u8], &[u8])
    requires some { 0 < length text.now }
    ensures exact { lines text.now ≡ result.0.now ∷ lines result.1.now }
    ensures shorter { length result.1.now < length text.now }
{
    let len = line_len(text);
    if len < text.len() {
        (without_return(&text[..len]), &text[len + 1..])
    } else {
        (text, &[])
    }
}

// How many bytes stand before the first line feed.
fn line_len(text: &[u8]) -> usize
    ensures value { result ≡ position_or_len (λ b. b == 10) text.now }
{
    let mut count = 0;
    while count < text.len() && text[count] != b'\n' {
        count += 1;
    }
    count
}

// The line without the carriage return at its end.
fn without_return(line: &[u8]) -> &[u8]
    ensures exact { result.now ≡ strip_carriage_return line.now }
{
    if line.is_empty() {
        return line;
    }
    let last = line.len() - 1;
    if line[last] == b'\r' {
        &line[..last]
    } else {
        line
    }
}

fn is_rule(line: &[u8]) -> bool
    ensures exact { result ≡ spec.is_rule line.now }
{
    !line.starts_with(b"#") && !is_blank(line)
}

// Spaces at a line's end don't count, so a line of spaces is an empty one.
fn is_blank(line: &[u8]) -> bool
    ensures exact { result ≡ list_all (λ b. b == 32) line.now }
{
    line.iter().all(|b| *b == b' ')
}
