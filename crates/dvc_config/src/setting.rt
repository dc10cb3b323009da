// What the settings of sections say.
ghost use Rattle.std.specs.Prelude.{◌≡◌, ◌++◌, ◌∷◌, [], OnOk, option_copied};
ghost use Rattle.std.specs.List.{cons_option, last_or};
ghost use Rattle.dvc_config.specs.Config as spec;

use crate::piece::between;
use crate::{Config, Remote, Remotes};
use dvc_base::{NoMemory, Text};
use std::alloc::Global;

/// Takes a setting of a section.
pub fn take_setting(
    alloc: Global,
    config: &mut Config,
    section: &str,
    key: &str,
    value: &str,
) -> Result<(), NoMemory>
    ensures ok { OnOk result (config.new
        ≡ spec.with_setting config.old (record { section = section.now; key = key.now; value = value.now })) }
{
    take_choice(alloc, &mut config.chosen, section, key, value)?;
    take_url(alloc, &mut config.remotes, section, key, value)
}

// The last remote that is chosen counts.
fn take_choice(
    alloc: Global,
    chosen: &mut Option<Text>,
    section: &str,
    key: &str,
    value: &str,
) -> Result<(), NoMemory>
    ensures ok { OnOk result (chosen.new
        ≡ last_or chosen.old (cons_option (spec.chosen_by (record { section = section.now; key = key.now; value = value.now })) [])) }
{
    if section == "core" && key == "remote" {
        *chosen = Some(Text::of(alloc, value)?);
    }
    Ok(())
}

// Each url of a remote is kept.
fn take_url(
    alloc: Global,
    remotes: &mut Remotes,
    section: &str,
    key: &str,
    value: &str,
) -> Result<(), NoMemory>
    ensures ok { OnOk result (remotes.new
        ≡ remotes.old ++ cons_option (spec.remote_by (record { section = section.now; key = key.now; value = value.now })) []) }
{
    if key != "url" {
        return Ok(());
    }
    match remote_name(section) {
        Some(name) => push_remote(alloc, remotes, name, value),
        None => Ok(()),
    }
}

fn push_remote(alloc: Global, remotes: &mut Remotes, name: &str, url: &str) -> Result<(), NoMemory>
    ensures ok { OnOk result (remotes.new ≡ remotes.old ++ spec.remote_with url.now name.now ∷ []) }
{
    let name = Text::of(alloc, name)?;
    let url = Text::of(alloc, url)?;
    remotes.push(Remote { name, url })
}

// The name of the remote whose section this is.
#[tactic(auto, unfolding(crate::specs::Config::remote_name))]
fn remote_name(section: &str) -> Option<&str>
    ensures exact { option_copied result ≡ spec.remote_name section.now }
{
    match between(section, "'remote \"", "\"'") {
        Some(name) => Some(name),
        None => between(section, "remote \"", "\""),
    }
}
