// The text of a config, read.
ghost use Rattle.std.specs.Prelude.{◌≡◌, ◌⊎◌, ◌<◌, ◌+◌, ◌^◌, ◌==◌, ◌||◌, Ok, Err, count_by, is_some, MatchResult, IfOk, OnOk};
ghost use Rattle.std.specs.Option.{unwrap_or};
ghost use Rattle.dvc_config.specs.Line.{lines, content};
ghost use Rattle.dvc_config.specs.Config as spec;
ghost use Rattle.dvc_config.specs.declared.fault.ConfigFault.TheVariants.{NoMemory as Memory};

use crate::line::{begun, content, cut_line, is_passed, section_in, setting_in};
use crate::setting::take_setting;
use crate::{Config, ConfigFault, Remotes};
use dvc_base::NoMemory;
use std::alloc::Global;

/// The config of a text, or its first line that can't be read.
#[tactic(auto, unfolding(crate::specs::Config::config_read))]
pub fn read_config(alloc: Global, text: &[u8]) -> Result<Config, ConfigFault>
    requires { count_by (λ b. b == 10) text.now + 1 < 2 ^ 32 }
    ensures read { MatchResult result
        (λ config. spec.config_read text.now ≡ Ok config)
        (λ fault. (fault ≡ Memory) ⊎ (spec.config_read text.now ≡ Err fault)) }
{
    match bad_line(text) {
        Some(line) => Err(ConfigFault::BadConfig { line }),
        None => Ok(config_in(alloc, text)?),
    }
}

// The number of the first line that can't be read.
#[tactic(auto, using(crate::proofs::SettingLemmas::bad_step, crate::proofs::LineLemmas::count_lines), unfolding(crate::specs::Config::bad_line))]
fn bad_line(text: &[u8]) -> Option<u32>
    requires { count_by (λ b. b == 10) text.now + 1 < 2 ^ 32 }
    ensures exact { result ≡ spec.bad_line (lines text.now) }
{
    let mut inside = false;
    let mut passed: u32 = 0;
    let mut rest = Some(text);
    while let Some(left) = rest {
        let (line, behind) = cut_line(left);
        passed += 1;
        if !is_readable(inside, line) {
            return Some(passed);
        }
        inside = is_inside(inside, line);
        rest = behind;
    }
    None
}

// Whether a section has begun behind the line.
fn is_inside(inside: bool, line: &[u8]) -> bool
    ensures exact { result ≡ (inside || is_some (spec.begun line.now)) }
{
    inside || begun(line).is_some()
}

fn is_readable(inside: bool, line: &[u8]) -> bool
    ensures exact { result ≡ spec.is_readable inside (content line.now) }
{
    match content(line) {
        Some(text) => has_form(inside, text),
        None => false,
    }
}

fn has_form(inside: bool, text: &str) -> bool
    ensures exact { result ≡ spec.has_form inside text.now }
{
    is_passed(text) || section_in(text).is_some() || (inside && setting_in(text).is_some())
}

// What the settings say of a text in which each line can be read.
fn config_in(alloc: Global, text: &[u8]) -> Result<Config, NoMemory>
    ensures exact { IfOk result (λ config. config ≡ spec.config_of (spec.settings (lines text.now))) }
{
    let mut config = Config {
        chosen: None,
        remotes: Remotes::new(alloc),
    };
    take_settings(alloc, &mut config, text)?;
    Ok(config)
}

// The last setting counts, where a setting stands twice.
#[tactic(auto, using(crate::proofs::SettingLemmas::settings_step), unfolding(crate::specs::Config::settings))]
fn take_settings(alloc: Global, config: &mut Config, text: &[u8]) -> Result<(), NoMemory>
    ensures ok { OnOk result (config.new ≡ spec.with_settings config.old (spec.settings (lines text.now))) }
{
    let mut section = "";
    let mut rest = Some(text);
    while let Some(left) = rest {
        let (line, behind) = cut_line(left);
        take_line(alloc, config, section, line)?;
        section = next_section(section, line);
        rest = behind;
    }
    Ok(())
}

// The name of the section that the line behind this one stands in.
fn next_section<'a>(section: &'a str, line: &'a [u8]) -> &'a str
    ensures exact { result.now ≡ unwrap_or (spec.begun line.now) section.now }
{
    match begun(line) {
        Some(name) => name,
        None => section,
    }
}

fn take_line(alloc: Global, config: &mut Config, section: &str, line: &[u8]) -> Result<(), NoMemory>
    ensures ok { OnOk result (config.new ≡ spec.taken config.old (spec.setting_of section.now line.now)) }
{
    match content(line) {
        Some(text) => take_text(alloc, config, section, text),
        None => Ok(()),
    }
}

fn take_text(alloc: Global, config: &mut Config, section: &str, text: &str) -> Result<(), NoMemory>
    ensures ok { OnOk result (config.new ≡ spec.taken config.old (spec.setting_at section.now text.now)) }
{
    if is_passed(text) || section_in(text).is_some() {
        return Ok(());
    }
    match setting_in(text) {
        Some((key, value)) => take_setting(alloc, config, section, key, value),
        None => Ok(()),
    }
}
