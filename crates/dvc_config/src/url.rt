// The url of a remote, and why it isn't used.
ghost use Rattle.std.specs.Prelude.{◌≡◌, ◌⊎◌, Ok, Err, [], IfOk, MatchResult, codes, option_copied};
ghost use Rattle.std.specs.Option.{unwrap_or};
ghost use Rattle.dvc_base.specs.declared.fault.Fault.TheVariants.{NoMemory as Memory, NoRemote, Unsupported};
ghost use Rattle.dvc_config.specs.Url as spec;

use crate::{Config, Remote};
use dvc_base::{Fault, NoMemory, Rel, Text};
use std::alloc::Global;

impl Config {
    /// The url of the remote of this name, and of the chosen one where none is named.
    pub fn url(&self, name: Option<&str>) -> Option<&str>
        ensures exact { option_copied result ≡ spec.url_of self.now (option_copied name.entry) }
    {
        match self.used(name) {
            Some(name) => url_in(self.remotes.as_slice(), name),
            None => None,
        }
    }

    /// The same, or why it isn't used: no remote has the name, or its url is that of a server.
    pub fn usable_url(&self, alloc: Global, name: Option<&str>) -> Result<&str, Fault>
        ensures exact { MatchResult result
            (λ url. spec.usable_url self.now (option_copied name.entry) ≡ Ok url.now)
            (λ fault. (fault ≡ Memory) ⊎ (spec.usable_url self.now (option_copied name.entry) ≡ Err fault)) }
    {
        match self.url(name) {
            Some(url) => usable(alloc, url),
            None => Err(no_remote(alloc, self.used_name(name))),
        }
    }

    // The name of the remote that is used, if there is one.
    fn used<'a>(&'a self, name: Option<&'a str>) -> Option<&'a str>
        ensures exact { option_copied result ≡ spec.used self.now (option_copied name.entry) }
    {
        match name {
            Some(name) => Some(name),
            None => self.chosen_name(),
        }
    }

    fn chosen_name(&self) -> Option<&str>
        ensures exact { option_copied result ≡ self.now.chosen }
    {
        match &self.chosen {
            Some(chosen) => Some(chosen.as_str()),
            None => None,
        }
    }

    // The same name, and the empty one where there is none.
    fn used_name<'a>(&'a self, name: Option<&'a str>) -> &'a str
        ensures exact { result.now ≡ unwrap_or (spec.used self.now (option_copied name.entry)) [] }
    {
        match self.used(name) {
            Some(name) => name,
            None => "",
        }
    }
}

fn url_in<'a>(remotes: &'a [Remote], name: &str) -> Option<&'a str>
    ensures exact { option_copied result ≡ spec.url_in remotes.now name.now }
{
    let mut found = None;
    let mut rest = remotes;
    while let [remote, more @ ..] = rest {
        if remote.name.as_str() == name {
            found = Some(remote.url.as_str());
        }
        rest = more;
    }
    found
}

// That of a server isn't used.
fn usable(alloc: Global, url: &str) -> Result<&str, Fault>
    ensures exact { MatchResult result
        (λ used. spec.usable_or_server url.now ≡ Ok used.now)
        (λ fault. (fault ≡ Memory) ⊎ (spec.usable_or_server url.now ≡ Err fault)) }
{
    if has_part(url.as_bytes(), b"://") {
        Err(server_url(alloc))
    } else {
        Ok(url)
    }
}

fn server_url(alloc: Global) -> Fault
    ensures exact { (result ≡ Memory) ⊎ (result ≡ Unsupported spec.config_path (codes "url")) }
{
    match url_key(alloc) {
        Ok(key) => unsupported_at(alloc, key),
        Err(NoMemory) => Fault::NoMemory,
    }
}

fn url_key(alloc: Global) -> Result<Text, NoMemory>
    ensures named { IfOk result (λ key. key ≡ codes "url") }
{
    Text::of(alloc, "url")
}

fn unsupported_at(alloc: Global, key: Text) -> Fault
    ensures exact { (result ≡ Memory) ⊎ (result ≡ Unsupported spec.config_path key) }
{
    match config_path(alloc) {
        Ok(file) => Fault::Unsupported { file, key },
        Err(NoMemory) => Fault::NoMemory,
    }
}

// The file of the config.
#[tactic(auto, unfolding(crate::specs::Url::config_path))]
fn config_path(alloc: Global) -> Result<Rel, NoMemory>
    ensures named { IfOk result (λ path. path ≡ spec.config_path) }
{
    match Rel::root(alloc).join(alloc, ".dvc/config") {
        Ok(path) => Ok(path),
        Err(_) => Err(NoMemory),
    }
}

fn no_remote(alloc: Global, name: &str) -> Fault
    ensures exact { (result ≡ Memory) ⊎ (result ≡ NoRemote name.now) }
{
    match Text::of(alloc, name) {
        Ok(name) => Fault::NoRemote { name },
        Err(NoMemory) => Fault::NoMemory,
    }
}

// Whether the part stands somewhere in the text.
fn has_part(text: &[u8], part: &[u8]) -> bool
    ensures exact { result ≡ spec.has_part part.now text.now }
{
    let mut rest = text;
    while let [_, behind @ ..] = rest {
        if begins(rest, part) {
            return true;
        }
        rest = behind;
    }
    false
}

fn begins(text: &[u8], part: &[u8]) -> bool
    ensures exact { result ≡ spec.begins part.now text.now }
{
    text.strip_prefix(part).is_some()
}
