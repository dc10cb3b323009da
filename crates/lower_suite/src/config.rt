// `.dvc/config`, read, and the urls of its remotes.
use dvc_base::{FaultKind, Plain};
use dvc_config::{Config, ConfigFault, first_config, read_config};
use std::alloc::Global;

const CONFIG: &[u8] = b"[core]
    remote = store
['remote \"store\"']
    url = /tmp/store
['remote \"far\"']
    url = s3://bucket
";

// All texts here are shorter, and so have few lines.
const SHORT: usize = 4096;

fn has_url(config: &Config, name: Option<&str>, want: &str) -> bool {
    match config.url(name) {
        Some(url) => url == want,
        None => false,
    }
}

fn is_used(alloc: Global, config: &Config, name: Option<&str>) -> bool {
    config.usable_url(alloc, name).is_ok()
}

fn is_refused(alloc: Global, config: &Config, name: Option<&str>, kind: FaultKind) -> bool {
    match config.usable_url(alloc, name) {
        Ok(_) => false,
        Err(fault) => fault.kind() == kind,
    }
}

fn are_copied(alloc: Global, config: &Config) -> bool {
    match config.remotes.copy(alloc) {
        Ok(copy) => copy.as_slice().len() == config.remotes.as_slice().len(),
        Err(_) => false,
    }
}

fn says_its_urls(alloc: Global, config: &Config) -> bool {
    has_url(config, None, "/tmp/store")
        && has_url(config, Some("far"), "s3://bucket")
        && is_used(alloc, config, Some("store"))
        && is_refused(alloc, config, Some("far"), FaultKind::Unsupported)
        && is_refused(alloc, config, Some("near"), FaultKind::NoRemote)
        && are_copied(alloc, config)
}

fn gives_urls(alloc: Global, text: &[u8]) -> bool {
    if text.len() > SHORT {
        return false;
    }
    match read_config(alloc, text) {
        Ok(config) => says_its_urls(alloc, &config),
        Err(_) => false,
    }
}

fn has_no_remote(alloc: Global, text: &[u8]) -> bool {
    if text.len() > SHORT {
        return false;
    }
    match read_config(alloc, text) {
        Ok(config) => is_refused(alloc, &config, None, FaultKind::NoRemote),
        Err(_) => false,
    }
}

fn is_bad_at(alloc: Global, text: &[u8], line: u32) -> bool {
    if text.len() > SHORT {
        return false;
    }
    match read_config(alloc, text) {
        Ok(_) => false,
        Err(fault) => fault == ConfigFault::BadConfig { line },
    }
}

#[test]
fn a_config_gives_the_urls_of_its_remotes(rt: HostRuntime) {
    let alloc = rt.alloc();
    assert!(rt; gives_urls(alloc, CONFIG));
    assert!(rt; has_no_remote(alloc, b""));
    assert!(rt; has_no_remote(alloc, first_config()));
    assert!(rt; is_bad_at(alloc, b"remote = store\n", 1));
    assert!(rt; is_bad_at(alloc, b"# a\r\n[core]\r\n  remote\r\n", 3));
}
