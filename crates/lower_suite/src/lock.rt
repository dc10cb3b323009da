// `dvc.lock` and track files, read and printed.
use dvc_base::{Name, NoMemory, ParamFiles, Plain, Text, Texts};
use lock_files::{
    Entry, LockBook, LockFault, PathEntries, PathEntry, print_lock, print_track, read_lock,
    read_track,
};
use std::alloc::Global;
use std::test::Fail;

const TWO_STAGES: &[u8] = b"schema: '2.0'
stages:
  prepare:
    cmd: cp raw clean
    deps:
    - path: raw
      hash: md5
      md5: 900150983cd24fb0d6963f7d28e17f72
      size: 3
    outs:
    - path: clean
      hash: md5
      md5: '12345678901234567890123456789012'
      size: 0
  count:
    cmd: sh count clean
    deps:
    - path: clean
      hash: md5
      md5: '12345678901234567890123456789012'
      size: 0
    - path: count
      hash: md5
      md5: '1234567890123456789012345678e012'
      size: 18446744073709551615
    params:
      params.yaml:
        depth: 3
        rate: 0.10
    outs:
    - path: counted
      hash: md5
      md5: e2345678901234567890123456789012.dir
      size: 10
      nfiles: 2
";

// The same as another writer may have it: other orders, quotes and styles, comments and keys that nothing is asked of.
const AS_OTHERS_WRITE: &[u8] = b"# by hand\r
stages:\r
  prepare:\r
    outs: [{size: 0, md5: 12345678901234567890123456789012, hash: md5, path: clean, isexec: true}]\r
    deps:\r
      - md5: \"900150983cd24fb0d6963f7d28e17f72\"\r
        path: 'raw'   # as it came\r
        size: 3\r
        hash: md5\r
    cmd: [cp raw clean]\r
  count:\r
    cmd: sh count clean\r
    desc: counts\r
    params: {params.yaml: {rate: 0.10, depth: 3}}\r
    deps:\r
    - {path: count, hash: md5, md5: 1234567890123456789012345678e012, size: 18446744073709551615}\r
    - {path: clean, hash: md5, md5: '12345678901234567890123456789012', size: 0}\r
    outs:\r
    - {path: counted, hash: md5, md5: e2345678901234567890123456789012.dir, size: 10, nfiles: 2}\r
schema: 2.0\r
";

// All texts here are shorter, and so have few lines.
const SHORT: usize = 4096;

const TRACK: &[u8] = b"outs:
- md5: 900150983cd24fb0d6963f7d28e17f72
  size: 3
  hash: md5
  path: data.csv
desc: as it came
meta:
  from: afar
";

// The text with one piece of it in place of another, which stands in it.
fn changed(alloc: Global, text: &[u8], old: &str, new: &str) -> Result<String, Fail> {
    let text = str::from_utf8(text)?;
    Ok(text.replacen(alloc, old, new, 1)?)
}

fn says(fault: &LockFault, word: &str, key: &str) -> bool {
    match fault {
        LockFault::Yaml { fault } => word == fault.word(),
        LockFault::Schema { key: found } => word == "schema" && key == found.as_str(),
        LockFault::Unsupported { key: found } => word == "unsupported" && key == found.as_str(),
        LockFault::Legacy => word == "legacy",
        LockFault::NoMemory => false,
    }
}

fn lock_is_refused(alloc: Global, text: &[u8], word: &str, key: &str) -> bool {
    if text.len() > SHORT {
        return false;
    }
    match read_lock(alloc, text) {
        Ok(_) => false,
        Err(fault) => says(&fault, word, key),
    }
}

fn track_is_refused(alloc: Global, text: &[u8], word: &str, key: &str) -> bool {
    if text.len() > SHORT {
        return false;
    }
    match read_track(alloc, text) {
        Ok(_) => false,
        Err(fault) => says(&fault, word, key),
    }
}

fn lock_prints_as(alloc: Global, text: &[u8], printed: &[u8]) -> bool {
    if text.len() > SHORT {
        return false;
    }
    let Ok(book) = read_lock(alloc, text) else {
        return false;
    };
    match print_lock(alloc, &book) {
        Ok(found) => found.as_slice() == printed,
        Err(_) => false,
    }
}

fn track_prints_as(alloc: Global, text: &[u8], printed: &[u8]) -> bool {
    if text.len() > SHORT {
        return false;
    }
    let Ok(track) = read_track(alloc, text) else {
        return false;
    };
    match print_track(alloc, &track) {
        Ok(found) => found.as_slice() == printed,
        Err(_) => false,
    }
}

#[test]
fn a_lock_is_printed_in_one_form(rt: HostRuntime) -> Result<(), Fail> {
    let alloc = rt.alloc();
    assert!(rt; lock_prints_as(alloc, TWO_STAGES, TWO_STAGES));
    assert!(rt; lock_prints_as(alloc, AS_OTHERS_WRITE, TWO_STAGES));
    assert!(rt; lock_prints_as(alloc, b"", b"schema: '2.0'\nstages: {}\n"));
    Ok(())
}

#[test]
fn a_lock_is_refused_by_its_first_fault(rt: HostRuntime) -> Result<(), Fail> {
    let alloc = rt.alloc();
    for (old, new, word, key) in [
        ("schema: '2.0'\n", "", "legacy", ""),
        ("'2.0'", "2.1", "schema", "schema"),
        ("stages:", "stage:", "schema", "stages"),
        ("    cmd: cp raw clean\n", "", "schema", "cmd"),
        ("cmd: cp raw clean", "cmd: []", "schema", "cmd"),
        ("e17f72", "E17F72", "schema", "md5"),
        ("size: 3", "size: -3", "schema", "size"),
        ("size: 3", "size: 3\n      nfiles: 1", "schema", "nfiles"),
        ("      nfiles: 2\n", "", "schema", "nfiles"),
        ("path: count\n", "path: clean\n", "schema", "path"),
        ("hash: md5", "hash: sha256", "unsupported", "hash"),
        ("hash: md5", "cache: false", "legacy", ""),
        ("size: 3", "push: false", "unsupported", "push"),
        (
            "      params.yaml:\n        depth: 3\n        rate: 0.10\n",
            "      params.yaml: 1\n",
            "schema",
            "params.yaml",
        ),
        ("  count:", "  prepare:", "duplicate key", ""),
        ("size: 3", "size: [3", "syntax", ""),
    ] {
        let text = changed(alloc, TWO_STAGES, old, new)?;
        assert!(rt;
            lock_is_refused(alloc, text.as_bytes(), word, key),
            "at {new:?}"
        );
    }
    Ok(())
}

#[test]
fn a_track_file_keeps_its_other_keys(rt: HostRuntime) -> Result<(), Fail> {
    let alloc = rt.alloc();
    assert!(rt; track_prints_as(alloc, TRACK, TRACK));
    for (old, new, word, key) in [
        ("outs:", "out:", "schema", "outs"),
        ("desc: as it came", "deps: []", "unsupported", "deps"),
        ("desc: as it came", "wdir: ..", "unsupported", "wdir"),
        ("  hash: md5\n", "", "legacy", ""),
    ] {
        let text = changed(alloc, TRACK, old, new)?;
        assert!(rt;
            track_is_refused(alloc, text.as_bytes(), word, key),
            "at {new:?}"
        );
    }
    Ok(())
}

fn path_entry(alloc: Global, path: &str, size: u64) -> Result<PathEntry, Fail> {
    let name = Name {
        digits: [b'7'; 32],
        dir: false,
    };
    Ok(PathEntry {
        path: Text::of(alloc, path)?,
        name,
        size,
        nfiles: None,
    })
}

// An entry of one command, one dependency and one output.
fn entry(alloc: Global, command: &str, size: u64) -> Result<Entry, Fail> {
    let mut commands = Texts::new(alloc);
    commands.push(Text::of(alloc, command)?)?;
    let mut deps = PathEntries::new(alloc);
    deps.push(path_entry(alloc, "raw", size)?)?;
    let mut outs = PathEntries::new(alloc);
    outs.push(path_entry(alloc, "clean", size)?)?;
    Ok(Entry {
        commands,
        deps,
        params: ParamFiles::new(alloc),
        outs,
    })
}

// Calls `copy` through the bound, as generic callers do.
fn copied<T: Plain>(alloc: Global, item: &T) -> Result<T, NoMemory> {
    item.copy(alloc)
}

// Two stages, the first of which is set twice.
fn fill(alloc: Global, book: &mut LockBook) -> Result<(), Fail> {
    book.set(alloc, "prepare", entry(alloc, "cp raw clean", 1)?)?;
    book.set(alloc, "count", entry(alloc, "wc raw", 2)?)?;
    let last = entry(alloc, "cp raw clean", 3)?;
    book.set(alloc, "prepare", copied(alloc, &last)?)?;
    Ok(())
}

fn is_filled(book: &LockBook) -> bool {
    match book.get("prepare") {
        Some(entry) => {
            book.len() == 2 && book.get("clean").is_none() && has_size(entry.deps.as_slice(), 3)
        }
        None => false,
    }
}

fn has_size(paths: &[PathEntry], size: u64) -> bool {
    match paths {
        [path] => path.size == size,
        _ => false,
    }
}

#[test]
fn a_book_is_filled(rt: HostRuntime) -> Result<(), Fail> {
    let alloc = rt.alloc();
    let mut book = LockBook::new(alloc);
    fill(alloc, &mut book)?;
    assert!(rt; is_filled(&book));
    Ok(())
}
