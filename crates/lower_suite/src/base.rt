// Paths, texts, lists of them, names and faults.
use dvc_base::*;
use std::alloc::Global;
use std::test::Fail;

// Texts, each with what it leads to from the root: the path's text, or the fault's words.
const JOINS: &str = " => the path is empty
a\0 => the path has a NUL
/a => the path leaves the workspace
.. => the path leaves the workspace
a/../.. => the path leaves the workspace
./a//b/ => a/b
a/../b => b
. => .";

fn is_read(alloc: Global, row: &str) -> bool {
    match row.split_once(" => ") {
        Some((text, want)) => leads_to(alloc, text, want),
        None => false,
    }
}

fn leads_to(alloc: Global, text: &str, want: &str) -> bool {
    match Rel::root(alloc).join(alloc, text) {
        Ok(path) => path.text() == want,
        Err(why) => has_words(alloc, &why, want),
    }
}

fn has_words(alloc: Global, why: &PathFault, want: &str) -> bool {
    match format!(in alloc; "{why}") {
        Ok(words) => words.as_str() == want,
        Err(_) => false,
    }
}

// Calls `copy` through the bound, as generic callers do.
fn copied<T: Plain>(alloc: Global, item: &T) -> Result<T, NoMemory> {
    item.copy(alloc)
}

#[test]
fn join_reads_texts(rt: HostRuntime) {
    let alloc = rt.alloc();
    for row in JOINS.split('\n') {
        assert!(rt; is_read(alloc, row), "at {row:?}");
    }
}

#[test]
fn join_measures_texts(rt: HostRuntime) -> Result<(), Fail> {
    let alloc = rt.alloc();
    let mut text = String::new(alloc);
    for _ in 0..MAX_PATH {
        text.push('a')?;
    }
    assert!(rt; leads_to(alloc, text.as_str(), text.as_str()));
    text.push('a')?;
    assert!(rt; leads_to(alloc, text.as_str(), "the path is too long"));
    Ok(())
}

fn compare_well(outer: &Rel, inner: &Rel, beside: &Rel) -> bool {
    lies_in(inner, outer)
        && !lies_in(outer, outer)
        && is_at_or_below(outer, outer)
        && overlaps(outer, inner)
        && !overlaps(outer, beside)
        && inner.parts().len() == 2
}

fn compares(alloc: Global, outer: &Rel) -> Result<bool, PathFault> {
    let inner = outer.join(alloc, "b")?;
    compares_both(alloc, outer, &inner)
}

fn compares_both(alloc: Global, outer: &Rel, inner: &Rel) -> Result<bool, PathFault> {
    let beside = outer.join(alloc, "../ab")?;
    Ok(compare_well(outer, inner, &beside))
}

#[test]
fn paths_compare(rt: HostRuntime) -> Result<(), Fail> {
    let alloc = rt.alloc();
    let outer = Rel::root(alloc).join(alloc, "a")?;
    assert!(rt; compares(alloc, &outer)?);
    Ok(())
}

fn is_copied(alloc: Global, path: &Rel) -> Result<bool, NoMemory> {
    let copy = copied(alloc, path)?;
    Ok(is_same(path, &copy))
}

#[test]
fn a_copy_of_a_path_is_the_same(rt: HostRuntime) -> Result<(), Fail> {
    let alloc = rt.alloc();
    let path = Rel::root(alloc).join(alloc, "a/b")?;
    assert!(rt; is_copied(alloc, &path)?);
    Ok(())
}

fn are_one_and_two(texts: &[Text]) -> bool {
    match texts {
        [one, two] => one.as_str() == "one" && two.as_str() == "two",
        _ => false,
    }
}

#[test]
fn texts_are_copied(rt: HostRuntime) -> Result<(), Fail> {
    let alloc = rt.alloc();
    let texts = Texts::of(alloc, &["one", "two"])?;
    let copy = copied(alloc, &texts)?;
    assert!(rt; are_one_and_two(copy.as_slice()));
    Ok(())
}

#[test]
fn numbers_are_listed(rt: HostRuntime) -> Result<(), Fail> {
    let mut numbers = Numbers::new(rt.alloc());
    numbers.push(7)?;
    assert_eq!(rt; numbers.as_slice(), [7].as_slice());
    Ok(())
}

#[test]
fn bytes_are_copied(rt: HostRuntime) -> Result<(), Fail> {
    let alloc = rt.alloc();
    let bytes = Bytes::of(alloc, b"\0\xff")?;
    let copy = copied(alloc, &bytes)?;
    assert_eq!(rt; copy.as_slice(), [0, 255].as_slice());
    Ok(())
}

// Whether the text is that of a name, which prints as it and has its object at the place.
fn is_name(alloc: Global, text: &[u8], place: &str) -> bool {
    match Name::parse(text) {
        Some(name) => prints_as(&name, text) && stands_at(alloc, &name, place),
        None => false,
    }
}

fn prints_as(name: &Name, text: &[u8]) -> bool {
    let mut buffer = [b'-'; 36];
    name.print(&mut buffer) == text.len() && buffer.starts_with(text)
}

fn stands_at(alloc: Global, name: &Name, place: &str) -> bool {
    match name.place(alloc) {
        Ok(path) => path.text() == place,
        Err(_) => false,
    }
}

#[test]
fn names_are_read_and_written(rt: HostRuntime) {
    let alloc = rt.alloc();
    assert!(rt;
        is_name(
            alloc,
            b"900150983cd24fb0d6963f7d28e17f72",
            "files/md5/90/0150983cd24fb0d6963f7d28e17f72"
        )
    );
    assert!(rt;
        is_name(
            alloc,
            b"900150983cd24fb0d6963f7d28e17f72.dir",
            "files/md5/90/0150983cd24fb0d6963f7d28e17f72.dir"
        )
    );
}

#[test]
fn other_texts_are_no_names(rt: HostRuntime) {
    assert!(rt; Name::parse(b"").is_none());
    assert!(rt; Name::parse(b"900150983cd24fb0d6963f7d28e17f7").is_none());
    assert!(rt; Name::parse(b"900150983CD24FB0D6963F7D28E17F72").is_none());
    assert!(rt; Name::parse(b"900150983cd24fb0d6963f7d28e17f7g").is_none());
    assert!(rt; Name::parse(b"900150983cd24fb0d6963f7d28e17f72.DIR").is_none());
}

// Writes what the parts spell.
fn put_parts(text: &mut Writer, parts: &[Part<'_>]) -> Result<(), NoMemory> {
    for part in parts {
        put_part(text, *part)?;
    }
    Ok(())
}

fn put_part(text: &mut Writer, part: Part<'_>) -> Result<(), NoMemory> {
    match part {
        Part::Nothing => Ok(()),
        Part::Bytes(bytes) => text.put(bytes),
        Part::Number(number) => text.put_number(number),
        Part::Code(_) => text.put(b"CODE"),
        Part::Walk(names) => {
            for name in names {
                text.put(name.as_str().as_bytes())?;
            }
            Ok(())
        }
    }
}

// Whether a fault has this kind, this exit status and this text. It owns the fault, and nothing else does.
fn tells(alloc: Global, fault: Fault, kind: FaultKind, status: u8, text: &str) -> bool {
    has(alloc, &fault, kind, status, text)
}

fn has(alloc: Global, fault: &Fault, kind: FaultKind, status: u8, text: &str) -> bool {
    fault.kind() == kind && fault.status() == status && spells(alloc, fault.text(), text)
}

fn spells(alloc: Global, fault: FaultText<'_>, text: &str) -> bool {
    let mut told = Writer::new(alloc);
    match put_parts(&mut told, &fault.parts) {
        Ok(()) => told.as_slice() == text.as_bytes(),
        Err(NoMemory) => false,
    }
}

fn not_moved() -> Fault {
    Fault::NotMoved {
        absent: 1,
        damaged: 20,
        failed: 0,
    }
}

fn too_large() -> Fault {
    Fault::TooLarge {
        what: What::YamlText,
        limit: What::YamlText.limit(),
    }
}

fn yaml_fault(alloc: Global) -> Result<Fault, Fail> {
    let file = Rel::root(alloc).join(alloc, "dvc.yaml")?;
    let fault = YamlFault::Duplicate { line: 12 };
    Ok(Fault::Yaml { file, fault })
}

fn reserved(alloc: Global) -> Result<Fault, Fail> {
    let path = Rel::root(alloc).join(alloc, "x.dvc")?;
    let near = path.copy(alloc)?;
    Ok(Fault::Reserved { path, near })
}

#[test]
fn faults_have_a_kind_a_status_and_a_text(rt: HostRuntime) {
    let alloc = rt.alloc();
    assert!(rt;
        tells(
            alloc,
            Fault::BadWords,
            FaultKind::BadWords,
            254,
            "the command line can't be read"
        )
    );
    assert!(rt;
        tells(
            alloc,
            Fault::NotRepo,
            FaultKind::NotRepo,
            253,
            "not inside a DVC repository"
        )
    );
    assert!(rt;
        tells(
            alloc,
            Fault::OutFault,
            FaultKind::OutFault,
            255,
            "the output can't be written"
        )
    );
    assert!(rt;
        tells(
            alloc,
            Fault::from(NoMemory),
            FaultKind::NoMemory,
            255,
            "out of memory"
        )
    );
    assert!(rt;
        tells(
            alloc,
            Fault::ScmLeftOut,
            FaultKind::ScmLeftOut,
            255,
            "only 'init --no-scm' is supported"
        )
    );
}

#[test]
fn faults_tell_numbers(rt: HostRuntime) {
    let alloc = rt.alloc();
    assert!(rt;
        tells(
            alloc,
            not_moved(),
            FaultKind::NotMoved,
            255,
            "not moved: 1 absent, 20 damaged, 0 failed"
        )
    );
    assert!(rt;
        tells(
            alloc,
            too_large(),
            FaultKind::TooLarge,
            255,
            "limit 67108864 passed"
        )
    );
}

#[test]
fn faults_of_yaml_have_a_line_and_a_word(rt: HostRuntime) -> Result<(), Fail> {
    let alloc = rt.alloc();
    let fault = yaml_fault(alloc)?;
    let text = "'dvc.yaml' line 12: duplicate key";
    assert!(rt; tells(alloc, fault, FaultKind::Yaml, 255, text));
    Ok(())
}

#[test]
fn a_reserved_name_overlaps_itself(rt: HostRuntime) -> Result<(), Fail> {
    let alloc = rt.alloc();
    let fault = reserved(alloc)?;
    let text = "'x.dvc' has a reserved name";
    assert!(rt; tells(alloc, fault, FaultKind::Reserved, 255, text));
    Ok(())
}

fn equals_its_copy(alloc: Global, texts: &Texts) -> Result<bool, NoMemory> {
    let copy = copied(alloc, texts)?;
    Ok(*texts == copy)
}

// Whether the last of the two texts is this one, and the first stands before it.
fn ends_with(texts: &[Text], last: &Text) -> bool {
    match texts {
        [first, second] => second == last && first < last,
        _ => false,
    }
}

#[test]
fn texts_are_compared_and_built(rt: HostRuntime) -> Result<(), Fail> {
    let alloc = rt.alloc();
    let texts = Texts::of(alloc, &["a", "b"])?;
    assert!(rt; equals_its_copy(alloc, &texts)?);
    let ascii = Text::of_ascii(alloc, b"b")?;
    assert!(rt; ends_with(texts.as_slice(), &ascii));
    Ok(())
}

#[test]
fn keys_of_runs_are_digits(rt: HostRuntime) {
    assert!(rt; Key::parse(&[b'0'; 64]).is_some());
    assert!(rt; Key::parse(&[b'0'; 63]).is_none());
    assert!(rt; Key::parse(&[b'A'; 64]).is_none());
}
