// Listings as texts, both ways.
use file_hash::{ListingFault, print_listing, read_listing};
use std::alloc::Global;

// Texts of listings, each with the text that is written of what it is read as.
const LISTINGS: &str = r#"[] => []
 [ ] => []
[{"md5": "0cc175b9c0f1b6a831c399e269772661", "relpath": "a.txt"}] => [{"md5": "0cc175b9c0f1b6a831c399e269772661", "relpath": "a.txt"}]
[{"relpath":"é.txt","size":1,"md5":"0cc175b9c0f1b6a831c399e269772661"}] => [{"md5": "0cc175b9c0f1b6a831c399e269772661", "relpath": "\u00e9.txt"}]
[{"md5":"0cc175b9c0f1b6a831c399e269772661","relpath":"\ud83d\ude00\t\""}] => [{"md5": "0cc175b9c0f1b6a831c399e269772661", "relpath": "\ud83d\ude00\t\""}]
[{"md5":"92eb5ffee6ae2fec3ad71c777531578f","relpath":"b"},{"md5":"0cc175b9c0f1b6a831c399e269772661","relpath":"a/c"}] => [{"md5": "0cc175b9c0f1b6a831c399e269772661", "relpath": "a/c"}, {"md5": "92eb5ffee6ae2fec3ad71c777531578f", "relpath": "b"}]
[{"md5":"1","md5":"0cc175b9c0f1b6a831c399e269772661","relpath":"a"}] => [{"md5": "0cc175b9c0f1b6a831c399e269772661", "relpath": "a"}]"#;

// Texts that are no listings: between the members of the third stands one that comes before a path below the first.
const OTHERS: &str = r#"{}
[{"md5":"0cc175b9c0f1b6a831c399e269772661","relpath":"a"},{"md5":"0cc175b9c0f1b6a831c399e269772661","relpath":"a"}]
[{"md5":"0cc175b9c0f1b6a831c399e269772661","relpath":"a"},{"md5":"0cc175b9c0f1b6a831c399e269772661","relpath":"a-b"},{"md5":"0cc175b9c0f1b6a831c399e269772661","relpath":"a/c"}]
[{"md5":"0CC175B9C0F1B6A831C399E269772661","relpath":"a"}]
[{"md5":"0cc175b9c0f1b6a831c399e26977266","relpath":"a"}]
[{"md5":"0cc175b9c0f1b6a831c399e269772661.dir","relpath":"a"}]
[{"md5":"0cc175b9c0f1b6a831c399e269772661","relpath":"./a"}]
[{"md5":"0cc175b9c0f1b6a831c399e269772661","relpath":"."}]
[{"md5":"0cc175b9c0f1b6a831c399e269772661","relpath":"../a"}]
[{"md5":"0cc175b9c0f1b6a831c399e269772661"}]
[{"relpath":"a"}]
[1]"#;

fn is_written(alloc: Global, row: &str) -> bool {
    match row.split_once(" => ") {
        Some((text, want)) => comes_to(alloc, text, want),
        None => false,
    }
}

fn comes_to(alloc: Global, text: &str, want: &str) -> bool {
    let Ok(list) = read_listing(alloc, text.as_bytes()) else {
        return false;
    };
    match print_listing(alloc, &list) {
        Ok(written) => written.as_slice() == want.as_bytes(),
        Err(_) => false,
    }
}

fn is_refused(alloc: Global, text: &str) -> bool {
    match read_listing(alloc, text.as_bytes()) {
        Ok(_) => false,
        Err(why) => why == ListingFault::Bad,
    }
}

#[test]
fn listings_are_read_and_written(rt: HostRuntime) {
    let alloc = rt.alloc();
    for row in LISTINGS.split('\n') {
        assert!(rt; is_written(alloc, row), "at {row:?}");
    }
}

#[test]
fn other_texts_are_refused(rt: HostRuntime) {
    let alloc = rt.alloc();
    for text in OTHERS.split('\n') {
        assert!(rt; is_refused(alloc, text), "at {text:?}");
    }
}
