// Real folders: what stands in them, and what making them leaves.
use crate::scripts::{Real, as_shell, play};
use real_world::RealWorld;
use std::alloc::Global;
use std::test::Fail;

const LISTS: &str =
    "run .: mkdir -p folder/deeper/deepest; cd folder; : > b; : > a; : > B; : > .hidden; : > 'a b'; : > a- => Ok(Exit { code: 0 })
run folder: ln -s a link; ln -s deeper way; ln -s nothing broken; ln -s round round; mkfifo pipe => Ok(Exit { code: 0 })
list folder => Ok([\".hidden\", \"B\", \"a\", \"a b\", \"a-\", \"b\", \"broken\", \"deeper\", \"link\", \"pipe\", \"round\", \"way\"])
list . => Ok([\"folder\"])
list folder/deeper => Ok([\"deepest\"])
list folder/way => Ok([\"deepest\"])
list folder/way/deepest => Ok([])
run .: rmdir folder/deeper/deepest => Ok(Exit { code: 0 })
list folder/way => Ok([])
list folder/a => Err(Failed)
list folder/link => Err(Failed)
list folder/a/below => Err(Failed)
list folder/broken => Err(Failed)
list folder/round => Err(Failed)
list folder/pipe => Err(Failed)
list folder/missing => Err(Failed)
list folder/deeper => Ok([])
run folder/deeper: : > \"$(printf 'x\\377')\"; : > y => Ok(Exit { code: 0 })
list folder/deeper => Err(Failed)
run folder/deeper: rm \"$(printf 'x\\377')\" => Ok(Exit { code: 0 })
list folder/deeper => Ok([\"y\"])
run folder/deeper: : > 'it'\"'\"'s'; : > '\"q\" \\'; : > \"$(printf 'two\\nlines')\"; : > -rf; : > ... => Ok(Exit { code: 0 })
list folder/deeper => Ok([\"\\\"q\\\" \\\\\", \"-rf\", \"...\", \"it's\", \"two\\nlines\", \"y\"])
clear folder/deeper => Ok(())
list folder/way => Err(Failed)
list folder/deeper => Err(Failed)";

#[test]
fn names_are_listed_in_the_order_of_their_bytes(rt: HostRuntime) -> Result<(), Fail> {
    play(rt, "lists", LISTS)
}

const MAKES: &str =
    "run .: mkdir folder; printf x > file; ln -s folder to_folder; ln -s file to_file => Ok(Exit { code: 0 })
run .: ln -s nothing broken; ln -s round round; mkfifo pipe => Ok(Exit { code: 0 })
make . => Ok(())
make folder => Ok(())
make to_folder => Ok(())
list folder => Ok([])
make folder/a/b/c/d => Ok(())
list folder/a/b/c/d => Ok([])
make folder/a/b/e => Ok(())
list folder/a/b => Ok([\"c\", \"e\"])
make to_folder/a/f/g => Ok(())
list folder/a => Ok([\"b\", \"f\"])
list folder/a/f => Ok([\"g\"])
make new/and deeper => Ok(())
kind new/and deeper => Ok(Folder)
make file => Err(Failed)
make file/below => Err(Failed)
make file/below/it => Err(Failed)
make to_file => Err(Failed)
make to_file/below => Err(Failed)
make broken => Err(Failed)
make broken/below => Err(Failed)
make round => Err(Failed)
make round/below => Err(Failed)
make pipe => Err(Failed)
make pipe/below => Err(Failed)
run .: test \"$(cat to_file)\" = x && test -h broken && test -h round && test -p pipe && ! test -e nothing => Ok(Exit { code: 0 })
list . => Ok([\"broken\", \"file\", \"folder\", \"new\", \"pipe\", \"round\", \"to_file\", \"to_folder\"])
clear folder => Ok(())
make to_folder => Err(Failed)
make to_folder/below => Err(Failed)
make folder => Ok(())
make to_folder/below => Ok(())
list folder => Ok([\"below\"])";

#[test]
fn a_folder_is_made_with_those_above_it(rt: HostRuntime) -> Result<(), Fail> {
    play(rt, "makes", MAKES)
}

// The superuser may read and write everywhere, others may not: the shell is asked which it is.
#[test]
fn what_may_not_be_done_fails(rt: HostRuntime) -> Result<(), Fail> {
    let mut world = RealWorld::new(rt.clone()?, rt.alloc(), ".")?;
    forbidden(rt.alloc(), &mut world)
}

fn forbidden(alloc: Global, world: &mut Real) -> Result<(), Fail> {
    as_shell(
        alloc,
        world,
        "mkdir secret closed",
        "kind secret => Ok(Folder)",
    )?;
    as_shell(alloc, world, "chmod 0 secret", "kind secret => Ok(Folder)")?;
    as_shell(
        alloc,
        world,
        "ls secret 2> /dev/null",
        "list secret => Ok([])",
    )?;
    as_shell(alloc, world, "chmod 555 closed", "list closed => Ok([])")?;
    as_shell(
        alloc,
        world,
        "mkdir closed/by_shell 2> /dev/null",
        "make closed/ours/below => Ok(())",
    )?;
    as_shell(
        alloc,
        world,
        "chmod 700 secret closed",
        "list secret => Ok([])",
    )
}
