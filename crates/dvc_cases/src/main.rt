//! Plays the cases of the file `cases` over projects in memory, and prints what each came to; then those that are too
//! many to be written down, of which a failure ends the program.
//!
//! A case is its name and, below it, its steps: `PATH < FILE` puts the text of a file of this folder, `PATH = TEXT` puts
//! the text, `rm PATH` removes what stands there, `show PATH` prints the file there, and `dvc WORDS` does what the program
//! does with these words. An empty line ends it. Each project begins with a file `in` that holds `abc`.
#![tactic(auto)]

mod call;
mod locks;
mod outputs;
mod project;
mod puts;
mod script;
mod shifted;
mod sizes;

use std::alloc::Global;
use std::rt::Runtime;
use std::test::Fail;

fn main(rt: HostRuntime) -> Result<(), Fail> {
    run(&rt, rt.alloc())
}

fn run<R: Runtime>(rt: &R, alloc: Global) -> Result<(), Fail> {
    script::play_all(rt, alloc)?;
    sizes::play_all(rt, alloc)?;
    locks::play_all(rt, alloc)?;
    puts::play_all(rt, alloc)
}
