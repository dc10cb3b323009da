// The programs that run in a real folder.
ghost use Rattle.real_world.specs.Counting.{Counts};

use crate::RealWorld;
use crate::commands::{exit_of, shell_of};
use crate::folder::Folder;
use dvc_base::{Failed, Text};
use std::io;
use std::process::Processes;
use std::rt::Runtime;
use world_api::{Exit, Job, Shell};

impl<R: Runtime + Processes + Send> Shell for RealWorld<R> {
    fn run(&mut self, job: &Job) -> Result<Exit, Failed>
        ensures counted { Counts self.old.failures.count self.new.failures.count result }
    {
        self.folder.forget();
        let ended = self.folder.run(job);
        self.failures.counted(ended)
    }
}

impl<R: Runtime + Processes> Folder<R> {
    fn run(&self, job: &Job) -> io::Result<Exit> {
        let dir = self.place(&job.dir)?;
        self.run_all(dir.as_str(), job.commands.as_slice())
    }

    // The commands in order, up to the first whose code isn't 0.
    fn run_all(&self, dir: &str, commands: &[Text]) -> io::Result<Exit> {
        for command in commands {
            let exit = self.run_command(dir, command.as_str())?;
            if exit.code != 0 {
                return Ok(exit);
            }
        }
        Ok(Exit { code: 0 })
    }

    fn run_command(&self, dir: &str, text: &str) -> io::Result<Exit> {
        let mut shell = shell_of(self.alloc, dir, text)?;
        exit_of(shell.status(&self.rt))
    }
}
