// A world that changes a file between looking and reading.
ghost use Rattle.std.specs.Prelude.{◌≡◌, ◌≢◌, ◌≤◌, false, [], length, IfOk, IsErrOf};
ghost use Rattle.dvc_base.specs.Path.{under};
ghost use Rattle.world_api.specs.History.{HasCause, IsCaused};
ghost use Rattle.world_api.specs.Layout.{lane_path};
ghost use Rattle.world_api.specs.Calls.{AreNames};
ghost use Rattle.world_api.specs.declared.files.ListFault.TheVariants.{Failed as Unlisted};
ghost use Rattle.dvc_cases.specs.Told.{no_faults, nothing_told};

use crate::project::Project;
use dvc_base::{Failed, Rel, Texts, is_same};
use std::alloc::Global;
use world_api::{Exit, Files, Ground, Job, Kind, ListFault, ReadFiles, Shell, World};

/// What a file's size was, when it was looked at.
#[derive(Clone, Copy)]
pub(crate) enum Shift {
    /// A byte more than are read.
    Longer,
    /// A byte fewer.
    Shorter,
}

/// The files of a project, of which one has another size than it is told to have. It tells nothing, and holds on to each
/// file whatever is done.
#[derive(Drop)]
pub(crate) struct Shifted {
    project: Project,
    path: Rel,
    shift: Shift,
}

impl Shifted {
    pub(crate) fn new(project: Project, path: Rel, shift: Shift) -> Shifted {
        Shifted {
            project,
            path,
            shift,
        }
    }
}

impl Ground for Shifted {
    ghost tells = { false };

    ghost faults = { λ _. no_faults };

    ghost history = { λ _. nothing_told };
}

impl ReadFiles for Shifted {
    fn kind(&mut self, at: &Rel) -> Result<Kind, Failed>
        ensures cause { HasCause no_faults no_faults result }
    {
        let kind = self.project.tree().kind(at);
        if is_same(at, &self.path) {
            return Ok(told_kind(kind, self.shift));
        }
        Ok(kind)
    }

    fn read_at(&mut self, at: &Rel, from: u64, into: &mut [u8]) -> Result<usize, Failed>
        ensures within { IfOk result (λ count. count ≤ length into.old) }
        ensures cause { HasCause no_faults no_faults result }
    {
        match self.project.tree().file(at) {
            Some(bytes) => Ok(read_from(bytes, from, into)),
            None => Ok(0),
        }
    }

    // No folder of the project has a name that is read.
    fn list(&mut self, alloc: Global, _at: &Rel) -> Result<Texts, ListFault>
        ensures good { IfOk result AreNames }
        ensures cause { IsCaused no_faults no_faults (IsErrOf result Unlisted) }
    {
        Ok(Texts::new(alloc))
    }

    ghost use Rattle.std.proofs.lemmas.Bool.{false≢true};

    ghost stands = { λ world told. absurd (false≢true told) };
}

impl Files for Shifted {
    fn clear(&mut self, _at: &Rel) -> Result<(), Failed>
        requires { _at.now ≢ [] }
        ensures cause { HasCause no_faults no_faults result }
    {
        Ok(())
    }

    fn make_folder(&mut self, _at: &Rel) -> Result<(), Failed>
        ensures cause { HasCause no_faults no_faults result }
    {
        Ok(())
    }

    fn begin(&mut self, _lane: u32) -> Result<(), Failed>
        ensures cause { HasCause no_faults no_faults result }
    {
        Ok(())
    }

    fn append(&mut self, _lane: u32, _bytes: &[u8]) -> Result<(), Failed>
        ensures cause { HasCause no_faults no_faults result }
    {
        Ok(())
    }

    fn settle(&mut self, _lane: u32) -> Result<(), Failed>
        ensures cause { HasCause no_faults no_faults result }
    {
        Ok(())
    }

    fn publish(&mut self, _lane: u32, _at: &Rel) -> Result<(), Failed>
        requires apart { under (lane_path _lane) _at.now ≡ false }
        ensures cause { HasCause no_faults no_faults result }
    {
        Ok(())
    }
}

impl Shell for Shifted {
    fn run(&mut self, _job: &Job) -> Result<Exit, Failed>
        ensures cause { HasCause no_faults no_faults result }
    {
        Ok(Exit { code: 0 })
    }
}

impl World for Shifted {}

fn told_kind(kind: Kind, shift: Shift) -> Kind {
    match (kind, shift) {
        (Kind::File { size }, Shift::Longer) => Kind::File {
            size: size.saturating_add(1),
        },
        (Kind::File { size }, Shift::Shorter) => Kind::File {
            size: size.saturating_sub(1),
        },
        (kind, _) => kind,
    }
}

fn read_from(bytes: &[u8], from: u64, into: &mut [u8]) -> usize
    ensures within { result ≤ length into.old }
{
    if from >= bytes.len() as u64 {
        return 0;
    }
    let rest = &bytes[from as usize..];
    let count = rest.len().min(into.len());
    into[..count].copy_from_slice(&rest[..count]);
    count
}
