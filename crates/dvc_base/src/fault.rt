// Every answer of the tool that isn't Ok: its kind, its exit status and its text.
//
// A new fault stands here and in `specs/Fault.antt`, and nowhere else but where it is answered.
ghost use Rattle.std.specs.Prelude.{◌≡◌};
ghost use Rattle.dvc_base.specs.FaultParts.{text_in, part_text};
ghost use Rattle.dvc_base.specs.Fault.{reserved_wording};

use crate::{
    FaultText, Name, NoMemory, Part, PathFault, Rel, Text, Texts, What, YamlFault, is_same,
};

/// Why a command did not end well.
#[derive(Drop)]
pub enum Fault {
    /// Memory ran out.
    NoMemory,
    /// The words of the command line are none of the tool's.
    BadWords,
    /// No folder stands at `.dvc`.
    NotRepo,
    /// Something stands at `.dvc` already.
    AlreadyRepo,
    /// A repository was to be made without `--no-scm`.
    ScmLeftOut,
    /// A line of `.dvc/config` can't be read.
    BadConfig {
        line: u32,
    },
    /// The text of the file is none of the YAML profile.
    Yaml {
        file: Rel,
        fault: YamlFault,
    },
    /// The value at the key of the file is none that may stand there.
    Schema {
        file: Rel,
        key: Text,
    },
    /// The key of the file asks for what the tool leaves out.
    Unsupported {
        file: Rel,
        key: Text,
    },
    /// The file was written by an old release of DVC.
    Legacy {
        file: Rel,
    },
    /// The file has rules of paths to be ignored.
    IgnoreRules {
        file: Rel,
    },
    /// No variable has the name.
    NoVariable {
        key: Text,
    },
    /// A list or a mapping stands where a text is put together.
    NotScalar {
        key: Text,
    },
    /// The file lacks the key.
    NoKey {
        file: Rel,
        key: Text,
    },
    /// No file stands at the path.
    NoFile {
        file: Rel,
    },
    /// The text is no path of the workspace.
    Outside {
        text: Text,
        why: PathFault,
    },
    /// The path overlaps one that the tool keeps for itself; the two are one where the name itself is kept.
    Reserved {
        path: Rel,
        near: Rel,
    },
    /// The path is an output of two stages, of which the first is named first.
    Duplicate {
        path: Rel,
        first: Text,
        second: Text,
    },
    /// Two outputs overlap.
    Overlap {
        first: Rel,
        second: Rel,
    },
    /// A file of variables overlaps an output.
    VarsFromOutput {
        file: Rel,
        out: Rel,
    },
    /// Stages stand in a cycle: each name is followed by that of a stage above it.
    Cycle {
        walk: Texts,
    },
    /// No stage, group or track file has the name.
    NoStage {
        name: Text,
    },
    /// Nothing stands at the path of tracked data.
    MissingSource {
        path: Rel,
    },
    /// Nothing stands at this dependency of the stage.
    MissingDependency {
        stage: Text,
        path: Rel,
    },
    /// The stage's command ended with this code, which isn't 0.
    CommandFailed {
        stage: Text,
        code: i32,
    },
    /// The stage's command ended well and left nothing at this output.
    MissingOutput {
        stage: Text,
        path: Rel,
    },
    /// The cache lacks the object that is to be put at the path.
    NotInCache {
        path: Rel,
        name: Name,
    },
    /// What stands at the path is nowhere else.
    Unsaved {
        path: Rel,
    },
    /// A file stands at the path, where a folder has to be.
    NotFolder {
        path: Rel,
    },
    /// The command does this with `-f` alone.
    NeedsForce {
        what: Text,
    },
    /// No remote has the name.
    NoRemote {
        name: Text,
    },
    /// The listing of a tracked folder can't be had.
    UnknownListing {
        name: Name,
    },
    /// So many objects of a transfer were absent, damaged, or failed.
    NotMoved {
        absent: u64,
        damaged: u64,
        failed: u64,
    },
    /// A file had another size when it was read than it was told to have.
    Changed {
        path: Rel,
        told: u64,
        found: u64,
    },
    /// A counted quantity has passed its limit.
    TooLarge {
        what: What,
        limit: u64,
    },
    /// A call to the files or to a program failed.
    WorldFault,
    /// The output could not be written.
    OutFault,
}

/// A fault without what it carries.
#[derive(Clone, Copy, Debug, PartialEq, Eq)]
pub enum FaultKind {
    NoMemory,
    BadWords,
    NotRepo,
    AlreadyRepo,
    ScmLeftOut,
    BadConfig,
    Yaml,
    Schema,
    Unsupported,
    Legacy,
    IgnoreRules,
    NoVariable,
    NotScalar,
    NoKey,
    NoFile,
    Outside,
    Reserved,
    Duplicate,
    Overlap,
    VarsFromOutput,
    Cycle,
    NoStage,
    MissingSource,
    MissingDependency,
    CommandFailed,
    MissingOutput,
    NotInCache,
    Unsaved,
    NotFolder,
    NeedsForce,
    NoRemote,
    UnknownListing,
    NotMoved,
    Changed,
    TooLarge,
    WorldFault,
    OutFault,
}

impl Fault {
    ghost use Rattle.dvc_base.specs.Fault.{kind_of, status_of, text_of, wording_of};

    pub fn kind(&self) -> FaultKind
        ensures exact { result ≡ kind_of self.now }
    {
        match self {
            Fault::NoMemory => FaultKind::NoMemory,
            Fault::BadWords => FaultKind::BadWords,
            Fault::NotRepo => FaultKind::NotRepo,
            Fault::AlreadyRepo => FaultKind::AlreadyRepo,
            Fault::ScmLeftOut => FaultKind::ScmLeftOut,
            Fault::BadConfig { .. } => FaultKind::BadConfig,
            Fault::Yaml { .. } => FaultKind::Yaml,
            Fault::Schema { .. } => FaultKind::Schema,
            Fault::Unsupported { .. } => FaultKind::Unsupported,
            Fault::Legacy { .. } => FaultKind::Legacy,
            Fault::IgnoreRules { .. } => FaultKind::IgnoreRules,
            Fault::NoVariable { .. } => FaultKind::NoVariable,
            Fault::NotScalar { .. } => FaultKind::NotScalar,
            Fault::NoKey { .. } => FaultKind::NoKey,
            Fault::NoFile { .. } => FaultKind::NoFile,
            Fault::Outside { .. } => FaultKind::Outside,
            Fault::Reserved { .. } => FaultKind::Reserved,
            Fault::Duplicate { .. } => FaultKind::Duplicate,
            Fault::Overlap { .. } => FaultKind::Overlap,
            Fault::VarsFromOutput { .. } => FaultKind::VarsFromOutput,
            Fault::Cycle { .. } => FaultKind::Cycle,
            Fault::NoStage { .. } => FaultKind::NoStage,
            Fault::MissingSource { .. } => FaultKind::MissingSource,
            Fault::MissingDependency { .. } => FaultKind::MissingDependency,
            Fault::CommandFailed { .. } => FaultKind::CommandFailed,
            Fault::MissingOutput { .. } => FaultKind::MissingOutput,
            Fault::NotInCache { .. } => FaultKind::NotInCache,
            Fault::Unsaved { .. } => FaultKind::Unsaved,
            Fault::NotFolder { .. } => FaultKind::NotFolder,
            Fault::NeedsForce { .. } => FaultKind::NeedsForce,
            Fault::NoRemote { .. } => FaultKind::NoRemote,
            Fault::UnknownListing { .. } => FaultKind::UnknownListing,
            Fault::NotMoved { .. } => FaultKind::NotMoved,
            Fault::Changed { .. } => FaultKind::Changed,
            Fault::TooLarge { .. } => FaultKind::TooLarge,
            Fault::WorldFault => FaultKind::WorldFault,
            Fault::OutFault => FaultKind::OutFault,
        }
    }

    /// The exit status of the program: 254 for words that can't be read, 253 outside of a repository, and else 255.
    pub fn status(&self) -> u8
        ensures exact { result ≡ status_of self.now }
    {
        match self {
            Fault::BadWords => 254,
            Fault::NotRepo => 253,
            _ => 255,
        }
    }

    /// The text that tells the fault, in parts. It takes no memory.
    pub fn text(&self) -> FaultText<'_>
        ensures exact { text_in result.parts ≡ text_of self.now }
    {
        FaultText {
            parts: [
                Part::of(self.start()),
                self.first(),
                Part::of(self.second()),
                self.middle(),
                Part::of(self.third()),
                self.last(),
                Part::of(self.end()),
            ],
        }
    }

    // The words that the text begins with.
    fn start(&self) -> &str
        ensures exact { result.now ≡ (wording_of self.now).start }
    {
        match self {
            Fault::NoMemory => "out of memory",
            Fault::BadWords => "the command line can't be read",
            Fault::NotRepo => "not inside a DVC repository",
            Fault::AlreadyRepo => "'.dvc' exists",
            Fault::ScmLeftOut => "only 'init --no-scm' is supported",
            Fault::BadConfig { .. } => "'.dvc/config' line ",
            Fault::NoVariable { .. } => "no variable '",
            Fault::Overlap { .. } => "outputs '",
            Fault::VarsFromOutput { .. } => "variables in '",
            Fault::Cycle { .. } => "cycle: ",
            Fault::NoStage { .. } => "no stage or file '",
            Fault::MissingSource { .. } => "missing data '",
            Fault::MissingDependency { .. }
            | Fault::CommandFailed { .. }
            | Fault::MissingOutput { .. } => "stage '",
            Fault::NoRemote { .. } => "no remote '",
            Fault::UnknownListing { .. } => "listing '",
            Fault::NotMoved { .. } => "not moved: ",
            Fault::TooLarge { .. } => "limit ",
            Fault::WorldFault => "a file or program call failed",
            Fault::OutFault => "the output can't be written",
            _ => "'",
        }
    }

    // What stands behind the first words.
    fn first(&self) -> Part<'_>
        ensures exact { part_text result ≡ (wording_of self.now).first }
    {
        match self {
            Fault::NotMoved { absent: number, .. } | Fault::TooLarge { limit: number, .. } =>
                Part::Number(*number),
            Fault::BadConfig { line } => Part::Number(u64::from(*line)),
            Fault::Yaml { file: path, .. }
            | Fault::Schema { file: path, .. }
            | Fault::Unsupported { file: path, .. }
            | Fault::Legacy { file: path }
            | Fault::IgnoreRules { file: path }
            | Fault::NoKey { file: path, .. }
            | Fault::NoFile { file: path }
            | Fault::Duplicate { path, .. }
            | Fault::Overlap { first: path, .. }
            | Fault::VarsFromOutput { file: path, .. }
            | Fault::MissingSource { path }
            | Fault::NotInCache { path, .. }
            | Fault::Unsaved { path }
            | Fault::NotFolder { path }
            | Fault::Changed { path, .. }
            | Fault::Reserved { path, .. } => Part::of(path.text()),
            Fault::NoVariable { key: text }
            | Fault::NotScalar { key: text }
            | Fault::Outside { text, .. }
            | Fault::NoStage { name: text }
            | Fault::MissingDependency { stage: text, .. }
            | Fault::CommandFailed { stage: text, .. }
            | Fault::MissingOutput { stage: text, .. }
            | Fault::NeedsForce { what: text }
            | Fault::NoRemote { name: text } => Part::of(text.as_str()),
            Fault::Cycle { walk } => Part::Walk(walk.as_slice()),
            Fault::UnknownListing { name } => Part::Bytes(name.digits()),
            _ => Part::Nothing,
        }
    }

    // The words behind that.
    fn second(&self) -> &str
        ensures exact { result.now ≡ (wording_of self.now).second }
    {
        match self {
            Fault::BadConfig { .. } => " can't be read",
            Fault::Yaml { .. } => "' line ",
            Fault::Schema { .. } => "': bad value at '",
            Fault::Unsupported { .. } | Fault::NotInCache { .. } => "': '",
            Fault::Legacy { .. } => "' has an older format",
            Fault::IgnoreRules { .. } => "' has rules",
            Fault::NotScalar { .. } => "' is not a scalar",
            Fault::NoKey { .. } => "' has no key '",
            Fault::NoFile { .. } => "' is missing",
            Fault::Outside { .. } => "' is not a path of the workspace",
            Fault::Reserved { path, near } => reserved_second(path, near),
            Fault::Duplicate { .. } => "' is an output of '",
            Fault::Overlap { .. } => "' and '",
            Fault::VarsFromOutput { .. } => "' come from output '",
            Fault::MissingDependency { .. } => "': missing dependency '",
            Fault::CommandFailed { .. } => "' failed with ",
            Fault::MissingOutput { .. } => "': missing output '",
            Fault::Unsaved { .. } => "' has unsaved changes",
            Fault::NotFolder { .. } => "' is not a folder",
            Fault::NeedsForce { .. } => "' needs -f",
            Fault::NotMoved { .. } => " absent, ",
            Fault::Changed { .. } => "' changed while it was read",
            Fault::TooLarge { .. } => " passed",
            Fault::NoVariable { .. }
            | Fault::NoStage { .. }
            | Fault::MissingSource { .. }
            | Fault::NoRemote { .. } => "'",
            _ => "",
        }
    }

    // What stands behind the second words.
    fn middle(&self) -> Part<'_>
        ensures exact { part_text result ≡ (wording_of self.now).middle }
    {
        match self {
            Fault::NotMoved {
                damaged: number,
                ..
            } => Part::Number(*number),
            Fault::Yaml { fault, .. } => Part::Number(u64::from(fault.line())),
            Fault::Schema { key: text, .. }
            | Fault::Unsupported { key: text, .. }
            | Fault::NoKey { key: text, .. }
            | Fault::Duplicate { first: text, .. } => Part::of(text.as_str()),
            Fault::Overlap { second: path, .. }
            | Fault::VarsFromOutput { out: path, .. }
            | Fault::MissingDependency { path, .. }
            | Fault::MissingOutput { path, .. } => Part::of(path.text()),
            Fault::CommandFailed { code, .. } => Part::Code(*code),
            Fault::NotInCache { name, .. } => Part::Bytes(name.digits()),
            Fault::UnknownListing { name } => Part::of(name.ending()),
            Fault::Reserved { path, near } => reserved_near(path, near),
            _ => Part::Nothing,
        }
    }

    // The words behind that.
    fn third(&self) -> &str
        ensures exact { result.now ≡ (wording_of self.now).third }
    {
        match self {
            Fault::Yaml { .. } => ": ",
            Fault::Unsupported { .. } => "' is not supported",
            Fault::Reserved { path, near } => reserved_third(path, near),
            Fault::Duplicate { .. } => "' and '",
            Fault::Overlap { .. } => "' overlap",
            Fault::UnknownListing { .. } => "' is missing",
            Fault::NotMoved { .. } => " damaged, ",
            Fault::Schema { .. }
            | Fault::NoKey { .. }
            | Fault::VarsFromOutput { .. }
            | Fault::MissingDependency { .. }
            | Fault::MissingOutput { .. } => "'",
            _ => "",
        }
    }

    // What stands behind the third words.
    fn last(&self) -> Part<'_>
        ensures exact { part_text result ≡ (wording_of self.now).last }
    {
        match self {
            Fault::Yaml { fault, .. } => Part::of(fault.word()),
            Fault::Duplicate { second: text, .. } => Part::of(text.as_str()),
            Fault::NotInCache { name, .. } => Part::of(name.ending()),
            Fault::NotMoved { failed: number, .. } => Part::Number(*number),
            _ => Part::Nothing,
        }
    }

    // The words that it ends with.
    fn end(&self) -> &str
        ensures exact { result.now ≡ (wording_of self.now).end }
    {
        match self {
            Fault::Duplicate { .. } => "'",
            Fault::NotInCache { .. } => "' is not in cache",
            Fault::NotMoved { .. } => " failed",
            _ => "",
        }
    }
}

// A name that the tool keeps for itself overlaps itself.
fn reserved_second(path: &Rel, near: &Rel) -> &'static str
    ensures exact { result.now ≡ (reserved_wording path.now near.now).second }
{
    if is_same(path, near) {
        "' has a reserved name"
    } else {
        "' overlaps '"
    }
}

fn reserved_third(path: &Rel, near: &Rel) -> &'static str
    ensures exact { result.now ≡ (reserved_wording path.now near.now).third }
{
    if is_same(path, near) { "" } else { "'" }
}

fn reserved_near<'a>(path: &Rel, near: &'a Rel) -> Part<'a>
    ensures exact { part_text result ≡ (reserved_wording path.now near.now).middle }
{
    if is_same(path, near) {
        Part::Nothing
    } else {
        Part::of(near.text())
    }
}

impl From<NoMemory> for Fault {
    ghost use Rattle.dvc_base.specs.declared.fault.Fault.TheVariants.{NoMemory as Memory};

    ghost from_gives = { λ _ fault. fault ≡ Memory };

    fn from(_: NoMemory) -> Fault {
        Fault::NoMemory
    }
}
