// How much of each counted quantity the tool takes.
ghost use Rattle.std.specs.Prelude.{◌≡◌};
ghost use Rattle.dvc_base.specs.Limits.{limit_of};

/// A quantity that has a limit.
#[derive(Clone, Copy, Debug, PartialEq, Eq)]
pub enum What {
    /// The bytes of a path.
    Path,
    /// The bytes of a text in YAML or JSON, of a config or of rules of paths to be ignored.
    YamlText,
    /// The stages of a workspace.
    Stages,
    /// The files of a folder that is named.
    Members,
    /// The bytes of a listing.
    Listing,
    /// The bytes of a file, or of all files of a folder that is named.
    FileSize,
    /// The paths of a workspace.
    Paths,
    /// The names of one transfer, or of one removal.
    Names,
}

impl What {
    /// The most that there may be.
    pub fn limit(self) -> u64
        ensures exact { result ≡ limit_of self }
    {
        match self {
            What::Path => 1_024,
            What::YamlText => 67_108_864,
            What::Stages => 10_000,
            What::Members => 1_000_000,
            What::Listing => 268_435_456,
            What::FileSize => 1 << 60,
            What::Paths | What::Names => 4_000_000,
        }
    }
}
