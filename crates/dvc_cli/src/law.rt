// A law of the definitions: what commands leave can be relied upon, whatever happens between them.
ghost use Rattle.dvc_cli.specs.Life.{LivesAreSound, ToldBooksDo};

/// After any list of edits, commands and stops at any moment of a command, each moment is sound: what is remembered is
/// true, and no stop changes it. Where a command begins at such a moment, `dvc` has its clauses on what it leaves.
pub fn life_law()
    ensures { LivesAreSound }
{}

/// The book that a world tells at the end of a command is one that the headline's premise asks for, where it covers the
/// command and the moment at the start is sound by it.
pub fn told_book_law()
    ensures { ToldBooksDo }
{}
