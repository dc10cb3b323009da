// How a command is handed to the shell, and how it ended.
ghost use Rattle.std.specs.Prelude.{◌≡◌, ℕ, [], ◌∷◌, List, false, Some, None, MatchResult, IfOk, IsOkAnd, negsuc, Err, unwrap_or, codes};
ghost use Rattle.std.specs.Process.{exit_code, command_program, command_args, command_dir, command_var, clears_env};

use std::alloc::{AllocError, Global};
use std::io;
use std::process::{Command, ExitStatus};
use world_api::Exit;

/// A shell that runs the text in the folder, with the streams and the environment of this program. It
/// has its full path, since a name without a slash would be searched for.
pub(crate) fn shell_of(alloc: Global, folder: &str, text: &str) -> Result<Command, AllocError>
    ensures program { IfOk result (λ shell. command_program shell ≡ codes "/bin/sh") }
    ensures args { IfOk result (λ shell. command_args shell ≡ codes "-c" ∷ text.now ∷ []) }
    ensures folder { IfOk result (λ shell. command_dir shell ≡ Some folder.now) }
    ensures inherits { IfOk result (λ shell. clears_env shell ≡ false) }
    ensures vars { IfOk result (λ shell. (name : List ℕ) → command_var shell name ≡ None) }
{
    let mut shell = Command::new(alloc, "/bin/sh")?;
    shell.arg("-c")?.arg(text)?.current_dir(folder)?;
    Ok(shell)
}

/// The code that a shell ended with, and -1 where a signal ended it. A shell that could not be started
/// is an error, and no code.
pub(crate) fn exit_of(ended: io::Result<ExitStatus>) -> io::Result<Exit>
    ensures code { MatchResult ended
        (λ status. IsOkAnd result (λ exit. exit.code ≡ unwrap_or (exit_code status) (negsuc 0)))
        (λ error. result ≡ Err error) }
{
    let status = ended?;
    Ok(Exit {
        code: status.code().unwrap_or(-1),
    })
}
