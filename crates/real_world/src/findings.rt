// What stands at a path, by what the system tells of it.
ghost use Rattle.std.specs.Prelude.{◌≡◌, ◌↔◌, IsTrue, IfOk, IfErr, IsErr, IsOk, OnOk, OnErr, Ok};
ghost use Rattle.std.specs.Fs.{file_type, IsDir, IsFile, metadata_len};
ghost use Rattle.world_api.specs.declared.files.Kind.TheVariants.{Missing, File, Folder};
ghost use Rattle.world_api.specs.declared.files.ListFault.TheVariants.{Failed as Unlisted, NoMemory as Memory};
ghost use Rattle.real_world.specs.Found.{SaysMissing, SaysTaken, SaysMemory};

use dvc_base::NoMemory;
use std::fs::Metadata;
use std::io;
use std::io::ErrorKind;
use world_api::{Kind, ListFault};

/// Whether the error says that nothing stands at the path: it is missing, a file stands above it, or one of
/// its names is longer than any that the system can hold.
pub(crate) fn is_missing(error: &io::Error) -> bool
    ensures missing { IsTrue result ↔ SaysMissing error.now }
{
    matches!(
        error.kind(),
        ErrorKind::NotFound | ErrorKind::NotADirectory | ErrorKind::InvalidFilename
    )
}

/// Whether the error says that something stands at the path already.
pub(crate) fn is_taken(error: &io::Error) -> bool
    ensures taken { IsTrue result ↔ SaysTaken error.now }
{
    error.kind() == ErrorKind::AlreadyExists
}

/// Why the names in a folder were not told.
pub(crate) fn list_fault(error: &io::Error) -> ListFault
    ensures memory { SaysMemory error.now → result ≡ Memory }
    ensures failed { ¬ SaysMemory error.now → result ≡ Unlisted }
{
    if error.kind() == ErrorKind::OutOfMemory {
        ListFault::NoMemory
    } else {
        ListFault::Failed
    }
}

/// What was made in memory, with want of it told as std tells it.
pub(crate) fn in_memory<T>(made: Result<T, NoMemory>) -> io::Result<T>
    ensures made { IfOk made (λ value. result ≡ Ok value) }
    ensures failed { OnErr made (IsErr result) }
{
    made.map_err(|_| io::Error::from(ErrorKind::OutOfMemory))
}

/// The kind of what was found. What is neither a file nor a folder, as a device, is an error.
pub(crate) fn kind_of(found: io::Result<Metadata>) -> io::Result<Kind>
    ensures folder { IfOk found (λ m. IsDir (file_type m) → result ≡ Ok Folder) }
    ensures file { IfOk found (λ m. IsFile (file_type m) → result ≡ Ok (File (metadata_len m))) }
    ensures special { IfOk found (λ m. ¬ IsDir (file_type m) → ¬ IsFile (file_type m) → IsErr result) }
    ensures missing { IfErr found (λ e. SaysMissing e → result ≡ Ok Missing) }
    ensures failed { IfErr found (λ e. ¬ SaysMissing e → IsErr result) }
{
    match found {
        Ok(metadata) if metadata.is_dir() => Ok(Kind::Folder),
        Ok(metadata) if metadata.is_file() => Ok(Kind::File {
            size: metadata.len(),
        }),
        Ok(_) => Err(io::Error::from(ErrorKind::InvalidInput)),
        Err(error) if is_missing(&error) => Ok(Kind::Missing),
        Err(error) => Err(error),
    }
}

/// What was to be done at a path, and is none where nothing stands there.
pub(crate) fn done_if_missing(tried: io::Result<()>) -> io::Result<()>
    ensures done { OnOk tried (IsOk result) }
    ensures missing { IfErr tried (λ e. SaysMissing e → IsOk result) }
    ensures failed { IfErr tried (λ e. ¬ SaysMissing e → IsErr result) }
{
    match tried {
        Err(error) if is_missing(&error) => Ok(()),
        tried => tried,
    }
}
