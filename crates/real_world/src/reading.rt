// The file that is being read, which stays open from piece to piece.
ghost use Rattle.std.specs.Prelude.{◌≤◌, length, IfOk};

use crate::folder::Folder;
use dvc_base::Rel;
use std::io::{ErrorKind, Read, Seek, SeekFrom};
use std::rt::Runtime;
use std::{fs, io};

// What the path of each lane begins with.
const LANES: &str = ".dvc/tmp/";

#[derive(Drop)]
pub(crate) struct Reading<F> {
    text: String,
    file: F,
    // Where the last read ended.
    end: u64,
    // Whether it gave fewer bytes than there was room for, as a file does at its end alone.
    is_at_end: bool,
}

impl<R: Runtime> Folder<R> {
    /// One read, which gives nothing only at or past the end, or for an empty buffer. A file whose read
    /// has failed is opened anew.
    pub(crate) fn read_at(&mut self, at: &Rel, from: u64, into: &mut [u8]) -> io::Result<usize>
        ensures within { IfOk result (λ count. count ≤ length into.old) }
    {
        self.keep_open(at)?;
        let count = self.read_open(from, into);
        if count.is_err() {
            self.forget();
        }
        count
    }

    // Opens the file, unless it's the one that was read last.
    fn keep_open(&mut self, at: &Rel) -> io::Result<()> {
        if !self.is_open(at) {
            self.forget();
            self.reading = Some(self.open(at)?);
        }
        Ok(())
    }

    /// Lets go what was read last where that is a lane. Any other file stays open, so that one which is copied is opened once.
    pub(crate) fn forget_lane(&mut self) {
        let is_lane = match &self.reading {
            Some(reading) => reading.text.as_str().starts_with(LANES),
            None => false,
        };
        if is_lane {
            self.forget();
        }
    }

    fn is_open(&self, at: &Rel) -> bool {
        match &self.reading {
            Some(reading) => reading.text.as_str() == at.text(),
            None => false,
        }
    }

    fn read_open(&mut self, from: u64, into: &mut [u8]) -> io::Result<usize>
        ensures within { IfOk result (λ count. count ≤ length into.old) }
    {
        match &mut self.reading {
            Some(reading) => read_from(reading, from, into),
            None => Err(io::Error::from(ErrorKind::NotFound)),
        }
    }

    fn open(&self, at: &Rel) -> io::Result<Reading<R::File>> {
        let place = self.place(at)?;
        let file = fs::open(&self.rt, place.as_str())?;
        let text = String::from_str(self.alloc, at.text())?;
        Ok(Reading {
            text,
            file,
            end: 0,
            is_at_end: false,
        })
    }
}

// What would be read behind the end is known to be nothing, and the system isn't asked again.
fn read_from<F: Read + Seek>(
    reading: &mut Reading<F>,
    from: u64,
    into: &mut [u8],
) -> io::Result<usize>
    ensures within { IfOk result (λ count. count ≤ length into.old) }
{
    if from == reading.end && reading.is_at_end {
        return Ok(0);
    }
    if from != reading.end && !is_in_reach(reading.file.seek(SeekFrom::Start(from)))? {
        return Ok(0);
    }
    let count = reading.file.read(into)?;
    reading.end = from.saturating_add(count as u64);
    reading.is_at_end = count < into.len();
    Ok(count)
}

// A seek to where no file of the system can reach is refused as such, and moves nothing.
fn is_in_reach(sought: io::Result<u64>) -> io::Result<bool> {
    match sought {
        Ok(_) => Ok(true),
        Err(error) if error.kind() == ErrorKind::InvalidInput => Ok(false),
        Err(error) => Err(error),
    }
}
