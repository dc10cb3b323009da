// The lanes of a real folder, in which new bytes stand until they are published.
use crate::findings::in_memory;
use crate::folder::{Folder, remove_place, sync};
use dvc_base::Rel;
use std::fs::{OpenFile, OpenOptions};
use std::io::{ErrorKind, Write};
use std::os::unix::fs::MetadataExt;
use std::rt::Runtime;
use std::{fs, io};
use world_api::{dvc_path, lane_path, tmp_path};

/// The lane that was begun last. It stays open, so that its bytes stand in one file, whoever else begins
/// a lane of that number meanwhile.
#[derive(Drop)]
pub(crate) struct OpenLane<F> {
    number: u32,
    file: F,
}

impl<R: Runtime> Folder<R> {
    /// Makes the lane a new, empty file, in place of what stands there.
    pub(crate) fn begin(&mut self, lane: u32) -> io::Result<()> {
        self.forget();
        self.lane = None;
        self.make_lanes_folder()?;
        let file = self.make_lane(lane)?;
        self.lane = Some(OpenLane { number: lane, file });
        Ok(())
    }

    /// Puts the bytes at the end of the lane.
    pub(crate) fn append(&mut self, lane: u32, bytes: &[u8]) -> io::Result<()> {
        self.forget_lane();
        if let Some(open) = &mut self.lane {
            if open.number == lane {
                return open.file.write_all(bytes);
            }
        }
        self.append_by_path(lane, bytes)
    }

    /// Puts the lane's bytes on the disk. Its name may be lost in a stop, and nothing rests on that: a lane
    /// is begun anew after a stop, and `publish` puts on the disk the name under which the bytes stand from
    /// then on.
    pub(crate) fn settle(&mut self, lane: u32) -> io::Result<()> {
        if let Some(open) = &self.lane {
            if open.number == lane {
                return open.file.sync_all();
            }
        }
        let place = self.lane_place(lane)?;
        sync(&self.rt, place.as_str())
    }

    /// Moves the lane to the path, in one step. The folder above is put on the disk too, since it holds the
    /// file's name. A lane that is open is let go: it moves, or the path may be its own.
    pub(crate) fn publish(&mut self, lane: u32, at: &Rel) -> io::Result<()> {
        self.forget();
        let moved = self.move_lane(lane, at);
        self.lane = None;
        moved?;
        self.sync_above(at)
    }

    fn move_lane(&self, lane: u32, at: &Rel) -> io::Result<()> {
        match &self.lane {
            Some(open) if open.number == lane => self.move_open(open, at),
            _ => self.move_by_name(lane, at),
        }
    }

    fn move_by_name(&self, lane: u32, at: &Rel) -> io::Result<()> {
        let from = self.lane_place(lane)?;
        self.rename(from.as_str(), at)
    }

    // Another process may have put a file of its own at the lane's name meanwhile, which may not be whole
    // yet. So what stands there is moved first to a name that no other process gives, and goes to the path
    // only if it's the open file. Else, and where the path can't be had, it goes back, so that no more is
    // lost than the call.
    fn move_open(&self, open: &OpenLane<R::File>, at: &Rel) -> io::Result<()> {
        let number = open.file.metadata()?.ino();
        let lane = self.lane_place(open.number)?;
        let own = self.own_place(number)?;
        self.move_over(lane.as_str(), own.as_str(), number, at)
    }

    fn move_over(&self, lane: &str, own: &str, number: u64, at: &Rel) -> io::Result<()> {
        fs::rename(&self.rt, lane, own)?;
        let moved = self.move_own(own, number, at);
        if moved.is_err() {
            let _ = fs::rename(&self.rt, own, lane);
        }
        moved
    }

    fn move_own(&self, own: &str, number: u64, at: &Rel) -> io::Result<()> {
        if fs::symlink_metadata(&self.rt, own)?.ino() != number {
            return Err(io::Error::from(ErrorKind::NotFound));
        }
        self.rename(own, at)
    }

    fn rename(&self, from: &str, at: &Rel) -> io::Result<()> {
        let to = self.place(at)?;
        fs::rename(&self.rt, from, to.as_str())
    }

    // No two files have one number while both are open, so no other process that runs gives this name.
    fn own_place(&self, number: u64) -> io::Result<String> {
        let mut place = self.tmp_place()?;
        write!(place, "/own-{number}")?;
        Ok(place)
    }

    fn tmp_place(&self) -> io::Result<String> {
        let at = in_memory(tmp_path(self.alloc))?;
        Ok(self.place(&at)?)
    }

    // A file at the folder of the lanes gives way to it; one at the folder above is an error, since it is
    // none of the tool's.
    fn make_lanes_folder(&self) -> io::Result<()> {
        let tmp = in_memory(tmp_path(self.alloc))?;
        self.make_tmp(&tmp)
    }

    fn make_tmp(&self, tmp: &Rel) -> io::Result<()> {
        if self.stands(tmp)? {
            return Ok(());
        }
        self.make_tools_folder()?;
        self.remove(tmp)?;
        self.make(tmp)
    }

    fn make_tools_folder(&self) -> io::Result<()> {
        let dvc = in_memory(dvc_path(self.alloc))?;
        self.make_if_missing(&dvc)
    }

    // What stands there is removed first: a link would lead elsewhere, and a file with a second name, or in
    // another program's hands, would lose its bytes there too.
    fn make_lane(&self, lane: u32) -> io::Result<R::File> {
        let place = self.lane_place(lane)?;
        remove_place(&self.rt, place.as_str())?;
        OpenOptions::new()
            .append(true)
            .create_new(true)
            .open(&self.rt, place.as_str())
    }

    fn append_by_path(&self, lane: u32, bytes: &[u8]) -> io::Result<()> {
        let place = self.lane_place(lane)?;
        let mut file = OpenOptions::new()
            .append(true)
            .open(&self.rt, place.as_str())?;
        file.write_all(bytes)
    }

    fn lane_place(&self, lane: u32) -> io::Result<String> {
        let at = in_memory(lane_path(self.alloc, lane))?;
        Ok(self.place(&at)?)
    }
}
