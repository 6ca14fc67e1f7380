//! A file system that refuses one kind of call, or in which a file changes as it is opened.

use crate::folders::{set_mode, set_time};
use std::alloc::{Allocator, Global};
use std::fs::{self, File, Files, Metadata, OpenOptions};
use std::io::{Error, Read, Result, Write};

/// The calls that can be refused.
#[derive(Clone, Copy, PartialEq, Eq)]
pub enum Call {
    Look,
    Open,
    Enter,
    List,
    /// A file takes the place at these paths.
    Move,
}

impl Call {
    /// Its name.
    pub fn name(self) -> &'static str {
        match self {
            Call::Look => "looking at",
            Call::Open => "opening",
            Call::Enter => "entering",
            Call::List => "listing",
            Call::Move => "moving",
        }
    }
}

/// What is refused: a call on the paths with this end, with the error of this number.
#[derive(Clone, Copy)]
pub struct Refusal(pub Call, pub &'static str, pub i32);

/// What becomes of each file just before it is opened.
#[derive(Clone, Copy)]
pub enum Change {
    /// It grows by a byte, and keeps its time.
    Grows,
    /// Another file takes its place.
    GivesWay,
}

/// The files of this machine, but for what is refused and what changes.
#[derive(Clone, Copy)]
pub struct Refusing {
    pub rt: HostRuntime,
    pub refusal: Option<Refusal>,
    pub change: Option<Change>,
    /// The names that each folder lists in place of its own, each with a zero byte behind it.
    pub names: Option<&'static [u8]>,
}

/// The names of a folder.
#[derive(Drop)]
pub enum Names {
    Own(<HostRuntime as Files>::Dir),
    Given(&'static [u8]),
    /// Reading them gives the error of this number.
    Refused(i32),
}

impl Read for Names {
    fn read(&mut self, buf: &mut [u8]) -> Result<usize> {
        match self {
            Names::Own(names) => names.read(buf),
            Names::Given(names) => names.read(buf),
            Names::Refused(number) => Err(Error::from_raw_os_error(*number)),
        }
    }
}

impl Refusing {
    /// The files of this machine.
    pub fn nothing(rt: HostRuntime) -> Refusing {
        Refusing {
            rt,
            refusal: None,
            change: None,
            names: None,
        }
    }

    /// The number of the error that refuses the call, if one does.
    fn refusal_of(&self, call: Call, path: &str) -> Option<i32> {
        match self.refusal {
            Some(Refusal(refused, end, number)) if refused == call && path.ends_with(end) => {
                Some(number)
            }
            _ => None,
        }
    }

    /// Refuses the call, or lets it through.
    fn judge(&self, call: Call, path: &str) -> Result<()> {
        match self.refusal_of(call, path) {
            Some(number) => Err(Error::from_raw_os_error(number)),
            None => Ok(()),
        }
    }

    /// Another file takes a file's place.
    fn give_way(&self, path: &str) -> Result<()> {
        let other = format!(in self.rt.alloc(); "{path}.other")?;
        fs::write(&self.rt, other.as_str(), "four")?;
        set_mode(&self.rt, other.as_str(), 0o600)?;
        fs::rename(&self.rt, other.as_str(), path)
    }

    /// Changes a file.
    fn change(&self, path: &str) -> Result<()> {
        match self.change {
            Some(Change::Grows) => grow(&self.rt, path),
            Some(Change::GivesWay) => self.give_way(path),
            None => Ok(()),
        }
    }
}

/// Adds a byte to a file, which keeps its time.
fn grow(rt: &HostRuntime, path: &str) -> Result<()> {
    let mut file = File::options().append(true).open(rt, path)?;
    file.write_all(b"!")?;
    set_time(&file)
}

impl Alloc for Refusing {
    type A = Global;

    fn alloc(&self) -> Global {
        self.rt.alloc()
    }
}

impl Files for Refusing {
    type File = File;

    type Dir = Names;

    fn open_file(&self, how: &OpenOptions, path: &str) -> Result<File> {
        self.judge(Call::Open, path)?;
        self.change(path)?;
        self.rt.open_file(how, path)
    }

    fn open_dir(&self, path: &str) -> Result<Names> {
        self.judge(Call::Enter, path)?;
        match (self.refusal_of(Call::List, path), self.names) {
            (Some(number), _) => Ok(Names::Refused(number)),
            (None, Some(names)) => Ok(Names::Given(names)),
            (None, None) => Ok(Names::Own(self.rt.open_dir(path)?)),
        }
    }

    fn metadata(&self, path: &str) -> Result<Metadata> {
        self.rt.metadata(path)
    }

    fn symlink_metadata(&self, path: &str) -> Result<Metadata> {
        self.judge(Call::Look, path)?;
        self.rt.symlink_metadata(path)
    }

    fn copy(&self, from: &str, to: &str) -> Result<u64> {
        self.rt.copy(from, to)
    }

    fn rename(&self, from: &str, to: &str) -> Result<()> {
        self.judge(Call::Move, to)?;
        self.rt.rename(from, to)
    }

    fn remove_file(&self, path: &str) -> Result<()> {
        self.rt.remove_file(path)
    }

    fn create_dir(&self, path: &str) -> Result<()> {
        self.rt.create_dir(path)
    }

    fn create_dir_with_mode(&self, path: &str, mode: u32) -> Result<()> {
        self.rt.create_dir_with_mode(path, mode)
    }

    fn remove_dir(&self, path: &str) -> Result<()> {
        self.rt.remove_dir(path)
    }

    fn remove_dir_all<B: Allocator>(&self, alloc: B, path: &str) -> Result<()> {
        self.rt.remove_dir_all(alloc, path)
    }
}
