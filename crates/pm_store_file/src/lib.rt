//! A node's store over a file: the trusted edge. No contract says what a file holds, so the clauses of the trait on a crash have no content here.
//!
//! Another value is put whole into a file beside the first, which is synced, takes the other's name, and then the folder is synced. So a crash
//! leaves the old value or the new one, if the system's rename and sync do what they say.
#![tactic(auto)]

ghost use Rattle.std.specs.Prelude.{◌≡◌, IfOk};

use pm_io::Failed;
use pm_store::Store;
use std::alloc::{AllocError, Global};
use std::fs;
use std::fs::OpenFile;
use std::io::{self, ErrorKind, Read, Write};
use std::rt::Files;

/// Why no store was opened.
#[derive(Clone, Copy, Debug)]
pub enum OpenFault {
    /// The file is there and cannot be read.
    Unreadable,
    /// Memory is wanting.
    NoMemory,
}

impl From<AllocError> for OpenFault {
    fn from(_: AllocError) -> Self {
        OpenFault::NoMemory
    }
}

/// A value in the file `store` of a folder.
#[derive(Drop)]
pub struct FileStore<'a, R> {
    rt: &'a R,
    alloc: Global,
    path: String,
    beside: String,
    folder: String,
    value: Vec<u8>,
    faults: u64,
}

/// The path of a file of this name in a folder.
fn path_of(alloc: Global, folder: &str, name: &str) -> Result<String, AllocError> {
    format!(in alloc; "{folder}/{name}")
}

/// Reads the file; it is empty where there is none.
fn read_file<R: Files>(rt: &R, alloc: Global, path: &str) -> Result<Vec<u8>, OpenFault> {
    let mut value = Vec::new(alloc);
    match fs::open(rt, path) {
        Ok(mut file) => match file.read_to_end(&mut value) {
            Ok(_) => Ok(value),
            Err(_) => Err(OpenFault::Unreadable),
        },
        Err(e) if e.kind() == ErrorKind::NotFound => Ok(value),
        Err(_) => Err(OpenFault::Unreadable),
    }
}

impl<'a, R: Files> FileStore<'a, R> {
    /// Opens the store in this folder, which is there. Its value is what the file `store` holds, and empty where there is no such file. One
    /// process at a time may have it open.
    pub fn open(rt: &'a R, alloc: Global, folder: &str) -> Result<Self, OpenFault>
        ensures { IfOk result (λ store. store.faults ≡ 0) }
    {
        let path = path_of(alloc, folder, "store")?;
        let beside = path_of(alloc, folder, "store.new")?;
        let folder = path_of(alloc, folder, ".")?;
        let value = read_file(rt, alloc, path.as_str())?;
        Ok(FileStore {
            rt,
            alloc,
            path,
            beside,
            folder,
            value,
            faults: 0,
        })
    }

    fn put(&self, value: &[u8]) -> io::Result<()> {
        let mut file = fs::create(self.rt, self.beside.as_str())?;
        file.write_all(value)?;
        file.sync_all()?;
        fs::rename(self.rt, self.beside.as_str(), self.path.as_str())?;
        let folder = fs::open(self.rt, self.folder.as_str())?;
        folder.sync_all()
    }
}

impl<R: Files> Store for FileStore<'_, R> {
    ghost seen = { λ store. store.value.items };

    // A crash leaves what no contract knows.
    ghost may_leave = { λ _ _. ⊥ };

    ghost has_left = { λ _ _. ⊥ };

    ghost faults = { λ store. store.faults };

    ghost counts_now = { λ _ _ left. left };

    fn value(&self) -> &[u8] {
        self.value.as_slice()
    }

    fn replace(&mut self, value: &[u8]) -> Result<(), Failed> {
        if let Ok(copy) = value.to_vec(self.alloc) {
            if self.put(value).is_ok() {
                self.value = copy;
                return Ok(());
            }
        }
        self.faults = self.faults.saturating_add(1);
        Err(Failed)
    }
}
