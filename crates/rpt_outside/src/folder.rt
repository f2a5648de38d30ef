// A real folder. It tells no bytes and no missing names, and has one count of faults for all names.
ghost use Rattle.std.specs.Prelude.{None, false, is_some};

use crate::traits::{Failed, Files};
use std::fs;
use std::io::Read;
use std::rt::Files as Host;

/// The files of a runtime, whose names are paths. Whatever the system refuses is a fault, a name that isn't UTF-8 too.
///
/// There is one count of faults for all names, and while a file is open every name counts as the started one.
#[derive(Drop)]
pub struct FolderFiles<H: Host> {
    host: H,
    file: Option<H::File>,
    faults: u64,
}

impl<H: Host> FolderFiles<H> {
    /// The files of that runtime, none of them started.
    pub fn new(host: H) -> FolderFiles<H> {
        FolderFiles {
            host,
            file: None,
            faults: 0,
        }
    }
}

impl<H: Host> Files for FolderFiles<H> {
    ghost is_missing = { λ _ _. false };

    ghost contents = { λ _ _. None };

    ghost is_started = { λ s _. is_some s.file };

    ghost left = { λ _. None };

    ghost faults = { λ s _. s.faults };

    fn start_file(&mut self, name: &[u8]) -> Result<(), Failed> {
        self.file = open_named(&self.host, name);
        if self.file.is_some() {
            return Ok(());
        }
        self.faults = self.faults.saturating_add(1);
        Err(Failed)
    }

    fn read(&mut self, into: &mut [u8]) -> Result<usize, Failed> {
        let Some(file) = &mut self.file else {
            return Ok(0);
        };
        match file.read(into) {
            Ok(count) => Ok(count),
            Err(_) => {
                self.faults = self.faults.saturating_add(1);
                Err(Failed)
            }
        }
    }
}

fn open_named<H: Host>(host: &H, name: &[u8]) -> Option<H::File> {
    let path = str::from_utf8(name).ok()?;
    fs::open(host, path).ok()
}
