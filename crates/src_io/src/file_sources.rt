ghost use Rattle.std.specs.Prelude.{◌≡◌, None, is_some};

use crate::{Failed, OpenEnd, Sources};
use std::fs;
use std::io::Read;
use std::rt::Files;

/// The files of a runtime. They tell nothing of what they hold; each read that fails is counted.
#[derive(Drop)]
pub struct FileSources<'a, R: Files> {
    rt: &'a R,
    current: Option<R::File>,
    faults: u64,
}

impl<'a, R: Files> FileSources<'a, R> {
    /// The files that a runtime reaches, of which none is open.
    pub fn new(rt: &'a R) -> FileSources<'a, R>
        ensures told { ⟦<FileSources<'a, R> as Sources>⟧.told result ≡ None }
        ensures faults { ⟦<FileSources<'a, R> as Sources>⟧.faults result ≡ 0 }
    {
        FileSources {
            rt,
            current: None,
            faults: 0,
        }
    }
}

impl<'a, R: Files> Sources for FileSources<'a, R> {
    ghost told = { λ _. None };

    ghost is_open = { λ s. is_some s.current };

    ghost faults = { λ s. s.faults };

    /// A file that cannot be opened is missing.
    fn open_named(&mut self, name: &str) -> Result<(), OpenEnd> {
        match fs::open(self.rt, name) {
            Ok(file) => {
                self.current = Some(file);
                Ok(())
            }
            Err(_) => Err(OpenEnd::Missing),
        }
    }

    fn read(&mut self, into: &mut [u8]) -> Result<usize, Failed> {
        let Some(file) = &mut self.current else {
            unreachable!()
        };
        match file.read(into) {
            Ok(count) => Ok(count),
            Err(_) => {
                self.faults = self.faults.saturating_add(1);
                Err(Failed)
            }
        }
    }
}
