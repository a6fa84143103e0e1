// Real files and the standard output: the trusted edge, which tells nothing of what the store or the output holds.
ghost use Rattle.std.specs.Prelude.{◌≡◌, ◌≤◌, None, length, IfOk};
ghost use Rattle.chart_dev.specs.Faults.{Rose, HasCause};

use crate::shelf::fault;
use crate::{Failed, Shelf, Sink};
use std::fs::OpenOptions;
use std::io::{Read, Seek, SeekFrom, Write};
use std::marker::Model;
use std::rt::Files;
use std::{fs, io};

// The most that one read takes.
const PIECE: usize = 65536;

/// Files by their paths. It tells no contents, and counts each call that the system refuses, cuts short or fails.
#[derive(Drop)]
pub struct HostShelf<'a, R: Files> {
    rt: &'a R,
    faults: u64,
}

impl<'a, R: Files> Model for HostShelf<'a, R> {
    ghost use Rattle.std.specs.Prelude.{ℕ};

    ghost Value = { ℕ };

    ghost view = { λ s. s.faults };
}

impl<'a, R: Files> HostShelf<'a, R> {
    /// The files that the runtime reaches, with no fault counted.
    pub fn new(rt: &'a R) -> Self
        ensures { result ≡ 0 }
    {
        HostShelf { rt, faults: 0 }
    }
}

// Nothing is promised of what a read leaves behind the bytes that it reads.
fn read(files: &impl Files, name: &str, at: u64, piece: &mut [u8]) -> io::Result<usize>
    ensures { IfOk result (λ n. n ≤ length piece.old) }
{
    let mut file = fs::open(files, name)?;
    file.seek(SeekFrom::Start(at))?;
    file.read(piece)
}

fn create(files: &impl Files, name: &str) -> io::Result<()> {
    let _file = fs::create(files, name)?;
    Ok(())
}

fn add(files: &impl Files, name: &str, piece: &[u8]) -> io::Result<usize>
    ensures { IfOk result (λ n. n ≤ length piece.now) }
{
    let mut file = OpenOptions::new().append(true).open(files, name)?;
    file.write(piece)
}

impl<R: Files> Shelf for HostShelf<'_, R> {
    ghost told = { λ _. None };

    ghost faults = { λ s. s };

    fn read_at(&mut self, name: &str, at: u64, buf: &mut [u8]) -> Result<usize, Failed> {
        let mut piece = [0u8; PIECE];
        let room = buf.len().min(PIECE);
        match read(self.rt, name, at, &mut piece[..room]) {
            Ok(count) => {
                buf[..count].copy_from_slice(&piece[..count]);
                Ok(count)
            }
            Err(_) => Err(fault(&mut self.faults)),
        }
    }

    fn start(&mut self, name: &str) -> Result<(), Failed> {
        match create(self.rt, name) {
            Ok(()) => Ok(()),
            Err(_) => Err(fault(&mut self.faults)),
        }
    }

    fn append(&mut self, name: &str, piece: &[u8]) -> Result<usize, Failed> {
        match add(self.rt, name, piece) {
            Ok(count) if count > 0 || piece.is_empty() => Ok(count),
            _ => Err(fault(&mut self.faults)),
        }
    }
}

/// The standard output. It tells nothing of what was taken, and counts each call that the system refuses or fails.
#[derive(Drop)]
pub struct HostOut<'a, R: Print> {
    rt: &'a R,
    faults: u64,
}

impl<'a, R: Print> Model for HostOut<'a, R> {
    ghost use Rattle.std.specs.Prelude.{ℕ};

    ghost Value = { ℕ };

    ghost view = { λ s. s.faults };
}

impl<'a, R: Print> HostOut<'a, R> {
    /// The standard output of the runtime, with no fault counted.
    pub fn new(rt: &'a R) -> Self
        ensures { result ≡ 0 }
    {
        HostOut { rt, faults: 0 }
    }
}

impl<R: Print> Sink for HostOut<'_, R> {
    ghost taken = { λ _. None };

    ghost faults = { λ s. s };

    fn put(&mut self, piece: &[u8]) -> Result<usize, Failed> {
        match self.rt.write_some(piece) {
            Ok(count) if count > 0 || piece.is_empty() => Ok(count),
            _ => Err(fault(&mut self.faults)),
        }
    }
}
