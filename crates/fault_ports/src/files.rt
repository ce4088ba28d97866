// Ports over files: the edge that no proof reaches past. What they do with what a file answers is proved for every
// kind of file, by what that kind tells of its bytes.
ghost use Rattle.std.specs.Prelude.{◌≡◌, ◌≤◌, ◌<◌, true, false, length, None, IfOk, IfSome, OnOk, OnErr};
ghost use Rattle.std.specs.Io.KnownBytes.{ReadConsumes, WriteAppends};
ghost use Rattle.fault_ports.specs.Causes.{HasCause, no_faults, with_fault};
ghost use Rattle.fault_ports.specs.Files.{has_file, told_by};

use crate::faults::{Failed, Faults};
use crate::ports::{Sink, Source};
use net_types::Text;
use std::io::{Read, Write};
use std::marker::Model;
use std::rt::Files;
use std::{fs, str};

/// A source over a file, which it opens at the first `take` and keeps open. It tells what is left where the open file
/// does; real files tell nothing. Its faults are a name that can't be opened and a read that fails.
#[derive(Drop)]
pub struct FileSource<'a, R: Files> {
    rt: &'a R,
    name: Text,
    file: Option<R::File>,
    faults: Faults,
}

impl<'a, R: Files> Model for FileSource<'a, R> {
    ghost use Rattle.fault_ports.specs.Files.{FileState, has_file, told_by};

    ghost Value = { FileState };

    ghost view = { λ s. record {
      name = s.name;
      is_open = has_file s.file;
      told = told_by R.File.remaining s.file;
      faults = s.faults;
    } };
}

impl<'a, R: Files> FileSource<'a, R> {
    /// A source over the file of this name. It opens nothing yet.
    pub fn new(rt: &'a R, name: Text) -> FileSource<'a, R>
        ensures { result ≡ record { name = name; is_open = false; told = None; faults = no_faults } }
    {
        FileSource {
            rt,
            name,
            file: None,
            faults: Faults::none(),
        }
    }
}

impl<'a, R: Files> Source for FileSource<'a, R> {
    ghost left = { λ s. s.told };

    ghost faults = { λ s. s.faults };

    fn take(&mut self, buf: &mut [u8]) -> Result<usize, Failed>
        ensures within { IfOk result (λ count. count ≤ length buf.new) }
        ensures bytes { ReadConsumes self.old.told self.new.told result buf.new }
        ensures cause { HasCause self.old.faults self.new.faults result }
        ensures answered { OnOk result (self.new.faults.failed ≡ false) }

        // It counts one fault, and keeps its name and its file.
        ensures failed { OnErr result (self.new.faults ≡ with_fault self.old.faults) }
        ensures name { self.new.name ≡ self.old.name }
        ensures opened { OnOk result (self.new.is_open ≡ true) }
        ensures kept_open { self.old.is_open ≡ true → self.new.is_open ≡ true }
    {
        if self.file.is_none() {
            self.file = opened(self.rt, &self.name);
        }
        match read_from::<R>(&mut self.file, buf) {
            Ok(count) => {
                self.faults.pass();
                Ok(count)
            }
            Err(Failed) => Err(self.faults.fail()),
        }
    }
}

// Opens the file of this name. None is a name that can't be opened.
fn opened<R: Files>(rt: &R, name: &Text) -> Option<R::File> {
    let path = path_of(name)?;
    fs::open(rt, path).ok()
}

// Makes the file of this name, or makes it empty. None is a name that can't be made.
fn created<R: Files>(rt: &R, name: &Text) -> Option<R::File> {
    let path = path_of(name)?;
    fs::create(rt, path).ok()
}

// The name as text.
fn path_of(name: &Text) -> Option<&str>
    ensures { IfSome result (λ path. path.now ≡ name.now) }
{
    match str::from_utf8(name.as_slice()) {
        Ok(path) => Some(path),
        Err(_) => None,
    }
}

// Reads once from an open file.
fn read_from<R: Files>(file: &mut Option<R::File>, buf: &mut [u8]) -> Result<usize, Failed>
    ensures within { IfOk result (λ count. count ≤ length buf.new) }
    ensures bytes { ReadConsumes (told_by R.File.remaining file.old)
        (told_by R.File.remaining file.new) result buf.new }
    ensures file { has_file file.new ≡ has_file file.old }
    ensures opened { OnOk result (has_file file.new ≡ true) }
{
    match file {
        Some(file) => read_once(file, buf),
        None => Err(Failed),
    }
}

// Reads once. `Failed` is a read that failed.
fn read_once<T: Read>(file: &mut T, buf: &mut [u8]) -> Result<usize, Failed>
    ensures within { IfOk result (λ count. count ≤ length buf.new) }
    ensures bytes { ReadConsumes (T.remaining file.old) (T.remaining file.new) result buf.new }
{
    match file.read(buf) {
        Ok(count) => Ok(count),
        Err(_) => Err(Failed),
    }
}

/// A sink over a file, which it makes, or makes empty, at the first `put` and keeps open. It tells what it holds where
/// the open file does; real files tell nothing. Its faults are a name that can't be opened, a write that fails and a
/// write that accepts nothing of a piece that isn't empty.
#[derive(Drop)]
pub struct FileSink<'a, R: Files> {
    rt: &'a R,
    name: Text,
    file: Option<R::File>,
    faults: Faults,
}

impl<'a, R: Files> Model for FileSink<'a, R> {
    ghost use Rattle.fault_ports.specs.Files.{FileState, has_file, told_by};

    ghost Value = { FileState };

    ghost view = { λ s. record {
      name = s.name;
      is_open = has_file s.file;
      told = told_by R.File.contents s.file;
      faults = s.faults;
    } };
}

impl<'a, R: Files> FileSink<'a, R> {
    /// A sink over the file of this name. It makes nothing yet.
    pub fn new(rt: &'a R, name: Text) -> FileSink<'a, R>
        ensures { result ≡ record { name = name; is_open = false; told = None; faults = no_faults } }
    {
        FileSink {
            rt,
            name,
            file: None,
            faults: Faults::none(),
        }
    }
}

impl<'a, R: Files> Sink for FileSink<'a, R> {
    ghost held = { λ s. s.told };

    ghost faults = { λ s. s.faults };

    fn put(&mut self, piece: &[u8]) -> Result<usize, Failed>
        ensures within { IfOk result (λ count. count ≤ length piece.now) }
        ensures moves { IfOk result (λ count. 0 < length piece.now → 0 < count) }
        ensures bytes { WriteAppends self.old.told self.new.told result piece.now }
        ensures cause { HasCause self.old.faults self.new.faults result }
        ensures answered { OnOk result (self.new.faults.failed ≡ false) }

        // It counts one fault, and keeps its name and its file.
        ensures failed { OnErr result (self.new.faults ≡ with_fault self.old.faults) }
        ensures name { self.new.name ≡ self.old.name }
        ensures opened { OnOk result (self.new.is_open ≡ true) }
        ensures kept_open { self.old.is_open ≡ true → self.new.is_open ≡ true }
    {
        if self.file.is_none() {
            self.file = created(self.rt, &self.name);
        }
        match write_to::<R>(&mut self.file, piece) {
            Ok(count) => {
                self.faults.pass();
                Ok(count)
            }
            Err(Failed) => Err(self.faults.fail()),
        }
    }
}

// Writes once to an open file.
fn write_to<R: Files>(file: &mut Option<R::File>, piece: &[u8]) -> Result<usize, Failed>
    ensures within { IfOk result (λ count. count ≤ length piece.now) }
    ensures moves { IfOk result (λ count. 0 < length piece.now → 0 < count) }
    ensures bytes { WriteAppends (told_by R.File.contents file.old)
        (told_by R.File.contents file.new) result piece.now }
    ensures file { has_file file.new ≡ has_file file.old }
    ensures opened { OnOk result (has_file file.new ≡ true) }
{
    match file {
        Some(file) => write_once(file, piece),
        None => Err(Failed),
    }
}

// Writes once. `Failed` is a write that failed, or that accepted nothing of a piece that isn't empty.
fn write_once<T: Write>(file: &mut T, piece: &[u8]) -> Result<usize, Failed>
    ensures within { IfOk result (λ count. count ≤ length piece.now) }
    ensures moves { IfOk result (λ count. 0 < length piece.now → 0 < count) }
    ensures bytes { WriteAppends (T.contents file.old) (T.contents file.new) result piece.now }
{
    match file.write(piece) {
        Ok(0) if !piece.is_empty() => Err(Failed),
        Ok(count) => Ok(count),
        Err(_) => Err(Failed),
    }
}
