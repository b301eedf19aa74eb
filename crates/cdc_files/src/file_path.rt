//! Paths of the files of a folder.

ghost use Rattle.std.specs.Prelude.{◌≡◌, ◌++◌, codes, IfOk, IfSome, OnSome};
ghost use Rattle.cdc_files.specs.FileNames.{six_digits, disk_file_name, path_in};

use cdc_base::{Memory, Text};
use cdc_outside::DiskFile;
use itoa::Buffer;
use std::alloc::Global;
use std::str;

/// How many bytes a file's name has at most, with the slash in front.
const NAME_MOST: usize = 28;

/// A folder's path, and room for the path of one of its files, so that none takes memory.
#[derive(Debug, Drop)]
pub struct FilePath {
    folder: Text,
    path: Vec<u8>,
}

impl FilePath {
    /// Paths in this folder; an empty text stands for the one that is at hand.
    pub fn new(alloc: Global, folder: &Text) -> Result<FilePath, Memory> {
        let folder = match folder.as_str() {
            "" => ".",
            folder => folder,
        };
        let most = folder.len().saturating_add(NAME_MOST);
        Ok(FilePath {
            folder: Text::of(alloc, folder)?,
            path: Vec::with_capacity(alloc, most)?,
        })
    }

    /// The folder's path.
    pub fn folder(&self) -> &str
        ensures { result.now ≡ self.now.folder }
    {
        self.folder.as_str()
    }

    /// The path of a file.
    pub fn of(&mut self, file: DiskFile) -> Option<&str>
        ensures { IfSome result (λ path. path.now ≡ path_in self.old.folder file) }
    {
        self.start()?;
        self.add_name(file)?;
        str::from_utf8(&self.path).ok()
    }

    /// The path of what the folder stands in.
    pub fn parent(&mut self) -> Option<&str>
        ensures { IfSome result (λ path. path.now ≡ self.old.folder ++ codes "/..") }
    {
        self.start()?;
        self.add(b"..")?;
        str::from_utf8(&self.path).ok()
    }

    /// Begins a path: the folder's, and a slash.
    fn start(&mut self) -> Option<()>
        ensures path { OnSome result (self.new.path.items ≡ self.old.folder ++ codes "/") }
        ensures folder { self.new.folder ≡ self.old.folder }
    {
        self.path.clear();
        self.path.extend_from_slice(self.folder.bytes()).ok()?;
        self.add(b"/")
    }

    /// Adds a file's name.
    fn add_name(&mut self, file: DiskFile) -> Option<()>
        ensures path { OnSome result (self.new.path.items ≡ self.old.path.items ++ disk_file_name file) }
        ensures folder { self.new.folder ≡ self.old.folder }
    {
        match file {
            DiskFile::SlotA => self.add(b"slot.a"),
            DiskFile::SlotB => self.add(b"slot.b"),
            DiskFile::Log(number) => {
                self.add(b"binlog.")?;
                self.add_number(number)
            }
        }
    }

    /// Adds a number with at least six digits.
    fn add_number(&mut self, number: u64) -> Option<()>
        ensures path { OnSome result (self.new.path.items ≡ self.old.path.items ++ six_digits number) }
        ensures folder { self.new.folder ≡ self.old.folder }
    {
        let mut buffer = Buffer::new();
        let digits = buffer.format(number).as_bytes();
        let zeros = b"000000".as_slice();
        self.add(&zeros[digits.len().min(6)..])?;
        self.add(digits)
    }

    /// Adds these bytes.
    fn add(&mut self, bytes: &[u8]) -> Option<()>
        ensures path { OnSome result (self.new.path.items ≡ self.old.path.items ++ bytes.now) }
        ensures folder { self.new.folder ≡ self.old.folder }
    {
        self.path.extend_from_slice(bytes).ok()
    }
}
