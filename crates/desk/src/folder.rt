// Names with their contents, in memory.
ghost use Rattle.std.specs.Prelude.{◌≡◌, ◌≢◌, true, false, ◌<◌, ◌++◌, ℕ, [], ◌∷◌, length, map, option_copied, IfSome, IfNone, OnOk, OnErr};
ghost use Rattle.std.specs.FinMap.{empty, get, insert};
ghost use Rattle.desk.specs.Folder.{entry, entry_at, bytes_of, IsFirst, IsNowhere, IsReplaced, IsExtended};

use std::alloc::{AllocError, Global};
use std::marker::Model;

/// A name and its contents.
#[derive(Drop)]
struct File {
    name: String,
    bytes: Vec<u8>,
}

/// Contents by name.
#[derive(Drop)]
pub struct Folder {
    alloc: Global,
    files: Vec<File>,
}

impl Model for Folder {
    ghost use Rattle.std.specs.Prelude.{ℕ, List};
    ghost use Rattle.std.specs.Ordering.{nat_cmp};
    ghost use Rattle.std.specs.Cmp.Lexicographic.{slice_cmp};
    ghost use Rattle.std.specs.FinMap.{FinMap, code};
    ghost use Rattle.std.specs.Coded.{coded_ℕ, coded_list};

    ghost Value = { FinMap (slice_cmp nat_cmp) (List ℕ) };

    ghost coded = { code (coded_list coded_ℕ) (coded_list coded_ℕ) };

    ghost use Rattle.desk.specs.Folder.{files_of};

    ghost view = { λ f. files_of f.files.items };
}

fn is_named(file: &File, name: &str) -> bool
    ensures yes { result ≡ true → (entry file.now).0 ≡ name.now }
    ensures no { result ≡ false → (entry file.now).0 ≢ name.now }
{
    file.name.as_str() == name
}

/// The place of the first file of a name.
fn place_of(files: &[File], name: &str) -> Option<usize>
    ensures found { IfSome result (IsFirst name.now (map entry files.now)) }
    ensures none { IfNone result (IsNowhere name.now (map entry files.now)) }
{
    let mut at = 0;
    'each: while at < files.len() {
        if is_named(&files[at], name) {
            return Some(at);
        }
        at += 1;
    }
    None
}

fn extend(file: &mut File, bytes: &[u8]) -> Result<(), AllocError>
    ensures ok { OnOk result
        (entry file.new ≡ ((entry file.old).0, (entry file.old).1 ++ bytes.now)) }
    ensures err { OnErr result (entry file.new ≡ entry file.old) }
{
    file.bytes.extend_from_slice(bytes)
}

/// Adds bytes to the file at a place.
fn extend_file(files: &mut Vec<File>, at: usize, bytes: &[u8]) -> Result<(), AllocError>
    requires { at < length files.old.items }
    ensures ok { OnOk result
        (IsExtended (map entry files.old.items) at bytes.now (map entry files.new.items)) }
    ensures err { OnErr result (map entry files.new.items ≡ map entry files.old.items) }
{
    extend(&mut files[at], bytes)
}

fn replace(file: &mut File, bytes: Vec<u8>)
    ensures { entry file.new ≡ ((entry file.old).0, bytes.items) }
{
    file.bytes = bytes;
}

/// Puts bytes in place of the contents of the file at a place. It takes no memory.
fn replace_file(files: &mut Vec<File>, at: usize, bytes: Vec<u8>)
    requires { at < length files.old.items }
    ensures { IsReplaced (map entry files.old.items) at bytes.items (map entry files.new.items) }
{
    replace(&mut files[at], bytes)
}

/// Adds a file.
fn add_file(
    alloc: Global,
    files: &mut Vec<File>,
    name: &str,
    bytes: Vec<u8>,
) -> Result<(), AllocError>
    ensures ok { OnOk result
        (map entry files.new.items ≡ map entry files.old.items ++ (name.now, bytes.items) ∷ []) }
    ensures err { OnErr result (map entry files.new.items ≡ map entry files.old.items) }
{
    let name = String::from_str(alloc, name)?;
    files.push(File { name, bytes })?;
    Ok(())
}

impl Folder {
    /// No names.
    pub fn new(alloc: Global) -> Self
        ensures { result ≡ empty }
    {
        Folder {
            alloc,
            files: Vec::new(alloc),
        }
    }

    /// The contents of a name, or None where it isn't there.
    pub fn get(&self, name: &str) -> Option<&[u8]>
        ensures { option_copied result ≡ get self.now name.now }
    {
        match place_of(&self.files, name) {
            Some(at) => Some(bytes_at(&self.files, at)),
            None => None,
        }
    }

    /// Adds bytes to the contents of a name, and makes it where it isn't there.
    pub fn append(&mut self, name: &str, bytes: &[u8]) -> Result<(), AllocError>
        ensures ok { OnOk result
            (self.new ≡ insert self.old name.now (bytes_of self.old name.now ++ bytes.now)) }
        ensures err { OnErr result (self.new ≡ self.old) }
    {
        match place_of(&self.files, name) {
            Some(at) => extend_file(&mut self.files, at, bytes),
            None => {
                let bytes = Vec::from_slice(self.alloc, bytes)?;
                add_file(self.alloc, &mut self.files, name, bytes)
            }
        }
    }

    /// Puts bytes in place of the contents of a name, and makes it where it isn't there.
    pub fn put(&mut self, name: &str, bytes: &[u8]) -> Result<(), AllocError>
        ensures ok { OnOk result (self.new ≡ insert self.old name.now bytes.now) }
        ensures err { OnErr result (self.new ≡ self.old) }
    {
        let bytes = Vec::from_slice(self.alloc, bytes)?;
        self.set(name, bytes)
    }

    /// Makes the contents of a name empty, and makes it where it isn't there.
    pub fn clear(&mut self, name: &str) -> Result<(), AllocError>
        ensures ok { OnOk result (self.new ≡ insert self.old name.now []) }
        ensures err { OnErr result (self.new ≡ self.old) }
    {
        self.set(name, Vec::new(self.alloc))
    }

    /// As `put`, of bytes that are there. It takes memory only for a name that isn't there.
    fn set(&mut self, name: &str, bytes: Vec<u8>) -> Result<(), AllocError>
        ensures ok { OnOk result (self.new ≡ insert self.old name.now bytes.items) }
        ensures err { OnErr result (self.new ≡ self.old) }
    {
        match place_of(&self.files, name) {
            Some(at) => {
                replace_file(&mut self.files, at, bytes);
                Ok(())
            }
            None => add_file(self.alloc, &mut self.files, name, bytes),
        }
    }
}

/// The contents of the file at a place.
fn bytes_at(files: &[File], at: usize) -> &[u8]
    requires { at < length files.now }
    ensures { result.now ≡ (entry_at (map entry files.now) at).1 }
{
    let file = &files[at];
    file.bytes.as_slice()
}
