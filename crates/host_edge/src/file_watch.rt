//! Whether an open file is still the one at its path, and as this program left it.

ghost use Rattle.std.specs.Prelude.{◌≡◌, ◌≢◌, ◌↔◌, max, Some, None, IsOk, IsSome, IfSome, OnOk, option_map};
ghost use Rattle.host_edge.specs.FileWatch.{length_of, loss_of, IsSameFile};
ghost use Rattle.host_edge.specs.declared.file_watch.Loss.TheVariants as loss;

use std::fs::{File, Metadata};
use std::io::ErrorKind;
use std::os::unix::fs::MetadataExt;
use std::{fs, io};

/// How a file was lost. It cannot come good while the program runs.
#[derive(Clone, Copy, Debug, PartialEq, Eq)]
pub enum Loss {
    /// No file is at its path.
    Removed,
    /// Another file is at its path.
    Replaced,
    /// Another program changed its length.
    Resized,
}

/// A file as the system names it, and its length in bytes.
#[derive(Clone, Copy)]
pub struct Seen {
    pub device: u64,
    pub inode: u64,
    pub length: u64,
}

impl Loss {
    /// The cause of each call after the loss.
    pub fn cause(self) -> io::Error {
        match self {
            Loss::Removed => io::Error::new(ErrorKind::NotFound, "the journal was removed"),
            Loss::Replaced => io::Error::new(ErrorKind::Other, "another file is at its path"),
            Loss::Resized => io::Error::new(ErrorKind::Other, "another program changed its length"),
        }
    }
}

impl Seen {
    fn of(metadata: &Metadata) -> Seen {
        Seen {
            device: metadata.dev(),
            inode: metadata.ino(),
            length: metadata.len(),
        }
    }
}

// How an open file was lost, if it was: by what is at its path, and the length that this program
// left, if that is known.
fn loss_between(held: Seen, at_path: Option<Seen>, known: Option<u64>) -> Option<Loss>
    ensures removed { (result ≡ Some loss.Removed) ↔ (at_path ≡ None) }
    ensures replaced { result ≡ Some loss.Replaced
        → IfSome at_path (λ there. IsSameFile held there → ⊥) }
    ensures resized { result ≡ Some loss.Resized → IfSome known (λ n. held.length ≢ n) }
    ensures same { result ≡ None → IfSome at_path (IsSameFile held) }
    ensures kept { result ≡ None → IfSome known (λ n. held.length ≡ n) }
{
    let Some(there) = at_path else {
        return Some(Loss::Removed);
    };
    if held.device != there.device || held.inode != there.inode {
        return Some(Loss::Replaced);
    }
    match known {
        Some(length) if length != held.length => Some(Loss::Resized),
        _ => None,
    }
}

// What is at a path, if anything is.
fn seen_at(rt: &HostRuntime, path: &str) -> io::Result<Option<Seen>> {
    match fs::metadata(rt, path) {
        Ok(found) => Ok(Some(Seen::of(&found))),
        Err(cause) if matches!(cause.kind(), ErrorKind::NotFound | ErrorKind::NotADirectory) => {
            Ok(None)
        }
        Err(cause) => Err(cause),
    }
}

/// The length in bytes that this program left in a file, as far as it is known, and how the file
/// was lost, if it was.
#[derive(Drop)]
pub struct FileWatch {
    length: Option<u64>,
    loss: Option<Loss>,
}

impl FileWatch {
    /// Before the first call.
    pub fn new() -> FileWatch
        ensures length { length_of result ≡ None }
        ensures loss { loss_of result ≡ None }
    {
        FileWatch {
            length: None,
            loss: None,
        }
    }

    /// How the file was lost, if it was.
    pub fn loss(&self) -> Option<Loss>
        ensures { result ≡ loss_of self.now }
    {
        self.loss
    }

    /// An error where the file is lost.
    pub fn test(&self) -> io::Result<()>
        ensures { IsOk result ↔ (loss_of self.now ≡ None) }
    {
        match self.loss {
            Some(loss) => Err(loss.cause()),
            None => Ok(()),
        }
    }

    /// The file has this length, if that is known.
    pub fn has(&mut self, length: Option<u64>)
        ensures length { length_of self.new ≡ length }
        ensures loss { loss_of self.new ≡ loss_of self.old }
    {
        self.length = length;
    }

    /// Bytes up to this place were written.
    pub fn wrote(&mut self, end: u64)
        ensures length { length_of self.new ≡ option_map (λ n. max n end) (length_of self.old) }
        ensures loss { loss_of self.new ≡ loss_of self.old }
    {
        if let Some(length) = self.length {
            self.length = Some(length.max(end));
        }
    }

    /// Compares the open file with what is at its path, before it is changed. An error where it is
    /// lost, or where the system does not say. What is lost stays so.
    pub fn look(&mut self, rt: &HostRuntime, path: &str, file: &File) -> io::Result<()>
        ensures length { length_of self.new ≡ length_of self.old }
        ensures ok { OnOk result (loss_of self.new ≡ None) }
        ensures stays { IsSome (loss_of self.old) → loss_of self.new ≡ loss_of self.old }
    {
        self.test()?;
        let held = Seen::of(&file.metadata()?);
        let at_path = seen_at(rt, path)?;
        self.loss = loss_between(held, at_path, self.length);
        self.test()
    }
}
