//! A disk that is a file of the present folder.
ghost use Rattle.std.specs.Prelude.{◌≡◌, ◌≤◌, IfOk, IfSome, OnOk, IsErrOf, length};
ghost use Rattle.tau_io.specs.Faults.{HasRisen};
ghost use Rattle.tau_journal.specs.Disk.Bytes.{AnyBytes, Writes, Reads, Torn, Follows, Only};
ghost use Rattle.tau_journal.specs.Disk.Files.{untold, AnySince, file_faults, faults_after};
ghost use Rattle.tau_journal.specs.Disk.Moments.{Elapses};

use crate::disk::disks::{Disk, DiskError};
use std::fs::{File, OpenOptions};
use std::io::{self, ErrorKind};
use std::os::unix::fs::FileExt;
use std::rt::Files;

/// The name of the file.
const NAME: &str = "tau.journal";

/// The file `tau.journal` of the present folder, which tells no bytes (`docs/rules.md`, "Disks").
///
/// The file is opened at the first call and made at the first write; a missing file has size 0. Where it was made or found empty,
/// its folder is synced before anything is written to it, so that a crash leaves the file. While it is open it is locked, and where
/// another process has it, each call fails. Each error of the file raises the count of faults, and nothing else does.
#[derive(Drop)]
pub struct FileDisk<'r, R: Files<File = File>> {
    place: Place<'r, R>,
    faults: u64,
}

impl<'r, R: Files<File = File>> FileDisk<'r, R> {
    /// The disk over the files of `files`, with no fault yet. It opens nothing.
    pub fn new(files: &'r R) -> FileDisk<'r, R>
        ensures { file_faults result ≡ 0 }
    {
        FileDisk {
            place: Place {
                files,
                file: None,
                is_kept: false,
            },
            faults: 0,
        }
    }

    /// The answer of a call; an error is counted.
    fn counted<T: Drop>(&mut self, answer: io::Result<T>) -> Result<T, DiskError>
        ensures failed { IsErrOf result DiskError.Failed → HasRisen (file_faults self.old) (file_faults self.new) }
        ensures never_falls { file_faults self.old ≤ file_faults self.new }
        ensures counted { file_faults self.new ≡ faults_after (file_faults self.old) result }
    {
        match answer {
            Ok(value) => Ok(value),
            Err(_) => {
                self.faults = self.faults.saturating_add(1);
                Err(DiskError::Failed)
            }
        }
    }
}

/// The file, locked, by a handle that is none of the three standard ones, also where one of these is closed: what is written there
/// must not come into the file. The handle of a clone never is.
fn locked(file: File) -> io::Result<File> {
    let file = file.try_clone()?;
    file.try_lock()?;
    Ok(file)
}

/// Where the file is, the file once it is open, and whether a crash is known to leave it: its folder was synced since it was made.
#[derive(Drop)]
struct Place<'r, R: Files<File = File>> {
    files: &'r R,
    file: Option<File>,
    is_kept: bool,
}

impl<'r, R: Files<File = File>> Place<'r, R> {
    /// The file, if there is one. Where it has bytes, its folder was synced before they were written.
    fn opened(&mut self) -> io::Result<Option<&File>> {
        if self.file.is_none() {
            match OpenOptions::new()
                .read(true)
                .write(true)
                .open(self.files, NAME)
            {
                Ok(file) => {
                    let file = locked(file)?;
                    self.is_kept = file.metadata()?.len() > 0;
                    self.file = Some(file);
                }
                Err(error) if error.kind() == ErrorKind::NotFound => return Ok(None),
                Err(error) => return Err(error),
            }
        }
        Ok(self.file.as_ref())
    }

    /// The file, which is made where there is none. Its folder is synced where a crash isn't known to leave the file, as where it
    /// was made now or found empty: it may have been made by a process that was killed before it synced the folder.
    fn made(&mut self) -> io::Result<&File> {
        if self.opened()?.is_none() {
            let file = OpenOptions::new()
                .read(true)
                .write(true)
                .create_new(true)
                .open(self.files, NAME)?;
            self.file = Some(locked(file)?);
        }
        if !self.is_kept {
            File::open(self.files, ".")?.sync_all()?;
            self.is_kept = true;
        }
        self.file
            .as_ref()
            .ok_or(io::Error::from(ErrorKind::NotFound))
    }

    /// How many bytes the file has.
    fn size(&mut self) -> io::Result<u64> {
        match self.opened()? {
            Some(file) => Ok(file.metadata()?.len()),
            None => Ok(0),
        }
    }

    /// Reads from `at` on.
    fn read(&mut self, at: u64, into: &mut [u8]) -> io::Result<()> {
        match self.opened()? {
            Some(file) => file.read_exact_at(into, at),
            None if into.is_empty() => Ok(()),
            None => Err(io::Error::from(ErrorKind::UnexpectedEof)),
        }
    }

    /// Writes from `at` on.
    fn write(&mut self, at: u64, from: &[u8]) -> io::Result<()> {
        self.made()?.write_all_at(from, at)
    }

    /// Syncs the file, if there is one.
    fn sync(&mut self) -> io::Result<()> {
        match self.opened()? {
            Some(file) => file.sync_data(),
            None => Ok(()),
        }
    }
}

impl<'r, R: Files<File = File>> Disk for FileDisk<'r, R> {
    ghost bytes = { λ _. untold };

    ghost images = { λ _ c. AnyBytes c };

    ghost moment = { λ _. 0 };

    ghost left_since = { λ _ t c. AnySince t c };

    ghost faults = { file_faults };

    ghost reads_as = { λ _. tt };

    ghost counts_now = { λ _ _ _ _ _. tt };

    ghost only_now = { λ _ _ _. tt };

    /// As of every disk.
    fn size(&mut self) -> Result<u64, DiskError>
        ensures size { IfOk result (λ n. IfSome untold (λ b. n ≡ length b)) }
        ensures time { Elapses 0 0 AnySince AnySince AnyBytes }
        ensures failed { IsErrOf result DiskError.Failed → HasRisen (file_faults self.old) (file_faults self.new) }
        ensures never_falls { file_faults self.old ≤ file_faults self.new }

        // The count is raised at each error, and at nothing else.
        ensures counted { file_faults self.new ≡ faults_after (file_faults self.old) result }
    {
        let answer = self.place.size();
        self.counted(answer)
    }

    /// As of every disk.
    fn read_at(&mut self, at: u64, into: &mut [u8]) -> Result<(), DiskError>
        ensures read { OnOk result (Reads untold at into.new) }
        ensures time { Elapses 0 0 AnySince AnySince AnyBytes }
        ensures failed { IsErrOf result DiskError.Failed → HasRisen (file_faults self.old) (file_faults self.new) }
        ensures never_falls { file_faults self.old ≤ file_faults self.new }
        ensures counted { file_faults self.new ≡ faults_after (file_faults self.old) result }
    {
        let answer = self.place.read(at, into);
        self.counted(answer)
    }

    /// As of every disk.
    fn write_at(&mut self, at: u64, from: &[u8]) -> Result<(), DiskError>
        ensures written { OnOk result (Writes untold at from.now untold) }
        ensures crash { Follows (Torn at (length from.now)) AnyBytes AnyBytes }
        ensures time { Elapses 0 0 AnySince AnySince AnyBytes }
        ensures failed { IsErrOf result DiskError.Failed → HasRisen (file_faults self.old) (file_faults self.new) }
        ensures never_falls { file_faults self.old ≤ file_faults self.new }
        ensures counted { file_faults self.new ≡ faults_after (file_faults self.old) result }
    {
        let answer = self.place.write(at, from);
        self.counted(answer)
    }

    /// As of every disk.
    fn sync(&mut self) -> Result<(), DiskError>
        ensures durable { OnOk result (Only untold AnyBytes) }
        ensures time { Elapses 0 0 AnySince AnySince AnyBytes }
        ensures failed { IsErrOf result DiskError.Failed → HasRisen (file_faults self.old) (file_faults self.new) }
        ensures never_falls { file_faults self.old ≤ file_faults self.new }
        ensures counted { file_faults self.new ≡ faults_after (file_faults self.old) result }
    {
        let answer = self.place.sync();
        self.counted(answer)
    }
}
