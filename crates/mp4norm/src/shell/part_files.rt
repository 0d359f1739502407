//! A new file beside another one, whose place it takes once it is whole.
ghost use Rattle.std.specs.Prelude.{◌≡◌, ◌++◌, IfOk, string_bytes, codes, decimal};

use crate::shell::reports::{Report, tell_name};
use mp4_boxes::Refusal;
use std::alloc::{AllocError, Global};
use std::fs::{File, Metadata, OpenOptions, Permissions, TryLockError};
use std::io::{ErrorKind, Read};
use std::os::unix::fs::{MetadataExt, OpenOptionsExt, PermissionsExt, fchown};
use std::{fs, io, process};

/// So many names are tried for a new file.
const MOST_NAMES: u32 = 1000;

/// What stands behind the name of the other file: no other program makes such names.
const MARK: &str = ".mp4norm-part-";

/// The rights of a new file while it is written: its owner's alone.
const OWNERS: u32 = 0o600;

/// The rights that a program asks for a new file, of which the mask of the process takes some away.
const ASKED: u32 = 0o666;

/// The cause where a new file isn't the one of its name any more.
const TAKEN: &str = "another file has taken the place of the new one";

/// All bits that say who may read, write and run a file.
const RIGHTS: u32 = 0o777;

/// These, and those by which it runs as another user.
const ALL_RIGHTS: u32 = 0o7777;

/// The rights that are taken away where the mask isn't known.
const USUAL_MASK: u32 = 0o022;

/// A file that was made, and its name.
#[derive(Drop)]
pub(crate) struct PartFile {
    pub(crate) file: File,
    name: String,
}

// A name with the number of the process behind it.
fn name_of_process(alloc: Global, name: &str, process: u32) -> Result<String, AllocError>
    ensures { IfOk result (λ text. string_bytes text
        ≡ name.now ++ codes ".mp4norm-part-" ++ decimal process) }
{
    let mut front = String::new(alloc);
    front.push_str(name)?;
    front.push_str(MARK)?;
    format!(in alloc; "{front}{process}")
}

// The name of a new file beside another one: behind that of the process stands a count.
fn part_name(alloc: Global, front: &str, number: u32) -> Result<String, AllocError>
    ensures { IfOk result (λ text. string_bytes text
        ≡ front.now ++ codes "-" ++ decimal number) }
{
    format!(in alloc; "{front}-{number}")
}

// The folder in which a file lies, and its name there.
fn folder_of(name: &str) -> (&str, &str) {
    match name.rsplit_once('/') {
        Some(("", name)) => ("/", name),
        Some((folder, name)) => (folder, name),
        None => (".", name),
    }
}

// A number as it stands in the name of a new file: digits, and no zero before others.
fn number_of(digits: &str) -> Option<u32> {
    if digits.starts_with('+') || (digits.starts_with('0') && digits != "0") {
        return None;
    }
    digits.parse().ok()
}

// The process in the name of a new file beside one of this name, if a run can have made that name.
fn process_in(found: &str, beside: &str) -> Option<u32> {
    let rest = found.strip_prefix(beside)?.strip_prefix(MARK)?;
    let (process, number) = rest.split_once('-')?;
    let number = number_of(number)?;
    let process = number_of(process)?;
    (process > 0 && number < MOST_NAMES).then_some(process)
}

// Whether the system says that no other process has this number. In a container each run may have
// the same one.
fn is_gone(rt: &HostRuntime, process: u32) -> bool {
    if process == process::id(rt.process()) {
        return true;
    }
    let Ok(place) = format!(in rt.alloc(); "/proc/{process}") else {
        return false;
    };
    match fs::metadata(rt, place.as_str()) {
        Err(error) if error.kind() == ErrorKind::NotFound => fs::metadata(rt, "/proc/self").is_ok(),
        _ => false,
    }
}

// Whether a file may be of an earlier run: a regular one with one name, and with the owner and the
// rights of the one that this run made.
fn is_made_alike(found: &Metadata, own: &Metadata) -> bool {
    let has_rights = found.mode() & ALL_RIGHTS == own.mode() & ALL_RIGHTS;
    found.is_file() && found.nlink() == 1 && found.uid() == own.uid() && has_rights
}

// Takes away a file that an interrupted run left, if no process holds it: one that runs where its
// number is another, as in a container, has it locked.
fn take_leftover(rt: &HostRuntime, name: &str, part: &PartFile) -> bool {
    match (fs::symlink_metadata(rt, name), part.file.metadata()) {
        (Ok(found), Ok(own)) if is_made_alike(&found, &own) => {}
        _ => return false,
    }
    let Ok(file) = File::open(rt, name) else {
        return false;
    };
    file.try_lock().is_ok() && fs::remove_file(rt, name).is_ok()
}

// Takes away the files that interrupted runs left beside one of this name, and says so; where more
// words are asked for, also which stay. This run has made a part of its own.
fn take_leftovers(rt: &HostRuntime, name: &str, part: &PartFile, explains: bool) -> io::Result<()> {
    let (folder, beside) = folder_of(name);
    for entry in fs::read_dir(rt, folder)? {
        let Ok(entry) = entry else {
            continue;
        };
        let found = entry.file_name();
        if process_in(found, beside).is_some_and(|process| is_gone(rt, process)) {
            let front = name.strip_suffix(beside).unwrap_or("");
            let left = format!(in rt.alloc(); "{front}{found}")?;
            if left == part.name {
                continue;
            }
            if take_leftover(rt, left.as_str(), part) {
                tell_name(rt, b"removed: ", left.as_str());
            } else if explains {
                tell_name(rt, b"leftover: ", left.as_str());
            }
        }
    }
    Ok(())
}

// Makes a new file that nobody else may open.
fn create(rt: &HostRuntime, name: &str) -> io::Result<File> {
    OpenOptions::new()
        .write(true)
        .create_new(true)
        .mode(OWNERS)
        .open(rt, name)
}

impl PartFile {
    /// Makes a file beside another one, and locks it. What interrupted runs left there is taken
    /// away.
    pub(crate) fn new(
        rt: &HostRuntime,
        beside: &str,
        report: &mut Report,
    ) -> Result<PartFile, Refusal> {
        let part = PartFile::create(rt, beside, report)?;
        let _ = take_leftovers(rt, beside, &part, report.explains());
        Ok(part)
    }

    // Makes a file beside another one, and locks it.
    fn create(rt: &HostRuntime, beside: &str, report: &mut Report) -> Result<PartFile, Refusal> {
        let front = name_of_process(rt.alloc(), beside, process::id(rt.process()))?;
        for number in 0..MOST_NAMES {
            let name = part_name(rt.alloc(), front.as_str(), number)?;
            match create(rt, name.as_str()) {
                Ok(file) => {
                    // Another run may have taken it for one that was left, and be about to take it
                    // away. Where there are no locks, none does.
                    if !matches!(file.try_lock(), Err(TryLockError::WouldBlock)) {
                        return Ok(PartFile { file, name });
                    }
                }
                Err(error) if error.kind() == ErrorKind::AlreadyExists => {}
                Err(error) => return report.outcome(Err(error), Refusal::WriteFailed),
            }
        }
        Err(Refusal::WriteFailed)
    }

    // Whether the file of its name is still the one that was made.
    fn is_there(&self, rt: &HostRuntime) -> io::Result<bool> {
        let made = self.file.metadata()?;
        let named = fs::symlink_metadata(rt, self.name.as_str())?;
        Ok(made.dev() == named.dev() && made.ino() == named.ino())
    }

    /// Takes the file away, if it is still there.
    pub(crate) fn take_away(&self, rt: &HostRuntime) {
        if self.is_there(rt).unwrap_or(false) {
            let _ = fs::remove_file(rt, self.name.as_str());
        }
    }

    /// Gives the file the rights of the one of this name, or of a new one where there is none,
    /// waits until it has reached the disk, and gives it that name. False where another file has
    /// taken its place.
    fn put_in_place(&self, rt: &HostRuntime, name: &str) -> io::Result<bool> {
        self.file.sync_all()?;
        give_rights(rt, &self.file, replaced(rt, name)?)?;
        if !self.is_there(rt)? {
            return Ok(false);
        }
        fs::rename(rt, self.name.as_str(), name)?;
        // The file has its name. Where the folder can't be synced, a power cut may take it back.
        if let Ok(folder) = File::open(rt, folder_of(name).0) {
            let _ = folder.sync_all();
        }
        Ok(true)
    }
}

/// Gives a new file its name. The cause is kept where that can't be done.
pub(crate) fn put_in_place(
    rt: &HostRuntime,
    part: &PartFile,
    name: &str,
    report: &mut Report,
) -> Result<(), Refusal> {
    match report.outcome(part.put_in_place(rt, name), Refusal::WriteFailed)? {
        true => Ok(()),
        false => Err(report.failure(TAKEN, Refusal::WriteFailed)),
    }
}

/// The regular file of a name, if there is one. A link, a directory or a device is not replaced.
pub(crate) fn replaced(rt: &HostRuntime, name: &str) -> io::Result<Option<Metadata>> {
    match fs::symlink_metadata(rt, name) {
        Ok(metadata) if metadata.is_file() => Ok(Some(metadata)),
        Ok(metadata) if metadata.is_dir() => Err(ErrorKind::IsADirectory.into()),
        Ok(_) => Err(ErrorKind::Unsupported.into()),
        Err(error) if error.kind() == ErrorKind::NotFound => Ok(None),
        Err(error) => Err(error),
    }
}

// Gives a file the rights of another one, and its owners as far as that is allowed; where there is
// none, the rights of a new file.
fn give_rights(rt: &HostRuntime, file: &File, other: Option<Metadata>) -> io::Result<()> {
    let rights = match other {
        Some(other) => {
            let _ = fchown(file, Some(other.uid()), Some(other.gid()));
            other.mode() & RIGHTS
        }
        None => ASKED & !mask(rt),
    };
    file.set_permissions(Permissions::from_mode(rights))
}

// The rights that octal digits at the front of some bytes spell.
fn octal(bytes: &[u8]) -> u32 {
    let mut rights = 0;
    for byte in bytes {
        if !(b'0'..=b'7').contains(byte) {
            break;
        }
        rights = (rights << 3 | u32::from(*byte - b'0')) & RIGHTS;
    }
    rights
}

// The rights that the process takes away from each file that it makes, as Linux tells them.
fn mask(rt: &HostRuntime) -> u32 {
    let mut front = [0; 256];
    let Ok(mut file) = File::open(rt, "/proc/self/status") else {
        return USUAL_MASK;
    };
    let Ok(len) = file.read(&mut front) else {
        return USUAL_MASK;
    };
    let label = b"\nUmask:\t";
    match front[..len]
        .windows(label.len())
        .position(|part| part == label.as_slice())
    {
        Some(at) => octal(&front[at + label.len()..len]),
        None => USUAL_MASK,
    }
}
