//! Opening a file as a disk.
ghost use Rattle.std.specs.Prelude.{◌≡◌, ◌≤◌, ◌^◌, true, false, vec_len, IfOk, IfErr, OnOk, OnErr};
ghost use Rattle.iot_disk.specs.Disk.{Only, never_armed};
ghost use Rattle.iot_file.specs.FileDisk.{reads_of, images_of, faults_of, arms_of};
ghost use Rattle.iot_file.specs.Own.{may_be_ours};
ghost use Rattle.iot_file.specs.declared.opening.OpenFault.TheVariants.{Foreign};

use crate::own::is_ours;
use iot_disk::LIMIT;
use iot_noted::{Host, Noted};
use std::alloc::{AllocError, Global};
use std::fs::{self, File, OpenOptions, TryLockError};
use std::io;
use std::os::fd::AsRawFd;
use std::os::unix::fs::{FileExt, MetadataExt, OpenOptionsExt};
use std::path::PathBuf;
use thiserror::Error;

/// A disk over a file of the system, of which it keeps a copy in memory. What the calls of a disk do to it is said of
/// [`Noted`](iot_noted::Noted).
pub type FileDisk = Noted<Host>;

/// Why a file gives no disk.
#[derive(Clone, Copy, Debug, Error)]
pub enum OpenFault {
    #[error("out of memory")]
    NoMemory,
    /// Another process, or another handle of this one, has it open as a disk.
    #[error("the file is in use")]
    Busy,
    /// It is not one of this program, or it is cut off.
    #[error("the file is not one of this program")]
    Foreign,
    /// The system refuses it. `Unsupported`: it is no regular file, its name is a link, or it has a second name.
    #[error("{0}")]
    Io(io::Error),
}

impl From<AllocError> for OpenFault {
    fn from(_: AllocError) -> Self {
        OpenFault::NoMemory
    }
}

impl From<io::Error> for OpenFault {
    fn from(error: io::Error) -> Self {
        OpenFault::Io(error)
    }
}

impl From<TryLockError> for OpenFault {
    fn from(error: TryLockError) -> Self {
        match error {
            TryLockError::WouldBlock => OpenFault::Busy,
            TryLockError::Error(error) => OpenFault::Io(error),
        }
    }
}

/// Opens the file at a path as a disk, and makes an empty one if there is none. It is locked, so that no other handle gets it until the disk
/// is dropped; synced, with its folder, so that it is there after a power cut; and then read whole into memory.
///
/// A file that stands there is one of this program if it begins as `first` does, with an open gate and a header, and is no shorter. Those are
/// the bytes of a disk that was just started, by which it is told what a start leaves that was cut short: no bytes, or a closed gate and a
/// part of the rest. If `first` is empty, any file is taken.
///
/// # Errors
///
/// `Busy` if it is open as a disk already, `Foreign` if it is not one of this program, and `Io` if it is no regular file, is named by a link
/// or by a second name, or if the system refuses a call. Nothing is written to a file that stands there. `NoMemory`.
pub fn open(rt: &HostRuntime, path: &str, first: &[u8]) -> Result<FileDisk, OpenFault>
    ensures ours { IfOk result (λ disk. may_be_ours first.now (reads_of disk) ≡ true) }
    ensures only { IfOk result (λ disk. Only (reads_of disk) (images_of disk)) }
    ensures faults { IfOk result (λ disk. faults_of disk ≡ 0) }
    ensures arms { IfOk result (λ disk. arms_of disk ≡ never_armed) }
{
    let file = open_or_make(rt, path)?;
    check_name(rt, &file, path)?;
    file.try_lock()?;
    file.sync_all()?;
    sync_folder(rt, path)?;
    let bytes = read_all(rt.alloc(), &file)?;
    let disk = disk_over(file, bytes, first)?;
    Ok(disk)
}

/// The disk over a file that was synced, and then read as these bytes.
fn disk_over(file: File, bytes: Vec<u8>, first: &[u8]) -> Result<FileDisk, OpenFault>
    requires { vec_len bytes ≤ 2 ^ 62 }
    ensures reads { IfOk result (λ disk. reads_of disk ≡ bytes.items) }
    ensures only { IfOk result (λ disk. Only (reads_of disk) (images_of disk)) }
    ensures faults { IfOk result (λ disk. faults_of disk ≡ 0) }
    ensures arms { IfOk result (λ disk. arms_of disk ≡ never_armed) }
    ensures ours { OnOk result (may_be_ours first.now bytes.items ≡ true) }
    ensures foreign { OnErr result (may_be_ours first.now bytes.items ≡ false) }
    ensures fault { IfErr result (λ fault. fault ≡ Foreign) }
{
    if !is_ours(first, &bytes) {
        return Err(OpenFault::Foreign);
    }
    let host = Host::new(file, &bytes);
    Ok(Noted::new(host, bytes))
}

/// Opens a file, or makes one. What stands at the name already is opened if it is a regular file. What is meant for a standard
/// stream that was closed must not land in it.
fn open_or_make(rt: &HostRuntime, path: &str) -> io::Result<File> {
    let made = OpenOptions::new()
        .read(true)
        .write(true)
        .create_new(true)
        .mode(0o600)
        .open(rt, path);
    let file = match made {
        Ok(file) => file,
        Err(error) if error.kind() == io::ErrorKind::AlreadyExists => open_old(rt, path)?,
        Err(error) => return Err(error),
    };
    if file.as_raw_fd() <= 2 {
        return file.try_clone();
    }
    Ok(file)
}

/// Opens the file that stands at a path, if it is a regular one and the path no link.
fn open_old(rt: &HostRuntime, path: &str) -> io::Result<File> {
    if !fs::symlink_metadata(rt, path)?.is_file() {
        return Err(io::ErrorKind::Unsupported.into());
    }
    OpenOptions::new().read(true).write(true).open(rt, path)
}

/// The file has this name, which is no link, and no other.
fn check_name(rt: &HostRuntime, file: &File, path: &str) -> io::Result<()> {
    let (found, named) = (file.metadata()?, fs::symlink_metadata(rt, path)?);
    let is_named = found.dev() == named.dev() && found.ino() == named.ino();
    if !is_named || !found.is_file() || found.nlink() != 1 {
        return Err(io::ErrorKind::Unsupported.into());
    }
    Ok(())
}

/// Makes the name of a file durable.
fn sync_folder(rt: &HostRuntime, path: &str) -> io::Result<()> {
    let mut folder: PathBuf = fs::canonicalize(rt, path)?;
    folder.pop();
    File::open(rt, folder.as_str())?.sync_all()
}

/// All bytes of a file. One that is longer than a disk can be finds no memory.
fn read_all(alloc: Global, file: &File) -> Result<Vec<u8>, OpenFault>
    ensures { IfOk result (λ bytes. vec_len bytes ≤ 2 ^ 62) }
{
    let len = file.metadata()?.len();
    if len > LIMIT {
        return Err(OpenFault::NoMemory);
    }
    let mut bytes = vec![in alloc; 0; len as usize]?;
    file.read_exact_at(&mut bytes, 0)?;
    Ok(bytes)
}
