//! The disk.
ghost use Rattle.std.specs.Prelude.{◌≡◌, ◌≤◌, ◌<◌, ◌+◌, ◌^◌, ◌∷◌, true, false, length, vec_capacity, OnOk, OnErr};
ghost use Rattle.iot_count.specs.Counts.{Rose};
ghost use Rattle.iot_disk.specs.Disk.{Only, overwritten};
ghost use Rattle.iot_disk.specs.declared.disk.DiskFault.TheVariants.{Failed};
ghost use Rattle.iot_noted.specs.Events.{MayHold, Wrote, written};
ghost use Rattle.iot_noted.specs.declared.noted.Health.TheVariants.{Sound, Lost};

use crate::Calls;
use iot_count::Count;
use iot_disk::{Arm, Disk, DiskFault, LIMIT, Pick};
use std::alloc::AllocError;
use std::io;

/// Whether a disk answers calls.
#[derive(Clone, Copy, Debug, PartialEq, Eq)]
enum Health {
    /// No call has failed since the last restart.
    Sound,

    /// A call has failed. A restart writes this range again.
    Down { start: usize, end: usize },

    /// A sync has failed, or a restart: nothing tells what the file holds.
    Lost,
}

/// A disk over a file, of which it keeps a copy in memory.
///
/// Each device call asks the file for the same by one call, and succeeds only if that does; bytes that are read have to be those of the
/// copy. What a crash may leave is what the record of the calls says. After a call that failed all others fail, and are counted, until a
/// restart: that writes once more what a failed write was to write, or a failed read to find, and syncs. After a sync that failed no restart
/// helps, since a system may drop what was written and not tell of it again; nor does one after a restart that failed. Then the file has to
/// be opened anew.
///
/// A call to fail that was armed fails before the file is asked. Whatever the pick, the restart leaves what was written.
#[derive(Drop)]
pub struct Noted<C: Calls> {
    file: C,
    bytes: Vec<u8>,
    faults: Count,
    health: Health,

    /// Whether a restart has failed.
    is_given_up: bool,

    /// How often it was armed, and with what the last time.
    arms: u64,
    last: Option<Arm>,

    /// The number of the call that is to fail, counted from the next one on, or 0.
    armed: u64,

    ghost follows: { bytes.items ≡ written (C.history file) },
    ghost within: { length bytes.items ≤ 2 ^ 62 },
    ghost given_up: { is_given_up ≡ true → health ≡ Lost },
}

impl<C: Calls> Noted<C> {
    ghost use Rattle.iot_disk.specs.Disk.{never_armed};
    ghost use Rattle.iot_noted.specs.Noted.{reads_of, images_of, faults_of, arms_of, IsSameBut};

    /// The disk over a file that holds these bytes, durably.
    pub fn new(file: C, bytes: Vec<u8>) -> Noted<C>
        requires follows { bytes.items ≡ written (C.history file) }
        requires only { Only bytes.items (MayHold (C.history file)) }
        requires within { length bytes.items ≤ 2 ^ 62 }
        ensures reads { reads_of result ≡ bytes.items }
        ensures only { Only bytes.items (images_of result) }
        ensures faults { faults_of result ≡ 0 }
        ensures arms { arms_of result ≡ never_armed }
    {
        Noted {
            file,
            bytes,
            faults: Count::NONE,
            health: Health::Sound,
            is_given_up: false,
            arms: 0,
            last: None,
            armed: 0,
        }
    }

    /// Whether this call fails before the file is asked: a call has failed since the last restart, or it is the one that was armed.
    fn stops(&mut self) -> bool
        ensures same { IsSameBut self.old self.new }
        ensures file { self.new.file ≡ self.old.file }
        ensures faults { self.new.faults ≡ self.old.faults }
        ensures sound { result ≡ false → self.new.health ≡ Sound }
    {
        if self.health != Health::Sound {
            return true;
        }
        if self.armed == 1 {
            self.health = Health::Down { start: 0, end: 0 };
        }
        self.armed = self.armed.saturating_sub(1);
        self.health != Health::Sound
    }

    /// Counts a call that failed.
    fn refuse(&mut self) -> DiskFault
        ensures result { result ≡ Failed }
        ensures faults { Rose self.old.faults self.new.faults }
        ensures same { IsSameBut self.old self.new }
        ensures file { self.new.file ≡ self.old.file }
    {
        self.faults.rise();
        DiskFault::Failed
    }

    /// Counts a call that failed, and has all later ones fail. A restart writes this range again.
    fn fail(&mut self, start: usize, end: usize) -> DiskFault
        requires { self.old.health ≡ Sound }
        ensures result { result ≡ Failed }
        ensures faults { Rose self.old.faults self.new.faults }
        ensures same { IsSameBut self.old self.new }
        ensures file { self.new.file ≡ self.old.file }
    {
        self.health = Health::Down { start, end };
        self.refuse()
    }

    /// Counts a sync that failed, and has all later calls fail.
    fn lose(&mut self) -> DiskFault
        ensures result { result ≡ Failed }
        ensures faults { Rose self.old.faults self.new.faults }
        ensures same { IsSameBut self.old self.new }
        ensures file { self.new.file ≡ self.old.file }
    {
        self.health = Health::Lost;
        self.refuse()
    }

    /// Makes room in memory for a write up to this end.
    fn make_room(&mut self, end: usize) -> Result<(), AllocError>
        ensures room { OnOk result (end ≤ vec_capacity self.new.bytes) }
        ensures bytes { self.new.bytes.items ≡ self.old.bytes.items }
        ensures longer { OnErr result (length self.old.bytes.items < end) }
        ensures same { IsSameBut self.old self.new }
        ensures file { self.new.file ≡ self.old.file }
        ensures faults { self.new.faults ≡ self.old.faults }
        ensures health { self.new.health ≡ self.old.health }
    {
        if end > self.bytes.len() {
            self.bytes.reserve(end - self.bytes.len())?;
        }
        Ok(())
    }

    /// Writes bytes to the file and to the copy, which has room for them.
    fn put(&mut self, at: usize, bytes: &[u8]) -> io::Result<()>
        requires inside { at ≤ length self.old.bytes.items }
        requires room { at + length bytes.now ≤ vec_capacity self.old.bytes }
        requires limit { at + length bytes.now ≤ 2 ^ 62 }
        ensures wrote { C.history self.new.file ≡ Wrote at bytes.now ∷ C.history self.old.file }
        ensures same { IsSameBut self.old self.new }
        ensures faults { self.new.faults ≡ self.old.faults }
        ensures health { self.new.health ≡ self.old.health }
    {
        let answer = self.file.write(at as u64, bytes);
        overwrite(&mut self.bytes, at, bytes);
        answer
    }

    /// Makes the file hold the copy, durably, and says whether it does.
    fn settle(&mut self) -> bool
        ensures reads { written (C.history self.new.file) ≡ written (C.history self.old.file) }
        ensures settled { result ≡ true → Only (written (C.history self.new.file)) (MayHold (C.history self.new.file)) }
        ensures same { IsSameBut self.old self.new }
        ensures faults { self.new.faults ≡ self.old.faults }
    {
        match self.health {
            Health::Sound => self.file.sync().is_ok(),
            Health::Down { start, end } => self.mend(start, end).is_ok(),
            Health::Lost => false,
        }
    }

    /// Writes a range of the copy to the file once more, and makes all durable.
    fn mend(&mut self, start: usize, end: usize) -> io::Result<()>
        ensures reads { written (C.history self.new.file) ≡ written (C.history self.old.file) }
        ensures settled { OnOk result (Only (written (C.history self.new.file)) (MayHold (C.history self.new.file))) }
        ensures same { IsSameBut self.old self.new }
        ensures faults { self.new.faults ≡ self.old.faults }
    {
        self.rewrite(start, end)?;
        self.file.sync()
    }

    /// Writes a range of the copy to the file once more.
    fn rewrite(&mut self, start: usize, end: usize) -> io::Result<()>
        ensures reads { written (C.history self.new.file) ≡ written (C.history self.old.file) }
        ensures same { IsSameBut self.old self.new }
        ensures faults { self.new.faults ≡ self.old.faults }
    {
        match self.bytes.get(start..end) {
            Some(range) => self.file.write(start as u64, range),
            None => Ok(()),
        }
    }
}

/// Writes bytes over those from a place on, and past the end, within the room that there is.
fn overwrite(to: &mut Vec<u8>, at: usize, bytes: &[u8])
    requires inside { at ≤ length to.old.items }
    requires room { at + length bytes.now ≤ vec_capacity to.old }
    ensures { to.new.items ≡ overwritten to.old.items at bytes.now }
{
    let inside = bytes.len().min(to.len() - at);
    to[at..at + inside].copy_from_slice(&bytes[..inside]);
    to.extend_from_slice(&bytes[inside..]).unwrap();
}

impl<C: Calls> Disk for Noted<C> {
    ghost use Rattle.iot_noted.specs.Images.{reads_is_image_by};
    ghost use Rattle.iot_noted.specs.Noted.{on_record};

    ghost medium = { on_record };

    ghost reads_is_image = { λ disk. reads_is_image_by disk.is_given_up (C.history disk.file) };

    fn len(&self) -> u64 {
        self.bytes.len() as u64
    }

    fn read_at(&mut self, at: u64, buf: &mut [u8]) -> Result<(), DiskFault> {
        if self.stops() {
            return Err(self.refuse());
        }
        let start = at as usize;
        let end = start + buf.len();
        match self.file.read(at, buf) {
            Ok(()) => (),
            Err(_) => return Err(self.fail(start, end)),
        }
        if &self.bytes[start..end] != &*buf {
            return Err(self.fail(start, end));
        }
        Ok(())
    }

    fn write_at(&mut self, at: u64, bytes: &[u8]) -> Result<(), DiskFault> {
        if at.saturating_add(bytes.len() as u64) > LIMIT {
            return Err(self.refuse());
        }
        if self.stops() {
            return Err(self.refuse());
        }
        let start = at as usize;
        let end = start + bytes.len();
        self.make_room(end)?;
        match self.put(start, bytes) {
            Ok(()) => Ok(()),
            Err(_) => Err(self.fail(start, end)),
        }
    }

    fn sync(&mut self) -> Result<(), DiskFault> {
        if self.stops() {
            return Err(self.refuse());
        }
        match self.file.sync() {
            Ok(()) => Ok(()),
            Err(_) => Err(self.lose()),
        }
    }

    fn arm(&mut self, calls: u64, pick: Pick) {
        self.arms = self.arms.wrapping_add(1);
        self.last = Some(Arm { calls, pick });
        self.armed = calls;
    }

    fn restart(&mut self) {
        if self.settle() {
            self.health = Health::Sound;
            self.is_given_up = false;
        } else {
            self.health = Health::Lost;
            self.is_given_up = true;
        }
    }
}
