//! A disk that was read, before anything is started on it.
ghost use Rattle.std.specs.Prelude.{◌≡◌, ◌≢◌, IfOk, MatchResult};
ghost use Rattle.iot_disk.specs.Disk.{SameImages};
ghost use Rattle.iot_slots.specs.Cells.{number_of};
ghost use Rattle.iot_slots.specs.Decoding.{NotStarted, decoded, state_in};
ghost use Rattle.iot_slots.specs.Slots.{disk_of as disk_under, header_of as header_on, count_of as count_on};
ghost use Rattle.iot_slots.specs.Slots.{version_of, state_on, IsSynced};
ghost use Rattle.iot_slots.specs.Start.{CountsStartFault, EachEncodesAs, KeepsRoom, started_over};

use crate::start::{Seen, open};
use crate::{Body, Slots, Started};
use iot_disk::{Disk, StartFault};
use std::alloc::Global;

/// A disk that was read, and on which nothing was started or written since.
#[derive(Drop)]
pub struct Looked<D: Disk> {
    pub(crate) disk: D,
    pub(crate) header: [u8; 8],
    pub(crate) seen: Seen,
}

impl<D: Disk> Looked<D> {
    ghost use Rattle.iot_slots.specs.Looked.{disk_of, header_of, state_with, count_of, IsLooked};

    /// The number of records ever appended, modulo 2^64: 0 on a disk that is not started.
    pub fn count(&self) -> u64
        ensures { result ≡ count_of self.now }
    {
        match &self.seen.found {
            Some(found) => found.layout.count,
            None => 0,
        }
    }

    /// All its bytes, as they were read.
    pub fn bytes(&self) -> &[u8]
        requires { IsLooked D.medium self.now }
        ensures { result.now ≡ D.medium.reads (disk_of self.now) }
    {
        &self.seen.bytes
    }

    /// Starts slots from the disk, and gives the state that it encodes. A disk that is not started is started with this
    /// body. If this gives no slots, it gives the disk back.
    ///
    /// # Errors
    ///
    /// `NoMemory` or `Stopped`: a look has refused what is foreign or damaged.
    pub fn start(self, alloc: Global, body: &[u8]) -> Result<(Slots<D>, Started), (D, StartFault)>
        requires { IsLooked D.medium self }
        ensures state { IfOk result (λ made. state_with body.now self
            ≡ state_in (version_of made.0) made.1.body made.1.records (count_on made.0)) }
        ensures same { IfOk result (λ made. state_on D.medium made.0
            ≡ state_in (version_of made.0) made.1.body made.1.records (count_on made.0)) }
        ensures version { IfOk result (λ made. made.1.version ≡ number_of (version_of made.0)) }
        ensures synced { IfOk result (λ made. IsSynced D.medium made.0) }
        ensures header { IfOk result (λ made. header_on made.0 ≡ header_of self) }

        // However this returns, every image encodes what the disk encoded before, and nothing became due.
        ensures images { MatchResult result
            (λ made. EachEncodesAs (header_of self) body.now (D.medium.reads (disk_of self)) (D.medium.may_leave (disk_under made.0)))
            (λ refused. EachEncodesAs (header_of self) body.now (D.medium.reads (disk_of self)) (D.medium.may_leave refused.0)) }
        ensures room { MatchResult result
            (λ made. KeepsRoom (header_of self) (D.medium.reads (disk_of self)) (D.medium.may_leave (disk_under made.0)))
            (λ refused. KeepsRoom (header_of self) (D.medium.reads (disk_of self)) (D.medium.may_leave refused.0)) }

        // A disk that is started is left alone, whatever the answer.
        ensures only_read { decoded (header_of self) (D.medium.reads (disk_of self)) ≢ NotStarted → MatchResult result
            (λ made. D.medium.reads (disk_under made.0) ≡ D.medium.reads (disk_of self))
            (λ refused. D.medium.reads refused.0 ≡ D.medium.reads (disk_of self)) }
        ensures only_read_images { decoded (header_of self) (D.medium.reads (disk_of self)) ≢ NotStarted → MatchResult result
            (λ made. SameImages (D.medium.may_leave (disk_of self)) (D.medium.may_leave (disk_under made.0)))
            (λ refused. SameImages (D.medium.may_leave (disk_of self)) (D.medium.may_leave refused.0)) }

        // After Ok a disk that was not started has these bytes.
        ensures fresh { decoded (header_of self) (D.medium.reads (disk_of self)) ≡ NotStarted → IfOk result (λ made.
            D.medium.reads (disk_under made.0) ≡ started_over (header_of self) body.now (D.medium.reads (disk_of self))) }

        ensures faults { MatchResult result
            (λ made. D.medium.faults (disk_under made.0) ≡ D.medium.faults (disk_of self))
            (λ refused. CountsStartFault refused.1 (D.medium.faults (disk_of self)) (D.medium.faults refused.0)) }
        ensures arms { MatchResult result
            (λ made. D.medium.arms (disk_under made.0) ≡ D.medium.arms (disk_of self))
            (λ refused. D.medium.arms refused.0 ≡ D.medium.arms (disk_of self)) }
    {
        let Looked {
            mut disk,
            header,
            seen,
        } = self;
        match open(alloc, &mut disk, &header, seen, body) {
            Ok(found) => {
                let slots = Slots {
                    disk,
                    header,
                    layout: found.layout,
                    buffer: Vec::new(alloc),
                };
                let started = Started {
                    version: found.layout.version.number(),
                    body: Body::from(found.body),
                    records: found.bodies,
                };
                Ok((slots, started))
            }
            Err(fault) => Err((disk, StartFault::from(fault))),
        }
    }

    /// Gives the disk back.
    pub fn into_disk(self) -> D
        ensures { result ≡ disk_of self }
    {
        self.disk
    }
}
