//! How a run of the program ends.
ghost use Rattle.std.specs.Prelude.{◌≡◌};
ghost use Rattle.iot_app.specs.Faults.{ended_by_read};
ghost use Rattle.iot_app.specs.Status.{code_of};

use iot_disk::DiskFault;

/// How a run ends.
#[derive(Clone, Copy, Debug, PartialEq, Eq)]
pub(crate) enum Status {
    /// All was written.
    Done,

    /// The input is refused, and the line that says so was written.
    Refused,

    /// The words are refused, and the usage line was written.
    Usage,

    /// A read failed.
    ReadFailed,

    /// A write failed, or took nothing.
    WriteFailed,

    /// There was no memory.
    NoMemory,

    /// The server's disk could not be read to be saved.
    SaveFailed,
}

impl Status {
    /// The status of a run that ends because the server's disk could not be read.
    pub(crate) fn of_read(fault: DiskFault) -> Status
        ensures { result ≡ ended_by_read fault }
    {
        match fault {
            DiskFault::NoMemory => Status::NoMemory,
            DiskFault::Failed => Status::SaveFailed,
        }
    }

    /// The number that the process ends with.
    pub(crate) fn code(self) -> u8
        ensures { result ≡ code_of self }
    {
        match self {
            Status::Done => 0,
            Status::Refused => 1,
            Status::Usage => 2,
            Status::ReadFailed => 3,
            Status::WriteFailed => 4,
            Status::NoMemory => 5,
            Status::SaveFailed => 6,
        }
    }
}
