//! Why an image is not what scripts make.
ghost use Rattle.std.specs.Prelude.{◌≡◌};
ghost use Rattle.iot_audit.specs.Audits.{fault_of};
ghost use Rattle.iot_audit.specs.declared.fault.AuditFault.TheVariants.{NoMemory as OfMemory};

use iot_store::ImageFault;
use iot_text::{NoMemory, Path};
use thiserror::Error;

/// Why an image is not what the scripts of an event script make.
#[derive(Debug, Drop, Error)]
pub enum AuditFault {
    #[error("out of memory")]
    NoMemory,
    /// Something else wrote the image.
    #[error("foreign")]
    Foreign,
    /// A cell, a checkpoint or a record is cut short, spells nothing, or cannot follow what comes before it. `at` is where.
    #[error("damaged at {at}")]
    Damaged { at: u64 },
    /// The script of the commit with this number, counted from 1, is not declared.
    #[error("no script {number}")]
    NoScript { number: u64 },
    /// The record of the commit with this number says that other lines were printed.
    #[error("lines {number}")]
    Lines { number: u64 },
    /// The trees differ, at this path and at none before it.
    #[error("tree")]
    Tree { path: Path },
}

impl From<ImageFault> for AuditFault {
    ghost from_gives = { λ fault audit. audit ≡ fault_of fault };

    fn from(fault: ImageFault) -> AuditFault {
        match fault {
            ImageFault::NoMemory => AuditFault::NoMemory,
            ImageFault::Foreign => AuditFault::Foreign,
            ImageFault::Damaged { at } => AuditFault::Damaged { at },
        }
    }
}

impl From<NoMemory> for AuditFault {
    ghost from_gives = { λ _ fault. fault ≡ OfMemory };

    fn from(_failed: NoMemory) -> AuditFault {
        AuditFault::NoMemory
    }
}
