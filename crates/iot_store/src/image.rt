//! What the bytes of a server's disk hold.
ghost use Rattle.std.specs.Prelude.{◌≡◌};
ghost use Rattle.iot_store.specs.Images.{fault_of};
ghost use Rattle.iot_store.specs.declared.image.ImageFault.TheVariants.{NoMemory as OfMemory};

use crate::commits::Commits;
use iot_disk::StartFault;
use iot_text::NoMemory;
use iot_tree::{Labels, Lines, Sequence, Tree};
use std::alloc::Global;
use thiserror::Error;

/// What an image of a server's disk holds.
#[derive(Drop)]
pub struct Image {
    /// The tree that the commits make.
    pub tree: Tree,

    /// The labels of the commits, in their order.
    pub labels: Labels,

    /// What the last commits printed, those with a record behind the checkpoint in force, in their order.
    pub recorded: Sequence<Lines>,
}

impl Image {
    ghost use Rattle.std.specs.Prelude.{◌≡◌, IfOk};
    ghost use Rattle.iot_store.specs.Images.{IsImageOf};

    /// Of these commits, the last of which have records with these lines.
    pub(crate) fn of(
        alloc: Global,
        commits: Commits,
        recorded: Sequence<Lines>,
    ) -> Result<Image, NoMemory>
        ensures of { IfOk result (λ image. IsImageOf image commits) }
        ensures recorded { IfOk result (λ image. image.recorded ≡ recorded) }
    {
        Ok(Image {
            tree: commits.tree().copy(alloc)?,
            labels: commits.into_labels(),
            recorded,
        })
    }
}

/// Why bytes hold no state of a server.
#[derive(Clone, Copy, Debug, PartialEq, Eq, Error)]
pub enum ImageFault {
    #[error("out of memory")]
    NoMemory,
    /// Something else wrote them.
    #[error("foreign")]
    Foreign,
    /// A cell, a checkpoint or a record is cut short, spells nothing, or cannot follow what comes before it. `at` is where.
    #[error("damaged at {at}")]
    Damaged { at: u64 },
}

impl From<StartFault> for ImageFault {
    ghost from_gives = { λ start fault. fault ≡ fault_of start };

    fn from(fault: StartFault) -> ImageFault {
        match fault {
            // No disk is read, so that none stops.
            StartFault::NoMemory | StartFault::Stopped => ImageFault::NoMemory,
            StartFault::Foreign => ImageFault::Foreign,
            StartFault::Damaged { at } => ImageFault::Damaged { at },
        }
    }
}

impl From<NoMemory> for ImageFault {
    ghost from_gives = { λ _ fault. fault ≡ OfMemory };

    fn from(_failed: NoMemory) -> ImageFault {
        ImageFault::NoMemory
    }
}
