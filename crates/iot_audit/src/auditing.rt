//! The audit.
ghost use Rattle.std.specs.Prelude.{◌≡◌, ◌⊎◌, List, IfOk, IfErr, MatchResult};
ghost use Rattle.iot_machine.specs.Machine.{Commit};
ghost use Rattle.iot_event.specs.declared.event.Event.{Event as EventValue};
ghost use Rattle.iot_audit.specs.Audits.{IsAudited, IsAuditedOf, IsCompared, IsReason, IsRefused, DeclareAll, StandsForList, walked_in};
ghost use Rattle.iot_audit.specs.Scripts.{AreScriptsOf};
ghost use Rattle.iot_audit.specs.declared.fault.AuditFault.{AuditFault as Fault};
ghost use Rattle.iot_audit.specs.declared.fault.AuditFault.TheVariants.{NoMemory};

use crate::AuditFault;
use crate::difference::first_difference;
use crate::scripts::Scripts;
use crate::serving::serve;
use iot_disk::MemDisk;
use iot_event::Event;
use iot_store::{Image, Store};
use std::alloc::Global;

/// How many commits the image of a server's disk has, if it is audited: each one's script is declared by the events under the name that its
/// label has; these scripts, run alone in the order of the commits, make the image's tree; and each record that the image still has says
/// that its commit printed what its script prints then. Of two scripts of the same name the first counts.
///
/// Runs each script once, on one tree of which no copy is made.
///
/// # Errors
///
/// `Foreign` and `Damaged` as [`Store::image`] says them. Then, commit by commit, `NoScript` at the first one whose script is not declared,
/// or `Lines` at the first one whose record says that other lines were printed, whichever is first. Then `Tree` with the first path in
/// order at which the trees differ. `NoMemory`.
pub fn audit(alloc: Global, events: &[Event], image: &[u8]) -> Result<u64, AuditFault>
    ensures audited { IfOk result (IsAuditedOf events.now image.now) }

    // An image that is audited is not refused. Nor is one that stands for a list of commits whose scripts the events declare.
    ensures takes { IsAudited events.now image.now → IfErr result (λ fault. fault ≡ NoMemory) }
    ensures serial { (commits : List Commit) → StandsForList image.now commits → DeclareAll events.now commits
        → IfErr result (λ fault. fault ≡ NoMemory) }

    // If there is a reason to refuse it, it is refused for that, and for nothing else, unless memory runs out.
    ensures cause { IfErr result (IsRefused events.now image.now) }
    ensures exact { (reason : Fault) → IsReason events.now image.now reason
        → MatchResult result (λ _. ⊥) (λ fault. (fault ≡ NoMemory) ⊎ (fault ≡ reason)) }
{
    let image = Store::<MemDisk>::image(alloc, image)?;
    let scripts = Scripts::of(alloc, events)?;
    compare(alloc, &scripts, &image)
}

/// How many commits the image has, if it is what these scripts make.
fn compare(alloc: Global, scripts: &Scripts, image: &Image) -> Result<u64, AuditFault>
    ensures { (events : List EventValue) → AreScriptsOf events scripts.now → IsCompared image.now result (walked_in events image.now) }
{
    let tree = serve(alloc, scripts, image)?;
    match first_difference(alloc, &tree, &image.tree)? {
        Some(path) => Err(AuditFault::Tree { path }),
        None => Ok(image.labels.len() as u64),
    }
}
