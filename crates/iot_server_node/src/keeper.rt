//! What keeps the list of commits on the server's disks.
ghost use Rattle.std.specs.Prelude.{◌≡◌};
ghost use Rattle.iot_backup.specs.declared.faults.TwinFault.TheVariants.{Disk as OfDisk};
ghost use Rattle.{iot_disk.specs.Disk.Only, iot_durable.specs.Causes.TakesBoth};
ghost use Rattle.iot_node.specs.Keeping.{CanStart, Comes, Fails};
ghost use Rattle.{iot_server.specs.Servers.IsSynced, iot_server.specs.Traffic.no_traffic, iot_server_node.specs.Messages.IsSomeRequest};
ghost use Rattle.iot_server_node.specs.Prelude.{IfErr, IfOk, KeepsDisk, None, Some, Traffic};

use crate::disks::Disks;
use iot_backup::TwinFault;
use iot_disk::{Disk, JournalFault, Pick, StartFault};
use iot_node::Keeper;
use iot_server::{Server, ServerFault};
use std::alloc::Global;

/// A server, which keeps the list of commits, and the disk that was given up, if one was. Beside that it has counted what it received and
/// sent.
#[derive(Drop)]
pub struct ServerKeeper<D: Disk> {
    pub(crate) server: Server<D>,
    pub(crate) given_up: Option<D>,
}

impl<D: Disk> ServerKeeper<D> {
    ghost use Rattle.iot_server_node.specs.Disks.{ArmsOther, HavePlaces, on_both, sides_of};
    ghost use Rattle.iot_server_node.specs.Keepers.{Handles, Refuses, disks_in, lists, traffic_in};
    ghost use Rattle.iot_server_node.specs.Prelude.{Commit, List, ℕ};

    /// What the server replies to a request that is well formed. It has no reply only if there is no memory, or a disk fails.
    pub(crate) fn handle(&mut self, alloc: Global, request: &[u8]) -> Result<Vec<u8>, JournalFault>
        requires synced { IsSynced D.medium self.old.server }
        requires request { IsSomeRequest request.now }
        ensures handled { IfOk result (λ reply. Handles D.medium request.now reply.items self.old self.new) }
        ensures refused { IfErr result (λ fault. Refuses D.medium request.now fault self.old self.new) }
        ensures disk { KeepsDisk (on_both D.medium) (Some (disks_in self.old)) (Some (disks_in self.new)) }
        ensures beside { sides_of D.medium (disks_in self.new) ≡ sides_of D.medium (disks_in self.old) }
    {
        match self.server.handle(alloc, request) {
            Ok(reply) => Ok(reply),
            Err(fault) => match fault {
                ServerFault::NoMemory => Err(JournalFault::NoMemory),
                ServerFault::Stopped => Err(JournalFault::Stopped),
                ServerFault::Malformed { .. } => unreachable!(),
            },
        }
    }

    /// Makes a later device call of the backup fail, or of the server's own disk if that was promoted.
    pub(crate) fn arm_other(&mut self, calls: u64, pick: Pick)
        requires { HavePlaces (Some (disks_in self.old)) }
        ensures arms { ArmsOther D.medium calls pick (disks_in self.old) (disks_in self.new) }
        ensures stands { (n : ℕ) (commits : List Commit) → (lists D.medium).stands self.old n commits
            → (lists D.medium).stands self.new n commits }
        ensures live { traffic_in self.new ≡ traffic_in self.old }
    {
        let second = self.given_up.is_none();
        self.server.arm(second, calls, pick);
    }
}

impl<D: Disk> Keeper<Disks<D>> for ServerKeeper<D> {
    ghost use Rattle.iot_server_node.specs.Disks.{Image as DisksImage, Sides, on_both, reads_may_leave, sides_of};
    ghost use Rattle.iot_server_node.specs.{Keepers.disks_in, Keepers.lists, Keepers.traffic_in, Prelude.Commit, Prelude.List};

    ghost Kept = { List Commit };

    ghost Image = { DisksImage };

    ghost medium = { on_both D.medium };

    ghost disks = { disks_in };

    // There is one server alone, so its place says nothing.
    ghost keeping = { λ place. lists D.medium };

    ghost Live = { Traffic };

    ghost live = { traffic_in };

    ghost fresh = { no_traffic };

    ghost Beside = { Sides };

    ghost beside = { sides_of D.medium };

    #[tactic(auto, using(crate::proofs::StartingLaws::only_first, crate::proofs::StartingLaws::only_second))]
    fn start(alloc: Global, disk: Disks<D>, _place: u64) -> Result<Self, (Disks<D>, StartFault)> {
        let Disks {
            disk,
            backup,
            given_up,
        } = disk;
        match backup {
            Some(backup) => match Server::start_pair(alloc, disk, backup) {
                Ok(server) => Ok(ServerKeeper { server, given_up }),
                Err((disk, backup, fault)) => Err((
                    Disks {
                        disk,
                        backup: Some(backup),
                        given_up,
                    },
                    match fault {
                        TwinFault::Disk(fault) => fault,
                        TwinFault::Apart { .. } => unreachable!(),
                    },
                )),
            },
            None => match Server::start(alloc, disk) {
                Ok(server) => Ok(ServerKeeper { server, given_up }),
                Err((disk, fault)) => Err((
                    Disks {
                        disk,
                        backup: None,
                        given_up,
                    },
                    fault,
                )),
            },
        }
    }

    fn records(&self) -> u64 {
        self.server.store().count()
    }

    fn arm(&mut self, calls: u64, pick: Pick) {
        self.server.arm(false, calls, pick);
    }

    fn into_disk(self) -> Disks<D> {
        let ServerKeeper { server, given_up } = self;
        let (disk, backup) = server.into_disks();
        Disks {
            disk,
            backup,
            given_up,
        }
    }

    fn restart(disk: &mut Disks<D>) {
        disk.restart();
    }

    fn arm_down(disk: &mut Disks<D>, calls: u64, pick: Pick) {
        disk.arm(calls, pick);
    }

    ghost reads_is_image = { reads_may_leave D.medium D.reads_is_image };
}
