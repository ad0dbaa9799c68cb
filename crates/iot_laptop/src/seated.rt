//! A client as that which keeps a node's state on its disk.
use iot_client::Client;
use iot_disk::{Disk, Pick, StartFault};
use iot_node::Keeper;
use std::alloc::Global;

/// A client, as the keeper of a node.
#[derive(Drop)]
pub struct Seated<D: Disk> {
    pub(crate) client: Client<D>,
}

impl<D: Disk> Keeper<D> for Seated<D> {
    ghost use Rattle.iot_laptop.specs.Below.{ClientState, List, ℕ};
    ghost use Rattle.iot_laptop.specs.Seats.{Besides, besides, none_besides, seat_disk, seating};

    ghost Kept = { ClientState };

    ghost Image = { List ℕ };

    ghost medium = { D.medium };

    ghost disks = { seat_disk };

    ghost keeping = { seating D.medium };

    // The script of what runs, its class, and the server's stamps are on no disk.
    ghost Live = { Besides };

    ghost live = { besides };

    ghost fresh = { none_besides };

    ghost Beside = { Unit {0} };

    ghost beside = { λ disk. tt };

    fn start(alloc: Global, disk: D, place: u64) -> Result<Self, (D, StartFault)> {
        match Client::start(alloc, disk, place) {
            Ok(client) => Ok(Seated { client }),
            Err(refused) => Err(refused),
        }
    }

    fn records(&self) -> u64 {
        self.client.records()
    }

    fn arm(&mut self, calls: u64, pick: Pick) {
        self.client.arm(calls, pick);
    }

    fn into_disk(self) -> D {
        self.client.into_disk()
    }

    fn restart(disk: &mut D) {
        disk.restart();
    }

    fn arm_down(disk: &mut D, calls: u64, pick: Pick) {
        disk.arm(calls, pick);
    }

    ghost reads_is_image = { D.reads_is_image };
}
