//! What befalls a node or a link.
ghost use Rattle.std.specs.Prelude.{◌≡◌};
ghost use Rattle.iot_event.specs.declared.event.NodeEvent.TheVariants.{Show};
ghost use Rattle.iot_machine.specs.Events.{link_part, node_part};
ghost use Rattle.iot_world.specs.{Allowed.arms_a_disk, Allowed.stops_node, Deciding.ClientDecides, Prelude.ClientStands};
ghost use Rattle.iot_world.specs.Prelude.{Declared, Extends, KeepsDisk, KeepsTrails, List, OnOk, Refines, SamePlace, StandsAnyhow, disk_in};
ghost use Rattle.iot_world.specs.{Prelude.false, Prelude.true, World.KeepsNode};

use iot_disk::Disk;
use iot_event::{ClientEvent, Event, LinkEvent, NodeEvent};
use iot_inspect::show;
use iot_laptop::Laptop;
use iot_node::say;
use iot_text::{NoMemory, Text};
use std::alloc::Global;

/// An event of a client's node.
#[tactic(auto, using(crate::proofs::DecidingLaws::decides_client, crate::proofs::HoldingLaws::armed_keeps))]
pub(crate) fn befall<D: Disk>(
    laptop: &mut Laptop<D>,
    alloc: Global,
    what: NodeEvent,
    out: &mut Text,
) -> Result<(), NoMemory>
    requires { StandsAnyhow D.medium laptop.old }
    ensures step { OnOk result ((scripts : List Declared) → Refines (ClientStands D.medium scripts) (node_part what)
        laptop.old laptop.new out.old out.new tt) }
    ensures decided { OnOk result (ClientDecides D.medium what out.old out.new laptop.old) }
    ensures trails { OnOk result (KeepsTrails laptop.old laptop.new) }
    ensures place { SamePlace laptop.old laptop.new }
    ensures disk { KeepsNode D.medium (stops_node what) result laptop.old laptop.new }
    ensures text { stops_node what ≡ true → Extends out.old out.new }
{
    match what {
        NodeEvent::Show => show_view(laptop, out),
        NodeEvent::Stop { calls, pick } => laptop.arm(calls, pick, out),
        NodeEvent::Crash => laptop.crash(out),
        NodeEvent::Restart => laptop.restart(alloc, out),
    }
}

/// Prints the tree that the client sees, if it is alive; else `down`.
#[tactic(auto, using(iot_laptop::proofs::NodesLaws::some_awake))]
fn show_view<D: Disk>(laptop: &Laptop<D>, out: &mut Text) -> Result<(), NoMemory>
    requires { StandsAnyhow D.medium laptop.now }
    ensures { OnOk result ((scripts : List Declared) → Refines (ClientStands D.medium scripts) (node_part Show)
        laptop.now laptop.now out.old out.new tt) }
{
    if laptop.is_alive() {
        return show(laptop.view(), out);
    }
    say(b"down", out)
}

/// An event of a client's link.
pub(crate) fn relink<D: Disk>(
    laptop: &mut Laptop<D>,
    what: LinkEvent,
    out: &mut Text,
) -> Result<(), NoMemory>
    requires { StandsAnyhow D.medium laptop.old }
    ensures step { OnOk result ((scripts : List Declared) → Refines (ClientStands D.medium scripts) (link_part what)
        laptop.old laptop.new out.old out.new tt) }
    ensures trails { KeepsTrails laptop.old laptop.new }
    ensures place { SamePlace laptop.old laptop.new }
    ensures disk { KeepsDisk D.medium (disk_in laptop.old) (disk_in laptop.new) }
{
    match what {
        LinkEvent::Connect => laptop.connect(out),
        LinkEvent::Disconnect => laptop.disconnect(out),
        LinkEvent::Lose(loss) => laptop.lose(loss, out),
    }
}

/// Whether the event makes a later call of a disk fail.
pub(crate) fn arms(event: &Event) -> bool
    ensures { result ≡ arms_a_disk event.now }
{
    matches!(
        event,
        Event::Server(NodeEvent::Stop { calls: _, pick: _ })
            | Event::At {
                client: _,
                what: ClientEvent::Node(NodeEvent::Stop { calls: _, pick: _ })
            }
            | Event::StopBackup { calls: _, pick: _ }
    )
}
