//! What is true of every machine, whatever is done to it.
ghost use Rattle.iot_machine.specs.Counting.{EventCounts, EventKeepsSound, OpeningCounts, OpeningIsSound};
ghost use Rattle.iot_machine.specs.Laws.{ACutIsItsPrefix};

/// A transaction that was cut is the first of the acts that it had done, as many as read the same on its client's view, wherever it is
/// used: in its client's queue, at certification, if it is run again, and in the server's list. It does nothing; its contract is the law.
pub fn a_cut_is_its_prefix()
    ensures { ACutIsItsPrefix }
{}

/// In its opening a node stops at most once, and its count of faults rises exactly if it does.
pub fn an_opening_is_counted()
    ensures { OpeningCounts }
{}

/// So in each event; and disks are armed by the events `stop` alone, each that of its node, with its call and its pick. That `promote`
/// gives up the server's first disk exactly if the server is down and has a backup is said there too.
pub fn an_event_is_counted()
    ensures { EventCounts }
{}

/// After its opening a machine is sound: no transaction is in the server's list twice, and the list and the clients go together.
pub fn an_opening_is_sound()
    ensures { OpeningIsSound }
{}

/// And each event keeps it so, whichever state a node comes back with.
pub fn an_event_keeps_it_sound()
    ensures { EventKeepsSound }
{}
