//! What is run in the place of a transaction that conflicts.
ghost use Rattle.std.specs.Prelude.{◌≡◌};
ghost use Rattle.iot_resolve.specs.Plans.{plan_of};

use iot_queue::Item;
use iot_text::Name;
use iot_tree::{ACT_LIMIT, OnConflict};

/// What is to be run in the place of a transaction that conflicts.
#[derive(Clone, Copy, Debug)]
pub struct Plan {
    /// The script to run.
    pub script: Name,
    /// How many acts are allowed.
    pub budget: u64,
    /// Whether its `keep` commands find the files that the client has.
    pub keeps: bool,
}

/// What is to be run in the place of a transaction: its own script, or its resolver. `None` exactly if the transaction is given
/// up or waits for a decision by hand. Does not allocate.
pub fn plan_of(item: &Item) -> Option<Plan>
    ensures { result ≡ plan_of item.now }
{
    match item.option {
        OnConflict::Reexec => Some(Plan {
            script: item.script,
            budget: item.budget,
            keeps: false,
        }),
        OnConflict::Resolver(script) => Some(Plan {
            script,
            budget: ACT_LIMIT,
            keeps: true,
        }),
        OnConflict::Abort | OnConflict::Manual => None,
    }
}
