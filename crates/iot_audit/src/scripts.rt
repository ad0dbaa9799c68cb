//! The scripts that events declare, by their names.
ghost use Rattle.std.specs.Prelude.{IfOk};
ghost use Rattle.iot_audit.specs.Scripts.{AreScriptsOf};

use iot_event::Event;
use iot_lang::Script;
use iot_text::{Name, NoMemory};
use std::alloc::Global;
use std::collections::BTreeMap;
use std::rc::Rc;

/// Scripts by their names.
#[derive(Drop)]
pub(crate) struct Scripts {
    by_name: BTreeMap<Name, Rc<Script>>,
}

impl Scripts {
    ghost use Rattle.std.specs.Prelude.{◌≡◌, option_copied, option_map};
    ghost use Rattle.iot_audit.specs.Scripts.{code_in};

    /// Those that these events declare. Of two of the same name it is the first.
    pub(crate) fn of(alloc: Global, events: &[Event]) -> Result<Scripts, NoMemory>
        ensures { IfOk result (AreScriptsOf events.now) }
    {
        let mut by_name = BTreeMap::new(alloc);
        'events: for event in events {
            if let Event::Script(name, script) = event {
                let script = script.shared()?;
                if !by_name.contains_key(name) {
                    match by_name.insert(*name, script) {
                        Ok(_) => (),
                        Err(_) => return Err(NoMemory),
                    }
                }
            }
        }
        Ok(Scripts { by_name })
    }

    /// The script of this name, if there is one. Its cost is logarithmic in how many there are.
    pub(crate) fn named(&self, name: &Name) -> Option<&Rc<Script>>
        ensures { option_map (λ script. script.value) (option_copied result) ≡ code_in self.now name.now }
    {
        self.by_name.get(name)
    }
}
