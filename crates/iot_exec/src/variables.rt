//! Variables.
ghost use Rattle.std.specs.Prelude.{◌≡◌, OnOk};
ghost use Rattle.std.specs.Option.{option_copied};
ghost use Rattle.std.specs.FinMap as map;

use iot_text::{NoMemory, Text};
use std::alloc::Global;
use std::collections::BTreeMap;
use std::marker::Model;

/// The values of variables by their names. Contracts see it as this map.
#[derive(Drop)]
pub struct Variables {
    values: BTreeMap<Text, Text>,
}

impl Model for Variables {
    ghost use Rattle.std.specs.Coded.{coded_ℕ, coded_list};
    ghost use Rattle.std.specs.FinMap.{code, from_entries};
    ghost use Rattle.iot_exec.specs.Variables.{Variables};

    ghost Value = { Variables };

    ghost coded = { code (coded_list coded_ℕ) (coded_list coded_ℕ) };

    ghost view = { λ v. from_entries v.values.entries };
}

impl Variables {
    /// No variable is set. Does not allocate.
    pub(crate) fn new(alloc: Global) -> Variables
        ensures { result ≡ map.empty }
    {
        Variables {
            values: BTreeMap::new(alloc),
        }
    }

    /// The value of the variable, if it is set.
    pub(crate) fn get(&self, name: &Text) -> Option<&Text>
        ensures { option_copied result ≡ map.get self.now name.now }
    {
        self.values.get(name)
    }

    /// Sets the variable to the value.
    pub(crate) fn set(&mut self, name: Text, value: Text) -> Result<(), NoMemory>
        ensures { OnOk result (self.new ≡ map.insert self.old name value) }
    {
        self.values.insert(name, value)?;
        Ok(())
    }
}
