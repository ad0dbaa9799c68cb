//! Scripts and profiles, each shared by the event that declares it and all who use it.
use iot_lang::Script;
use iot_text::NoMemory;
use iot_tree::Profile;
use std::alloc::Global;
use std::marker::Model;
use std::rc::Rc;

/// A script, shared by the event that declares it and all who run it. Contracts see it as its `Code`.
#[derive(Drop)]
pub struct SharedScript {
    script: Rc<Script>,
}

impl Model for SharedScript {
    ghost use Rattle.iot_lang.specs.Code.{Code, coded_code};

    ghost Value = { Code };

    ghost coded = { coded_code };

    ghost view = { λ shared. shared.script.value };
}

impl SharedScript {
    ghost use Rattle.std.specs.Prelude.{◌≡◌, IfOk};
    ghost use Rattle.iot_lang.specs.Scripts.{IsScript};

    /// Makes a script one that can be shared.
    ///
    /// # Errors
    ///
    /// Only if memory runs out.
    pub fn new(alloc: Global, script: Script) -> Result<SharedScript, NoMemory>
        ensures { IfOk result (λ shared. shared ≡ script) }
    {
        Ok(SharedScript {
            script: Rc::new(alloc, script)?,
        })
    }

    /// The script.
    #[inline]
    pub fn script(&self) -> &Script
        ensures { result.now ≡ self.now }
    {
        &self.script
    }

    /// Shares the script, without copying it. Does not allocate.
    ///
    /// # Errors
    ///
    /// Only if it is shared more often than can be counted.
    #[inline]
    pub fn share(&self) -> Result<SharedScript, NoMemory>
        ensures { IfOk result (λ shared. shared ≡ self.now) }
    {
        Ok(SharedScript {
            script: Rc::clone(&self.script)?,
        })
    }

    /// The script with its count of owners, for those who keep it while it runs. Does not allocate.
    ///
    /// # Errors
    ///
    /// Only if it is shared more often than can be counted.
    #[inline]
    pub fn shared(&self) -> Result<Rc<Script>, NoMemory>
        ensures value { IfOk result (λ script. script.value ≡ self.now) }
        ensures script { IsScript self.now }
    {
        // Some lines spell it, as each `Script`; its block says so.
        let _ = self.script.block();
        Rc::clone(&self.script)
    }
}

/// A profile, shared by the event that declares it and all walks that name it. Contracts see it as the list of its wishes.
#[derive(Drop)]
pub struct SharedProfile {
    profile: Rc<Profile>,
}

impl Model for SharedProfile {
    ghost use Rattle.std.specs.Prelude.{List};
    ghost use Rattle.std.specs.Coded.{coded_list};
    ghost use Rattle.iot_tree.specs.declared.profile.Wish.{Wish};
    ghost use Rattle.iot_tree.specs.contracts.profile.Wish as wish;

    ghost Value = { List Wish };

    ghost coded = { coded_list (wish.the_row).coded };

    ghost view = { λ shared. shared.profile.value };
}

impl SharedProfile {
    ghost use Rattle.std.specs.Prelude.{◌≡◌, IfOk};

    /// Makes a profile one that can be shared.
    ///
    /// # Errors
    ///
    /// Only if memory runs out.
    pub fn new(alloc: Global, profile: Profile) -> Result<SharedProfile, NoMemory>
        ensures { IfOk result (λ shared. shared ≡ profile) }
    {
        Ok(SharedProfile {
            profile: Rc::new(alloc, profile)?,
        })
    }

    /// The profile.
    #[inline]
    pub fn profile(&self) -> &Profile
        ensures { result.now ≡ self.now }
    {
        &self.profile
    }

    /// Shares the profile, without copying it. Does not allocate.
    ///
    /// # Errors
    ///
    /// Only if it is shared more often than can be counted.
    #[inline]
    pub fn share(&self) -> Result<SharedProfile, NoMemory>
        ensures { IfOk result (λ shared. shared ≡ self.now) }
    {
        Ok(SharedProfile {
            profile: Rc::clone(&self.profile)?,
        })
    }
}
