//! The master keys of a database, each ready to wrap and to unwrap.

ghost use Rattle.std.specs.Prelude.{◌≡◌, IfOk, find, option_map};
ghost use Rattle.kdb_plain.specs.States.{is_version, master_of};

use kdb_base::{Master, Masters, MemoryOut};
use master_keys::MasterKey;
use std::alloc::Global;
use std::marker::Model;

/// A master key that is ready, with its version.
#[derive(Drop)]
struct ReadyMaster {
    version: u16,
    key: MasterKey,
}

impl Model for ReadyMaster {
    ghost use Rattle.kdb_base.specs.declared.versions.Master.{Master};

    ghost Value = { Master };

    ghost view = { λ m. record { version = m.version; key = m.key } };
}

impl ReadyMaster {
    fn new(master: &Master) -> ReadyMaster
        ensures { result ≡ master.now }
    {
        ReadyMaster {
            version: master.version,
            key: MasterKey::new(&master.key),
        }
    }

    fn version(&self) -> u16
        ensures { result ≡ self.now.version }
    {
        self.version
    }

    fn key(&self) -> &MasterKey
        ensures { result.now ≡ self.now.key }
    {
        &self.key
    }
}

/// The master keys of a database, with what is derived from each derived once. Contracts see the master keys.
#[derive(Drop)]
pub struct MasterRing {
    items: Vec<ReadyMaster>,
}

impl Model for MasterRing {
    ghost use Rattle.std.specs.Prelude.{List};
    ghost use Rattle.kdb_base.specs.declared.versions.Master.{Master};

    ghost Value = { List Master };

    ghost view = { λ r. r.items.items };
}

fn ready_all(alloc: Global, masters: &[Master]) -> Result<Vec<ReadyMaster>, MemoryOut>
    ensures { IfOk result (λ v. v.items ≡ masters.now) }
{
    let mut items = Vec::with_capacity(alloc, masters.len())?;
    for master in masters {
        items.push(ReadyMaster::new(master))?;
    }
    Ok(items)
}

fn find_ready(items: &[ReadyMaster], version: u16) -> Option<&ReadyMaster>
    ensures { option_map (λ m. m.now) result ≡ find (is_version version) items.now }
{
    items.iter().find(|item| item.version() == version)
}

impl MasterRing {
    /// Derives what each of the master keys wraps and unwraps with.
    ///
    /// # Errors
    ///
    /// `MemoryOut` where memory is wanted and not given.
    pub fn new(alloc: Global, masters: &Masters) -> Result<MasterRing, MemoryOut>
        ensures { IfOk result (λ ring. ring ≡ masters.now) }
    {
        let items = ready_all(alloc, masters.as_slice())?;
        Ok(MasterRing { items })
    }

    /// The master key of this version.
    #[tactic(auto, unfolding(kdb_plain::specs::States::master_of))]
    pub fn find(&self, version: u16) -> Option<&MasterKey>
        ensures { option_map (λ k. k.now) result ≡ master_of self.now version }
    {
        match find_ready(&self.items, version) {
            Some(item) => Some(item.key()),
            None => None,
        }
    }
}
