//! The sites of all logs of a run.
ghost use Rattle.std.specs.Prelude.{◌≡◌, IfOk, IfSome, Ok};
ghost use Rattle.rma_field.specs.Sites.{site};

use indexmap::IndexMap;
use rma_base::{Memory, Site};
use std::alloc::Global;
use std::cell::RefCell;
use std::rc::Rc;

/// The sites of all logs of a run, which are mostly the same at all ranks: logs that share them keep each text once. What it
/// holds decides nothing: whoever takes a site from it has compared the texts.
#[derive(Drop)]
pub struct SharedSites {
    /// Each by the key of its text. Of two texts with one key the first is kept.
    sites: Rc<RefCell<IndexMap<u64, Site>>>,
}

impl SharedSites {
    /// No sites.
    pub fn new(alloc: Global) -> Result<SharedSites, Memory> {
        match Rc::new(alloc, RefCell::new(IndexMap::new(alloc))) {
            Ok(sites) => Ok(SharedSites { sites }),
            Err(_) => Err(Memory),
        }
    }

    /// The same sites, for another log.
    pub fn share(&self) -> Result<SharedSites, Memory> {
        match self.sites.clone() {
            Ok(sites) => Ok(SharedSites { sites }),
            Err(_) => Err(Memory),
        }
    }

    /// The site of this text, if it is there. This is the key of the text.
    pub(crate) fn site(&self, key: u64, text: &[u8]) -> Result<Option<Site>, Memory>
        ensures { IfOk result (λ found. IfSome found (λ found. site text.now ≡ Ok found)) }
    {
        let Ok(sites) = self.sites.try_borrow() else {
            return Ok(None);
        };
        match sites.get(&key) {
            Some(site) if site.bytes() == text => Ok(Some(site.copy()?)),
            _ => Ok(None),
        }
    }

    /// Keeps the site for the other logs, where none of this key is there.
    pub(crate) fn keep(&self, key: u64, site: &Site) -> Result<(), Memory> {
        let Ok(mut sites) = self.sites.try_borrow_mut() else {
            return Ok(());
        };
        if sites.contains_key(&key) {
            return Ok(());
        }
        let site = site.copy()?;
        match sites.insert(key, site) {
            Ok(_) => Ok(()),
            Err(_) => Err(Memory),
        }
    }
}
