//! Places of session files.
ghost use Rattle.std.specs.Prelude.{◌≡◌, ◌≤◌, IfOk, string_bytes};
ghost use Rattle.session_cache.specs.Names.{most};
ghost use Rattle.session_cache.specs.Starts.{IsSessionPlace, chain_path, path_of};

use crate::names::{EntryKind, push_name};
use std::alloc::{AllocError, Global};

/// Where the file of a session stands in a cache.
#[derive(Clone, Copy, Debug, PartialEq, Eq)]
pub struct SessionPlace {
    /// The number of its chain.
    pub chain: u32,
    /// Its number in the chain.
    pub number: u32,
}

impl SessionPlace {
    /// The path of the file, in the cache of this folder.
    pub fn path(self, alloc: Global, dir: &str) -> Result<String, AllocError>
        requires { IsSessionPlace self }
        ensures { IfOk result (λ path. string_bytes path ≡ path_of dir.now self) }
    {
        let mut path = chain_path(alloc, dir, self.chain)?;
        path.push_str("/")?;
        push_name(&mut path, EntryKind::Session, self.number)?;
        Ok(path)
    }
}

/// The path of a chain, in the cache of this folder.
pub(crate) fn chain_path(alloc: Global, dir: &str, chain: u32) -> Result<String, AllocError>
    requires { chain ≤ most }
    ensures { IfOk result (λ path. string_bytes path ≡ chain_path dir.now chain) }
{
    let mut path = String::from_str(alloc, dir)?;
    path.push_str("/")?;
    push_name(&mut path, EntryKind::Chain, chain)?;
    Ok(path)
}
