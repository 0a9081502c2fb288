//! Parts of headers and chains.
ghost use Rattle.std.specs.Prelude.{◌≡◌, ◌++◌, OnOk, IfSome};
ghost use Rattle.byte_readers.specs.Names.{IsName};
ghost use Rattle.byte_readers.specs.Reading.{Decodes};
ghost use Rattle.result_bytes.specs.Canon.{boolean, chain_end};
ghost use Rattle.result_bytes.specs.Storable.{ChainEndFits};
ghost use Rattle.result_bytes.specs.Reading.{boolean_at, chain_end_at};

use byte_readers::{Breach, ReadError, check_name, not_canonical, put_name, read_name};
use ordered_names::Name;
use std::alloc::{AllocError, Global};

/// How a chain of classes ends.
pub enum ChainEnd {
    /// The last class extends nothing.
    Top,
    /// The last class extends this name, which isn't declared.
    Undeclared(Name),
    /// The last class extends this class of the chain.
    Repeated(Name),
}

impl Drop for ChainEnd {
    fn drop(self) {
        match self {
            ChainEnd::Top | ChainEnd::Undeclared(_) | ChainEnd::Repeated(_) => {}
        }
    }
}

/// A name that is given has a spelling.
pub fn check_perhaps_name(item: &Option<Name>)
    ensures { IfSome item.now IsName }
{
    if let Some(item) = item {
        check_name(item);
    }
}

pub fn put_boolean(out: &mut Vec<u8>, value: bool) -> Result<(), AllocError>
    ensures { OnOk result (out.new.items ≡ out.old.items ++ boolean value) }
{
    out.push(if value { 0x01 } else { 0x00 })?;
    Ok(())
}

#[tactic(auto, unfolding(crate::specs::Reading::boolean_at))]
pub fn read_boolean(bytes: &[u8]) -> Result<(bool, &[u8]), ReadError>
    ensures { Decodes (λ x. x) result (boolean_at bytes.now) }
{
    match bytes {
        [] => Err(ReadError::Breach(Breach::Short)),
        [0x00, rest @ ..] => Ok((false, rest)),
        [0x01, rest @ ..] => Ok((true, rest)),
        [_, ..] => Err(not_canonical(bytes)),
    }
}

/// The end of a chain has a spelling.
pub fn check_end(end: &ChainEnd)
    ensures { ChainEndFits end.now }
{
    match end {
        ChainEnd::Top => {}
        ChainEnd::Undeclared(class) | ChainEnd::Repeated(class) => check_name(class),
    }
}

pub fn put_end(out: &mut Vec<u8>, end: &ChainEnd) -> Result<(), AllocError>
    ensures { OnOk result (out.new.items ≡ out.old.items ++ chain_end end.now) }
{
    match end {
        ChainEnd::Top => out.push(0x00)?,
        ChainEnd::Undeclared(class) => {
            out.push(0x01)?;
            put_name(out, class)?;
        }
        ChainEnd::Repeated(class) => {
            out.push(0x02)?;
            put_name(out, class)?;
        }
    }
    Ok(())
}

#[tactic(auto, unfolding(crate::specs::Reading::chain_end_at))]
pub fn read_end(alloc: Global, bytes: &[u8]) -> Result<(ChainEnd, &[u8]), ReadError>
    ensures { Decodes (λ x. x) result (chain_end_at bytes.now) }
{
    match bytes {
        [] => Err(ReadError::Breach(Breach::Short)),
        [0x00, rest @ ..] => Ok((ChainEnd::Top, rest)),
        [0x01, rest @ ..] => {
            let (class, rest) = read_name(alloc, rest)?;
            Ok((ChainEnd::Undeclared(class), rest))
        }
        [0x02, rest @ ..] => {
            let (class, rest) = read_name(alloc, rest)?;
            Ok((ChainEnd::Repeated(class), rest))
        }
        [_, ..] => Err(not_canonical(bytes)),
    }
}
