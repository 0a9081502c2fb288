//! Bodies as their canonical bytes.
ghost use Rattle.std.specs.Prelude.{◌≡◌, IfOk, Ok, option_map};
ghost use Rattle.mj_tree.specs.Views.{stmt_view, method_view};
ghost use Rattle.byte_readers.specs.Reading.{Decodes};
ghost use Rattle.tree_bytes.specs.Bodies.{OfMain, OfMethod, BodyFits, body, body_at, statement_of, method_of, types_of};
ghost use Rattle.tree_bytes.specs.BodyViews.{body_view, types_view};
ghost use Rattle.tree_spelling.specs.Reading.{top_stmt_at, tagged_method_at};
ghost use Rattle.tree_skipping.specs.Skipping.{Skips, behind};
ghost use Rattle.tree_spelling.specs.Storable.{TopStmtFits, MethodFits};

use crate::methods::read_types;
use byte_readers::{Breach, ReadError, not_canonical, read_name};
use mj_tree::{MethodTree, Stmt, Ty, Variable};
use ordered_names::Name;
use std::alloc::{AllocError, Global};
use std::marker::Model;
use tree_skipping::{skip_method, skip_top_stmt};
use tree_spelling::{put_method, put_top_stmt, read_method, read_top_stmt};

/// What a body belongs to.
pub enum MainOrMethod {
    /// The statement of `main`.
    Main(Stmt),
    /// A method.
    Method(MethodTree),
}

impl Drop for MainOrMethod {
    fn drop(self) {
        match self {
            MainOrMethod::Main(_) | MainOrMethod::Method(_) => {}
        }
    }
}

/// The types that a method declares.
#[derive(Drop)]
pub struct MethodHead {
    pub returns: Ty,
    pub formals: Vec<Variable>,
}

/// The statement of `main`, or a method, with tokens in four bytes and at most 500 levels. It is kept as its canonical
/// bytes, which take a tenth of the room of the tree, and is opened when its parts are needed. Contracts see what the bytes
/// spell.
pub struct Body {
    bytes: Vec<u8>,
}

impl Drop for Body {
    fn drop(self) {
        let Body { bytes: _ } = self;
    }
}

impl Model for Body {
    ghost use Rattle.std.specs.Prelude.{◌≡◌};
    ghost use Rattle.tree_bytes.specs.Bodies.{BodyValue, BodyFits, body, body_code, body_spelled};

    ghost Value = { BodyValue };

    ghost coded = { body_code };

    ghost view = { λ b. body_spelled b.bytes.items };

    ghost invariant = { λ b. BodyFits (body_spelled b.bytes.items)
        × (b.bytes.items ≡ body (body_spelled b.bytes.items)) };
}

impl Body {
    /// The statement of `main`.
    pub fn of_main(alloc: Global, statement: &Stmt) -> Result<Self, AllocError>
        requires { TopStmtFits (stmt_view statement.now) }
        ensures { IfOk result (λ b. b ≡ OfMain (stmt_view statement.now)) }
    {
        let mut bytes = Vec::new(alloc);
        bytes.push(0x00)?;
        put_top_stmt(&mut bytes, statement)?;
        Ok(Body { bytes })
    }

    /// A method.
    pub fn of_method(alloc: Global, method: &MethodTree) -> Result<Self, AllocError>
        requires { MethodFits (method_view method.now) }
        ensures { IfOk result (λ b. b ≡ OfMethod (method_view method.now)) }
    {
        let mut bytes = Vec::new(alloc);
        bytes.push(0x01)?;
        put_method(&mut bytes, method)?;
        Ok(Body { bytes })
    }

    /// A copy of the body that is in front of what is left behind it.
    pub(crate) fn front(alloc: Global, bytes: &[u8], left: &[u8]) -> Result<Self, AllocError>
        requires { behind (body_at bytes.now) ≡ Ok left.now }
        ensures { IfOk result (λ b. body_at bytes.now ≡ Ok (b, left.now)) }
    {
        let bytes = copy_bytes(alloc, &bytes[..bytes.len() - left.len()])?;
        Ok(Body { bytes })
    }

    /// A copy of the method that is in front of what is left behind it.
    pub(crate) fn front_method(alloc: Global, bytes: &[u8], left: &[u8]) -> Result<Self, AllocError>
        requires { behind (tagged_method_at bytes.now) ≡ Ok left.now }
        ensures method { IfOk result (λ b. b ≡ OfMethod (method_of b)) }
        ensures read { IfOk result (λ b. tagged_method_at bytes.now ≡ Ok (method_of b, left.now)) }
        ensures fits { IfOk result (λ b. MethodFits (method_of b)) }
    {
        let bytes = copy_bytes(alloc, &bytes[..bytes.len() - left.len()])?;
        Ok(Body { bytes })
    }

    /// A copy of the statement of `main` that is in front of what is left behind it.
    pub(crate) fn front_main(alloc: Global, bytes: &[u8], left: &[u8]) -> Result<Self, AllocError>
        requires { behind (top_stmt_at bytes.now) ≡ Ok left.now }
        ensures main { IfOk result (λ b. b ≡ OfMain (statement_of b)) }
        ensures read { IfOk result (λ b. top_stmt_at bytes.now ≡ Ok (statement_of b, left.now)) }
        ensures fits { IfOk result (λ b. TopStmtFits (statement_of b)) }
    {
        let mut own = Vec::new(alloc);
        own.push(0x00)?;
        own.extend_from_slice(&bytes[..bytes.len() - left.len()])?;
        Ok(Body { bytes: own })
    }

    /// The name of a method.
    pub(crate) fn method_name(&self, alloc: Global) -> Result<Name, AllocError>
        requires { self.now ≡ OfMethod (method_of self.now) }
        ensures { IfOk result (λ name. name ≡ (method_of self.now).name) }
    {
        match read_name(alloc, &self.bytes()[1..]) {
            Ok((name, _)) => Ok(name),
            Err(ReadError::Memory) => Err(AllocError),
            Err(ReadError::Breach(_)) => unreachable!(),
        }
    }

    /// Its canonical bytes.
    pub fn bytes(&self) -> &[u8]
        ensures value { result.now ≡ body self.now }
        ensures fits { BodyFits self.now }
    {
        self.bytes.as_slice()
    }

    /// What its bytes spell, as a tree.
    pub fn open(&self, alloc: Global) -> Result<MainOrMethod, AllocError>
        ensures value { IfOk result (λ root. body_view root ≡ self.now) }
        ensures fits { BodyFits self.now }
    {
        match read_body(alloc, self.bytes()) {
            Ok((root, _)) => Ok(root),
            Err(ReadError::Memory) => Err(AllocError),
            Err(ReadError::Breach(_)) => unreachable!(),
        }
    }

    /// The types that a method declares, for which its body isn't opened. The statement of `main` declares none.
    pub fn types(&self, alloc: Global) -> Result<Option<MethodHead>, AllocError>
        ensures { IfOk result (λ types. option_map types_view types ≡ types_of self.now) }
    {
        let bytes = self.bytes();
        if bytes[0] == 0x00 {
            return Ok(None);
        }
        match read_types(alloc, &bytes[1..]) {
            Ok((types, _)) => Ok(Some(types)),
            Err(ReadError::Memory) => Err(AllocError),
            Err(ReadError::Breach(_)) => unreachable!(),
        }
    }

    /// An equal body.
    pub fn copy(&self, alloc: Global) -> Result<Body, AllocError>
        ensures { IfOk result (λ body. body ≡ self.now) }
    {
        let copy = copy_bytes(alloc, self.bytes())?;
        Ok(Body { bytes: copy })
    }
}

/// A copy of bytes.
fn copy_bytes(alloc: Global, bytes: &[u8]) -> Result<Vec<u8>, AllocError>
    ensures { IfOk result (λ copy. copy.items ≡ bytes.now) }
{
    bytes.to_vec(alloc)
}

/// Reads a body as a tree: 00 and a statement, or 01 and a method.
#[tactic(auto, unfolding(crate::specs::Bodies::body_at))]
fn read_body(alloc: Global, bytes: &[u8]) -> Result<(MainOrMethod, &[u8]), ReadError>
    ensures { Decodes body_view result (body_at bytes.now) }
{
    match bytes {
        [] => Err(ReadError::Breach(Breach::Short)),
        [0x00, rest @ ..] => {
            let (statement, rest) = read_top_stmt(alloc, rest)?;
            Ok((MainOrMethod::Main(statement), rest))
        }
        [0x01, rest @ ..] => {
            let (method, rest) = read_method(alloc, rest)?;
            Ok((MainOrMethod::Method(method), rest))
        }
        [_, ..] => Err(not_canonical(bytes)),
    }
}

/// What is left behind a body.
#[tactic(auto, unfolding(crate::specs::Bodies::body_at))]
pub(crate) fn skip_body(bytes: &[u8]) -> Result<&[u8], ReadError>
    ensures { Skips result (body_at bytes.now) }
{
    match bytes {
        [] => Err(ReadError::Breach(Breach::Short)),
        [0x00, rest @ ..] => skip_top_stmt(rest),
        [0x01, rest @ ..] => skip_method(rest),
        [_, ..] => Err(not_canonical(bytes)),
    }
}
