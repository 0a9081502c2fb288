//! The tree of a file's tokens.
ghost use Rattle.std.specs.Prelude.{◌≡◌, IfOk, MatchResult};
ghost use Rattle.mj_tree.specs.Trees.{File};
ghost use Rattle.mj_tree.specs.Views.{file_view};
ghost use Rattle.mj_parser.specs.Declarations.{Derives};
ghost use Rattle.mj_expressions.specs.declared.fault.ParseFault.TheVariants.{OutOfMemory};

use crate::files::file;
use mj_expressions::ParseFault;
use mj_lexer::Token;
use mj_tree::FileTree;
use std::alloc::Global;

/// The file that the tokens are.
pub fn parse(alloc: Global, tokens: &[Token]) -> Result<FileTree, ParseFault>
    ensures found { IfOk result (λ tree. Derives tokens.now (file_view tree)) }
    ensures only { (other : File) → Derives tokens.now other
        → MatchResult result (λ tree. file_view tree ≡ other) (λ fault. fault ≡ OutOfMemory) }
{
    file(alloc, tokens)
}
