//! Trees and bodies that keep their methods as bytes.
#![tactic(auto)]

mod body;
mod files;
mod formats;
mod index;
mod methods;
mod named;
mod stored;
mod tree;
mod writing;

pub use body::{Body, MainOrMethod, MethodHead};
pub use formats::{BodyFormat, TreeFormat};
pub use stored::{StoredClass, StoredFile, StoredMain, StoredMethod};
pub use tree::Tree;
