//! What workers evaluate of a MiniJava project ahead of its answer.
ghost use Rattle.std.specs.Prelude.{◌<◌, ◌≤◌, length};
ghost use Rattle.named_files.specs.Projects.{most_name_bytes};

use crate::lists::{ClassJobs, Pass};
use driver::{Evaluate, Jobs, Undone};
use fingerprint::Sealed;
use item_ids::Key;
use named_files::Project;
use ordered_names::Name;
use result_bytes::IndexRow;
use std::alloc::{AllocError, Global};
use std::sync::Arc;

impl Jobs for ClassJobs {
    /// Evaluates the trees of the files that the worker takes, the index, and the queries of the classes that it takes.
    fn evaluate_ahead<E: Evaluate>(
        &self,
        alloc: Global,
        project: &Project,
        evaluator: &mut E,
    ) -> Result<(), Undone> {
        let mut worker = Worker { alloc, evaluator };
        worker.evaluate_trees(project, self)?;
        let index = worker.evaluate(Key::Index)?;
        worker.evaluate_classes(index.value().index(), self)
    }
}

/// A worker that evaluates keys, with an allocator for these.
#[derive(Drop)]
struct Worker<'a, E: Evaluate> {
    alloc: Global,
    evaluator: &'a mut E,
}

impl<E: Evaluate> Worker<'_, E> {
    /// Evaluates a key.
    fn evaluate(&mut self, key: Key) -> Result<Arc<Sealed>, Undone>
        requires serves { E.serves }
    {
        self.evaluator.evaluate(key)
    }

    /// Evaluates the trees of the files that the worker takes.
    fn evaluate_trees(&mut self, project: &Project, lists: &ClassJobs) -> Result<(), Undone>
        requires serves { E.serves }
    {
        let files = project.files();
        for _ in 0..files.len() {
            let Some(at) = lists.tree(files.len()) else {
                return Ok(());
            };
            let (name, _) = &files[at];
            self.evaluate_tree(name.as_str())?;
        }
        Ok(())
    }

    /// Evaluates the tree of a file.
    fn evaluate_tree(&mut self, file: &str) -> Result<(), Undone>
        requires serves { E.serves }
        requires some { 0 < length file.now }
        requires short { length file.now ≤ most_name_bytes }
    {
        self.evaluate(Key::Tree(Name::new(self.alloc, file)?))?;
        Ok(())
    }

    /// Evaluates the queries of the classes of the index, in passes, so that each run finds what it reads.
    fn evaluate_classes(&mut self, rows: &[IndexRow], lists: &ClassJobs) -> Result<(), Undone>
        requires serves { E.serves }
    {
        for pass in [
            Pass::Header,
            Pass::Methods,
            Pass::Supers,
            Pass::Members,
            Pass::Diags,
        ] {
            self.evaluate_pass(rows, pass, lists)?;
        }
        Ok(())
    }

    /// Evaluates this query of the classes that the worker takes.
    fn evaluate_pass(
        &mut self,
        rows: &[IndexRow],
        pass: Pass,
        lists: &ClassJobs,
    ) -> Result<(), Undone>
        requires serves { E.serves }
    {
        for _ in 0..rows.len() {
            let Some(at) = lists.class(pass, rows.len()) else {
                return Ok(());
            };
            self.evaluate_class(&rows[at].class, pass)?;
        }
        Ok(())
    }

    /// Evaluates this query of a class.
    fn evaluate_class(&mut self, class: &Name, pass: Pass) -> Result<(), Undone>
        requires serves { E.serves }
    {
        match pass {
            Pass::Header => self.evaluate_of_class(class, ClassQuery::Header),
            Pass::Methods => self.evaluate_methods(class, MethodQuery::Method),
            Pass::Supers => self.evaluate_of_class(class, ClassQuery::Supers),
            Pass::Members => self.evaluate_of_class(class, ClassQuery::Members),
            Pass::Diags => self.evaluate_diags(class),
        }
    }

    /// Evaluates the diagnostics of a class: of its declarations, of each of its bodies, and all of them together.
    fn evaluate_diags(&mut self, class: &Name) -> Result<(), Undone>
        requires serves { E.serves }
    {
        self.evaluate_of_class(class, ClassQuery::CheckClass)?;
        self.evaluate_methods(class, MethodQuery::CheckBody)?;
        self.evaluate_of_class(class, ClassQuery::Diags)
    }

    /// Evaluates this query of a class.
    fn evaluate_of_class(&mut self, class: &Name, query: ClassQuery) -> Result<(), Undone>
        requires serves { E.serves }
    {
        self.evaluate(class_key(self.alloc, query, class)?)?;
        Ok(())
    }

    /// Evaluates this query of each method of a class, or of `main`.
    fn evaluate_methods(&mut self, class: &Name, query: MethodQuery) -> Result<(), Undone>
        requires serves { E.serves }
    {
        let header = self.evaluate(class_key(self.alloc, ClassQuery::Header, class)?)?;
        let Some(header) = header.value().header() else {
            return Ok(());
        };
        if header.is_main() {
            return self.evaluate_main(class, query);
        }
        for method in header.methods() {
            self.evaluate_method(class, method, query)?;
        }
        Ok(())
    }

    /// Evaluates this query of `main`, which has no types.
    fn evaluate_main(&mut self, class: &Name, query: MethodQuery) -> Result<(), Undone>
        requires serves { E.serves }
    {
        self.evaluate(main_key(self.alloc, class, query)?)?;
        Ok(())
    }

    /// Evaluates this query of a method: with the method its types, too.
    fn evaluate_method(
        &mut self,
        class: &Name,
        method: &Name,
        query: MethodQuery,
    ) -> Result<(), Undone>
        requires serves { E.serves }
    {
        self.evaluate(method_key(self.alloc, class, method, query)?)?;
        if let MethodQuery::Method = query {
            self.evaluate(method_key(self.alloc, class, method, MethodQuery::Sig)?)?;
        }
        Ok(())
    }
}

/// The queries of a class that a worker evaluates.
#[derive(Clone, Copy)]
enum ClassQuery {
    /// Its header.
    Header,
    /// Its superclasses.
    Supers,
    /// Its members.
    Members,
    /// The diagnostics of its declarations.
    CheckClass,
    /// All of its diagnostics.
    Diags,
}

/// The key of this query of a class.
fn class_key(alloc: Global, query: ClassQuery, class: &Name) -> Result<Key, AllocError> {
    let class = class.copy(alloc)?;
    match query {
        ClassQuery::Header => Ok(Key::Header(class)),
        ClassQuery::Supers => Ok(Key::Supers(class)),
        ClassQuery::Members => Ok(Key::Members(class)),
        ClassQuery::CheckClass => Ok(Key::CheckClass(class)),
        ClassQuery::Diags => Ok(Key::Diags(class)),
    }
}

/// The queries of each method of a class that a worker evaluates.
#[derive(Clone, Copy)]
enum MethodQuery {
    /// The method.
    Method,
    /// Its types.
    Sig,
    /// The diagnostics in its body.
    CheckBody,
}

/// The key of this query of a method.
fn method_key(
    alloc: Global,
    class: &Name,
    method: &Name,
    query: MethodQuery,
) -> Result<Key, AllocError> {
    let (class, method) = (class.copy(alloc)?, method.copy(alloc)?);
    match query {
        MethodQuery::Method => Ok(Key::Method(class, method)),
        MethodQuery::Sig => Ok(Key::Sig(class, method)),
        MethodQuery::CheckBody => Ok(Key::CheckBody(class, method)),
    }
}

/// The key of this query of `main`.
fn main_key(alloc: Global, class: &Name, query: MethodQuery) -> Result<Key, AllocError> {
    let main = Name::new(alloc, "main")?;
    method_key(alloc, class, &main, query)
}
