//! Which jobs of a session of a MiniJava project are taken.
ghost use Rattle.std.specs.Prelude.{◌<◌, IfSome};

use driver::Numbers;

/// What is evaluated of each class of the index, in the order of the ranks: what a pass reads of the classes is done by
/// the passes before it.
#[derive(Clone, Copy)]
pub(crate) enum Pass {
    /// Its header.
    Header,
    /// Each of its methods, and their types.
    Methods,
    /// Its superclasses.
    Supers,
    /// Its members.
    Members,
    /// Its diagnostics.
    Diags,
}

/// The keys that workers evaluate ahead of the answer, in lists: the trees of the files, and each pass over the classes.
/// They take no memory.
pub struct ClassJobs {
    step: usize,
    trees: Numbers,
    headers: Numbers,
    methods: Numbers,
    supers: Numbers,
    members: Numbers,
    diags: Numbers,
}

impl Drop for ClassJobs {
    fn drop(self) {
        let ClassJobs {
            step: _,
            trees: _,
            headers: _,
            methods: _,
            supers: _,
            members: _,
            diags: _,
        } = self;
    }
}

impl ClassJobs {
    /// No job is taken yet. Each list is gone through by this step, which is 1 if none is to be left out.
    pub fn new(step: usize) -> Self {
        ClassJobs {
            step,
            trees: Numbers::new(),
            headers: Numbers::new(),
            methods: Numbers::new(),
            supers: Numbers::new(),
            members: Numbers::new(),
            diags: Numbers::new(),
        }
    }

    /// The place of the next file, of so many, whose tree nobody has taken.
    pub(crate) fn tree(&self, files: usize) -> Option<usize>
        ensures { IfSome result (λ at. at < files) }
    {
        self.trees.take(files, self.step)
    }

    /// The place of the next class, of so many, that nobody has taken in this pass.
    pub(crate) fn class(&self, pass: Pass, classes: usize) -> Option<usize>
        ensures { IfSome result (λ at. at < classes) }
    {
        let numbers = match pass {
            Pass::Header => &self.headers,
            Pass::Methods => &self.methods,
            Pass::Supers => &self.supers,
            Pass::Members => &self.members,
            Pass::Diags => &self.diags,
        };
        numbers.take(classes, self.step)
    }
}
