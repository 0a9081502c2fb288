//! The checker that follows the rules from scratch.
ghost use Rattle.std.specs.Prelude.{◌≡◌, ◌↔◌, ℕ, List, Some, IfOk, Contains};
ghost use Rattle.ordered_names.specs.Order.{NameBefore, IsAscendingBy};
ghost use Rattle.mj_classes.specs.Declarations.{decl, place};
ghost use Rattle.mj_members.specs.Classes.{class_ref_view};
ghost use Rattle.mj_classes.specs.Classes.{files_view};
ghost use Rattle.mj_classes.specs.Index.{declared_in};
ghost use Rattle.profiles.specs.declared.profile.Profile.TheVariants.{One};
ghost use Rattle.mj_rules.specs.FaultLists.{NamesFitIn, class_names};
ghost use Rattle.mj_rules.specs.Sentences.{trees_of};
ghost use Rattle.mj_rules.specs.Rules.{IsAnswerFor, AreClassAnswers, Rules};

use crate::body_faults::add_body_faults;
use crate::declaration_faults::declaration_faults;
use crate::project_faults::project_faults;
use crate::reading::read_files;
use crate::tables::class_table;
use mj_answer::{Answer, ClassAnswer, fault_set, name_set};
use mj_classes::{ClassRef, Declarations};
use mj_tables::MemberTables;
use mj_tree::FileTree;
use named_files::Project;
use ordered_names::Name;
use profiles::Profile;
use std::alloc::{AllocError, Global};

/// The answer for the class at this place, the first one of its name.
fn class_answer(
    alloc: Global,
    profile: Profile,
    tables: &MemberTables,
    at: usize,
    class: &ClassRef,
) -> Result<ClassAnswer, AllocError>
    requires first { decl (declared_in tables.now) (class_ref_view class.now).name
        ≡ Some (class_ref_view class.now) }
    requires at { place (declared_in tables.now) (class_ref_view class.now).name ≡ Some at }
    requires fit { NamesFitIn (declared_in tables.now) }
    ensures name { IfOk result (λ answer. answer.name ≡ (class_ref_view class.now).name) }
    ensures rules { IfOk result (IsAnswerFor profile (declared_in tables.now)) }
{
    let table = class_table(alloc, tables.table_at(at))?;
    let mut faults = declaration_faults(alloc, profile, tables, at, class)?;
    add_body_faults(alloc, &mut faults, tables, class)?;
    let name = class.name().copy(alloc)?;
    Ok(ClassAnswer::new(name, table, fault_set(faults)))
}

/// The names of the declared classes, each once, in ascending order.
fn declared_names(alloc: Global, declarations: &Declarations) -> Result<Vec<Name>, AllocError>
    ensures ascending { IfOk result (λ names. IsAscendingBy NameBefore names.items) }
    ensures same { IfOk result (λ names.
        (name : List ℕ)
        → Contains names.items name
        ↔ Contains (class_names (declared_in declarations.now)) name) }
{
    let mut names = Vec::new(alloc);
    for class in declarations.classes() {
        names.push(class.name().copy(alloc)?)?;
    }
    Ok(name_set(names))
}

/// The answers for the declared classes, ascending by name.
fn class_answers(
    alloc: Global,
    profile: Profile,
    tables: &MemberTables,
) -> Result<Vec<ClassAnswer>, AllocError>
    requires { NamesFitIn (declared_in tables.now) }
    ensures { IfOk result (λ answers.
        AreClassAnswers profile (declared_in tables.now) answers.items) }
{
    let declarations = tables.declarations();
    let names = declared_names(alloc, declarations)?;
    let mut answers = Vec::new(alloc);
    for name in &names {
        let Some(at) = declarations.place(name) else {
            unreachable!();
        };
        let class = declarations.class_at(at);
        answers.push(class_answer(alloc, profile, tables, at, &class)?)?;
    }
    Ok(answers)
}

/// The answer that the rules of a profile give a project whose files have these trees.
pub fn answer_for_as(
    alloc: Global,
    profile: Profile,
    project: &Project,
    trees: &[Option<FileTree>],
) -> Result<Answer, AllocError>
    requires { files_view trees.now ≡ trees_of project.now }
    ensures { IfOk result (λ answer. Rules profile project.now answer) }
{
    let declarations = Declarations::new(alloc, trees)?;
    let faults = project_faults(alloc, project, trees, declarations.classes())?;
    let tables = MemberTables::new(alloc, declarations)?;
    let classes = class_answers(alloc, profile, &tables)?;
    Ok(Answer::new(fault_set(faults), classes))
}

/// The answer that the rules of profile 1 give a project whose files have these trees.
pub fn answer_for(
    alloc: Global,
    project: &Project,
    trees: &[Option<FileTree>],
) -> Result<Answer, AllocError>
    requires { files_view trees.now ≡ trees_of project.now }
    ensures { IfOk result (λ answer. Rules One project.now answer) }
{
    answer_for_as(alloc, Profile::One, project, trees)
}

/// The answer that the rules of a profile give a project.
pub fn scratch_as(alloc: Global, profile: Profile, project: &Project) -> Result<Answer, AllocError>
    ensures { IfOk result (λ answer. Rules profile project.now answer) }
{
    let trees = read_files(alloc, project)?;
    answer_for_as(alloc, profile, project, &trees)
}

/// The answer that the rules of profile 1 give a project.
pub fn scratch(alloc: Global, project: &Project) -> Result<Answer, AllocError>
    ensures { IfOk result (λ answer. Rules One project.now answer) }
{
    scratch_as(alloc, Profile::One, project)
}
