//! The chain of a class.
ghost use Rattle.std.specs.Prelude.{◌≡◌, ◌<◌, [], List, ℕ, length, filter, Some, None, IfOk, OnOk, MatchOption, option_map};
ghost use Rattle.mj_members.specs.Declarations.{has_members};
ghost use Rattle.mj_classes.specs.Declarations.{decl, place, superclass_places};
ghost use Rattle.mj_classes.specs.Chains.{chain_of, ancestry};
ghost use Rattle.mj_members.specs.Classes.{classes_view, class_ref_view};
ghost use Rattle.mj_classes.specs.Classes.{end_view};
ghost use Rattle.mj_classes.specs.Walks.{IsFirstPlace, IsChainAt, IsChainEndAt, IsTurn, IsEndAt, Stretch, LeadsUp, declaring, straight_end};

use crate::declarations::Declarations;
use mj_members::ClassRef;
use ordered_names::Name;
use std::alloc::{AllocError, Global};

/// How a chain ends.
#[derive(Clone, Copy)]
pub enum End<'a> {
    /// The last class extends nothing.
    Top,
    /// The last class extends this name, which isn't declared.
    Undeclared(&'a Name),
    /// The last class extends this class of the chain.
    Repeated(&'a Name),
}

/// The chain of a class, with its end.
#[derive(Drop)]
pub struct ClassChain<'a> {
    /// Those that declare a field or a method, the nearest first. The others are passed without being kept.
    pub classes: Vec<ClassRef<'a>>,
    pub end: End<'a>,
}

impl<'a> Declarations<'a> {
    ghost use Rattle.mj_classes.specs.Index.{declared_in};

    /// The chain of a class, or `None` if the class isn't declared.
    pub fn chain(&self, alloc: Global, name: &Name) -> Result<Option<ClassChain<'a>>, AllocError>
        ensures end { IfOk result (λ o.
            option_map (λ c. end_view c.end) o
            ≡ option_map (λ chain. chain.1) (chain_of (declared_in self.now) name.now)) }
        ensures classes { IfOk result (λ o.
            MatchOption o (decl (declared_in self.now) name.now ≡ None)
            (λ c.
            classes_view c.classes.items
            ≡ filter has_members (ancestry (declared_in self.now) name.now))) }
    {
        match self.place(name) {
            Some(first) => Ok(Some(self.chain_at(alloc, first)?)),
            None => Ok(None),
        }
    }

    /// How the chain of the class at this place ends, the first one of its name.
    pub fn chain_end_at(&self, first: usize) -> End<'a>
        requires { IsFirstPlace (declared_in self.now) first }
        ensures { IsChainEndAt (declared_in self.now) first (end_view result) }
    {
        self.end_at(self.turn_at(first))
    }

    /// The chain of the class at this place, the first one of its name.
    pub fn chain_at(&self, alloc: Global, first: usize) -> Result<ClassChain<'a>, AllocError>
        requires { IsFirstPlace (declared_in self.now) first }
        ensures { IfOk result (λ c.
            IsChainAt (declared_in self.now) first
            (classes_view c.classes.items) (end_view c.end)) }
    {
        let turn = self.turn_at(first);
        let mut classes = Vec::new(alloc);
        self.keep_chain(&mut classes, first, turn)?;
        Ok(ClassChain {
            classes,
            end: self.end_at(turn),
        })
    }

    /// How a chain ends whose walk turns at the class at this place.
    fn end_at(&self, turn: usize) -> End<'a>
        requires { turn < length (declared_in self.now) }
        ensures { IsEndAt (declared_in self.now) turn (end_view result) }
    {
        let class = self.class_at(turn);
        match self.superclass_of(turn) {
            Some(_) => End::Repeated(class.name()),
            None => straight_end(&class),
        }
    }

    /// Adds the classes that declare members, of the chain of the one at the first place, whose walk turns at the
    /// second: those in front of the first such class behind the turn, that class, and those behind it.
    fn keep_chain(
        &self,
        classes: &mut Vec<ClassRef<'a>>,
        first: usize,
        turn: usize,
    ) -> Result<(), AllocError>
        requires turns { IsTurn (declared_in self.now) first turn }
        requires first { IsFirstPlace (declared_in self.now) first }
        requires none { classes.old.items ≡ [] }
        ensures { OnOk result
            ((c : List ℕ)
            → place (declared_in self.now) c ≡ Some first
            → classes_view classes.new.items
            ≡ filter has_members (ancestry (declared_in self.now) c)) }
    {
        let stop = self.declaring_at(turn);
        self.keep_until(classes, first, stop)?;
        if let Some(place) = stop {
            classes.push(self.class_at(place))?;
            self.keep_until(classes, self.above(place), stop)?;
        }
        Ok(())
    }

    /// Adds the classes that declare members on the walk from this place, in front of the one at the place to stop.
    fn keep_until(
        &self,
        classes: &mut Vec<ClassRef<'a>>,
        from: usize,
        stop: Option<usize>,
    ) -> Result<(), AllocError>
        requires { Stretch (declared_in self.now) from stop (classes_view classes.old.items) }
        ensures { OnOk result
            ((w : Stretch (declared_in self.now) from stop (classes_view classes.old.items))
            → classes_view classes.new.items ≡ declaring (declared_in self.now) w.chain w.goal) }
    {
        let mut at = from;
        for _ in 0..self.classes().len() {
            let next = self.declaring_at(at);
            if next == stop {
                return Ok(());
            }
            let Some(place) = next else {
                unreachable!();
            };
            classes.push(self.class_at(place))?;
            at = self.above(place);
        }
        Ok(())
    }

    /// The place of the declared class that the one at this place extends, or else this place.
    fn above(&self, at: usize) -> usize
        requires { at < length (declared_in self.now) }
        ensures { LeadsUp (superclass_places (declared_in self.now)) at result }
    {
        self.superclass_of(at).unwrap_or(at)
    }
}

/// The end of a chain at a class that extends nothing or an undeclared name.
fn straight_end<'a>(class: &ClassRef<'a>) -> End<'a>
    ensures { end_view result ≡ straight_end (class_ref_view class.now).superclass }
{
    match class.superclass() {
        Some(name) => End::Undeclared(name),
        None => End::Top,
    }
}
