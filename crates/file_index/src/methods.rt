//! The methods of classes, found by their names.
ghost use Rattle.std.specs.Prelude.{◌≡◌, ◌<◌, ℕ, List, length, find, if◌then◌else◌, Some, None, IfOk, OnOk};
ghost use Rattle.std.specs.List.{AllWithin};
ghost use Rattle.std.specs.Str.{bytes_eq};
ghost use Rattle.std.specs.Option.{option_or};
ghost use Rattle.std.specs.BTreeMap.{get};
ghost use Rattle.std.specs.Cmp.Lexicographic.{slice_cmp};
ghost use Rattle.std.specs.Ordering.{nat_cmp};
ghost use Rattle.mj_lexer.specs.declared.token.Terminal.TheVariants as terminals;
ghost use Rattle.mj_parser.specs.Locations.{all_in_class};
ghost use Rattle.file_index.specs.Standing.{standing, is_named, first_method, class_at, class_starts};

use crate::terminals::TerminalPlaces;
use mj_expressions::name;
use mj_lexer::Token;
use mj_parser::method_name;
use ordered_names::Name;
use std::alloc::{AllocError, Global};
use std::collections::BTreeMap;
use std::marker::Model;

/// A class with the places of its first methods of each name. Contracts see the tokens and where the class begins.
#[derive(Drop)]
pub struct ClassMethods<'a> {
    tokens: &'a [Token],
    start: usize,
    places: BTreeMap<Name, usize>,
}

impl<'a> Model for ClassMethods<'a> {
    ghost use Rattle.std.specs.Prelude.{◌≡◌, ℕ, List};
    ghost use Rattle.std.specs.BTreeMap.{get};
    ghost use Rattle.std.specs.Cmp.Lexicographic.{slice_cmp};
    ghost use Rattle.std.specs.Ordering.{nat_cmp};
    ghost use Rattle.file_index.specs.Standing.{ClassStart, class_at, first_method};

    ghost Value = { ClassStart };

    ghost view = { λ m. class_at m.tokens.now m.start };

    ghost invariant = { λ m. (q : List ℕ) → get (slice_cmp nat_cmp) m.places q
        ≡ first_method m.tokens.now m.start q };
}

impl<'a> ClassMethods<'a> {
    /// The methods of the class that begins at a place, in which these are the places of `public`.
    fn new(
        alloc: Global,
        tokens: &'a [Token],
        start: usize,
        publics: &[usize],
    ) -> Result<Self, AllocError>
        requires all { publics.now ≡ all_in_class tokens.now terminals.Public start }
        requires within { AllWithin (λ at. at < length tokens.now) publics.now 0
            (length publics.now) }
        ensures { IfOk result (λ m. m ≡ class_at tokens.now start) }
    {
        let places = index_methods(alloc, tokens, publics)?;
        Ok(ClassMethods {
            tokens,
            start,
            places,
        })
    }

    /// The place of the `public` of the first method of a name, or of `main`.
    pub fn first(&self, method: &Name) -> Option<usize>
        ensures { result ≡ first_method self.now.tokens self.now.start method.now }
    {
        self.places.get(method).copied()
    }
}

/// The methods of each class.
pub fn index_classes<'a>(
    alloc: Global,
    tokens: &'a [Token],
    classes: &TerminalPlaces,
    publics: &TerminalPlaces,
) -> Result<Vec<ClassMethods<'a>>, AllocError>
    requires classes { classes.now ≡ standing tokens.now terminals.Class }
    requires publics { publics.now ≡ standing tokens.now terminals.Public }
    ensures { IfOk result (λ methods. methods.items ≡ class_starts tokens.now) }
{
    let mut methods = Vec::new(alloc);
    let starts = classes.within(0, tokens.len());
    for start in starts {
        let end = classes.next(*start);
        let inside = publics.within(*start, end);
        methods.push(ClassMethods::new(alloc, tokens, *start, inside)?)?;
    }
    Ok(methods)
}

/// The place of the first method of each name, of those that begin at these places of `public`.
fn index_methods(
    alloc: Global,
    tokens: &[Token],
    publics: &[usize],
) -> Result<BTreeMap<Name, usize>, AllocError>
    requires { AllWithin (λ at. at < length tokens.now) publics.now 0 (length publics.now) }
    ensures { IfOk result (λ places. (q : List ℕ)
        → get (slice_cmp nat_cmp) places q ≡ find (is_named tokens.now q) publics.now) }
{
    let mut places = BTreeMap::new(alloc);
    for at in publics {
        if let Some(name) = name(tokens, method_name(tokens, *at)) {
            add_method(alloc, &mut places, name, *at)?;
        }
    }
    Ok(places)
}

/// Adds a method of a name, unless one is there.
fn add_method(
    alloc: Global,
    places: &mut BTreeMap<Name, usize>,
    name: &Name,
    at: usize,
) -> Result<(), AllocError>
    ensures { OnOk result ((q : List ℕ)
        → get (slice_cmp nat_cmp) places.new q
        ≡ option_or (get (slice_cmp nat_cmp) places.old q)
        (if bytes_eq name.now q then Some at else None)) }
{
    if !places.contains_key(name) {
        places.insert(name.copy(alloc)?, at)?;
    }
    Ok(())
}
