//! The tokens of places, found by search.
ghost use Rattle.std.specs.Prelude.{◌≡◌, ◌<◌, ◌≤◌, length, IfOk, IfSome};
ghost use Rattle.mj_parser.specs.Locations.{existing, class_start, class_end, class_name, field_name, method_start, name_of_method, token_of};

use crate::methods::{ClassMethods, index_classes};
use crate::terminals::TerminalPlaces;
use mj_lexer::{Terminal, Token};
use mj_parser::method_name;
use mj_tree::Place;
use ordered_names::Name;
use std::alloc::{AllocError, Global};
use std::marker::Model;

/// The tokens of a file with the places of the words and symbols by which its parts are found. Contracts see the
/// tokens.
#[derive(Drop)]
pub struct TokenIndex<'a> {
    tokens: &'a [Token],
    classes: TerminalPlaces<'a>,
    semicolons: TerminalPlaces<'a>,
    publics: TerminalPlaces<'a>,
    methods: Vec<ClassMethods<'a>>,
}

impl<'a> Model for TokenIndex<'a> {
    ghost use Rattle.std.specs.Prelude.{◌≡◌, List};
    ghost use Rattle.mj_lexer.specs.declared.token.Token.{Token};
    ghost use Rattle.mj_lexer.specs.declared.token.Terminal.TheVariants as terminals;
    ghost use Rattle.file_index.specs.Standing.{Standing, standing, class_starts};

    ghost Value = { List Token };

    ghost view = { λ t. t.tokens.now };

    ghost invariant = { λ t.
        (t.classes ≡ standing t.tokens.now terminals.Class)
        × (t.semicolons ≡ standing t.tokens.now terminals.Semicolon)
        × (t.publics ≡ standing t.tokens.now terminals.Public)
        × (t.methods.items ≡ class_starts t.tokens.now) };
}

impl<'a> TokenIndex<'a> {
    /// The tokens with their index.
    pub fn new(alloc: Global, tokens: &'a [Token]) -> Result<Self, AllocError>
        ensures { IfOk result (λ t. t ≡ tokens.now) }
    {
        let classes = TerminalPlaces::new(alloc, tokens, Terminal::Class)?;
        let semicolons = TerminalPlaces::new(alloc, tokens, Terminal::Semicolon)?;
        let publics = TerminalPlaces::new(alloc, tokens, Terminal::Public)?;
        let methods = index_classes(alloc, tokens, &classes, &publics)?;
        Ok(TokenIndex {
            tokens,
            classes,
            semicolons,
            publics,
            methods,
        })
    }

    /// The tokens.
    pub fn tokens(&self) -> &'a [Token]
        ensures { result.now ≡ self.now }
    {
        self.tokens
    }

    /// The place of a class's word `class`.
    fn class_start(&self, class: usize) -> Option<usize>
        ensures value { result ≡ class_start self.now class }
        ensures within { IfSome result (λ at. at < length self.now) }
    {
        self.classes.nth(0, self.tokens.len(), class)
    }

    /// The place after the class that begins at a place.
    fn class_end(&self, start: usize) -> usize
        requires { start < length self.now }
        ensures value { result ≡ class_end self.now start }
        ensures after { start ≤ result }
        ensures within { result ≤ length self.now }
    {
        self.classes.next(start)
    }

    /// The place of a class's name.
    fn class_name(&self, class: usize) -> Option<usize>
        ensures value { result ≡ class_name self.now class }
        ensures within { IfSome result (λ at. at < length self.now) }
    {
        let tokens = self.tokens;
        let start = self.class_start(class)?;
        existing(tokens, start + 1)
    }

    /// The place of a field's name, which stands before its semicolon.
    fn field_name(&self, class: usize, number: usize) -> Option<usize>
        ensures value { result ≡ field_name self.now class number }
        ensures within { IfSome result (λ at. at < length self.now) }
    {
        let start = self.class_start(class)?;
        let end = self.class_end(start);
        let semicolon = self.semicolons.nth(start, end, number)?;
        semicolon.checked_sub(1)
    }

    /// The place of the `public` of a class's first method of a name, or of its `main`.
    fn method_start(&self, class: usize, method: &Name) -> Option<usize>
        ensures { result ≡ method_start self.now class method.now }
    {
        self.methods.get(class)?.first(method)
    }

    /// The place of the name of a class's method, or of `main`.
    fn name_of_method(&self, class: usize, number: usize) -> Option<usize>
        ensures value { result ≡ name_of_method self.now class number }
        ensures within { IfSome result (λ at. at < length self.now) }
    {
        let start = self.class_start(class)?;
        let end = self.class_end(start);
        let method = self.publics.nth(start, end, number)?;
        existing(self.tokens, method_name(self.tokens, method))
    }

    /// The token of a place in the class with this number, or `None` for a whole file or project. Classes are numbered
    /// from 0, the main class first. The tokens are those of a file.
    pub fn locate(&self, class: usize, place: &Place) -> Option<usize>
        ensures value { result ≡ token_of self.now class place.now }
        ensures within { IfSome result (λ at. at < length self.now) }
    {
        match place {
            Place::Project | Place::File(_) => None,
            Place::ClassOf(_, number) => self.class_name(*number),
            Place::Class => self.class_name(class),
            Place::Field(number) => self.field_name(class, *number),
            Place::Method(number) => self.name_of_method(class, *number),
            Place::Inside(method, token) => {
                let start = self.method_start(class, method)?;
                existing(self.tokens, start.checked_add(*token)?)
            }
        }
    }
}

/// A place, if a token stands there.
fn existing(tokens: &[Token], at: usize) -> Option<usize>
    ensures value { result ≡ existing tokens.now at }
    ensures within { IfSome result (λ place. place < length tokens.now) }
{
    if at < tokens.len() { Some(at) } else { None }
}
