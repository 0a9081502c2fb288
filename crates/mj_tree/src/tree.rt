//! Trees of MiniJava. A mark is the number of a token, counted from the `public` of its method or of `main`, which
//! is 0. Contracts see a tree by its view, which leaves out where it lies in memory.
ghost use Rattle.std.specs.Prelude.{◌≡◌, IfOk};

use ordered_names::Name;
use std::alloc::{AllocError, Global};

/// The most levels of a phrase: a statement in a body and the returned expression have level 1, a part of a phrase one
/// more than the phrase.
pub const MOST_LEVELS: usize = 500;

/// A declared type.
#[derive(PartialEq, Eq)]
pub enum Ty {
    Int,
    Boolean,
    IntArray,
    /// A class, declared or not.
    Class(Name),
}

impl Drop for Ty {
    fn drop(self) {
        match self {
            Ty::Int | Ty::Boolean | Ty::IntArray | Ty::Class(_) => {}
        }
    }
}

impl Ty {
    /// An equal type.
    pub fn copy(&self, alloc: Global) -> Result<Ty, AllocError>
        ensures { IfOk result (λ ty. ty ≡ self.now) }
    {
        match self {
            Ty::Int => Ok(Ty::Int),
            Ty::Boolean => Ok(Ty::Boolean),
            Ty::IntArray => Ok(Ty::IntArray),
            Ty::Class(class) => Ok(Ty::Class(class.copy(alloc)?)),
        }
    }
}

/// Equal types in the same order.
pub fn copy_types(alloc: Global, types: &[Ty]) -> Result<Vec<Ty>, AllocError>
    ensures { IfOk result (λ copies. copies.items ≡ types.now) }
{
    let mut copies = Vec::new(alloc);
    for ty in types {
        copies.push(ty.copy(alloc)?)?;
    }
    Ok(copies)
}

/// Equal fields in the same order.
pub fn copy_fields(alloc: Global, fields: &[Field]) -> Result<Vec<Field>, AllocError>
    ensures { IfOk result (λ copies. copies.items ≡ fields.now) }
{
    let mut copies = Vec::new(alloc);
    for field in fields {
        copies.push(field.copy(alloc)?)?;
    }
    Ok(copies)
}

/// A binary operator.
#[derive(Clone, Copy, Debug, PartialEq, Eq)]
pub enum Operator {
    /// `&&`
    And,
    /// `<`
    Less,
    /// `+`
    Plus,
    /// `-`
    Minus,
    /// `*`
    Times,
}

/// An expression with its marking token.
pub enum Exp {
    /// `left && right` and the other operators; the mark is the operator.
    Binary {
        operator: Operator,
        mark: usize,
        left: Box<Exp>,
        right: Box<Exp>,
    },
    /// `array[index]`; the mark is `[`.
    Index {
        mark: usize,
        array: Box<Exp>,
        index: Box<Exp>,
    },
    /// `array.length`; the mark is `length`.
    Length {
        mark: usize,
        array: Box<Exp>,
    },
    /// `receiver.method(arguments)`; the mark is the method's name.
    Call {
        mark: usize,
        receiver: Box<Exp>,
        method: Name,
        arguments: Vec<Exp>,
    },
    /// A literal with its value, which saturates at 2147483648.
    Literal {
        mark: usize,
        value: u32,
    },
    /// `true` or `false`.
    Boolean {
        mark: usize,
        value: bool,
    },
    /// The name of a formal, a local or a field.
    Variable {
        mark: usize,
        name: Name,
    },
    /// `this`
    This {
        mark: usize,
    },
    /// `new int[length]`; the mark is `new`.
    NewArray {
        mark: usize,
        length: Box<Exp>,
    },
    /// `new class()`; the mark is `new`.
    NewObject {
        mark: usize,
        class: Name,
    },
    /// `!operand`; the mark is `!`.
    Not {
        mark: usize,
        operand: Box<Exp>,
    },
    /// `(inner)`; the mark is `(`.
    Parenthesized {
        mark: usize,
        inner: Box<Exp>,
    },
}

impl Drop for Exp {
    fn drop(self) {
        match self {
            Exp::Binary {
                operator: _,
                mark: _,
                left: _,
                right: _,
            }
            | Exp::Index {
                mark: _,
                array: _,
                index: _,
            }
            | Exp::Length { mark: _, array: _ }
            | Exp::Call {
                mark: _,
                receiver: _,
                method: _,
                arguments: _,
            }
            | Exp::Literal { mark: _, value: _ }
            | Exp::Boolean { mark: _, value: _ }
            | Exp::Variable { mark: _, name: _ }
            | Exp::This { mark: _ }
            | Exp::NewArray { mark: _, length: _ }
            | Exp::NewObject { mark: _, class: _ }
            | Exp::Not {
                mark: _,
                operand: _,
            }
            | Exp::Parenthesized { mark: _, inner: _ } => {}
        }
    }
}

/// A statement with its marking token.
pub enum Stmt {
    /// `{ body }`; the mark is `{`.
    Block {
        mark: usize,
        body: Vec<Stmt>,
    },
    /// `if (condition) then_branch else else_branch`; the mark is `if`.
    If {
        mark: usize,
        condition: Exp,
        then_branch: Box<Stmt>,
        else_branch: Box<Stmt>,
    },
    /// `while (condition) body`; the mark is `while`.
    While {
        mark: usize,
        condition: Exp,
        body: Box<Stmt>,
    },
    /// `System.out.println(value);`; the mark is `System`.
    Print {
        mark: usize,
        value: Exp,
    },
    /// `name = value;`; the mark is `=`, and the name has a token of its own.
    Assign {
        mark: usize,
        name: Name,
        name_mark: usize,
        value: Exp,
    },
    /// `name[index] = value;`; the mark is `=`, and the name has a token of its own.
    Store {
        mark: usize,
        name: Name,
        name_mark: usize,
        index: Exp,
        value: Exp,
    },
}

impl Drop for Stmt {
    fn drop(self) {
        match self {
            Stmt::Block { mark: _, body: _ }
            | Stmt::If {
                mark: _,
                condition: _,
                then_branch: _,
                else_branch: _,
            }
            | Stmt::While {
                mark: _,
                condition: _,
                body: _,
            }
            | Stmt::Print { mark: _, value: _ }
            | Stmt::Assign {
                mark: _,
                name: _,
                name_mark: _,
                value: _,
            }
            | Stmt::Store {
                mark: _,
                name: _,
                name_mark: _,
                index: _,
                value: _,
            } => {}
        }
    }
}

/// A field.
pub struct Field {
    pub name: Name,
    pub ty: Ty,
}

impl Drop for Field {
    fn drop(self) {
        let Field { name: _, ty: _ } = self;
    }
}

impl Field {
    /// An equal field.
    pub fn copy(&self, alloc: Global) -> Result<Field, AllocError>
        ensures { IfOk result (λ field. field ≡ self.now) }
    {
        Ok(Field {
            name: self.name.copy(alloc)?,
            ty: self.ty.copy(alloc)?,
        })
    }
}

/// A formal parameter or a local variable; the mark is the first token of its type.
#[derive(Drop)]
pub struct Variable {
    pub name: Name,
    pub ty: Ty,
    pub mark: usize,
}

impl Variable {
    /// An equal variable.
    pub fn copy(&self, alloc: Global) -> Result<Variable, AllocError>
        ensures { IfOk result (λ variable. variable ≡ self.now) }
    {
        Ok(Variable {
            name: self.name.copy(alloc)?,
            ty: self.ty.copy(alloc)?,
            mark: self.mark,
        })
    }
}

/// A method.
pub struct MethodTree {
    pub name: Name,
    pub returns: Ty,
    pub formals: Vec<Variable>,
    pub locals: Vec<Variable>,
    pub body: Vec<Stmt>,
    /// The returned expression.
    pub returned: Exp,
    /// The token `return`.
    pub return_mark: usize,
}

impl Drop for MethodTree {
    fn drop(self) {
        let MethodTree {
            name: _,
            returns: _,
            formals: _,
            locals: _,
            body: _,
            returned: _,
            return_mark: _,
        } = self;
    }
}

/// The main class, which has `main` alone.
pub struct MainTree {
    pub name: Name,
    pub statement: Stmt,
}

impl Drop for MainTree {
    fn drop(self) {
        let MainTree {
            name: _,
            statement: _,
        } = self;
    }
}

/// A class that isn't the main class.
#[derive(Drop)]
pub struct ClassTree {
    pub name: Name,
    pub superclass: Option<Name>,
    pub fields: Vec<Field>,
    pub methods: Vec<MethodTree>,
}

/// A file: the main class, if it has one, and then its classes.
#[derive(Drop)]
pub struct FileTree {
    pub main: Option<MainTree>,
    pub classes: Vec<ClassTree>,
}
