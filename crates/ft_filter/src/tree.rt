//! Filters as trees.

ghost use Rattle.std.specs.Prelude.{◌≡◌, ◌++◌, ◌∷◌, [], OnOk, OnErr, IfOk, IsTrue};
ghost use Rattle.ft_text.specs.Matching.{is_glob, matches};
ghost use Rattle.ft_filter.specs.Operators.{op_text};
ghost use Rattle.ft_filter.specs.Predicate.{suits};
ghost use Rattle.ft_filter.specs.FilterIs.{joint_text};

use ft_fields::Field;
use ft_text::glob;
use std::alloc::{AllocError, Global};
use std::marker::Model;

/// What a filter asks of an event.
#[cycle(tree)]
#[derive(Drop)]
pub enum Expr {
    /// That some operand holds. There are at least two.
    Any(Exprs),
    /// That each operand holds. There are at least two.
    All(Exprs),
    /// That the operand does not hold.
    Not(Box<Expr>),
    /// That a field compares so.
    Pred(Pred),
}

/// Operands, in order.
#[cycle(tree)]
#[derive(Drop)]
pub struct Exprs {
    list: Vec<Expr>,
}

/// A field, an operator, and the value after it.
#[derive(Drop)]
pub struct Pred {
    /// The field.
    pub field: Field,
    /// The operator.
    pub op: Op,
    /// What the field's value is compared with.
    pub value: Literal,
}

/// An operator.
#[derive(Clone, Copy, Debug, PartialEq, Eq)]
pub enum Op {
    /// `==`
    Eq,
    /// `!=`
    Ne,
    /// `<`, of numbers.
    Lt,
    /// `<=`, of numbers.
    Le,
    /// `>`, of numbers.
    Gt,
    /// `>=`, of numbers.
    Ge,
    /// `&`, of numbers: they have a bit in common.
    Bits,
    /// `~`, of texts: the field's text matches the glob.
    Glob,
}

/// A value that a filter writes.
#[derive(Drop)]
pub enum Literal {
    /// A number.
    Number(i64),
    /// A text.
    Text(Text),
    /// A glob.
    Glob(Pattern),
}

/// A text of any length. Contracts see the list of its bytes.
#[derive(Drop)]
pub struct Text {
    bytes: Vec<u8>,
}

/// A glob. Contracts see the list of its bytes.
#[derive(Drop)]
pub struct Pattern {
    bytes: Vec<u8>,
}

/// What joins operands.
#[derive(Clone, Copy, Debug, PartialEq, Eq)]
pub(crate) enum Joint {
    /// `||`
    Or,
    /// `&&`, which binds closer.
    And,
}

impl Model for Text {
    ghost use Rattle.std.specs.Prelude.{ℕ, List};

    ghost Value = { List ℕ };

    ghost view = { λ t. t.bytes.items };
}

impl Text {
    /// The text of these bytes. Refused for memory.
    pub(crate) fn of(alloc: Global, bytes: &[u8]) -> Result<Text, AllocError>
        ensures { IfOk result (λ text. text ≡ bytes.now) }
    {
        let mut copy = Vec::new(alloc);
        copy.extend_from_slice(bytes)?;
        Ok(Text { bytes: copy })
    }

    /// Its bytes.
    pub fn bytes(&self) -> &[u8]
        ensures { result.now ≡ self.now }
    {
        &self.bytes
    }
}

impl Model for Pattern {
    ghost use Rattle.std.specs.Prelude.{ℕ, List, IsTrue};
    ghost use Rattle.ft_text.specs.Matching.{is_glob};

    ghost Value = { List ℕ };

    ghost view = { λ p. p.bytes.items };

    ghost invariant = { λ p. IsTrue (is_glob p.bytes.items) };
}

impl Pattern {
    /// The glob of these bytes. Refused for memory.
    pub(crate) fn of(alloc: Global, bytes: &[u8]) -> Result<Pattern, AllocError>
        requires { IsTrue (is_glob bytes.now) }
        ensures { IfOk result (λ pattern. pattern ≡ bytes.now) }
    {
        let mut copy = Vec::new(alloc);
        copy.extend_from_slice(bytes)?;
        Ok(Pattern { bytes: copy })
    }

    /// Its bytes.
    pub fn bytes(&self) -> &[u8]
        ensures value { result.now ≡ self.now }
        ensures glob { IsTrue (is_glob self.now) }
    {
        &self.bytes
    }

    /// Whether it matches the whole text.
    pub fn matches(&self, text: &[u8]) -> bool
        ensures { result ≡ matches self.now text.now }
    {
        glob(self.bytes(), text)
    }
}

impl Exprs {
    /// No operands yet.
    pub(crate) fn new(alloc: Global) -> Exprs
        ensures { result.list.items ≡ [] }
    {
        Exprs {
            list: Vec::new(alloc),
        }
    }

    /// Adds an operand. Refused for memory: the operands are as before.
    pub(crate) fn push(&mut self, expr: Expr) -> Result<(), AllocError>
        ensures ok { OnOk result (self.new.list.items ≡ self.old.list.items ++ expr ∷ []) }
        ensures err { OnErr result (self.new.list.items ≡ self.old.list.items) }
    {
        self.list.push(expr)?;
        Ok(())
    }

    /// The operands.
    pub fn as_slice(&self) -> &[Expr]
        ensures { result.now ≡ self.now.list.items }
    {
        &self.list
    }
}

impl Op {
    /// How a filter writes it.
    pub fn text(self) -> &'static [u8]
        ensures { result.now ≡ op_text self }
    {
        match self {
            Op::Eq => b"==",
            Op::Ne => b"!=",
            Op::Lt => b"<",
            Op::Le => b"<=",
            Op::Gt => b">",
            Op::Ge => b">=",
            Op::Bits => b"&",
            Op::Glob => b"~",
        }
    }

    /// Whether it is for fields that hold texts, if `text` is true, or else for fields that hold
    /// numbers.
    pub(crate) fn suits(self, text: bool) -> bool
        ensures { result ≡ suits text self }
    {
        match self {
            Op::Eq | Op::Ne => true,
            Op::Lt | Op::Le | Op::Gt | Op::Ge | Op::Bits => !text,
            Op::Glob => text,
        }
    }
}

impl Joint {
    /// How a filter writes it.
    pub(crate) fn text(self) -> &'static [u8]
        ensures { result.now ≡ joint_text self }
    {
        match self {
            Joint::Or => b"||",
            Joint::And => b"&&",
        }
    }
}
