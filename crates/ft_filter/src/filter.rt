//! `Filter`: a condition on the fields of one event.

ghost use Rattle.std.specs.Prelude.{◌≡◌};
ghost use Rattle.ft_filter.specs.Tree.{tree_of};

use crate::tree::Expr;
use ft_fields::Name;
use std::marker::Model;

/// A filter of an event: a condition on its fields.
///
/// Contracts see the event and the condition's tree.
#[derive(Drop)]
pub struct Filter {
    event: Name,
    expr: Expr,
}

impl Model for Filter {
    ghost use Rattle.ft_filter.specs.Codes.{condition_code};
    ghost use Rattle.ft_filter.specs.Tree.{Condition, tree_of};

    ghost Value = { Condition };

    ghost coded = { condition_code };

    ghost view = { λ f. record { event = f.event; tree = tree_of f.expr } };
}

impl Filter {
    /// A filter of the event.
    pub(crate) fn new(event: Name, expr: Expr) -> Filter
        ensures event { result.event ≡ event }
        ensures tree { result.tree ≡ tree_of expr }
    {
        Filter { event, expr }
    }

    /// What it asks.
    pub fn expr(&self) -> &Expr
        ensures { tree_of result.now ≡ self.now.tree }
    {
        &self.expr
    }

    /// The event that it was read for.
    pub fn event(&self) -> Name
        ensures { result ≡ self.now.event }
    {
        self.event
    }
}
