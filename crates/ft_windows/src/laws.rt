//! Laws on the definitions.

ghost use Rattle.std.specs.Prelude.{List};
ghost use Rattle.ft_dispatch.specs.declared.showing.Showing.{Showing};
ghost use Rattle.ft_fields.specs.Traced.{Traced};
ghost use Rattle.ft_windows.specs.Telling.{Keeps, SayTheSame};
ghost use Rattle.ft_windows.specs.declared.windows.Windows.{Windows};

/// What is kept of some showings is kept of any others that answer alike: of the same ones in another order, or
/// with some of them repeated.
pub fn showings_in_any_order()
    ensures { (windows : Windows) (events : List Traced) (showings others : List Showing) → SayTheSame showings others
        → Keeps windows events showings → Keeps windows events others }
{}
