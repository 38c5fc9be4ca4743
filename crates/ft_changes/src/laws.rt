//! Laws of rivals.

ghost use Rattle.ft_changes.specs.Rivals.{RivalsStay, FewRivals, RivalsAreOthers, RivalsDiffer};
ghost use Rattle.ft_changes.specs.Rivals.{RivalsAlone, RowsStayBut, ButForNothing, ButForOneHit};
ghost use Rattle.ft_changes.specs.Rivals.{ButForBack, ButForMore, ButForAmong};

/// A law: whatever happens to the hits of some keys, all rows stay, except theirs and those of
/// their rivals. Which keys are rivals depends only on the other keys' hits and the size, so they
/// are the same before and after; they are other keys, none twice, and at most as many as the keys.
///
/// A hit that comes or goes is a change at its key; changes one after another are changes at the
/// keys of all of them, in whatever order.
pub fn some_rivals()
    ensures told { RivalsStay }
    ensures few { FewRivals }
    ensures others { RivalsAreOthers }
    ensures apart { RivalsDiffer }
    ensures alone { RivalsAlone }
    ensures rows { RowsStayBut }
    ensures nothing { ButForNothing }
    ensures hit { ButForOneHit }
    ensures back { ButForBack }
    ensures more { ButForMore }
    ensures among { ButForAmong }
{}
