//! A law of reports.

ghost use Rattle.ft_kept.specs.Laws.{ReportedOnce, OthersStay, TwoReported, ReaderReported};

/// A law: if hits stay, except under keys that are recorded, the report that is made of these keys
/// and of what is kept afterwards has each row that differs, of all attached triggers that count
/// held events. It has no row twice, and if few keys are recorded, it has few rows of each trigger.
pub fn reported_rows()
    ensures once { ReportedOnce }
    ensures others { OthersStay }
    ensures two { TwoReported }
    ensures reader { ReaderReported }
{
    ft_changes::some_rivals();
}
