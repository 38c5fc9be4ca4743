//! The code that a call returns, and the refusal that is held.

ghost use Rattle.std.specs.Prelude.{◌≡◌, [], Some, None, unwrap_or, option_map};
ghost use Rattle.ft_base.specs.Refused.{refused_number};
ghost use Rattle.ft_session.specs.Told.{answer_told, code_of, IsSized};

use ft_answers::{Changed, Refused};

/// Notes that a call is accepted. Returns the code 0.
pub(crate) fn accept(refused: &mut Option<Refused>) -> u32
    ensures note { refused.new ≡ None }
    ensures code { result ≡ 0 }
{
    *refused = None;
    0
}

/// Notes why a call is refused. Returns the refusal's number.
pub(crate) fn refuse(refused: &mut Option<Refused>, why: Refused) -> u32
    ensures note { refused.new ≡ Some why }
    ensures code { result ≡ refused_number why }
{
    *refused = Some(why);
    u32::from(why.number())
}

/// Holds the list that answers a question, stores its size, and returns the code 0. If the question is
/// refused, notes the refusal, keeps what was held, and returns the refusal's number.
pub(crate) fn hold<T: Drop>(
    answer: Result<Vec<T>, Refused>,
    held: &mut Vec<T>,
    size: &mut u64,
    refused: &mut Option<Refused>,
) -> u32
    ensures answer { answer ≡ answer_told refused.new held.new }
    ensures code { result ≡ code_of refused.new }
    ensures size { IsSized refused.new held.old size.old held.new size.new }
{
    match answer {
        Ok(list) => {
            *size = list.len() as u64;
            *held = list;
            accept(refused)
        }
        Err(why) => refuse(refused, why),
    }
}

/// The rows, if they are reported.
pub(crate) fn as_rows(rows: &Option<Vec<Changed>>) -> Option<&[Changed]>
    ensures { option_map (λ told. told.now) result ≡ option_map (λ told. told.items) rows.now }
{
    match rows {
        Some(rows) => Some(rows.as_slice()),
        None => None,
    }
}

/// The rows; none if they aren't reported.
pub(crate) fn rows_or_empty(rows: &Option<Vec<Changed>>) -> &[Changed]
    ensures { result.now ≡ unwrap_or (option_map (λ told. told.items) rows.now) [] }
{
    match rows {
        Some(rows) => rows.as_slice(),
        None => &[],
    }
}
