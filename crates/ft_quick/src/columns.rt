//! The columns of a line, before the event's own text.

ghost use Rattle.std.specs.Prelude.{◌≡◌, ◌≤◌, ◌<◌, ◌+◌, ◌-◌, length, take, drop, true, IfSome};
ghost use Rattle.ft_event.specs.Bytes.{is_in_word};
ghost use Rattle.ft_event.specs.LineIs.{IsStamped, Stops};
ghost use Rattle.ft_fields.specs.Traced.{last_stamp};
ghost use Rattle.ft_quick.specs.inner.Columns.{AreMarked, IsEventLine, IsTask, IsTail, IsLettered};
ghost use Rattle.ft_quick.specs.inner.Cuts.{IsSkip, IsNumbered};

use crate::cuts::behind;
use crate::marks::{digits_of, first_bytes, next, next_other, next_pair, places_of};
use crate::numbers::number_of;

/// Whether the line is short enough, and surely neither a comment nor one that says that events were
/// lost.
#[inline(always)]
pub(crate) fn is_plain(line: &[u8]) -> bool
    ensures { result ≡ true → IsEventLine line.now }
{
    if line.len() < 4 || line.len() > 4096 {
        return false;
    }
    // Lost events are reported after `CPU:`.
    line[0] != b'#' && line[3] != b':'
}

/// Whether nothing or a space stands here.
#[inline(always)]
fn ends_word(line: &[u8], at: usize) -> bool
    requires { at ≤ length line.now }
    ensures { result ≡ true → Stops is_in_word (drop at line.now) }
{
    match line.get(at) {
        Some(byte) => *byte == b' ',
        None => true,
    }
}

/// A line, and where the bytes that tell columns apart stand in its first 64 bytes.
#[derive(Clone, Copy)]
pub(crate) struct Columns<'a> {
    line: &'a [u8],
    spaces: u64,
    digits: u64,
    dashes: u64,
    colons: u64,
}

impl<'a> Columns<'a> {
    /// The columns of this line, all within its first 64 bytes.
    #[inline(always)]
    pub(crate) fn of(line: &'a [u8]) -> Columns<'a>
        ensures marked { AreMarked result }
        ensures line { result.line.now ≡ line.now }
    {
        let bytes = first_bytes(line);
        Columns {
            line,
            spaces: places_of(b' ', bytes),
            digits: digits_of(bytes),
            dashes: places_of(b'-', bytes),
            colons: places_of(b':', bytes),
        }
    }

    /// The place after the spaces that stand here.
    #[inline(always)]
    pub(crate) fn behind_spaces(&self, from: usize) -> Option<usize>
        requires marked { AreMarked self.now }
        requires within { from ≤ length self.now.line.now }
        ensures skip { IfSome result (λ at. IsSkip (drop from self.now.line.now) (drop at self.now.line.now)) }
        ensures behind { IfSome result (λ at. from ≤ at) }
        ensures within { IfSome result (λ at. at ≤ length self.now.line.now) }
    {
        let at = next_other(self.spaces, from)?;
        Some(at)
    }

    /// The place of the `-` after TASK: the first that a digit follows.
    #[inline(always)]
    pub(crate) fn task_end(&self, from: usize) -> Option<usize>
        requires marked { AreMarked self.now }
        requires within { from ≤ length self.now.line.now }
        ensures task { IfSome result (λ end. IsTask (drop from self.now.line.now)
            (take (end - from) (drop from self.now.line.now)) (drop (end + 1) self.now.line.now)) }
        ensures behind { IfSome result (λ end. from ≤ end) }
        ensures within { IfSome result (λ end. end < length self.now.line.now) }
    {
        let end = next_pair(self.dashes, self.digits, from)?;
        Some(end)
    }

    /// The number that stands here, of one to nine digits, and the place after it.
    #[inline(always)]
    fn number(&self, from: usize) -> Option<(u32, usize)>
        requires marked { AreMarked self.now }
        requires within { from ≤ length self.now.line.now }
        ensures number { IfSome result (λ x. IsNumbered (drop from self.now.line.now) x.0 (drop x.1 self.now.line.now)) }
        ensures behind { IfSome result (λ x. from ≤ x.1) }
        ensures within { IfSome result (λ x. x.1 ≤ length self.now.line.now) }
    {
        let end = next_other(self.digits, from)?;
        let number = number_of(self.line, from, end)?;
        Some((number, end))
    }

    /// PID, CPU, and the place after `] `.
    #[inline(always)]
    pub(crate) fn tail(&self, at: usize) -> Option<(u32, u32, usize)>
        requires marked { AreMarked self.now }
        requires within { at ≤ length self.now.line.now }
        ensures tail { IfSome result (λ x. IsTail (drop at self.now.line.now) x.0 x.1 (drop x.2 self.now.line.now)) }
        ensures within { IfSome result (λ x. x.2 ≤ length self.now.line.now) }
    {
        let (pid, at) = self.number(at)?;
        let at = self.behind_spaces(behind(b" ", self.line, at)?)?;
        let (cpu, at) = self.number(behind(b"[", self.line, at)?)?;
        if cpu > 8191 {
            return None;
        }
        let at = behind(b"] ", self.line, at)?;
        Some((pid, cpu, at))
    }

    /// The place after the spaces here, and after LETTERS and their spaces, if LETTERS follow.
    #[inline(always)]
    fn behind_letters(&self, at: usize) -> Option<usize>
        requires marked { AreMarked self.now }
        requires within { at ≤ length self.now.line.now }
        ensures lettered { IfSome result (λ word. IsLettered (drop at self.now.line.now) (drop word self.now.line.now)) }
        ensures within { IfSome result (λ word. word ≤ length self.now.line.now) }
    {
        let word = self.behind_spaces(at)?;
        let end = next(self.spaces, word)?;
        let colon = next(self.colons, word)?;
        if colon < end {
            return Some(word);
        }
        if end == word {
            return None;
        }
        if end - word > 16 {
            return None;
        }
        let next_word = self.behind_spaces(end + 1)?;
        Some(next_word)
    }

    /// The event's stamp in microseconds, and the place after STAMP.
    #[inline(always)]
    pub(crate) fn stamp(&self, at: usize) -> Option<(u64, usize)>
        requires marked { AreMarked self.now }
        requires within { at ≤ length self.now.line.now }
        ensures stamped { IfSome result (λ x. IsStamped (drop at self.now.line.now) x.0 (drop x.1 self.now.line.now)) }
        ensures short { IfSome result (λ x. x.0 ≤ last_stamp) }
        ensures within { IfSome result (λ x. x.1 ≤ length self.now.line.now) }
    {
        let word = self.behind_letters(at)?;
        let (seconds, dot) = self.number(word)?;
        if dot - word > 10 {
            return None;
        }
        let begin = behind(b".", self.line, dot)?;
        let (part, colon) = self.number(begin)?;
        if colon - begin != 6 {
            return None;
        }
        if part > 999_999 {
            return None;
        }
        let rest = behind(b":", self.line, colon)?;
        if !ends_word(self.line, rest) {
            return None;
        }
        Some((u64::from(seconds) * 1_000_000 + u64::from(part), rest))
    }
}
