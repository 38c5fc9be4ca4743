//! Laws of script lines, apart from the steps that read them.

ghost use Rattle.std.specs.Prelude.{◌≡◌, ◌≤◌, ℕ, List, length};
ghost use Rattle.ft_script.specs.Script.{Asked, line_limit, asked_by};
ghost use Rattle.ft_script.specs.Written.{written, IsWritable};

/// A law: a line that writes out what is asked, within the limit of lines, asks for exactly that.
/// Each number is one of 32 bits, an event has a name, and a trigger's and a filter's text, which
/// may be empty, has no space at its ends; an inserted line may be any.
pub fn written_commands()
    ensures { (what : Asked) → IsWritable what → length (written what) ≤ line_limit
        → asked_by (written what) ≡ what }
{}

/// A law: what any line asks for may be written out so.
pub fn writable_commands()
    ensures { (line : List ℕ) → IsWritable (asked_by line) }
{}
