//! Places of a part that was read apart.

ghost use Rattle.std.specs.Prelude.{◌≡◌, ◌≤◌, ℕ, List, ◌++◌, slice_index, map as list_map};
ghost use Rattle.ft_fields.specs.Traced.{Traced, last_cpu};
ghost use Rattle.ft_waits.specs.Moving.{count_of, moved, moved_within, act_moved};
ghost use Rattle.ft_waits.specs.declared.left_out.Without.{Without};
ghost use Rattle.ft_waits.specs.Reading.{place_after, acts_of, CountsEvents};

use ft_fields::Pos;

/// A place whose line was counted from the start of a part, counted from the start of the whole:
/// `counts` has how many events each CPU had before the part, by the CPU's number; a CPU past the
/// end of `counts` had none. `None` if the line is past 4,294,967,295 then.
pub fn moved_place(place: Pos, counts: &[u32]) -> Option<Pos>
    ensures { result ≡ moved_within (slice_index counts.now) place }
{
    let before = match counts.get(usize::from(place.cpu)) {
        Some(count) => *count,
        None => 0,
    };
    let line = place.line.checked_add(before)?;
    Some(Pos {
        stamp: place.stamp,
        cpu: place.cpu,
        line,
    })
}

/// A law: the place of an event behind others is its place in a part, moved by how many of the others its
/// CPU had; so what a part and the events before it say of who runs is what each says, the part's at moved
/// places. Counts that a stream keeps move a place as the events do.
pub fn places_move()
    ensures places { (part before : List Traced) (event : Traced)
        → place_after (part ++ before) event ≡ moved (count_of before) (place_after part event) }
    ensures acts { (without : List Without) (part before : List Traced)
        → acts_of without (part ++ before)
        ≡ list_map (act_moved (count_of before)) (acts_of without part) ++ acts_of without before }
    ensures counts { (counts : List ℕ) (before : List Traced) (part : List Traced) (event : Traced)
        → CountsEvents counts before → event.cpu ≤ last_cpu
        → moved (slice_index counts) (place_after part event) ≡ place_after (part ++ before) event }
{}
