//! Rows of line numbers with places in a store, by line number, some of them struck.

ghost use Rattle.std.specs.Prelude.{◌≡◌, ◌+◌, ◌<◌, None, length, IfSome};
ghost use Rattle.std.specs.List.{HoldsAt};
ghost use Rattle.std.specs.Map.{lookup, keys_of};
ghost use Rattle.std.specs.Map.Iter.{TakesFirst};
ghost use Rattle.std.specs.Option.{option_len};
ghost use Rattle.std.specs.Ordering.{nat_cmp};
ghost use Rattle.std.specs.BTreeMap.{is_at};
ghost use Rattle.std.specs.FinMap as map;
ghost use Rattle.ft_lanes.specs.Walks.{itself};
ghost use Rattle.ft_lanes.specs.inner.Rows.{held_rows, struck_place, Rise};

/// The place of a struck row, at which no event stands.
pub(crate) const STRUCK: u32 = u32::MAX;

const _: () = prove!(STRUCK == 4_294_967_295);

/// Where a line's row stands: where it would stand if the lines from the first row's on had no gap,
/// or else where halving finds it.
fn index_of(rows: &[(u32, u32)], line: u32) -> Option<usize>
    requires { Rise rows.now }
    ensures within { IfSome result (λ i. i < length rows.now) }
    ensures found { IfSome result (λ i. HoldsAt (λ row. row.0 ≡ line) rows.now i) }
    ensures none { result ≡ None → lookup (is_at (nat_cmp line)) rows.now ≡ None }
{
    let guess = match rows.first() {
        Some((first, _)) => line.saturating_sub(*first) as usize,
        None => 0,
    };
    if let Some((there, _)) = rows.get(guess)
        && *there == line
    {
        return Some(guess);
    }
    match rows.binary_search_by_key(&line, |row| row.0) {
        Ok(i) => Some(i),
        Err(_) => None,
    }
}

/// The place of a line, if it has a row that is not struck.
pub(crate) fn place_of(rows: &[(u32, u32)], line: u32) -> Option<u32>
    requires { Rise rows.now }
    ensures { result ≡ lookup (is_at (nat_cmp line)) (held_rows rows.now) }
{
    let i = index_of(rows, line)?;
    let (_, place) = rows[i];
    if place == STRUCK { None } else { Some(place) }
}

/// Strikes the row of a line, if it has one that is not struck, and returns its place.
pub(crate) fn strike(rows: &mut [(u32, u32)], line: u32) -> Option<u32>
    requires { Rise rows.old }
    ensures value { result ≡ lookup (is_at (nat_cmp line)) (held_rows rows.old) }
    ensures rest { map.from_entries {R = nat_cmp} (held_rows rows.new)
        ≡ map.remove (map.from_entries (held_rows rows.old)) line }
    ensures lines { keys_of rows.new ≡ keys_of rows.old }
    ensures count { length (held_rows rows.old) ≡ length (held_rows rows.new) + option_len result }
{
    let i = index_of(rows, line)?;
    let (_, place) = rows[i];
    if place == STRUCK {
        return None;
    }
    rows[i] = (line, STRUCK);
    Some(place)
}

/// Takes the first row that is not struck from the front, with those before it.
pub(crate) fn next_held<'a>(rows: &mut &'a [(u32, u32)]) -> Option<(u32, u32)>
    ensures { TakesFirst itself (held_rows rows.old.now) result (held_rows rows.new.now) }
{
    while let Some((row, behind)) = rows.split_first() {
        *rows = behind;
        if row.1 != STRUCK {
            return Some(*row);
        }
    }
    None
}
