//! What a hit adds to its trigger's sums.

ghost use Rattle.std.specs.Prelude.{◌≡◌, ◌≤◌};
ghost use Rattle.ft_fields.specs.Traced.{last_stamp};
ghost use Rattle.ft_table.specs.Values.{own_value, values_at};

use ft_fields::{Event, Pos};
use ft_hist::{Key, Trigger};
use ft_hits::{Hit, Spot};

/// The hit of a trigger at an event that stands at a spot, with its values by the place of the
/// saving that it read, if it read.
pub fn hit_with(trigger: &Trigger, event: &Event, spot: Spot, key: Key, read: Option<Pos>) -> Hit
    requires { spot.pos.stamp ≡ event.now.stamp }
    ensures { result ≡ record {
      spot = spot;
      key = key;
      values = values_at trigger.now spot.pos event.now read;
    } }
{
    let own = own_value(event.stamp, read);
    Hit {
        spot,
        key,
        values: trigger.values_of(event, own),
    }
}

/// The value of a trigger's own variable at an event's stamp, in microseconds: the stamp, or the
/// time since the stamp of the saving that was read; 0 if the saving is later.
pub fn own_value(stamp: u64, read: Option<Pos>) -> i64
    requires { stamp ≤ last_stamp }
    ensures { result ≡ own_value stamp read }
{
    match read {
        None => stamp as i64,
        Some(saved) => stamp.saturating_sub(saved.stamp) as i64,
    }
}
