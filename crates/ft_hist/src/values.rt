//! What a hit adds to a trigger's sums.

ghost use Rattle.std.specs.Prelude.{◌≡◌};
ghost use Rattle.ft_hist.specs.Values.{number_of_field, value_of, value_at, values_of};

use crate::item::Item;
use crate::trigger::Trigger;
use ft_fields::{Event, Value};

impl Trigger {
    /// What the event adds to the sums, in the order of the trigger's values: the number that a
    /// field holds, and `own` for the trigger's own variable. It is 0 after the last value, and for
    /// a field that the event doesn't have or that holds a text: at a hit there is no such field.
    pub fn values_of(&self, event: &Event, own: i64) -> [i64; 3]
        ensures { result ≡ values_of self.now event.now own }
    {
        [
            self.value_at(event, own, 0),
            self.value_at(event, own, 1),
            self.value_at(event, own, 2),
        ]
    }

    /// What the event adds to the sum of the value of this number, from 0.
    fn value_at(&self, event: &Event, own: i64, number: usize) -> i64
        ensures { result ≡ value_at self.now event.now own number }
    {
        match self.values().get(number) {
            Some(item) => value_of(*item, event, own),
            None => 0,
        }
    }
}

/// What the event adds to the sum of a value item.
fn value_of(item: Item, event: &Event, own: i64) -> i64
    ensures { result ≡ value_of event.now own item }
{
    match item {
        Item::Num(field) => number_of_field(event.field(field)),
        Item::Own => own,
    }
}

/// The number that a field holds, or 0.
pub(crate) fn number_of_field(value: Option<Value>) -> i64
    ensures { result ≡ number_of_field value }
{
    match value {
        Some(Value::Num(number)) => number,
        Some(Value::Text(_)) | None => 0,
    }
}
