//! Laws of modifiers and of hits; those of keys are passed on.

ghost use Rattle.std.specs.Prelude.{◌≡◌, ◌<◌, ◌≤◌, ◌*◌, ◌^◌, ℕ, ℤ, List, length, Some};
ghost use Rattle.std.specs.Prelude.{slice_get, IsTrue, IsSome};
ghost use Rattle.std.specs.List.{list_all};
ghost use Rattle.std.specs.Option.{is_some};
ghost use Rattle.ft_fields.specs.Fields.{field_of};
ghost use Rattle.ft_fields.specs.Traced.{Traced};
ghost use Rattle.ft_fields.specs.declared.field.Field.{Field};
ghost use Rattle.ft_fields.specs.declared.field.Value.TheVariants as values;
ghost use Rattle.ft_fields.specs.declared.key.Part.{Part};
ghost use Rattle.ft_hist.specs.declared.item.Item.TheVariants as items;
ghost use Rattle.ft_hist.specs.declared.item.KeyItem.{KeyItem};
ghost use Rattle.ft_hist.specs.Fitting.{KeyFits};
ghost use Rattle.ft_hist.specs.Hist.{Hist};
ghost use Rattle.ft_hist.specs.Hit.{is_asked, hit};
ghost use Rattle.ft_hist.specs.Powers.{log2_of, bucket_of, IsMultiple};
ghost use Rattle.ft_hist.specs.Sound.{key_suits, value_suits};
ghost use Rattle.ft_hist.specs.Values.{value_at};

pub use ft_fields::laws::{equal_keys, one_key_order};

/// A law: the number that `.log2` gives a value of 64 bits is the least whose power of 2 is not
/// below the value.
pub fn powers()
    ensures reached { (value : ℕ) → value < 2 ^ 64 → value ≤ 2 ^ log2_of value }
    ensures least { (value n : ℕ) → value ≤ 2 ^ n → log2_of value ≤ n }
{}

/// A law: what `.buckets` gives a value is the greatest multiple of the size that is not above it.
pub fn multiples()
    ensures multiple { (size value : ℕ) → IsMultiple size (bucket_of size value) }
    ensures below { (size value : ℕ) → bucket_of size value ≤ value }
    ensures greatest { (size value n : ℕ) → n * size ≤ value → n * size ≤ bucket_of size value }
{}

/// A law: an event is a hit of a trigger whose keys suit its event, as every trigger's do, exactly
/// if it has the trigger's name and passes its filter.
pub fn asked_events()
    ensures { (hist : Hist) (event : Traced)
        → IsTrue (list_all (key_suits hist.event) hist.keys)
        → is_some (hit hist event) ≡ is_asked hist event }
{
    ft_fields::laws::values_of_fields();
}

/// A law: the key of a hit fits the trigger's key items: it has as many parts, each of its item's
/// kind.
pub fn fitting_parts()
    ensures fits { (hist : Hist) (event : Traced) (parts : List Part)
        → hit hist event ≡ Some parts → KeyFits hist.keys parts }
    ensures as_many { (items : List KeyItem) (parts : List Part)
        → KeyFits items parts → length parts ≡ length items }
{
    ft_fields::laws::values_of_fields();
}

/// A law: at a hit of a trigger whose values suit its event, as every trigger's do, each field that
/// it sums holds a number, and that number is its value.
pub fn summed_fields()
    ensures { (hist : Hist) (event : Traced) (own : ℤ) (number : ℕ) (field : Field)
        → IsTrue (list_all (value_suits hist.event hist.variable) hist.values)
        → IsSome (hit hist event)
        → slice_get hist.values number ≡ Some (items.Num field)
        → field_of event field ≡ Some (values.Num (value_at hist event own number)) }
{
    ft_fields::laws::values_of_fields();
}
