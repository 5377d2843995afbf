//! Reads numbers and arrays of a table.
ghost use Rattle.std.specs.Prelude.{ℕ, ◌≡◌, ◌≢◌, ◌≤◌, pos, Some, IfSome, IsNone};
ghost use Rattle.toml.specs.Data.{integer, array, Items, get_member};
ghost use Rattle.toml.specs.View.{view, items_view, table_view};
ghost use Rattle.target_core.specs.TargetText.{HasNumber};

use toml::{Table, Value};

/// Returns the whole number that a value is, if it is from `low` to `high`.
pub fn number_in(value: &Value, low: u32, high: u32) -> Option<u32>
    ensures is { IfSome result (λ n. view value.now ≡ integer (pos n)) }
    ensures within { IfSome result (λ n. (low ≤ n) × (n ≤ high)) }
    ensures none { IsNone result → (n : ℕ) → view value.now ≡ integer (pos n) → low ≤ n → n ≤ high →
        ⊥ }
{
    let number = u32::try_from(value.as_integer()?).ok()?;
    if low <= number && number <= high {
        Some(number)
    } else {
        None
    }
}

/// Returns the whole number at a key, if it is from `low` to `high`.
pub fn number_at(table: &Table, key: &str, low: u32, high: u32) -> Option<u32>
    ensures number { IfSome result (HasNumber (table_view table.now) key.now low high) }
    ensures none { IsNone result → (n : ℕ) → HasNumber (table_view table.now) key.now low high n →
        ⊥ }
{
    number_in(table.get(key)?, low, high)
}

/// Returns the items of the array at a key.
pub fn array_at<'a>(table: &'a Table, key: &str) -> Option<&'a [Value]>
    ensures items { IfSome result (λ items. get_member key.now (table_view table.now) ≡
        Some (array (items_view items.now))) }
    ensures none { IsNone result → (items : Items) → get_member key.now (table_view table.now) ≢
        Some (array items) }
{
    let items = table.get(key)?.as_array()?;
    Some(items.as_slice())
}
