// Rows of maps by their keys.
ghost use Rattle.std.specs.Prelude.{◌≡◌, ◌<◌, length, is_some, slice_get, IfSome};
ghost use Rattle.std.specs.List.{position};
ghost use Rattle.std.specs.Map.{keys_of, lookup, values_of};
ghost use Rattle.std.specs.Str.{bytes_eq};

use indexmap::IndexMap;
use st_base::is_same_text;

// Up to this many rows are compared one by one, since a hash costs more.
const FEW_ROWS: usize = 16;

// The index of a key, by a comparison with each.
fn compared_row<V>(rows: &IndexMap<Vec<u8>, V>, key: &[u8]) -> Option<usize>
    ensures { result ≡ position (λ other. bytes_eq key.now other.items) (keys_of rows.now.entries) }
{
    rows.as_slice()
        .keys()
        .position(|other| is_same_text(key, other.as_slice()))
}

// The index of a key in a map of many rows. The row that was added last is asked for most, and is found without a hash.
fn hashed_row<V>(rows: &IndexMap<Vec<u8>, V>, key: &[u8]) -> Option<usize>
    ensures { result ≡ position (λ other. bytes_eq key.now other.items) (keys_of rows.now.entries) }
{
    let places = rows.as_slice();
    match places.last() {
        Some((last, _)) if is_same_text(key, last.as_slice()) => Some(places.len() - 1),
        _ => rows.get_index_of(key),
    }
}

/// The index of a key among the rows of a map, if it has one.
pub fn row_in<V>(rows: &IndexMap<Vec<u8>, V>, key: &[u8]) -> Option<usize>
    ensures index { result ≡ position (λ other. bytes_eq key.now other.items) (keys_of rows.now.entries) }
    ensures found { is_some result ≡ is_some (lookup (λ other. bytes_eq key.now other.items) rows.now.entries) }
    ensures within { IfSome result (λ row. row < length rows.now.entries) }
    ensures value { IfSome result (λ row. slice_get (values_of rows.now.entries) row ≡ lookup (λ other. bytes_eq key.now other.items) rows.now.entries) }
{
    if rows.len() > FEW_ROWS {
        hashed_row(rows, key)
    } else {
        compared_row(rows, key)
    }
}
