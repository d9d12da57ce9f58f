//! Bounds of tables: how many elements lie within them, and where each of them stands, row by row.
ghost use Rattle.std.specs.Prelude.{◌≡◌, ◌<◌, ◌≤◌, ◌^◌, length, Some, None, if◌then◌else◌, nat_le, IsTrue};
ghost use Rattle.kumir_values.specs.Bounds.{width, all_ordered, elements, inside, place};

/// The least and the greatest index of one dimension of a table.
#[derive(Clone, Copy, Debug, PartialEq, Eq)]
pub struct Bound {
    pub low: i32,
    pub high: i32,
}

/// How many indexes lie within a bound; none where the upper end is below the lower one.
fn width_of(bound: Bound) -> u64
    ensures value { result ≡ width bound }
    ensures few { result ≤ 2 ^ 32 }
{
    if bound.high < bound.low {
        0
    } else {
        (i64::from(bound.high) - i64::from(bound.low) + 1) as u64
    }
}

/// Whether no upper end is below its lower one.
pub fn are_ordered(bounds: &[Bound]) -> bool
    ensures { result ≡ all_ordered bounds.now }
{
    bounds.iter().all(|bound| bound.low <= bound.high)
}

/// The number of elements within the bounds, where it is not more than `room`.
pub fn count_elements(bounds: &[Bound], room: u32) -> Option<u32>
    requires { IsTrue (all_ordered bounds.now) }
    ensures { result ≡ (if nat_le (elements bounds.now) room then Some (elements bounds.now) else None) }
{
    let most = u64::from(room);
    let mut count: u64 = 1;
    for bound in bounds {
        if count > most {
            return None;
        }
        count *= width_of(*bound);
    }
    if count > most {
        None
    } else {
        Some(count as u32)
    }
}

/// Where the element of an index stands among all, row by row, if the index is within the bounds.
pub fn place_of(bounds: &[Bound], index: &[i32]) -> Option<usize>
    requires as_many { length index.now ≡ length bounds.now }
    requires ordered { IsTrue (all_ordered bounds.now) }
    requires room { elements bounds.now < 2 ^ 32 }
    ensures { result ≡ (if inside bounds.now index.now then Some (place bounds.now index.now) else None) }
{
    let mut at: u64 = 0;
    for (k, bound) in bounds.iter().enumerate() {
        let i = index[k];
        if i < bound.low || i > bound.high {
            return None;
        }
        at = at * width_of(*bound) + u64::from(i.abs_diff(bound.low));
    }
    Some(at as usize)
}
