// The count of a walk's items as other languages call it, by the crate `walking_c`. The parameters, and the number returned, are C's.
//
// `limit` is the most bytes that a value's annotations may have, `deepest` the depth at which the walk enters no container.
ghost use Rattle.std.specs.Prelude.{◌≡◌, take};
ghost use Rattle.walking.specs.Walk.{whole_walk};
ghost use Rattle.walking.specs.Calls.{items_in};

use crate::walk::count_items;

// How many items at most `most` calls of the walk hand out, from the map's start; 0 where a limit is outside its range.
pub fn ion_map_walked(map: &[u8], most: u64, limit: usize, deepest: usize) -> u64
    ensures { result ≡ items_in (take most (whole_walk limit deepest map.now)) }
{
    count_items(map, most, limit, deepest)
}
