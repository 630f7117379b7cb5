// The count of a walk's items, `ion_map_walked`, as other languages call it: the function of the crate `walking`, under its clauses. The parameters are C's.
#![tactic(auto)]

ghost use Rattle.std.specs.Prelude.{◌≡◌, take};
ghost use Rattle.walking.specs.Walk.{whole_walk};
ghost use Rattle.walking.specs.Calls.{items_in};

// How many items at most `most` calls of the walk hand out, from the map's start; 0 where a limit is outside its range.
#[unsafe(no_mangle)]
pub extern "C" fn ion_map_walked(map: &[u8], most: u64, limit: usize, deepest: usize) -> u64
    ensures { result ≡ items_in (take most (whole_walk limit deepest map.now)) }
{
    walking::exports::ion_map_walked(map, most, limit, deepest)
}
