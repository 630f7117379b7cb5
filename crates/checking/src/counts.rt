// The counts of what a checked map holds.
ghost use Rattle.std.specs.Prelude.{◌≡◌, ◌+◌, ◌<◌, ◌≤◌};
ghost use Rattle.checking.specs.Counts.{places, type_place, none, counting};
ghost use Rattle.checking.specs.Private.Items.{Below};

// The counts: markers, pads, and each of the thirteen types.
pub const PLACES: usize = 15;

pub(crate) const MARKERS: usize = 0;

pub(crate) const PADS: usize = 1;

// How many of each were met, by their places: an array, since there is no heap and C is given so many words.
#[derive(Clone, Copy)]
pub struct Counts {
    pub places: [u64; PLACES],
}

// The place of a type's count: those of positive and negative ints have one. A type code is the document's own number.
#[tactic(auto, unfolding(crate::specs::Counts::type_place))]
pub(crate) fn place_of(type_code: u8) -> usize
    ensures { result ≡ type_place type_code }
{
    let code = usize::from(type_code);
    if code < 3 { code + 2 } else { code + 1 }
}

impl Counts {
    // Before anything was met.
    pub fn none() -> Counts
        ensures { result.places ≡ none }
    {
        Counts {
            places: [0; PLACES],
        }
    }
}

// How far a check is: its position, and what was counted up to there. Each pad, marker and value has a byte at least, so no count exceeds the position.
#[derive(Clone, Copy)]
pub(crate) struct Progress {
    pub(crate) at: usize,
    pub(crate) counts: Counts,
    ghost below: { Below at counts.places },
}

impl Progress {
    // At a map's start.
    pub(crate) fn none() -> Progress
        ensures { (result.at ≡ 0) × (result.counts.places ≡ none) }
    {
        Progress {
            at: 0,
            counts: Counts::none(),
        }
    }

    // Counts n more in a place, and goes on to `at`, which is n bytes further at least. (std has no `From` for the cast, which is proved to lose nothing.)
    #[tactic(auto, unfolding(crate::specs::Counts::counting))]
    pub(crate) fn pass(&mut self, place: usize, n: usize, at: usize)
        requires { (place < places) × (self.old.at + n ≤ at) }
        ensures reached { self.new.at ≡ at }
        ensures counted { self.new.counts.places ≡ counting place n self.old.counts.places }
    {
        self.at = at;
        self.counts.places[place] += n as u64;
    }
}
