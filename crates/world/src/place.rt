// Arrays of places of which some are free: what a hold and the packets of an origin have in common.
ghost use Rattle.std.specs.Prelude.{◌≡◌, Bool, true, slice_set};
ghost use Rattle.world.specs.Places.{put_at, free_place};

// What stands at a place.
pub(crate) trait Place: Copy {
    // What a free place holds, and what is taken for one.
    ghost nothing: { Self };

    ghost vacant: { Self → Bool };

    // Whether the place is free.
    fn is_free(self) -> bool
        ensures { result ≡ vacant self };

    ghost nothing_is_vacant: { vacant nothing ≡ true };
}

// The lowest free place. A loop that yields it by `break`, a form that document 01 expects.
pub(crate) fn lowest_free<P: Place, const N: usize>(places: &[P; N]) -> Option<usize>
    ensures { result ≡ free_place P.vacant P.nothing places.now N }
{
    let mut place: usize = 0;
    loop {
        if place == N {
            break None;
        }
        if places[place].is_free() {
            break Some(place);
        }
        place += 1;
    }
}

// Another value at a place. Past the places, nothing changes.
pub(crate) fn put<T: Copy, const N: usize>(places: &mut [T; N], place: usize, value: T)
    ensures { places.new ≡ slice_set places.old place value }
{
    if place < N {
        places[place] = value;
    }
}

// Another value at the lowest free place; where there is none, the places stay as they were.
#[tactic(auto, unfolding(crate::specs::Places::put_at))]
pub(crate) fn fill<P: Place, const N: usize>(places: &mut [P; N], value: P)
    ensures { places.new ≡ put_at places.old value (free_place P.vacant P.nothing places.old N) }
{
    if let Some(k) = lowest_free(places) {
        put(places, k, value);
    }
}
