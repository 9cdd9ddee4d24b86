// Tables whose places are used below a count; from there on they are all zeros.
ghost use Rattle.std.specs.Prelude.{◌≡◌, ℕ, Bool, length};
ghost use Rattle.sound_names.specs.Tables.{TestsAt, Tests, used_below};

// Whether the places below the count pass the one test, and the others the other.
pub fn used_below<T, F: Fn(usize, &T) -> bool, G: Fn(&T) -> bool>(
    places: &[T],
    count: usize,
    used: F,
    free: G,
) -> bool
    requires at_used { F.IsAlwaysCallable used }
    requires at_free { G.IsAlwaysCallable free }
    ensures { (t : ℕ → T → Bool) (z : T → Bool) (d : T) → TestsAt (F.post used) t → Tests (G.post free) z
        → result ≡ used_below t z d places.now count (length places.now) }
{
    places.iter().enumerate().all(|(k, x)| {
        if k < count {
            return used(k, x);
        }
        free(x)
    })
}
