// Keys that no two places of a table may share: the ids of a sender's executions, the digests of requests.
ghost use Rattle.std.specs.Prelude.{◌≡◌, ◌<◌, Bool, length};
ghost use Rattle.sound_names.specs.Keys.{Compares, new_key, keys_differ};

// Whether no earlier place has the key of place k, as the test says.
fn is_new<T, F: Fn(&T, &T) -> bool>(all: &[T], k: usize, same: &F) -> bool
    requires there { k < length all.now }
    requires asked { F.IsAlwaysCallable same.now }
    ensures { (t : T → T → Bool) (d : T) → Compares (F.post same.now) t → result ≡ new_key t d all.now k }
{
    let x = &all[k];
    all[..k].iter().all(|earlier| !same(earlier, x))
}

// Whether no two places have the same key, as the test says.
pub fn keys_differ<T, F: Fn(&T, &T) -> bool>(all: &[T], same: F) -> bool
    requires { F.IsAlwaysCallable same }
    ensures { (t : T → T → Bool) (d : T) → Compares (F.post same) t
        → result ≡ keys_differ t d all.now (length all.now) }
{
    (0..all.len()).all(|k| is_new(all, k, &same))
}
