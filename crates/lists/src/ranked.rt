// Elements that have a rank, and one more put in among those of a slice.
ghost use Rattle.std.specs.Prelude.{◌≡◌, Bool, true, false, ℕ, ◌<◌, ◌≤◌, ◌+◌, ◌-◌, ◌++◌, length, take, drop, slice_get, IsSomeAnd};
ghost use Rattle.lists.specs.Lists.{rising, insert, put_in};

pub trait Ranked {
    ghost before: { Self → Self → Bool };

    fn is_before(self, other: Self) -> bool
        ensures { result ≡ before self other };

    ghost transitive: { (x y z : Self) → before x y ≡ true → before y z ≡ true → before x z ≡ true };
}

// Puts one element more in its place among those in use, which are the first `used`. Where no place is left, nothing changes.
pub fn insert<T: Ranked + Copy>(entries: &mut [T], used: usize, x: T)
    ensures value { entries.new ≡ put_in T.before x used entries.old }
    ensures in_order { used < length entries.old → rising T.before (take used entries.old) ≡ true → entries.new ≡ insert T.before x (take used entries.old) ++ drop (used + 1) entries.old }
{
    if used >= entries.len() {
        return;
    }
    let at = place_of(&entries[..used], x);
    // Tried by `open_at`, and slower where x comes last.
    entries.copy_within(at..used, at + 1);
    entries[at] = x;
}

// A new element mostly comes last, so its place is sought from behind.
fn place_of<T: Ranked + Copy>(entries: &[T], x: T) -> usize
    ensures bound { result ≤ length entries.now }
    ensures behind { (k : ℕ) → result ≤ k → k < length entries.now → IsSomeAnd (slice_get entries.now k) (λ e. T.before x e ≡ true) }
    ensures at { 0 < result → IsSomeAnd (slice_get entries.now (result - 1)) (λ e. T.before x e ≡ false) }
{
    entries
        .iter()
        .rposition(|e| !x.is_before(*e))
        .map_or(0, |i| i + 1)
}
