// Walking over records, one after the other.
ghost use Rattle.std.specs.Prelude.{◌≡◌, ◌+◌, ◌≤◌, length};
ghost use Rattle.schedule.specs.Shape.{place, records};

// The records from one on, so many of them, each with its number among these.
#[derive(Drop)]
pub(crate) struct Walk<'a> {
    pub bytes: &'a [u8],
    pub first: usize,
    pub i: usize,
    pub count: usize,
    pub at: usize, // where record first + i begins
    ghost short: { length bytes.now ≤ 8192 },
    ghost there: { first + count ≤ records bytes.now },
    ghost few: { i ≤ count },
    ghost place_is: { at ≡ place bytes.now (first + i) },
}
