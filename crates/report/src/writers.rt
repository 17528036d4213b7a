// Bytes, words and numbers, one after the other.
ghost use Rattle.std.specs.Prelude.{[], ◌∷◌, ◌++◌};
ghost use Rattle.report.specs.Text.{decimal};
ghost use Rattle.report.specs.Inside.{Wrote, Starts};

// A lent buffer, and the place of the next byte. Past the end of the buffer a writer only counts, so that the length of a text can be asked for.
#[derive(Drop)]
pub(crate) struct Writer<'a> {
    pub out: &'a mut [u8],
    pub at: usize,
}

impl<'a> Writer<'a> {
    pub(crate) fn new(out: &'a mut [u8]) -> Writer<'a>
        ensures { Starts out.entry result }
    {
        Writer { out, at: 0 }
    }
}

impl Writer<'_> {
    // A word and a number that a line ends with.
    pub(crate) fn line(&mut self, name: &[u8], x: u64)
        ensures { Wrote self.old (name.now ++ decimal x ++ (10 ∷ [])) self.new }
    {
        self.item(name, x);
        self.put(b'\n');
    }

    // A word and a number.
    pub(crate) fn item(&mut self, name: &[u8], x: u64)
        ensures { Wrote self.old (name.now ++ decimal x) self.new }
    {
        self.word(name);
        self.number(x);
    }

    fn word(&mut self, name: &[u8])
        ensures { Wrote self.old name.now self.new }
    {
        for byte in name {
            self.put(*byte);
        }
    }

    // By hand, since the contract of `write!` leaves open whether it fails.
    fn number(&mut self, x: u64)
        ensures { Wrote self.old (decimal x) self.new }
    {
        if x >= 10 {
            self.number(x / 10);
        }
        self.put(b'0' + (x % 10) as u8);
    }

    // The count stops at the largest number, which no text reaches.
    pub(crate) fn put(&mut self, byte: u8)
        ensures { Wrote self.old (byte ∷ []) self.new }
    {
        if self.at < self.out.len() {
            self.out[self.at] = byte;
        }
        self.at = self.at.saturating_add(1);
    }
}
