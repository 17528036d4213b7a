// One element put in at a place of a slice or taken out of it, with those behind moved by a place.
ghost use Rattle.std.specs.Prelude.{◌≡◌, [], ◌∷◌, ◌<◌, ◌+◌, ◌++◌, length, take, drop};

// Puts x in at a place: those from there on move up, and the last is lost. At no place of the slice, nothing changes.
pub fn open_at<T: Copy>(entries: &mut [T], at: usize, x: T)
    ensures { entries.new ≡ take (length entries.old) (take at entries.old ++ (x ∷ drop at entries.old)) }
{
    if at >= entries.len() {
        return;
    }
    let last = entries.len() - 1;
    entries.copy_within(at..last, at + 1);
    entries[at] = x;
}

// Takes out what stands at a place: those behind it move down, and z comes last. At no place of the slice, nothing changes.
pub fn close_at<T: Copy>(entries: &mut [T], at: usize, z: T)
    ensures value { entries.new ≡ take (length entries.old) (take at entries.old ++ drop (at + 1) entries.old ++ (z ∷ [])) }
    ensures inside { at < length entries.old → entries.new ≡ take at entries.old ++ drop (at + 1) entries.old ++ (z ∷ []) }
{
    if at >= entries.len() {
        return;
    }
    let last = entries.len() - 1;
    entries.copy_within(at + 1.., at);
    entries[last] = z;
}
