// The report of a replay as text.
#![tactic(auto)]

mod lines;
mod runs;
mod writers;

ghost use Rattle.std.specs.Prelude.{◌≡◌};
ghost use Rattle.report.specs.Calls.{reported, says, told, left};

use crate::writers::Writer;

// The lent buffer is too short for the text.
#[derive(Clone, Copy, Debug, PartialEq, Eq)]
pub struct ShortBuffer;

impl From<ShortBuffer> for u8 {
    ghost from_gives = { λ _ n. n ≡ 22 };

    fn from(_: ShortBuffer) -> u8 {
        22
    }
}

// The text of what a replay of these bytes answers, from the first byte of the buffer on, and its length; or the buffer as it was, where it is too short.
pub fn report(bytes: &[u8], out: &mut [u8]) -> Result<usize, ShortBuffer>
    ensures numbers { says result ≡ told (reported bytes.now) out.old }
    ensures buffer { out.new ≡ left (reported bytes.now) out.old }
{
    let ran = engine::run(bytes);
    // Nothing may be written before the length is known.
    let mut nowhere = Writer::new(&mut []);
    lines::text(&mut nowhere, &ran);
    let n = nowhere.at;
    if out.len() < n {
        return Err(ShortBuffer);
    }
    lines::text(&mut Writer::new(out), &ran);
    Ok(n)
}
