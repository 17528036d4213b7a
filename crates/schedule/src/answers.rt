// The numbers of an answer, of whatever was to be read or made of a schedule.
ghost use Rattle.std.specs.Prelude.{◌≡◌};
ghost use Rattle.schedule.specs.Calls.{numbers, says};

use crate::Refusal;

impl From<Refusal> for u8 {
    ghost use Rattle.std.specs.Prelude.{◌≡◌};
    ghost use Rattle.schedule.specs.Calls.{numbers};

    ghost from_gives = { λ refusal n. n ≡ (numbers refusal).0 };

    fn from(refusal: Refusal) -> u8 {
        match refusal {
            Refusal::NotASchedule => 31,
            Refusal::Plan(refusal) => u8::from(refusal),
            Refusal::OutsideRules(_) => 32,
        }
    }
}

// The refusal; 0 of what was not refused.
pub fn number_of<T>(answer: &Result<T, Refusal>) -> u8
    ensures { result ≡ (says answer.now).0 }
{
    match answer {
        Ok(_) => 0,
        Err(refusal) => u8::from(*refusal),
    }
}

// The index of the record outside the rules; 0 of any other answer.
pub fn index_of<T>(answer: &Result<T, Refusal>) -> usize
    ensures { result ≡ (says answer.now).1 }
{
    match answer {
        Err(Refusal::OutsideRules(index)) => *index,
        _ => 0,
    }
}
