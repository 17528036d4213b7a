// Answers as C's numbers: the refusal in the low byte, and above it what else a call answers.
ghost use Rattle.std.specs.Prelude.{◌≡◌, ◌≤◌, ◌*◌, IfOk, MatchResult};
ghost use Rattle.host.specs.Answers.{says};
ghost use Rattle.service.specs.Calls.{send_number};

use host::{Refusal, Sent};

// Of an answer in three bytes.
pub(crate) fn number<E: Into<u8>>(answer: Result<usize, E>) -> u64
    requires { IfOk answer (λ n. n ≤ 16_777_215) }
    ensures { MatchResult answer (λ n. result ≡ 256 * n) (λ refusal. E.Into.converts refusal result) }
{
    match answer {
        Ok(n) => 256 * (n as u64),
        Err(refusal) => u64::from(refusal.into()),
    }
}

pub(crate) fn done_number<E: Into<u8>>(answer: Result<(), E>) -> u64
    ensures { MatchResult answer (λ _. result ≡ 0) (λ refusal. E.Into.converts refusal result) }
{
    number(answer.map(|()| 0))
}

// The hop in the byte above, and the links above that.
pub(crate) fn send_number(answer: Result<Sent, Refusal>) -> u64
    ensures { result ≡ send_number (says answer) }
{
    number(answer.map(|sent| usize::from(sent.hop) + 256 * usize::from(sent.links)))
}
