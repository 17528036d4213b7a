// What a program is told to do, and the processor time that it takes.
use std::io;
use std::io::Read;
use std::time::{CpuClock, Duration};

// How many rounds standard input asks for.
pub(crate) fn rounds(mut input: impl Read + Drop) -> io::Result<u64> {
    let mut digits = [0u8; 8];
    input.read(&mut digits)?;
    Ok(number(digits))
}

// The number that the digits say, up to the first byte that is none.
fn number(digits: [u8; 8]) -> u64 {
    digits
        .iter()
        .map_while(|b| char::from(*b).to_digit(10))
        .fold(0, |n, digit| n % 10_000_000 * 10 + u64::from(digit))
}

// Makes a call in so many rounds and ends the line; where there are any, with the nanoseconds of one call and a sum over what they answered.
pub(crate) fn timed<F: FnMut(u64) -> u64>(
    rt: &(impl Print + CpuClock),
    rounds: u64,
    mut call: F,
) -> io::Result<()>
    requires { F.IsAlwaysCallable call }
{
    let from = processor_time(rt);
    let mut sum: u64 = 0;
    for round in 0..rounds {
        sum = (sum % 1_000_000_000).wrapping_add(call(round));
    }
    if 0 < rounds {
        let used = processor_time(rt).saturating_sub(from);
        print!(rt; ", ns {}, sum {sum}", used.as_nanos() / u128::from(rounds))?;
    }
    println!(rt)
}

// The processor time that the program has used; none where the clock does not tell.
fn processor_time(rt: &impl CpuClock) -> Duration {
    rt.process_cpu_time().unwrap_or(Duration::ZERO)
}
