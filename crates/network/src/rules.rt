// The bound Δ and the starting window W, by rule set.
ghost use Rattle.std.specs.Prelude.{◌≡◌, cond, ◌+◌, ◌≤◌, eqb};
ghost use Rattle.network.specs.Network as net;

use crate::Plan;

// Δ of a rule set for a network of largest diameter d. The rule set stays a number, for its definition `bound` takes every number.
pub fn bound(rules: u8, p: Plan, d: u8) -> u64
    ensures { result ≡ net.bound rules p d }
{
    let delay = p.delay as u64;
    let skew = p.skew as u64;
    (p.faulty_hosts as u64) * host_cost(rules, delay, skew) + (d as u64) * delay + skew
}

// W of a rule set.
pub fn window(rules: u8, p: Plan, d: u8) -> u64
    ensures { result ≡ net.window rules p d }
{
    bound(rules, p, d) + skews(rules) * (p.skew as u64)
}

// What a faulty host may add to Δ.
fn host_cost(rules: u8, delay: u64, skew: u64) -> u64
    requires { (delay ≤ 255) × (skew ≤ 255) }
    ensures { result ≡ cond (eqb rules 1) delay (delay + skew) }
{
    if rules == 1 { delay } else { delay + skew }
}

// How many skews W lies above Δ.
fn skews(rules: u8) -> u64
    ensures { result ≡ cond (eqb rules 1) 1 8 }
{
    if rules == 1 { 1 } else { 8 }
}
