// The cases of receive, on the triangle with π = 1 and T = 100.
use crate::plans;
use clock::Reading;
use host::{Held, Refusal};
use orders::Order;
use std::io;

// "h = 1 is .. accepted at 98 and 112"; "First rules (Δ 23): accepted at 122"
pub(crate) fn cases(rt: &impl Print) -> io::Result<()> {
    for (rules, hop, u) in [(2, 1, 98), (2, 1, 112), (1, 0, 122)] {
        case(rt, rules, hop, Reading(u))?;
    }
    Ok(())
}

// The copy with this hop, got at this reading over link 0 by a fresh host 1 of these rules.
fn case(rt: &impl Print, rules: u8, hop: u8, u: Reading) -> io::Result<()> {
    match host::make(plans::triangle(), rules, 1) {
        Ok(fresh) => {
            let copy = Held {
                stamp: Reading(100),
                source: 0,
                order: Order::Halt(7),
            };
            print!(rt;
                "rules {rules}, bound {}, hop {hop} at {}: ",
                fresh.bound, u.0
            )?;
            match host::after_receive(fresh, u, 0, hop, copy).answer {
                Ok(_) => println!(rt; "accepted"),
                Err(refusal) => refused(rt, refusal),
            }
        }
        Err(refusal) => refused(rt, refusal),
    }
}

fn refused(rt: &impl Print, refusal: Refusal) -> io::Result<()> {
    println!(rt; "refusal {}", u8::from(refusal))
}
