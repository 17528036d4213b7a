// Make a host.
ghost use Rattle.std.specs.Prelude.{◌≡◌, cond, ◌≤◌, eqb, take};
ghost use Rattle.lists.specs.Lists.{pad};
ghost use Rattle.network.specs.Network.{no_link, m};
ghost use Rattle.host.specs.Answers.{refusal_of};
ghost use Rattle.host.specs.Make.{unstarted, cleared, made, make_refusal, make_host};

use crate::checks::refuse_if;
use crate::unused::NO_HELD;
use crate::{Host, Refusal};
use clock::Reading;
use network::planning::plan as planned;
use network::{Bounds, Link, NO_LINK, NO_PLAN, Plan};
use orders::is_rules;

// A fresh host of the plan.
pub fn make(plan: Plan, rules: u8, own: u8) -> Result<Host, Refusal>
    ensures host_value { made result ≡ make_host plan rules own }
    ensures answer_value { refusal_of result ≡ make_refusal plan rules own }
{
    let bounds = planned(plan)?;
    refuse_if(!is_rules(rules), Refusal::BadValue)?;
    refuse_if(own >= plan.hosts, Refusal::NotInPlan)?;
    Ok(no_starts(clear(plan), rules, bounds.d, bound_of(rules, bounds), own))
}

// The host of what `make` answers; of a refusal the state that is zero everywhere.
pub fn made(answer: Result<Host, Refusal>) -> Host
    ensures { result ≡ made answer }
{
    match answer {
        Ok(host) => host,
        Err(_) => no_starts(NO_PLAN, 0, 0, 0, 0),
    }
}

fn no_starts(plan: Plan, rules: u8, d: u8, bound: u64, own: u8) -> Host
    ensures { result ≡ unstarted plan rules d bound own }
{
    Host {
        plan,
        rules,
        d,
        bound,
        own,
        last: Reading(0),
        started: 0,
        starts: [Reading(0); 4],
        held: 0,
        history: [NO_HELD; 32],
    }
}

// Δ of the rule set.
fn bound_of(rules: u8, b: Bounds) -> u64
    ensures { result ≡ cond (eqb rules 1) b.first.bound b.second.bound }
{
    if rules == 1 {
        b.first.bound
    } else {
        b.second.bound
    }
}

// The plan with its unused link places zero.
fn clear(plan: Plan) -> Plan
    requires { m plan ≤ 12 }
    ensures { result ≡ cleared plan }
{
    let links = plan.links;
    Plan {
        links: first_links(links, usize::from(plan.link_count)),
        ..plan
    }
}

fn first_links(links: [Link; 12], count: usize) -> [Link; 12]
    requires { count ≤ 12 }
    ensures { result ≡ pad 12 no_link (take count links) }
{
    let mut used = [NO_LINK; 12];
    used[..count].copy_from_slice(&links[..count]);
    used
}
