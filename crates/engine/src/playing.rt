// At each tick all hosts tick, then copies arrive, then orders are started. The schedule and the tick are passed side by side: with a struct of both, clauses would
// say `now.schedule.now` for `s.now`.
ghost use Rattle.std.specs.Prelude.{◌≡◌, [], get_or};
ghost use Rattle.lists.specs.Lists.{listed};
ghost use Rattle.engine.specs.Parts.{no_station};
ghost use Rattle.engine.specs.Run.{outcome, outcome_at};
ghost use Rattle.engine.specs.Inside.{Playable, world_of, post_of};

use crate::arriving::{hand, is_now, receiver_of};
use crate::clocks::clock_of;
use crate::opening::open;
use crate::sending::send_all;
use crate::starting::{is_now as starts_now, refusal_of, tell};
use crate::ticking::{be_at, tick_one};
use crate::{Log, Outcome, Post, Station};
use clock::Tick;
use host::is_idle;
use schedule::Schedule;

// The run of a schedule, to its end.
pub(crate) fn play_all(s: &Schedule) -> Outcome
    requires { Playable s.now }
    ensures { result ≡ outcome s.now }
{
    let mut stations = open(s);
    let mut post = Post {
        arrivals: [Tick(0); 384],
        copies: 0,
    };
    let mut refusals = [0u8; 16];
    for t in 0..s.end.0 + 1 {
        let now = Tick(t);
        for p in 0..s.plan.hosts {
            let at = p as usize;
            let u = clock_of(s, now, p);
            if is_idle(&stations[at].host, u) {
                be_at(&mut stations[at], u);
            } else {
                tick_one(&mut stations[at], u);
            }
        }
        for c in 0..24 * s.start_count {
            if is_now(post.arrivals[c], now) {
                let q = receiver_of(s, c);
                let answer = hand(s, now, c, q, &mut stations[q as usize]);
                send_all(s, now, c / 24, q, answer, &mut post);
            }
        }
        for k in 0..s.start_count {
            let start = s.starts[k];
            if starts_now(start, now) {
                let answer = tell(s, now, start, &mut stations[start.host as usize]);
                refusals[k] = refusal_of(answer);
                send_all(s, now, k, start.host, answer, &mut post);
            }
        }
    }
    outcome_of(s, stations, refusals, post.copies)
}

// What a run leaves.
fn outcome_of(s: &Schedule, stations: [Station; 8], refusals: [u8; 16], copies: usize) -> Outcome
    ensures { result ≡ outcome_at s.now (world_of stations (post_of [] copies) refusals) }
{
    Outcome {
        bound: s.bounds.first.bound,
        hosts: s.plan.hosts,
        starts: s.start_count,
        refusals,
        logs: logs_of(stations),
        copies,
    }
}

fn logs_of(stations: [Station; 8]) -> [Log; 8]
    ensures { result ≡ listed 8 (λ p. (get_or stations p no_station).log) }
{
    stations.map(|station| station.log)
}
