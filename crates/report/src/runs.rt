// Runs of lines: of the starts, of the hosts, of a host's deliveries. By index: of `&entries[..count]` the proof knows no length.
ghost use Rattle.std.specs.Prelude.{◌≤◌};
ghost use Rattle.engine.specs.Inside.{InPlaces};
ghost use Rattle.report.specs.Text.{starts_text, host_text, hosts_text};
ghost use Rattle.report.specs.Inside.{Wrote};

use crate::lines;
use crate::writers::Writer;
use engine::{Log, Outcome};

pub(crate) fn starts(w: &mut Writer<'_>, outcome: &Outcome)
    requires { InPlaces outcome.now }
    ensures { Wrote w.old (starts_text outcome.now.starts outcome.now.refusals) w.new }
{
    for k in 0..outcome.starts {
        lines::start(w, k, outcome.refusals[k]);
    }
}

pub(crate) fn hosts(w: &mut Writer<'_>, outcome: &Outcome)
    requires { InPlaces outcome.now }
    ensures { Wrote w.old (hosts_text outcome.now.hosts outcome.now.logs) w.new }
{
    for h in 0..outcome.hosts as usize {
        host(w, h, &outcome.logs[h]);
    }
}

fn host(w: &mut Writer<'_>, own: usize, log: &Log)
    requires { log.now.count ≤ 16 }
    ensures { Wrote w.old (host_text own log.now) w.new }
{
    for i in 0..log.count {
        lines::delivery(w, own, log.entries[i]);
    }
}
