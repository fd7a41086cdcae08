// Does the work of a roll many times over, to be timed: `benchmark CHECKS RUNS FILE` checks the
// policy of the file CHECKS times more than once, and then decides the events after it RUNS times
// on one monitor. Prints the policy's line and the end of the last run.
#![tactic(auto)]

ghost use Rattle.std.specs.Prelude.{◌≡◌, true};
ghost use Rattle.policy.specs.Approved.{tables_of, policy_of};
ghost use Rattle.policy.specs.Reading.{reading};
ghost use Rattle.monitor.specs.Governed.{cells_of, state_after_all};
ghost use Rattle.monitor.specs.Monitors.{state_of, SamePolicy};
ghost use Rattle.monitor.specs.Scripts.{script_of};
ghost use Rattle.families.specs.House.{house_rules};
ghost use Rattle.report.specs.Judging.{judgement_of, is_refused};
ghost use Rattle.benchmark.specs.Repeats.{held_over, times_over, rows_over, outcome_over};

use anyhow::{bail, ensure};
use families::house::{House, house};
use monitor::run::run;
use monitor::{Monitor, Outcome, Row, Stop};
use policy::Checked;
use report::{EndLine, PolicyLine, read_and_check};
use std::{env, fs};

// Enough for all the events of any input: each takes at least two bytes, of 65,536 at most.
const ROWS: usize = 32_768;

// Reads and checks a policy many times over, into one holder.
fn check_over(held: &mut Checked, bytes: &[u8], times: u32)
    ensures policy { tables_of (policy_of held.new)
        ≡ held_over times (reading bytes.now) (tables_of (policy_of held.old)) }
    ensures refused { is_refused (judgement_of (reading bytes.now)) ≡ true
        → held.new ≡ held.old }
{
    for _ in 0..times {
        let _ = read_and_check(held, bytes);
    }
}

// Decides events many times over, on one monitor and into the same rows.
fn run_over(monitor: &mut Monitor<House>, events: &[u8], rows: &mut [Row], times: u32) -> Outcome
    ensures answer { result ≡ outcome_over times (script_of events.now rows.old) }
    ensures rows { rows.new ≡ rows_over times house_rules (state_of monitor.old)
        (script_of events.now rows.old).events rows.old }
    ensures state { cells_of (state_of monitor.new)
        ≡ state_after_all house_rules (state_of monitor.old)
        (times_over times (script_of events.now rows.old).events) }
    ensures same { SamePolicy monitor.old monitor.new }
{
    let mut last = Outcome {
        rows: 0,
        bytes: 0,
        end: Ok(Stop::NoByteLeft),
    };
    for _ in 0..times {
        last = run(monitor, events, rows);
    }
    last
}

fn main(rt: HostRuntime) -> anyhow::Result<()> {
    let args: Vec<String> = env::args(&rt)?.skip(1).collect(rt.alloc())?;
    let [checks, runs, file] = args.as_slice() else {
        bail!("benchmark CHECKS RUNS FILE");
    };
    let bytes = fs::read(&rt, file.as_str())?;
    let mut held = Checked::bare();
    check_over(&mut held, &bytes, checks.parse()?);
    let judged = read_and_check(&mut held, &bytes);
    println!(rt; "{}", PolicyLine::from(judged))?;
    let Ok(policy) = judged else {
        return Ok(());
    };
    ensure!(policy.verdict.is_ok(), "the policy does not pass");
    let mut monitor = Monitor::begin(held, house());
    let mut rows = vec![in rt.alloc(); Row::default(); ROWS]?;
    let events = &bytes[policy.bytes..];
    let last = run_over(&mut monitor, events, &mut rows, runs.parse()?);
    println!(rt; "{}", EndLine::from(last))?;
    Ok(())
}
