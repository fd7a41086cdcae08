// A shift in the transfer rooms: two sessions opened by ticket, worked in, closed in the order that
// their roles allow, and one left open for the night. The next morning a new monitor decides the
// journal of that day again and goes on. Prints a row for each event, and at last what opening the
// session would be answered after a restart.
#![tactic(auto)]

mod desk;

ghost use Rattle.std.specs.Prelude.{◌≡◌, [], ◌∷◌};
ghost use Rattle.policy.specs.Approved.{tables_of, policy_of};
ghost use Rattle.policy.specs.Reading.{reading, draft_of};
ghost use Rattle.policy.specs.Worked as worked;
ghost use Rattle.shift.specs.Desks.{state_on, Asked};
ghost use Rattle.shift.specs.Day.{work_events, late_events, morning_events, restart_row};

use desk::Desk;
use families::house::house;
use monitor::{Monitor, Row};
use policy::worked::worked_policies;
use policy::{Checked, Draft};
use records::Event;
use report::RowLine;

// The checked policy of the rooms.
fn sample() -> Checked
    ensures { tables_of (policy_of result) ≡ draft_of (reading worked.sample) }
{
    let mut draft = Draft::bare();
    let mut checked = Checked::bare();
    let policies = worked_policies();
    let _ = draft.read(&policies.sample);
    let _ = checked.check(&draft);
    checked
}

// User 0 scans by role 1 in session 0; user 1 checks by role 3, which depends on role 1, in
// session 1.
fn work(desk: &mut Desk)
    ensures { Asked desk.old desk.new (work_events (state_on desk.old)) }
{
    desk.ask(Event::Assign { user: 0, role: 1 });
    desk.ask(Event::Assign { user: 1, role: 3 });
    desk.ask(Event::Enable { role: 1 });
    desk.ask(Event::Enable { role: 3 });
    let Some(scanning) = desk.open(0, 0) else {
        return;
    };
    let Some(checking) = desk.open(1, 1) else {
        let _ = scanning.leave();
        return;
    };
    desk.ask(Event::Activate {
        session: 0,
        role: 1,
    });
    desk.ask(Event::Activate {
        session: 1,
        role: 3,
    });
    desk.close_both(scanning, checking);
}

// User 0 comes back to session 0, moves to session 1, and leaves it open for the night.
fn stay_late(desk: &mut Desk)
    ensures { Asked desk.old desk.new (late_events (state_on desk.old)) }
{
    if let Some(evening) = desk.open(0, 0) {
        let night = desk.move_to(evening, 1, 0);
        let _ = night.leave();
    }
    // the session that was left is still open, so it can't be opened again
    if let Some(again) = desk.open(1, 1) {
        desk.close_or_leave(again);
    }
}

// Session 1 was left open overnight, so it has to be closed before it can be opened again. Its
// ticket is used up, and the event close needs none.
fn go_on(desk: &mut Desk)
    ensures { Asked desk.old desk.new morning_events }
{
    desk.ask(Event::Open {
        session: 1,
        user: 1,
    });
    desk.ask(Event::Close { session: 1 });
}

// What opening session 1 would be answered by a room that comes back from the journal.
fn after_restart(journal: &[Event]) -> Row
    ensures { result ≡ restart_row journal.now }
{
    let room = Monitor::resume(sample(), house(), journal);
    let opening = Event::Open {
        session: 1,
        user: 1,
    };
    Row::of(opening, room.judge(opening))
}

fn print_rows(rt: &HostRuntime, desk: &Desk) -> anyhow::Result<()> {
    for (index, row) in desk.rows.iter().enumerate() {
        let line = RowLine { index, row: *row };
        println!(rt; "{line}")?;
    }
    Ok(())
}

fn main(rt: HostRuntime) -> anyhow::Result<()> {
    let mut desk = Desk::begin(rt.alloc(), sample())?;
    work(&mut desk);
    stay_late(&mut desk);
    print_rows(&rt, &desk)?;
    println!(rt; "the next morning")?;
    let mut desk = Desk::resume(rt.alloc(), sample(), desk.journal)?;
    go_on(&mut desk);
    print_rows(&rt, &desk)?;
    println!(rt; "after a restart")?;
    let line = RowLine {
        index: 0,
        row: after_restart(&desk.journal),
    };
    println!(rt; "{line}")?;
    Ok(())
}
