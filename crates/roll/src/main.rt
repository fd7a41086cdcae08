// Prints the roll of the input on standard input.
#![tactic(auto)]

use printing::input::print_roll;
use report::roll;

fn main(rt: HostRuntime) -> anyhow::Result<()> {
    print_roll(rt.alloc(), rt.stdin(), &mut rt.stdout(), |bytes| {
        Ok(roll(rt.alloc(), bytes)?)
    })
}
