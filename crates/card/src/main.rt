// The weight card: writes a line for each f from 0 to 1,000, with the weights by p of 600, 700 and 750.
#![tactic(auto)]

use std::io;

fn main(rt: HostRuntime) -> io::Result<()> {
    for f in 0..1001 {
        let by_600 = weights::look_up(f, 600);
        let by_700 = weights::look_up(f, 700);
        let by_750 = weights::look_up(f, 750);
        println!(rt; "{f} {by_600} {by_700} {by_750}")?;
    }
    Ok(())
}
