// Reads a dump of blocks from standard input, and prints how many of them are used, or which one is unlawful.
#![tactic(auto)]

use block::dump::inspect;
use std::io;
use std::io::Read;
use wire::refusal::Refusal;

fn main(rt: HostRuntime) -> io::Result<()> {
    let mut dump = Vec::new(rt.alloc());
    rt.stdin().read_to_end(&mut dump)?;
    match inspect(dump.as_slice()) {
        Ok(used) => println!(rt; "used {used}"),
        Err(Refusal { fault, place, .. }) => println!(rt; "refused {fault} block {place}"),
    }
}
