// Known answers of words: marked cases, both sides of the limits, masks, scalars, keys, register groups and policies, run through the
// library and compared. Each group writes one line with how many cases agree. A line with fewer than were tried fails the gate.
//
// A record's bytes, those that should change, the file and the count go from function to function as they are: a struct of them would have
// no method of its own.
#![tactic(auto)]

mod call;
mod groups;
mod marked;
mod words;

use std::io;

fn main(rt: HostRuntime) -> io::Result<()> {
    marked::run(&rt)?;
    words::run(&rt)
}
