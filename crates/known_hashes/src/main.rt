// Known answers of products, hashes and steps back: marked cases, published vectors and both sides of the limit on A and C, run through the
// library and compared. Each group writes one line with how many cases agree. A line with fewer than were tried fails the gate.
//
// Keys, messages and the count go from function to function as they are: a struct of them would have no method of its own. Which call feeds
// a piece is an enum and no closure, since the definitions go by it.
#![tactic(auto)]

mod gcm;
mod hashes;
mod limits;
mod marked;
mod pieces;

use std::io;

fn main(rt: HostRuntime) -> io::Result<()> {
    marked::run(&rt)?;
    gcm::run(&rt)?;
    limits::run(&rt)
}
