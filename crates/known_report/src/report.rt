// A line for each group of cases: how many agree.
use std::io;
use std::io::Write;

// Ends a line that has the name of the group.
fn end_line(out: &mut impl Write, agreed: u64, tried: u64) -> io::Result<()> {
    writeln!(out, ": {agreed} of {tried} agree")
}

// A line with a name. Bytes and no text: `Display` would ask more of a caller, and so there are two functions.
pub fn report(rt: &impl Print, name: &[u8], agreed: u64, tried: u64) -> io::Result<()> {
    let mut out = io::writer(rt);
    out.write_all(name)?;
    end_line(&mut out, agreed, tried)
}

// The line of document 01's marked case K.
pub fn report_marked(rt: &impl Print, k: u64, agreed: u64, tried: u64) -> io::Result<()> {
    let mut out = io::writer(rt);
    write!(out, "K{k}")?;
    end_line(&mut out, agreed, tried)
}
