// M1 to M12, the paper's whole case and some plans, through the calls. Answers are written in the paper's text.
#![tactic(auto)]

mod call;
mod case;
mod marked;

use std::io;

fn main(rt: HostRuntime) -> io::Result<()> {
    marked::lengths(&rt)?;
    marked::energy(&rt)?;
    marked::orders(&rt)?;
    marked::joins(&rt)?;
    marked::exclusion(&rt)?;
    case::whole(&rt)?;
    case::plans(&rt)
}
