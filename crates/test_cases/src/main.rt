// Texts by file, each answered as `bayboard` does, after a line with the file's name.
#![tactic(auto)]

use std::fs::File;
use std::{env, io};

fn case(rt: &HostRuntime, name: &str) -> io::Result<()> {
    match File::open(rt, name) {
        Ok(mut file) => {
            println!(rt; "{name}")?;
            program_console::run(rt, &mut file);
            Ok(())
        }
        Err(e) => eprintln!(rt; "{name}: {e}"),
    }
}

fn main(rt: HostRuntime) -> io::Result<()> {
    for name in env::args(&rt)?.skip(1) {
        case(&rt, name.as_str())?;
    }
    Ok(())
}
