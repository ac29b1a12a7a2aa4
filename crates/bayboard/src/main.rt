// The program `bayboard`: a text on standard input, its answers on standard output.
#![tactic(auto)]

fn main(rt: HostRuntime) {
    program_console::run(&rt, &mut rt.stdin());
}
