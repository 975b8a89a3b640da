// A drive at the command line: a script on standard input, a command a line, and an answer to each on
// standard output.
#![tactic(auto)]

mod input;

fn main(rt: HostRuntime) {
    input::run(&rt, &mut rt.stdin());
}
