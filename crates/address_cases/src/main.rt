// Runs the drive's shape and its flash addresses on the cases of a script, each with its expectation
// written out, and prints a line for each. A line that begins 'WRONG' is a case that fails.
#![tactic(auto)]

mod calls;
mod script;

fn main(rt: HostRuntime) {
    script::run(&rt, &mut rt.stdin());
}
