// Runs the manager's commands and the recorder's calls on the cases of a script, each with its
// expectation written out, and prints a line for each. A line that begins 'WRONG' is a case that
// fails.
#![tactic(auto)]

mod desk;
mod script;

fn main(rt: HostRuntime) {
    script::run(&rt, &mut rt.stdin());
}
