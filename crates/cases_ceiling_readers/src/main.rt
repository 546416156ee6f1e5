// The ceiling of readers: what it prints is compared with what an independent implementation computes.
// One of four programs of one line: each has a stored output of its own.
#![tactic(auto)]

fn main(rt: HostRuntime) {
    cases_ceiling::ceiling(rt.stdout(), 0);
}
