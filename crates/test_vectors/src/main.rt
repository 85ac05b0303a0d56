// Replays requests that the crate iset 0.3.3 answered. The answers in the file stdout are the
// crate's. tests/differential/README.md says how they were made.
#![tactic(auto)]

fn main(rt: HostRuntime) {
    drive_core::answer_lines(&rt, b"test_vectors");
}
