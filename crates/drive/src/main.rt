// Answers requests on a map, one line each (docs/DRIVE.md).
#![tactic(auto)]

fn main(rt: HostRuntime) {
    drive_core::answer_lines(&rt, b"drive");
}
