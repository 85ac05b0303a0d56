// Shows a map to those who learn it, one command a line. docs/MANUAL.md has the commands.
#![tactic(auto)]

fn main(rt: HostRuntime) {
    slotshell_core::talk(&rt, b"slotshell");
}
