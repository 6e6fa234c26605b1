// The program of `replay` over recorded calls, whose answers the Rust gave: README.md says how they were chosen and made.
#![tactic(auto)]

fn main() {
    replaying::replay();
}
