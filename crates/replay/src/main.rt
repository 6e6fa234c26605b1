// Replays a script of calls from standard input and writes each answer with the whole record after it: oracle/README.md has the format.
#![tactic(auto)]

fn main() {
    replaying::replay();
}
