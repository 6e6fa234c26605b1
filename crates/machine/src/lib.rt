#![tactic(auto)]

// Any stepping reader over bytes: what a step, a request, a scan and a history are, and what holds of them ("A request" and "A fresh
// scan" of document 01, and demand 3, with no word of the format). No code: specs/ alone.
