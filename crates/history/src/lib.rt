#![tactic(auto)]

// Any cutting, the same units: demands 1, 2 and 3 over histories of the reader's own calls. No code: specs/Promises.antt is the page to read.
