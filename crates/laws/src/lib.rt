#![tactic(auto)]

// The words that every rule of document 01 is said in, and what holds of them. No code: specs/ alone.
