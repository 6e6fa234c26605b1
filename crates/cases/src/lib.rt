#![tactic(auto)]

// Document 01, "Cases by hand": P1 to P9 in one table, proved together by one computed test. No code.
