//! Laws of runs: no entry changes an instruction of the program, nor lets a point be arrived at
//! that could not be before.
#![tactic(auto)]
