//! Tests of jobs that are driven on their trees: by one worker, as the program would, and by several whose tasks are out at once and
//! come back in any order. Each time the bytes, the ending and the numbers are those of the sequential machine.
#![tactic(auto)]

#[cfg(test)]
mod alike;
#[cfg(test)]
mod driven;
#[cfg(test)]
mod interleaved;
#[cfg(test)]
mod random;
#[cfg(test)]
mod rows;
#[cfg(test)]
mod workers;
