//! Tests of the top call on files in memory: worked examples with jitters, priority points and time
//! tables, of recorded arrivals and of priorities that are assigned. The library itself is empty.
#![tactic(auto)]

#[cfg(test)]
mod assignments;
#[cfg(test)]
mod curves;
#[cfg(test)]
mod jitters;
#[cfg(test)]
mod points;
#[cfg(test)]
mod tables;
