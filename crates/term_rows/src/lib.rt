//! Worked texts: the lines, tokens and trees that they are cut into, and the terms that they spell.
#![tactic(auto)]

#[cfg(test)]
mod cuts;
#[cfg(test)]
mod tables;
#[cfg(test)]
mod terms;
