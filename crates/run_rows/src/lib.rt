//! Worked rows of the top call: files, words and failing outsides, and what each run gives.
#![tactic(auto)]

#[cfg(test)]
mod answers;
#[cfg(test)]
mod families;
#[cfg(test)]
mod generated;
#[cfg(test)]
mod hostile;
#[cfg(test)]
mod tables;
#[cfg(test)]
mod tests;
#[cfg(test)]
mod trials;
