//! Tests of what streams in steps and streams that fail make of serving lines, of replies that are large, and of lookups that are
//! remembered.
#![tactic(auto)]

#[cfg(test)]
mod beans;
#[cfg(test)]
mod checks;
#[cfg(test)]
mod ends;
#[cfg(test)]
mod large;
#[cfg(test)]
mod lookups;
#[cfg(test)]
mod serving;
#[cfg(test)]
mod test_ends;
