//! The tests that cross crates: cut input, failing readers and writers, the class table, data blocks in each dialect,
//! imports, what is told as a file is read, want of memory, recordings on threads; and fast paths beside plain ones.
#![tactic(auto)]

#[cfg(test)]
mod classes;
#[cfg(test)]
mod dialects;
#[cfg(test)]
mod endless;
#[cfg(test)]
mod imports;
#[cfg(test)]
mod in_parts;
#[cfg(test)]
mod memory;
#[cfg(test)]
mod mentions;
#[cfg(test)]
mod owned;
#[cfg(test)]
mod players;
#[cfg(test)]
mod progress;
#[cfg(test)]
mod recorder;
#[cfg(test)]
mod scripts;
#[cfg(test)]
mod starts;
#[cfg(test)]
mod stores;
#[cfg(test)]
mod storing;
#[cfg(test)]
mod streams;
#[cfg(test)]
mod summaries;
#[cfg(test)]
mod trees;
