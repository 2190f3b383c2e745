//! Tests of programs out of modules, and of their files. They stand beside the segmenter and the reader of files, since a crate with
//! tests is proved a second time with them.
#![tactic(auto)]

#[cfg(test)]
mod files;
#[cfg(test)]
mod programs;
#[cfg(test)]
mod units;
