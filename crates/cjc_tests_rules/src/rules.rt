//! Small packages, written down by hand, and what the crates between the readers and the conversion answer of them:
//! what no command shows. There is no code here but tests: a crate with tests of its own is proved twice.
#[cfg(test)]
mod drafts;
#[cfg(test)]
mod found;
#[cfg(test)]
mod subsets;
#[cfg(test)]
mod tables;
#[cfg(test)]
mod tokens;
#[cfg(test)]
mod worlds;
