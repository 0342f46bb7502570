//! Examples of the answers of the cost kinds, of the calls on a sheet in each of its states, of
//! several readings of a pair, of the walk below the calls, of runs of calls, of loading and of
//! saving, with every refusal; a crate of their own, since a crate with tests is proved twice.
#![tactic(auto)]

#[cfg(test)]
mod calls;
#[cfg(test)]
mod files;
#[cfg(test)]
mod kinds;
#[cfg(test)]
mod raising;
#[cfg(test)]
mod readings;
#[cfg(test)]
mod runs;
#[cfg(test)]
mod settling;
#[cfg(test)]
mod walking;
