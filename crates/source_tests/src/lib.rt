// Tests of the property sources at their boundaries.
#![tactic(auto)]

#[cfg(test)]
mod blocks;
#[cfg(test)]
mod books;
#[cfg(test)]
mod layers;
#[cfg(test)]
mod views;
