//! Tests of the values of service parameters: octets, texts, scans and copies, by their public names.
#![tactic(auto)]

#[cfg(test)]
mod all_values;
#[cfg(test)]
mod lists;
#[cfg(test)]
mod long_values;
#[cfg(test)]
mod printed;
#[cfg(test)]
mod scans;
#[cfg(test)]
mod texts;
#[cfg(test)]
mod value_copies;
#[cfg(test)]
mod value_scans;
#[cfg(test)]
mod values;
#[cfg(test)]
mod weight;
