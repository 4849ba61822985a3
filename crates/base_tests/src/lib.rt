//! Tests of messages, names, octets, registries, the texts of entries and layouts, and devices, by their public names.
#![tactic(auto)]

#[cfg(test)]
mod data;
#[cfg(test)]
mod device_calls;
#[cfg(test)]
mod entries;
#[cfg(test)]
mod errors;
#[cfg(test)]
mod layouts;
#[cfg(test)]
mod messages;
#[cfg(test)]
mod name_copies;
#[cfg(test)]
mod name_texts;
#[cfg(test)]
mod names;
#[cfg(test)]
mod number_copies;
#[cfg(test)]
mod numbers;
#[cfg(test)]
mod own_scanner;
#[cfg(test)]
mod parsers;
#[cfg(test)]
mod printed;
#[cfg(test)]
mod record_texts;
#[cfg(test)]
mod refused_scans;
#[cfg(test)]
mod scanning;
#[cfg(test)]
mod texts;
