//! Tests of service parameters, of the data of SVCB and HTTPS records, and of rebuilding it, by their public names.
#![tactic(auto)]

#[cfg(test)]
mod building;
#[cfg(test)]
mod data_texts;
#[cfg(test)]
mod error_texts;
#[cfg(test)]
mod hostile;
#[cfg(test)]
mod lengths;
#[cfg(test)]
mod level;
#[cfg(test)]
mod overlay;
#[cfg(test)]
mod param_copies;
#[cfg(test)]
mod param_refusals;
#[cfg(test)]
mod param_scans;
#[cfg(test)]
mod param_texts;
#[cfg(test)]
mod printed;
#[cfg(test)]
mod raw_texts;
#[cfg(test)]
mod reading;
#[cfg(test)]
mod rebuilding;
#[cfg(test)]
mod record_orders;
#[cfg(test)]
mod records;
#[cfg(test)]
mod refused_memory;
#[cfg(test)]
mod targets;
