//! Tests of the program `svcbedit`: whole runs over devices in memory.
#![tactic(auto)]

#[cfg(test)]
mod cds_runs;
#[cfg(test)]
mod choose_runs;
#[cfg(test)]
mod device_runs;
#[cfg(test)]
mod long_runs;
#[cfg(test)]
mod runs;
#[cfg(test)]
mod text_runs;
#[cfg(test)]
mod type_runs;
#[cfg(test)]
mod zone_runs;
