//! Tests of what no run of the program can show.
#![tactic(auto)]

#[cfg(test)]
mod counted;
#[cfg(test)]
mod flashes;
#[cfg(test)]
mod handling;
#[cfg(test)]
mod hosts;
#[cfg(test)]
mod items;
#[cfg(test)]
mod loads;
#[cfg(test)]
mod rings;
#[cfg(test)]
mod scripts;
#[cfg(test)]
mod settings;
#[cfg(test)]
mod tables;
#[cfg(test)]
mod zms;

// Checks a row. Each condition of the tests comes here, since a call takes less to prove than an
// assertion.
#[cfg(test)]
pub(crate) fn holds<R: std::process::Abort>(rt: &R, row: &str, is: bool) {
    assert!(rt; is, "'{row}'");
}
