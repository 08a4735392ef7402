//! Histories: random steps of several seats, stopped and reopened, and each query as of each stamp beside a plain list of dated rows.
#![tactic(auto)]

#[cfg(test)]
mod histories;
#[cfg(test)]
mod seeds;
#[cfg(test)]
mod told;
