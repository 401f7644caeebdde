// Tests of the entry kinds. They stand in a crate of their own, since the proof of a test takes longer than that of a kind.
#![tactic(auto)]

#[cfg(test)]
mod tests;
