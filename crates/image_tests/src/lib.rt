// Tests of heads and tree blocks read from bytes.
#![tactic(auto)]

#[cfg(test)]
mod tests;
