// That calls which take memory succeed: no contract can say so, and a body that always answers that memory ran out meets each of theirs.
#![tactic(auto)]

#[cfg(test)]
mod tests;
