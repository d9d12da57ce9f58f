//! Tests of the performers' actors: by hand-driven turns, and in threads.
#![tactic(auto)]

#[cfg(test)]
mod pen_stories;
#[cfg(test)]
mod robot_stories;
#[cfg(test)]
mod side;
#[cfg(test)]
mod tests;
