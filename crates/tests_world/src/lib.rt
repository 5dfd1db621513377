//! Tests of woven code, machines, what waits for a script, scripts at rest, images and worlds: what no clause says of
//! them and no line prints. Rows of text have the answers, which come from elsewhere.
#![tactic(auto)]

#[cfg(test)]
mod driving;
#[cfg(test)]
mod events;
#[cfg(test)]
mod exchanged;
#[cfg(test)]
mod frames;
#[cfg(test)]
mod frozen;
#[cfg(test)]
mod hosting;
#[cfg(test)]
mod listens;
#[cfg(test)]
mod objects;
#[cfg(test)]
mod plays;
#[cfg(test)]
mod queues;
#[cfg(test)]
mod refused;
#[cfg(test)]
mod samples;
#[cfg(test)]
mod saved;
#[cfg(test)]
mod saves;
#[cfg(test)]
mod stepping;
#[cfg(test)]
mod texts;
#[cfg(test)]
mod turns;
#[cfg(test)]
mod woven;
