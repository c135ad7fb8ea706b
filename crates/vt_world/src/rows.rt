//! The table of events: a method for each event, which refuses it or carries it out.

mod answers;
mod descriptors;
mod display;
mod keyboard;
mod refusals;
mod screens;
mod signals;
mod waits;
