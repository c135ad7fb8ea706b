//! The rows of a grid: only the first cells of each are stored, and a ring of numbers gives their order, so
//! that rows move without a write of a cell. Each change is counted in steps.
mod ring;
mod row;
mod steps;
mod store;

pub use steps::Steps;
pub use store::RowStore;
