use crate::Gate;
use std::sync::Wait;
use vt_base::CallerNo;

/// A gate that never blocks a caller.
#[derive(Clone, Copy)]
pub struct OpenGate;

impl Gate for OpenGate {
    fn before<R: Wait>(&self, _rt: &R, _caller: CallerNo, _seq: u32) {}
}
