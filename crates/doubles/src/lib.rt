// f64: how document 01 writes its numbers and operations, and complex numbers of them.

#![tactic(auto)]

#[derive(Clone, Copy)]
pub struct Complex {
    pub re: f64,
    pub im: f64,
}
