// What a gravity field file says beside its coefficients.

#![tactic(auto)]

use choices::PermanentSystem;

// The degree, the gravity constant in m3/s2, the radius in millimetres and the permanent system of a file that is read.
#[derive(Clone, Copy, Debug, PartialEq, Eq)]
pub struct FileHead {
    pub degree: u32,
    pub constant: u64,
    pub radius: u64,
    pub system: PermanentSystem,
}
