/// Multiples of unknowns, each by its number, add up to a value.
#[derive(Drop)]
pub struct Equation {
    /// The multiples, none of them 0 and none of one unknown twice.
    pub terms: Vec<(u32, i128)>,
    /// What they add up to.
    pub value: i128,
}
