use std::collections::BTreeMap;

/// Which integer variable stands for what in linear forms.
#[derive(Debug, Drop)]
pub struct Names {
    /// The variable for each of a term's own variables, by number. One past the end stands for itself.
    pub own: Vec<u32>,
    /// The auxiliary variables, by the numbers of their terms.
    pub auxiliary: BTreeMap<u32, u32>,
}
