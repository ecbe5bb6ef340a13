use term_tree::OpKind;

/// What stands in front of the arguments of an application.
#[derive(Clone, Copy)]
pub enum Head {
    Operator(OpKind),
    /// A predicate, by its number.
    Declared(u32),
    /// `true` or `false`, which take no arguments.
    Constant,
    /// `(_ divisible n)`, where n is below 2 ^ 63 if it is there.
    Divisibility(Option<u64>),
}
