// What conjuncts tell of a path.
use px_values::Value;

/// What a column is equal to.
#[derive(Clone, Copy)]
pub enum EqualTo<'a> {
    Null,
    Value(&'a Value),
}

/// A bound of a column: a value, and whether it is within.
#[derive(Clone, Copy)]
pub struct Side<'a> {
    pub value: &'a Value,
    pub included: bool,
}

/// The bounds of a column.
#[derive(Clone, Copy)]
pub struct Bounds<'a> {
    pub lower: Option<Side<'a>>,
    pub upper: Option<Side<'a>>,
}

/// What conjuncts tell of a path.
#[derive(Drop)]
pub struct Told<'a> {
    /// What the leading columns are equal to.
    pub equal: Vec<EqualTo<'a>>,
    /// The bounds of the next column; none where no conjunct sets one.
    pub bounds: Bounds<'a>,
    /// Of each conjunct, whether this tells it.
    pub marks: Vec<bool>,
}
