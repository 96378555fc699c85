//! The rules of the stored form, as they are asked of a row.

/// What the stored form asks of a row of a list of tuples, in this order.
#[derive(Clone, Copy, PartialEq, Eq, Debug)]
pub enum Rule {
    /// Each class dominates the key class.
    Entity,
    /// A null has the key class.
    Null,
    /// The key and the elements have the number, the kinds and the intervals of their attributes.
    Interval,
    /// No earlier row has the entity and the tuple class, and the row agrees with the entity's first tuple of each of
    /// its
    /// classes.
    Poly,
    /// The classes are comparable, and the entity has a tuple of each of them.
    Closure,
}

/// A row that breaks the stored form, by its place in the list, and the first rule that it breaks.
#[derive(Clone, Copy, PartialEq, Eq, Debug)]
pub struct Broken {
    pub row: usize,
    pub rule: Rule,
}
