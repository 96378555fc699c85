//! The keys that policies and schemes have.

/// What the names at a key name.
#[derive(Clone, Copy, PartialEq, Eq)]
pub(crate) enum Thing {
    Level,
    Category,
    Label,
    User,
    Mode,
    Kind,
    /// What stands there is no name of a thing that is declared elsewhere.
    Other,
}

/// A key that is read.
pub(crate) struct Known {
    /// The table that has it: none for the document, and for the tables of a relation `key` and `attribute`.
    pub table: &'static str,
    /// The key; none where the whole table is meant.
    pub key: &'static str,
    /// What is to stand there.
    pub wanted: &'static str,
    pub names: Thing,
}

/// A key: its table, its own text, what its names name, and what is wanted.
macro_rules! known {
    ($table:literal $key:literal $names:ident $wanted:literal) => {
        Known { table: $table, key: $key, wanted: $wanted, names: Thing::$names }
    };
}

/// The keys of a policy.
pub(crate) static POLICY: [Known; 19] = [
    known!("" "version" Other "the number 1 or 2"),
    known!("" "levels" Other "1 to 16 names, none twice, the lowest first"),
    known!("" "categories" Other "up to 32 names, none twice"),
    known!("" "label" Other "1 to 64 tables, each below a line `[[label]]`"),
    known!("" "user" Other "up to 1,024 tables, each below a line `[[user]]`"),
    known!("" "matrix" Other "up to 16,384 tables, each below a line `[[matrix]]`"),
    known!("label" "" Other "a level with categories that no other label has"),
    known!("label" "name" Other "a name that no other label has"),
    known!("label" "level" Level "one of the levels"),
    known!("label" "categories" Category "some of the categories, none twice"),
    known!("user" "name" Other "a name that no other user has"),
    known!("user" "clearance" Label "a label"),
    known!("user" "trusted" Label "two labels, of which the second dominates the first"),
    known!("matrix" "" Other "a user with an object that no other entry has"),
    known!("matrix" "user" User "a user"),
    known!("matrix" "users" User "one user or more, none twice, and no user beside them"),
    known!("matrix" "object" Other "the name of a relation or of a transaction"),
    known!("matrix" "objects" Other "one name or more, none twice, and no object beside them"),
    known!("matrix" "modes" Mode "some of execute, read, append, write, none twice"),
];

/// The keys of schemes.
pub(crate) static SCHEMES: [Known; 14] = [
    known!("" "version" Other "the number 1 or 2"),
    known!("" "relation" Other "1 to 64 tables, each below a line `[[relation]]`"),
    known!("relation" "name" Other "a name that no other relation has"),
    known!("relation" "key" Other "1 to 4 tables, each below a line `[[relation.key]]`"),
    known!("relation" "attribute" Other "up to 15 tables, each below a line `[[relation.attribute]]`"),
    known!("key" "" Other "the low and the high of the first key attribute"),
    known!("key" "name" Other "a name that no other attribute of the relation has"),
    known!("key" "kind" Kind "int or text"),
    known!("key" "low" Label "a label"),
    known!("key" "high" Label "a label that dominates the one at low"),
    known!("attribute" "name" Other "a name that no other attribute of the relation has"),
    known!("attribute" "kind" Kind "int or text"),
    known!("attribute" "low" Label "a label"),
    known!("attribute" "high" Label "a label that dominates the one at low"),
];

/// What is known of a key of a table.
pub(crate) fn known_at<'a>(keys: &'a [Known], table: &str, key: &str) -> Option<&'a Known> {
    keys.iter()
        .find(|known| known.table == table && known.key == key)
}
