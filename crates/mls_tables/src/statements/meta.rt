//! Statements on the row that describes a store.
ghost use Rattle.sqlite.specs.Held.{state};
ghost use Rattle.mls_tables.specs.Rows.{first_meta};
ghost use Rattle.mls_tables.specs.Statements.{IsWrite, AddsMeta, ClearsMeta};

use sqlite::{Alter, Connection, Error, params};

/// Adds the row that describes the store.
pub fn add_meta<S: Alter>(
    conn: &mut Connection<S>,
    version: u32,
    lattice: &str,
    schemes: &str,
) -> Result<usize, Error>
    ensures { IsWrite (AddsMeta (first_meta version lattice.now schemes.now))
        (state S.Store conn.old) (state S.Store conn.new) result }
{
    conn.execute(
        "INSERT INTO meta (id, version, lattice, schemes) VALUES (1, ?1, ?2, ?3)",
        params![version, lattice, schemes],
    )
}

/// Drops every row that describes the store.
pub fn clear_meta<S: Alter>(conn: &mut Connection<S>) -> Result<usize, Error>
    ensures { IsWrite ClearsMeta (state S.Store conn.old) (state S.Store conn.new) result }
{
    conn.execute("DELETE FROM meta", &[])
}
