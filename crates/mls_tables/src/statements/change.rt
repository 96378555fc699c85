//! How changes begin and end.
ghost use Rattle.std.specs.Prelude.{◌≡◌, ◌≤◌, false, IsTrue, IfErr, OnOk, OnErr};
ghost use Rattle.sqlite.specs.State.{HasCleanDisk, IsRolledBack, Commits, Fails};
ghost use Rattle.sqlite.specs.Held.{state};
ghost use Rattle.mls_tables.specs.Statements.{Begins, IsEnded};
ghost use Rattle.mls_tables.specs.Store.{HasEnded};

use sqlite::{Alter, Connection, Error};

/// Begins a change.
pub fn begin<S: Alter>(conn: &mut Connection<S>) -> Result<usize, Error>
    ensures begun { HasCleanDisk (state S.Store conn.new)
        → OnOk result (Begins (state S.Store conn.old) (state S.Store conn.new)) }
    ensures cause { HasCleanDisk (state S.Store conn.new) → (state S.Store conn.old).in_transaction ≡ false
        → IfErr result (Fails (state S.Store conn.old) (state S.Store conn.new) ⊥) }
    ensures err { HasCleanDisk (state S.Store conn.new)
        → OnErr result (IsEnded (state S.Store conn.old) (state S.Store conn.new)) }
    ensures clean { HasCleanDisk (state S.Store conn.new) → HasCleanDisk (state S.Store conn.old) }
{
    conn.execute("BEGIN", &[])
}

/// Commits the change.
pub fn commit<S: Alter>(conn: &mut Connection<S>) -> Result<usize, Error>
    ensures committed { HasCleanDisk (state S.Store conn.new)
        → OnOk result (Commits (state S.Store conn.old) (state S.Store conn.new)) }
    ensures cause { HasCleanDisk (state S.Store conn.new) → IsTrue (state S.Store conn.old).in_transaction
        → IfErr result (Fails (state S.Store conn.old) (state S.Store conn.new) ⊥) }
    ensures err { HasCleanDisk (state S.Store conn.new)
        → OnErr result (IsEnded (state S.Store conn.old) (state S.Store conn.new)) }
    ensures clean { HasCleanDisk (state S.Store conn.new) → HasCleanDisk (state S.Store conn.old) }
{
    conn.execute("COMMIT", &[])
}

/// Undoes the change, also where it answers an error.
fn undo<S: Alter>(conn: &mut Connection<S>) -> Result<usize, Error>
    requires { IsTrue (state S.Store conn.old).in_transaction }
    ensures undone { HasCleanDisk (state S.Store conn.new)
        → IsRolledBack (state S.Store conn.old) (state S.Store conn.new) }
    ensures cause { HasCleanDisk (state S.Store conn.new)
        → IfErr result (Fails (state S.Store conn.old) (state S.Store conn.new) ⊥) }
    ensures faults { (state S.Store conn.old).faults ≤ (state S.Store conn.new).faults }
    ensures clean { HasCleanDisk (state S.Store conn.new) → HasCleanDisk (state S.Store conn.old) }
{
    conn.execute("ROLLBACK", &[])
}

/// Ends the change, if one is begun: nothing of it is kept, also where it answers an error.
pub fn end<S: Alter>(conn: &mut Connection<S>) -> Result<(), Error>
    ensures ended { HasCleanDisk (state S.Store conn.new) → HasEnded (state S.Store conn.old) (state S.Store conn.new) }
    ensures cause { HasCleanDisk (state S.Store conn.new)
        → IfErr result (Fails (state S.Store conn.old) (state S.Store conn.new) ⊥) }
    ensures faults { (state S.Store conn.old).faults ≤ (state S.Store conn.new).faults }
    ensures clean { HasCleanDisk (state S.Store conn.new) → HasCleanDisk (state S.Store conn.old) }
{
    if !conn.is_autocommit() {
        undo(conn)?;
    }
    Ok(())
}
