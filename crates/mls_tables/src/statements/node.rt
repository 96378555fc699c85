//! Statements on the table of nodes.
ghost use Rattle.std.specs.Prelude.{map, filter, IsPermutation};
ghost use Rattle.sqlite.specs.State.{HasCleanDisk, Executes};
ghost use Rattle.sqlite.specs.Held.{state};
ghost use Rattle.mls_tables.specs.Rows.{tables_of, is_node_at, is_node_among, is_node, node_values, class_values};
ghost use Rattle.mls_tables.specs.Rows.{at_values, among_values};
ghost use Rattle.mls_tables.specs.Sql.{add_node, drop_node, nodes_of_class, nodes_among, nodes_of_key, patterns_of_key};
ghost use Rattle.mls_tables.specs.Statements.{IsWrite, AreWrites, IsQuery, AddsNode, AddsNodes, ClearsNodes, DropsNode};

use crate::rows::{NodeRow, TupleKey};
use crate::statements::streaming::select;
use mls_lattice::Items;
use sqlite::{Alter, Connection, Error, params};
use std::alloc::Global;

/// Adds a node.
pub fn add_node<S: Alter>(conn: &mut Connection<S>, node: &NodeRow) -> Result<usize, Error>
    ensures wrote { IsWrite (AddsNode node.now) (state S.Store conn.old) (state S.Store conn.new) result }
    ensures runs { HasCleanDisk (state S.Store conn.new)
        → Executes add_node (node_values node.now) (state S.Store conn.old) (state S.Store conn.new) result }
{
    conn.execute(
        "INSERT INTO node (rel, ent, kclass, label, pattern) VALUES (?1, ?2, ?3, ?4, ?5)",
        params![
            node.rel,
            node.ent.as_slice(),
            node.kclass,
            node.label,
            node.pattern.as_slice()
        ],
    )
}

/// Adds nodes, in a change.
pub fn add_nodes<S: Alter>(conn: &mut Connection<S>, nodes: &[NodeRow]) -> Result<(), Error>
    ensures { AreWrites (AddsNodes nodes.now) (state S.Store conn.old) (state S.Store conn.new) result }
{
    for node in nodes {
        add_node(conn, node)?;
    }
    Ok(())
}

/// Drops every node.
pub fn clear_nodes<S: Alter>(conn: &mut Connection<S>) -> Result<usize, Error>
    ensures { IsWrite ClearsNodes (state S.Store conn.old) (state S.Store conn.new) result }
{
    conn.execute("DELETE FROM node", &[])
}

/// Drops the node at a key.
pub fn drop_node<S: Alter>(conn: &mut Connection<S>, key: &TupleKey) -> Result<usize, Error>
    ensures wrote { IsWrite (DropsNode key.now) (state S.Store conn.old) (state S.Store conn.new) result }
    ensures runs { HasCleanDisk (state S.Store conn.new)
        → Executes drop_node (class_values key.now) (state S.Store conn.old) (state S.Store conn.new) result }
{
    conn.execute(
        "DELETE FROM node WHERE rel = ?1 AND ent = ?2 AND kclass = ?3 AND label = ?4",
        params![key.rel, key.ent.as_slice(), key.kclass, key.label],
    )
}

/// The nodes of one class.
pub fn nodes_of_class<S: Alter>(
    conn: &mut Connection<S>,
    alloc: Global,
    rel: u32,
    label: u32,
) -> Result<Vec<NodeRow>, Error>
    ensures { IsQuery (IsPermutation (filter (is_node_at rel label)
        (tables_of (state S.Store conn.old).now.trees).nodes))
        nodes_of_class (at_values rel label)
        (state S.Store conn.old) (state S.Store conn.new) result }
{
    select::<S, NodeRow>(
        conn,
        alloc,
        "SELECT rel, ent, kclass, label, pattern FROM node WHERE rel = ?1 AND label = ?2",
        params![rel, label],
    )
}

/// The nodes of the labels whose bits are set.
pub fn nodes_among<S: Alter>(
    conn: &mut Connection<S>,
    alloc: Global,
    rel: u32,
    labels: u64,
) -> Result<Vec<NodeRow>, Error>
    ensures { IsQuery (IsPermutation (filter (is_node_among rel labels)
        (tables_of (state S.Store conn.old).now.trees).nodes))
        nodes_among (among_values rel labels)
        (state S.Store conn.old) (state S.Store conn.new) result }
{
    select::<S, NodeRow>(
        conn,
        alloc,
        "SELECT rel, ent, kclass, label, pattern FROM node WHERE rel = ?1 AND ?2 & (1 << label)",
        params![rel, labels.cast_signed()],
    )
}

/// The node at a key, where there is one.
pub fn nodes_of_key<S: Alter>(
    conn: &mut Connection<S>,
    alloc: Global,
    key: &TupleKey,
) -> Result<Vec<NodeRow>, Error>
    ensures { IsQuery (IsPermutation
        (filter (is_node key.now) (tables_of (state S.Store conn.old).now.trees).nodes))
        nodes_of_key (class_values key.now)
        (state S.Store conn.old) (state S.Store conn.new) result }
{
    select::<S, NodeRow>(
        conn,
        alloc,
        "SELECT rel, ent, kclass, label, pattern FROM node WHERE rel = ?1 AND ent = ?2 AND kclass = ?3 AND label = ?4",
        params![key.rel, key.ent.as_slice(), key.kclass, key.label],
    )
}

/// The pattern of the node at a key, where there is one.
pub fn patterns_of_key<S: Alter>(
    conn: &mut Connection<S>,
    alloc: Global,
    key: &TupleKey,
) -> Result<Vec<Items<u8>>, Error>
    ensures { IsQuery (IsPermutation
        (map (λ n. n.pattern) (filter (is_node key.now)
        (tables_of (state S.Store conn.old).now.trees).nodes)))
        patterns_of_key (class_values key.now)
        (state S.Store conn.old) (state S.Store conn.new) result }
{
    select::<S, Items<u8>>(
        conn,
        alloc,
        "SELECT pattern FROM node WHERE rel = ?1 AND ent = ?2 AND kclass = ?3 AND label = ?4",
        params![key.rel, key.ent.as_slice(), key.kclass, key.label],
    )
}
