//! What is known of tables beside their functions.

ghost use Rattle.std.specs.Prelude.{◌≤◌, ◌+◌, ◌*◌, length};
ghost use Rattle.jsonb_spec.specs.SortKey.Readable.{IsReadable};
ghost use Rattle.jsonb_spec.specs.Proper.{IsProper};
ghost use Rattle.jsonb_spec.specs.SortKey.{key_of};
ghost use Rattle.jsonb_spec.specs.Tree.{Tree};
ghost use Rattle.jsonb_spec.specs.Document.{document_of};
ghost use Rattle.jsonb_spec.specs.Table.{table_of, IsUnmarked};

/// No document ends with the byte with which tables do. So the last byte says whether a table is behind one.
pub fn documents_end_unlike_tables()
    ensures { (t : Tree) → IsReadable t → IsUnmarked (document_of t) }
{}

/// A table takes at most two thirds of its key, and a byte.
pub fn tables_are_short()
    ensures { (t : Tree) → IsProper t → 3 * length (table_of t) ≤ 2 * length (key_of t) + 3 }
{}
