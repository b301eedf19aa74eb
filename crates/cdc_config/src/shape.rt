//! Which keys the tables of a configuration have.

ghost use Rattle.std.specs.Prelude.{◌≡◌, ◌==◌, map, string_bytes};
ghost use Rattle.std.specs.List.{list_all};
ghost use Rattle.std.specs.BTreeMap.{keys};
ghost use Rattle.toml.specs.View.{view, table_view};
ghost use Rattle.cdc_config.specs.Tree.{are_keys, is_among, is_shaped, keys_of};

use toml::{Table, Value};

/// The tables of a configuration.
#[derive(Clone, Copy, Debug)]
pub enum Shape {
    Top,
    Node,
    Out,
    Task,
    Table,
    User,
    Split,
}

impl Shape {
    // Whether a key is one of the shape's.
    fn has(self, key: &[u8]) -> bool
        ensures { result ≡ is_among key.now (keys_of self) }
    {
        match self {
            Shape::Top => is_top_key(key),
            Shape::Node => key == b"files".as_slice(),
            Shape::Out => key == b"folder".as_slice() || key == b"listen".as_slice(),
            Shape::Task => key == b"folder".as_slice(),
            Shape::Table => {
                key == b"db".as_slice()
                    || key == b"table".as_slice()
                    || key == b"to_db".as_slice()
                    || key == b"to_table".as_slice()
            }
            Shape::User => key == b"name".as_slice() || key == b"hash".as_slice(),
            Shape::Split => key == b"from".as_slice() || key == b"folders".as_slice(),
        }
    }

    // Whether a table has no other keys.
    fn has_keys(self, table: &Table) -> bool
        ensures { result ≡ are_keys (keys_of self) (table_view table.now) }
    {
        for (key, _) in table {
            if !self.has(key.as_bytes()) {
                return false;
            }
        }
        true
    }

    /// Whether a value is a table without other keys than these.
    pub fn fits(self, value: &Value) -> bool
        ensures { result ≡ is_shaped self (view value.now) }
    {
        match value.as_table() {
            Some(table) => self.has_keys(table),
            None => false,
        }
    }
}

// Whether a key may stand at the top.
fn is_top_key(key: &[u8]) -> bool
    ensures { result ≡ is_among key.now (keys_of Shape.Top) }
{
    key == b"rotation".as_slice()
        || key == b"window".as_slice()
        || key == b"node".as_slice()
        || key == b"out".as_slice()
        || key == b"task".as_slice()
        || key == b"table".as_slice()
        || key == b"user".as_slice()
        || key == b"split".as_slice()
}
